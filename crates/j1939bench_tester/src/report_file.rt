//! The file of a report, and those of its parts.

use program_io::Failure;
use std::alloc::AllocError;
use std::{fs, io};
use tester_command::ReportFile;

/// A file that is written beside its path, and then renamed.
#[derive(Drop)]
pub(crate) struct PutFile {
    rt: HostRuntime,
    path: String,
}

impl PutFile {
    /// The file of this path.
    ///
    /// # Errors
    /// - `Memory`: memory was refused.
    pub(crate) fn new(rt: &HostRuntime, path: &str) -> Result<PutFile, Failure> {
        Ok(PutFile {
            rt: rt.clone()?,
            path: String::from_str(rt.alloc(), path)?,
        })
    }

    /// The path of the report of a part.
    fn part_path(&self, part: u64) -> Result<String, AllocError> {
        let path = self.path.as_str();
        format!(in self.rt.alloc(); "{path}.{part}")
    }

    /// Puts a report at a path.
    fn put_at(&self, path: &str, report: &[u8]) -> io::Result<()> {
        let beside = format!(in self.rt.alloc(); "{path}.new")?;
        fs::write(&self.rt, beside.as_str(), report)?;
        fs::rename(&self.rt, beside.as_str(), path)
    }
}

impl ReportFile for PutFile {
    fn put(&mut self, part: Option<u64>, report: &[u8]) -> io::Result<()> {
        match part {
            Some(part) => {
                let path = self.part_path(part)?;
                self.put_at(path.as_str(), report)
            }
            None => self.put_at(self.path.as_str(), report),
        }
    }
}
