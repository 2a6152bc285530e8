ghost use Rattle.std.specs.Prelude.{◌≡◌, [], ◌∷◌, ◌++◌, ◌↔◌, length, IfOk, OnOk, OnErr, IsTrue};

use crate::frame::Frame;
use std::alloc::{AllocError, Global};
use std::marker::Model;

/// Frames in order. Up to one frame takes no memory.
#[derive(Drop)]
pub struct Frames {
    alloc: Global,
    places: Places,
}

/// Where the frames of a list stand.
#[derive(Drop)]
enum Places {
    /// There are none.
    None,
    /// There is one, which stands in the list itself.
    One([Frame; 1]),
    /// There may be more.
    Many(Vec<Frame>),
}

impl Model for Frames {
    ghost use Rattle.std.specs.Prelude.{List};
    ghost use Rattle.can_frame.specs.FrameValue.{FrameValue};
    ghost use Rattle.can_frame.specs.Places.{frames_of};

    ghost Value = { List FrameValue };

    ghost view = { λ f. frames_of f.places };
}

impl Frames {
    /// No frames.
    pub fn new(alloc: Global) -> Frames
        ensures { result ≡ [] }
    {
        Frames {
            alloc,
            places: Places::None,
        }
    }

    /// Adds a frame at the end. Where memory is refused, the list stays as it was.
    pub fn push(&mut self, frame: Frame) -> Result<(), AllocError>
        ensures ok { OnOk result (self.new ≡ self.old ++ frame ∷ []) }
        ensures err { OnErr result (self.new ≡ self.old) }
    {
        match &mut self.places {
            Places::None => self.places = Places::One([frame]),
            Places::One(frames) => {
                let both = both(self.alloc, frames[0], frame)?;
                self.places = Places::Many(both);
            }
            Places::Many(frames) => frames.push(frame)?,
        }
        Ok(())
    }

    /// The frames, the first one first.
    pub fn as_slice(&self) -> &[Frame]
        ensures { result.now ≡ self.now }
    {
        match &self.places {
            Places::None => &[],
            Places::One(frames) => frames,
            Places::Many(frames) => frames.as_slice(),
        }
    }

    /// How many frames there are.
    pub fn len(&self) -> usize
        ensures { result ≡ length self.now }
    {
        self.as_slice().len()
    }

    /// Whether there are none.
    pub fn is_empty(&self) -> bool
        ensures { IsTrue result ↔ (self.now ≡ []) }
    {
        self.as_slice().is_empty()
    }

    /// The same frames in memory of their own.
    pub fn copy(&self) -> Result<Frames, AllocError>
        ensures { IfOk result (λ f. f ≡ self.now) }
    {
        let places = match &self.places {
            Places::None => Places::None,
            Places::One(frames) => Places::One(*frames),
            Places::Many(frames) => Places::Many(frames.clone()?),
        };
        Ok(Frames {
            alloc: self.alloc,
            places,
        })
    }
}

/// Two frames, in memory of their own.
fn both(alloc: Global, first: Frame, second: Frame) -> Result<Vec<Frame>, AllocError>
    ensures { IfOk result (λ v. v.items ≡ first ∷ second ∷ []) }
{
    let mut frames = Vec::with_capacity(alloc, 2)?;
    frames.push_reserved(first);
    frames.push_reserved(second);
    Ok(frames)
}
