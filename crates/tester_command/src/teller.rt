//! Who tells what becomes of orders, and of the tester's own address.

use crate::lines::{PartLine, VerdictLine};
use crate::objects::{
    BadOrderObject, LineMark, OrderObject, OwnObject, PartObject, SentObject, VerdictObject,
};
use crate::queue::NumberedOrder;
use can_frame::Frame;
use std::alloc::{AllocError, Global};
use std::io::Write;

/// What was told of the tester's own address.
#[derive(Clone, Copy, PartialEq, Eq)]
enum OwnTold {
    Nothing,
    At(u8),
    Lost,
}

/// Who tells, in lines for people or in objects of JSON.
#[derive(Drop)]
pub(crate) struct Teller {
    alloc: Global,
    json: bool,
    /// The latest line that was heard.
    pub(crate) mark: LineMark,
    own: OwnTold,
    /// Whether it was told of a stranger at the address.
    told_stranger: bool,
    /// Whether memory was refused for what was to be told.
    pub(crate) is_short: bool,
}

impl Teller {
    /// One that has told nothing.
    pub(crate) fn new(alloc: Global, json: bool) -> Teller {
        Teller {
            alloc,
            json,
            mark: LineMark {
                line: 0,
                time: None,
            },
            own: OwnTold::Nothing,
            told_stranger: false,
            is_short: false,
        }
    }

    /// Tells a line, whole.
    fn tell<N: Write>(&mut self, notes: &mut N, line: Result<String, AllocError>) {
        let told = match line {
            Ok(line) => notes.write_all(line.as_bytes()).is_ok(),
            Err(_) => false,
        };
        if !told {
            self.is_short = true;
        }
    }

    /// An order begins. That is told in objects alone.
    pub(crate) fn begun<N: Write>(&mut self, notes: &mut N, order: &NumberedOrder) {
        if !self.json {
            return;
        }
        let object = OrderObject {
            mark: self.mark,
            number: order.number,
            order: &order.order,
        };
        self.tell(notes, object.to_string(self.alloc));
    }

    /// What came of an order.
    pub(crate) fn outcome<N: Write>(&mut self, notes: &mut N, line: &VerdictLine<'_>) {
        let words = if self.json {
            VerdictObject {
                mark: self.mark,
                line,
            }
            .to_string(self.alloc)
        } else {
            line.to_string(self.alloc)
        };
        self.tell(notes, words);
    }

    /// What one unit said to an order for all.
    pub(crate) fn part<N: Write>(&mut self, notes: &mut N, line: &PartLine<'_>) {
        let words = if self.json {
            PartObject {
                mark: self.mark,
                line,
            }
            .to_string(self.alloc)
        } else {
            line.to_string(self.alloc)
        };
        self.tell(notes, words);
    }

    /// The line of a file of orders is none.
    pub(crate) fn bad_line<N: Write>(&mut self, notes: &mut N, number: u64) {
        let words = if self.json {
            BadOrderObject {
                mark: self.mark,
                number,
            }
            .to_string(self.alloc)
        } else {
            format!(in self.alloc; "order {number}: bad line\n")
        };
        self.tell(notes, words);
    }

    /// A frame goes, for the order of this number or for none. That is told in objects alone.
    pub(crate) fn sent<N: Write>(&mut self, notes: &mut N, frame: &Frame, order: Option<u64>) {
        if !self.json {
            return;
        }
        let object = SentObject {
            mark: self.mark,
            frame: *frame,
            order,
        };
        self.tell(notes, object.to_string(self.alloc));
    }

    /// The claim of an address is written.
    pub(crate) fn claims<N: Write>(&mut self, notes: &mut N, address: u8) {
        if self.own == OwnTold::At(address) {
            return;
        }
        self.own = OwnTold::At(address);
        self.told_stranger = false;
        let words = if self.json {
            self.own_object(Some(address), "claimed")
        } else {
            format!(in self.alloc; "own {address}\n")
        };
        self.tell(notes, words);
    }

    /// No address is held.
    pub(crate) fn lost<N: Write>(&mut self, notes: &mut N) {
        if self.own == OwnTold::Lost {
            return;
        }
        self.own = OwnTold::Lost;
        let words = if self.json {
            self.own_object(None, "lost")
        } else {
            format!(in self.alloc; "own none\n")
        };
        self.tell(notes, words);
    }

    /// A stranger sends from the address that is held. It is told once of each.
    pub(crate) fn contested<N: Write>(&mut self, notes: &mut N, address: u8) {
        if self.told_stranger {
            return;
        }
        self.told_stranger = true;
        let words = if self.json {
            self.own_object(Some(address), "contested")
        } else {
            format!(in self.alloc; "own {address} contested: a stranger sends from it\n")
        };
        self.tell(notes, words);
    }

    /// The station knew of so many NAMEs, and begins anew.
    pub(crate) fn forgot<N: Write>(&mut self, notes: &mut N, most: usize) {
        let line = self.mark.line;
        let words = format!(in self.alloc;
            "line {line}: {most} NAMEs are known (--most): the station claims its address anew, and asks for the claims of all\n"
        );
        self.tell(notes, words);
    }

    /// As much is kept for the report as may be, before the line of this number.
    pub(crate) fn anew<N: Write>(&mut self, notes: &mut N, line: u64) {
        let words = format!(in self.alloc;
            "line {line}: more is heard than is kept at once (--most, --keep): the report is begun anew\n"
        );
        self.tell(notes, words);
    }

    fn own_object(&self, address: Option<u8>, why: &'static str) -> Result<String, AllocError> {
        OwnObject {
            mark: self.mark,
            address,
            why,
        }
        .to_string(self.alloc)
    }
}
