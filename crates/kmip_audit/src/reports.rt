//! What is reported of two streams.
ghost use Rattle.std.specs.Prelude.{Some};
ghost use Rattle.kmip_audit.specs.Printed.{end_text};

use crate::outcomes::Outcome;
use kmip_wire::{List, Text};
use std::fmt::{self, Display, Formatter, Write};

/// How a stream ends.
#[derive(Clone, Copy, Debug, PartialEq, Eq, Drop)]
pub enum End {
    /// After its last frame, or it is empty.
    Whole,
    /// After this many bytes of whole frames come bytes that are no whole frame.
    Torn(u64),
}

impl Display for End {
    ghost output = { λ end. Some (end_text end) };

    fn fmt<W: Write>(&self, f: &mut Formatter<W>) -> fmt::Result {
        match self {
            End::Whole => f.write_str("whole"),
            End::Torn(at) => write!(f, "torn at {at}"),
        }
    }
}

/// One exchange: the frames at one place of the two streams.
#[derive(Drop)]
pub struct Entry {
    /// The diagnostic of the request, with tags under 0x4200, where the sent bytes have a frame at
    /// this place.
    pub request: Option<Text>,
    /// The diagnostic of the response, with tags under 0x4200, where the received bytes have a
    /// frame at this place.
    pub response: Option<Text>,
    /// What the exchange came to.
    pub outcome: Outcome,
}

/// The report on two captured streams.
#[derive(Drop)]
pub struct Report {
    /// One for each pair of frames, as many as the side with more frames has.
    pub entries: List<Entry>,
    /// How the sent bytes end.
    pub sent_end: End,
    /// How the received bytes end.
    pub received_end: End,
}
