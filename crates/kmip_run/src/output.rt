//! Text that is written while it is made.
ghost use Rattle.std.specs.Prelude.{◌≡◌, ◌<◌, length, IsErrOf, IsTrue, OnErr, OnOk};
ghost use Rattle.kmip_link.specs.State.{SinkKeeps, FaultCountRose};
ghost use Rattle.kmip_words.specs.Streams.{WrotePart};
ghost use Rattle.kmip_run.specs.Performed.{Moves};

use kmip_link::{LinkError, Sink};
use kmip_wire::{OutOfMemory, Text};
use kmip_words::write_out;

/// A text of so many bytes is written, and no longer kept.
const MAX_KEPT: usize = 65_536;

/// Why a command was broken off.
#[derive(Clone, Copy)]
pub enum Cut {
    /// The sink failed.
    SinkFailed,
    /// Memory ran out.
    OutOfMemory,
}

impl From<OutOfMemory> for Cut {
    ghost use Rattle.std.specs.Prelude.{◌≡◌};
    ghost use Rattle.kmip_run.specs.declared.output.Cut.{Cut};

    ghost from_gives = { λ _ e. e ≡ Cut.OutOfMemory };

    fn from(_error: OutOfMemory) -> Cut {
        Cut::OutOfMemory
    }
}

/// Writes the text and empties it, where it has at least 65,536 bytes: so a long text takes the
/// memory of a piece of it, and fewer bytes than that are kept. A shorter text stays, and nothing
/// is written.
pub fn write_if_long<K: Sink>(sink: &mut K, text: &mut Text) -> Result<(), Cut>
    ensures keeps { SinkKeeps (K.state sink.old) (K.state sink.new) }
    ensures waits { length text.old < 65536 → (sink.new ≡ sink.old) × (text.new ≡ text.old) }
    ensures moved { OnOk result (Moves (K.state sink.old) (K.state sink.new) text.old text.new) }
    ensures short { OnOk result (length text.new < 65536) }
    ensures part { OnErr result (IsTrue (K.state sink.old).tells →
        WrotePart (K.state sink.old) (K.state sink.new) text.old) }
    ensures cause { IsErrOf result Cut.SinkFailed →
        FaultCountRose (K.state sink.old).faults (K.state sink.new).faults }
{
    if text.as_str().len() < MAX_KEPT {
        return Ok(());
    }
    match write_out(sink, text.as_str().as_bytes()) {
        Ok(()) => {
            text.clear();
            Ok(())
        }
        Err(LinkError::Fault) => Err(Cut::SinkFailed),
        Err(LinkError::OutOfMemory) => Err(Cut::OutOfMemory),
    }
}
