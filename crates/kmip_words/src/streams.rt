//! Reading a whole source, up to a count, and writing a whole text to a sink.
ghost use Rattle.std.specs.Prelude.{◌≡◌, ◌+◌, ◌-◌, ◌<◌, ◌≤◌, ◌++◌, ℕ, [], length, take, drop, min};
ghost use Rattle.std.specs.Prelude.{IfOk, IfErr, OnErr, OnOk, IsErrOf, IsTrue, vec_len, max};
ghost use Rattle.std.specs.Prelude.{vec_capacity};
ghost use Rattle.kmip_link.specs.State.{SourceKeeps, SinkKeeps, FaultCountRose, source_left};
ghost use Rattle.kmip_words.specs.Streams.{Gives, GivesPart, WrotePart, WroteProperPart};

use kmip_link::{LinkError, Sink, Source};
use std::alloc::Global;

/// The most bytes that one read is offered room for.
const MAX_PIECE: usize = 65536;

/// Writes the whole text. Each write is offered all that is left of it. Where one fails, a part of
/// the text that is not the whole was written.
pub fn write_out<K: Sink>(sink: &mut K, text: &[u8]) -> Result<(), LinkError>
    ensures keeps { SinkKeeps (K.state sink.old) (K.state sink.new) }
    ensures ok { OnOk result (IsTrue (K.state sink.old).tells →
        (K.state sink.new).sent ≡ (K.state sink.old).sent ++ text.now) }
    ensures part { IsTrue (K.state sink.old).tells →
        WrotePart (K.state sink.old) (K.state sink.new) text.now }
    ensures cut { OnErr result (IsTrue (K.state sink.old).tells →
        WroteProperPart (K.state sink.old) (K.state sink.new) text.now) }
    ensures cause { IsErrOf result LinkError.Fault →
        FaultCountRose (K.state sink.old).faults (K.state sink.new).faults }
{
    let mut done = 0;
    while done < text.len() {
        done += sink.write(&text[done..])?;
    }
    Ok(())
}

/// Adds bytes to the end of `script`, which has room for them.
fn add_within(script: &mut Vec<u8>, bytes: &[u8])
    requires { vec_len script.old + length bytes.now ≤ vec_capacity script.old }
    ensures items { script.new.items ≡ script.old.items ++ bytes.now }
    ensures len { vec_len script.new ≡ vec_len script.old + length bytes.now }
    ensures capacity { vec_capacity script.new ≡ vec_capacity script.old }
{
    for byte in bytes {
        script.push_reserved(*byte);
    }
}

/// Reads at most `room` bytes into `piece`, adds them to the end of `script`, and returns how many.
/// No more room is taken than for these.
fn read_piece<S: Source>(
    source: &mut S,
    piece: &mut [u8],
    room: usize,
    script: &mut Vec<u8>,
) -> Result<usize, LinkError>
    requires some { 0 < room }
    requires within { room ≤ length piece.old }
    ensures keeps { SourceKeeps (S.state source.old) (S.state source.new) }
    ensures bound { IfOk result (λ n. n ≤ room) }
    ensures grown { IfOk result (λ n. vec_len script.new ≡ vec_len script.old + n) }
    ensures err { OnErr result (vec_len script.new ≡ vec_len script.old) }
    ensures ahead { vec_capacity script.new ≤ max (vec_capacity script.old) (vec_len script.new) }
    ensures kept { take (length script.old.items) script.new.items ≡ script.old.items }
    ensures part { IsTrue (S.state source.old).tells →
        GivesPart (S.state source.old) (S.state source.new) room }
    ensures ok { IfOk result (λ n. IsTrue (S.state source.old).tells →
        Gives (S.state source.old) (S.state source.new) n
        × (script.new.items ≡ script.old.items ++ take n (source_left (S.state source.old)))
        × (n ≡ 0 → source_left (S.state source.old) ≡ [])) }
    ensures cause { IsErrOf result LinkError.Fault →
        FaultCountRose (S.state source.old).faults (S.state source.new).faults }
{
    let got = source.read(&mut piece[..room])?;
    script.reserve_exact(got)?;
    add_within(script, &piece[..got]);
    Ok(got)
}

/// Reads the source to its end, but at most `count` bytes, and adds them to the end of `script`.
/// Where it fails, at most `count` bytes were read. `script` takes no room ahead of the bytes that
/// were read, and stands beside a piece of at most 65,536 bytes, into which they are read.
pub fn read_up_to<S: Source>(
    alloc: Global,
    source: &mut S,
    count: usize,
    script: &mut Vec<u8>,
) -> Result<(), LinkError>
    ensures keeps { SourceKeeps (S.state source.old) (S.state source.new) }
    ensures grown { OnOk result (vec_len script.new ≤ vec_len script.old + count) }
    ensures longer { vec_len script.old ≤ vec_len script.new }
    ensures ahead { vec_capacity script.new ≤ max (vec_capacity script.old) (vec_len script.new) }
    ensures kept { take (length script.old.items) script.new.items ≡ script.old.items }
    ensures part { IsTrue (S.state source.old).tells →
        GivesPart (S.state source.old) (S.state source.new) count }
    ensures ok { OnOk result (IsTrue (S.state source.old).tells →
        Gives (S.state source.old) (S.state source.new)
        (min count (length (source_left (S.state source.old))))
        × (script.new.items ≡ script.old.items ++ take count (source_left (S.state source.old)))) }
    ensures cause { IsErrOf result LinkError.Fault →
        FaultCountRose (S.state source.old).faults (S.state source.new).faults }
{
    let mut piece = vec![in alloc; 0u8; count.min(MAX_PIECE)]?;
    let mut done = 0;
    while done < count {
        let room = (count - done).min(MAX_PIECE);
        let got = read_piece(source, &mut piece, room, script)?;
        if got == 0 {
            return Ok(());
        }
        done += got;
    }
    Ok(())
}
