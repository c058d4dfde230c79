//! Links, sources and sinks at values that were worked out by hand.
use kmip_link::{Link, LinkError, Sink, Source, StdSink, StdSource, StreamLink};
use std::io::{self, Read, Write};
use std::process::Abort;

/// What a call answers: how many bytes it moved.
type Count = Result<usize, LinkError>;

const FAULT: Count = Err(LinkError::Fault);

/// A read to room of 16 bytes has this answer, and the room then begins with this byte.
fn link_reads<L: Link>(rt: &impl Abort, link: &mut L, expected: Count, first: u8) {
    let mut room = [0u8; 16];
    let count = link.read(&mut room);
    assert!(rt; count == expected && room[0] == first);
}

/// A write of the bytes has this answer.
fn link_writes<L: Link>(rt: &impl Abort, link: &mut L, bytes: &[u8], expected: Count) {
    let count = link.write(bytes);
    assert!(rt; count == expected);
}

/// A read to room of 16 bytes has this answer, and the room then begins with this byte.
fn source_reads<S: Source>(rt: &impl Abort, source: &mut S, expected: Count, first: u8) {
    let mut room = [0u8; 16];
    let count = source.read(&mut room);
    assert!(rt; count == expected && room[0] == first);
}

/// A write of the bytes has this answer.
fn sink_writes<S: Sink>(rt: &impl Abort, sink: &mut S, bytes: &[u8], expected: Count) {
    let count = sink.write(bytes);
    assert!(rt; count == expected);
}

/// A reader and writer that fails at each call.
#[derive(Drop)]
struct Broken;

impl Read for Broken {
    fn read(&mut self, _: &mut [u8]) -> io::Result<usize> {
        Err(io::Error::from(io::ErrorKind::ConnectionReset))
    }
}

impl Write for Broken {
    fn write(&mut self, _: &[u8]) -> io::Result<usize> {
        Err(io::Error::from(io::ErrorKind::BrokenPipe))
    }

    fn flush(&mut self) -> io::Result<()> {
        Ok(())
    }
}

/// A link over a text and room of seven bytes moves the bytes of both.
fn a_stream_link_moves_bytes(rt: &impl Abort, text: &[u8], room: &mut [u8]) {
    let mut link = StreamLink::new(text, room);
    link_writes(rt, &mut link, b"request", Ok(7));
    link_reads(rt, &mut link, Ok(8), b'r');
    link_reads(rt, &mut link, Ok(0), 0);
}

/// A sink over room of three bytes takes no more, and reports a write that takes nothing.
fn a_std_sink_takes_bytes(rt: &impl Abort, room: &mut [u8]) {
    let mut sink = StdSink::new(room);
    sink_writes(rt, &mut sink, b"abcd", Ok(3));
    sink_writes(rt, &mut sink, b"", Ok(0));
    sink_writes(rt, &mut sink, b"d", FAULT);
}

#[test]
fn links_sources_and_sinks_over_std_move_bytes(rt: HostRuntime) {
    let text: &[u8] = b"response";
    let mut written = [0u8; 7];
    a_stream_link_moves_bytes(&rt, text, &mut written);
    assert!(rt; written.as_slice() == b"request".as_slice());
    source_reads(&rt, &mut StdSource::new(text), Ok(8), b'r');
    a_std_sink_takes_bytes(&rt, &mut [0u8; 3]);
}

#[test]
fn what_is_broken_reports_faults(rt: HostRuntime) {
    let mut link = StreamLink::new(Broken, Broken);
    link_writes(&rt, &mut link, b"d", FAULT);
    link_reads(&rt, &mut link, FAULT, 0);
    source_reads(&rt, &mut StdSource::new(Broken), FAULT, 0);
    sink_writes(&rt, &mut StdSink::new(Broken), b"d", FAULT);
}
