//! Links, sources and sinks: what moves bytes to and from the outside.
//!
//! ```rust
//! use kmip_link::StreamLink;
//!
//! let link = StreamLink::new(tls_stream_reader, tls_stream_writer);
//! ```
//!
//! A contract can name the bytes and the faults of each. A [`Link`] carries a client's requests and
//! responses, a [`Source`] is what a program reads, a [`Sink`] is what it writes. The forms in
//! memory show their whole content to contracts, move it in planned pieces and fail at planned
//! calls. Of the content of the forms over std's readers and writers ([`StreamLink`],
//! [`StdSource`], [`StdSink`]) contracts know nothing: they are the trusted edge.
#![tactic(auto)]

mod link;
mod memory_link;
mod memory_streams;
mod planned_link;
mod stream;

pub use link::{Link, LinkError, Sink, Source};
pub use memory_link::MemoryLink;
pub use memory_streams::{MemorySink, MemorySource};
pub use planned_link::PlannedLink;
pub use stream::{StdSink, StdSource, StreamLink};
