//! A link over a server of its own.
ghost use Rattle.std.specs.Prelude.{◌≡◌, ◌<◌, ◌≤◌, ◌++◌, [], true, false, IsTrue, length, take};
ghost use Rattle.std.specs.Prelude.{◌≢◌, IfOk, IfErr, OnErr, IsErrOf, ℕ, List};
ghost use Rattle.kmip_link.specs.declared.link.LinkError.{LinkError};
ghost use Rattle.kmip_link.specs.State.{Keeps, IsIdle, Reads, Writes, FaultCountRose};
ghost use Rattle.kmip_store.specs.Makers.{MakerKeeps};
ghost use Rattle.kmip_server.specs.Link.{ServerLinkState, server_link_state, LinkInvariant};
ghost use Rattle.kmip_server.specs.Link.{LinkFacts};
ghost use Rattle.kmip_server.specs.Link.{Holds, Accepted, IsRefused, IsUnused, WriteEffect};
ghost use Rattle.kmip_server.specs.Link.{WritesTo};
ghost use Rattle.kmip_server.specs.Split.{messages_in};

use crate::messages::{cut_message, grow_both};
use kmip_link::{Link, LinkError};
use kmip_server_core::Server;
use kmip_store::Maker;
use kmip_wire::WireError;
use std::alloc::{AllocError, Global};
use std::marker::Model;

/// A link whose writes are answered by a server.
#[derive(Drop)]
pub struct ServerLink<M: Maker> {
    alloc: Global,
    server: Server<M>,
    ever: Vec<u8>,
    pos: usize,
    sent: Vec<u8>,
    begun: Vec<u8>,
    kept: Vec<u8>,
    faults: u64,
    starved: bool,
}

impl<M: Maker> Model for ServerLink<M> {
    ghost Value = { ServerLinkState M };

    ghost view = { λ l. record {
      server = l.server;
      ever = l.ever.items;
      pos = l.pos;
      sent = l.sent.items;
      kept = l.kept.items;
      faults = l.faults;
      starved = l.starved;
    } };

    ghost invariant = { λ l. LinkInvariant M.state (record {
      server = l.server;
      ever = l.ever.items;
      pos = l.pos;
      sent = l.sent.items;
      kept = l.kept.items;
      faults = l.faults;
      starved = l.starved;
    }) l.begun.items };
}

impl<M: Maker> ServerLink<M> {
    /// A link over a server with no objects. `time_stamp` is in seconds since 1970-01-01 00:00 UTC.
    /// It takes no memory.
    pub fn new(alloc: Global, maker: M, time_stamp: i64) -> ServerLink<M>
        requires { IsTrue (M.state maker).tells → IsUnused (M.state maker) }
        ensures { result ≡ record {
          server = record { objects = []; maker = maker; time = time_stamp };
          ever = [];
          pos = 0;
          sent = [];
          kept = [];
          faults = 0;
          starved = false;
        } }
    {
        ServerLink {
            alloc,
            server: Server::new(alloc, maker, time_stamp),
            ever: Vec::new(alloc),
            pos: 0,
            sent: Vec::new(alloc),
            begun: Vec::new(alloc),
            kept: Vec::new(alloc),
            faults: 0,
            starved: false,
        }
    }

    /// The server that answers. It takes no memory.
    pub fn server(&self) -> &Server<M>
        ensures { result.now ≡ self.now.server }
    {
        &self.server
    }

    /// All bytes that were sent over it.
    pub fn sent(&self) -> &[u8]
        ensures { result.now ≡ self.now.sent }
    {
        &self.sent
    }

    /// Whether a message came whose response has no wire form: then each further write fails.
    pub fn faulted(&self) -> bool
        ensures faulted { IsTrue result → 0 < self.now.faults }
        ensures sound { result ≡ false → self.now.faults ≡ 0 }
    {
        self.faults != 0
    }

    /// Whether a write ran out of memory.
    pub fn starved(&self) -> bool
        ensures { result ≡ self.now.starved }
    {
        self.starved
    }

    /// The message whose response has no wire form; empty before one came.
    pub fn kept(&self) -> &[u8]
        ensures { result.now ≡ self.now.kept }
    {
        &self.kept
    }

    /// What holds of each link.
    pub fn facts(&self)
        ensures { LinkFacts M.state self.now }
    {
        let _ = &self.pos;
    }
}

/// Why a write took nothing.
enum Refusal {
    /// The response to this message, which it ends, has no wire form.
    NoForm(Vec<u8>),
    /// Out of memory; the server may have served the message that it ends.
    OutOfMemory,
}

impl From<AllocError> for Refusal {
    ghost use Rattle.std.specs.Prelude.{◌≡◌};
    ghost use Rattle.kmip_server.specs.declared.link.Refusal.{Refusal};

    ghost from_gives = { λ _ e. e ≡ Refusal.OutOfMemory };

    fn from(_cause: AllocError) -> Refusal {
        Refusal::OutOfMemory
    }
}

/// Hands bytes to the server, up to the end of a message.
fn accept<M: Maker>(
    alloc: Global,
    server: &mut Server<M>,
    ever: &mut Vec<u8>,
    sent: &mut Vec<u8>,
    begun: &mut Vec<u8>,
    bytes: &[u8],
) -> Result<usize, Refusal>
    ensures ok { IfOk result (λ n. Accepted bytes.now n
        ever.old.items ever.new.items sent.old.items sent.new.items) }
    ensures held { IfOk result (λ n. IsTrue (M.state server.old.maker).tells →
        Holds M.state server.old ever.old.items sent.old.items begun.old.items →
        Holds M.state server.new ever.new.items sent.new.items begun.new.items) }
    ensures refused { IsTrue (M.state server.old.maker).tells →
        Holds M.state server.old ever.old.items sent.old.items begun.old.items →
        IsRefused M.state server.new ever.new.items sent.new.items result }
    ensures effect { begun.old.items ≡ (messages_in sent.old.items).begun →
        WriteEffect M.state server.old server.new ever.old.items ever.new.items
        sent.old.items sent.new.items bytes.now result }
    ensures begun { IfOk result (λ n. begun.old.items ≡ (messages_in sent.old.items).begun →
        begun.new.items ≡ (messages_in sent.new.items).begun) }
    ensures err { OnErr result ((ever.new.items ≡ ever.old.items)
        × (sent.new.items ≡ sent.old.items) × (begun.new.items ≡ begun.old.items)) }
    ensures keeps { MakerKeeps (M.state server.old.maker) (M.state server.new.maker) }
    ensures time { server.new.time ≡ server.old.time }
{
    let (message, whole) = cut_message(alloc, begun, bytes)?;
    let count = message.len() - begun.len();
    if !whole {
        sent.extend_from_slice(&bytes[..count])?;
        *begun = message;
        return Ok(count);
    }
    match server.answer(&message) {
        Ok(response) => {
            grow_both(ever, response.as_slice(), sent, &bytes[..count])?;
            *begun = Vec::new(alloc);
            Ok(count)
        }
        Err(WireError::NoForm) => Err(Refusal::NoForm(message)),
        Err(WireError::Malformed | WireError::OutOfMemory) => Err(Refusal::OutOfMemory),
    }
}

impl<M: Maker> Link for ServerLink<M> {
    ghost state = { server_link_state M.state };

    /// Moves bytes of the server's responses to the front of `into`, as many as there are and fit.
    /// It never fails.
    fn read(&mut self, into: &mut [u8]) -> Result<usize, LinkError>
        ensures keeps { Keeps (server_link_state M.state self.old)
            (server_link_state M.state self.new) }
        ensures bound { IfOk result (λ n. n ≤ length into.new) }
        ensures moved { IfOk result (λ n. Reads (server_link_state M.state self.old)
            (server_link_state M.state self.new) into.new n) }
        ensures idle { OnErr result (IsIdle (server_link_state M.state self.old)
            (server_link_state M.state self.new)) }
        ensures cause { IsErrOf result LinkError.Fault →
            FaultCountRose self.old.faults self.new.faults }
        ensures never { IfErr result (λ e. ⊥) }
        ensures rest { self.new ≡ record self.old { pos = self.new.pos } }
    {
        let count = into.len().min(self.ever.len() - self.pos);
        into[..count].copy_from_slice(&self.ever[self.pos..self.pos + count]);
        self.pos += count;
        Ok(count)
    }

    /// Takes bytes up to the end of the message that they are in. The server answers that message
    /// at once.
    ///
    /// `Fault` comes exactly where the link is faulted already, and then the server is not asked,
    /// or where a message ends whose response has no wire form: the link keeps that message.
    fn write(&mut self, bytes: &[u8]) -> Result<usize, LinkError>
        ensures keeps { Keeps (server_link_state M.state self.old)
            (server_link_state M.state self.new) }
        ensures bound { IfOk result (λ n. n ≤ length bytes.now) }
        ensures some { IfOk result (λ n. 0 < length bytes.now → 0 < n) }
        ensures moved { IfOk result (λ n. Writes (server_link_state M.state self.old)
            (server_link_state M.state self.new) (take n bytes.now)) }
        ensures idle { OnErr result (IsIdle (server_link_state M.state self.old)
            (server_link_state M.state self.new)) }
        ensures cause { IsErrOf result LinkError.Fault →
            FaultCountRose self.old.faults self.new.faults }
        ensures answers { WritesTo M.state self.old self.new bytes.now result }
    {
        if self.faults > 0 {
            self.faults = self.faults.saturating_add(1);
            return Err(LinkError::Fault);
        }
        let taken = accept(
            self.alloc,
            &mut self.server,
            &mut self.ever,
            &mut self.sent,
            &mut self.begun,
            bytes,
        );
        match taken {
            Ok(count) => Ok(count),
            Err(Refusal::OutOfMemory) => {
                self.starved = true;
                Err(LinkError::OutOfMemory)
            }
            Err(Refusal::NoForm(message)) => {
                self.kept = message;
                self.faults = 1;
                Err(LinkError::Fault)
            }
        }
    }
}
