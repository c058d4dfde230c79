//! Where bytes stop being items, and why.
ghost use Rattle.std.specs.Prelude.{◌≡◌, ◌≤◌, [], IfOk, length};
ghost use Rattle.kmip_wire.specs.Head.{head_length};
ghost use Rattle.kmip_diag.specs.Diagnostic.{ended};
ghost use Rattle.kmip_faults.specs.Fault.{value_why, type_why, why_at, fault_in, fault_of};
ghost use Rattle.kmip_faults.specs.Fault.{why_text, fault_text};

use crate::steps::{Step, step_at};
use kmip_diag::contents;
use kmip_wire::{Kind, OutOfMemory, Text};
use std::alloc::Global;

/// Why no item stands at a place.
#[derive(Clone, Copy)]
pub enum Why {
    TooDeep,
    ShortHead,
    UnknownType,
    CutOff,
    NoPads,
    WrongLength,
    NotBoolean,
    NotUtf8,
    Unended,
}

/// Where the items end, counted in bytes from the front, and why they do not go on.
#[derive(Clone, Copy)]
pub struct Fault {
    at: u64,
    why: Why,
}

impl Fault {
    /// Where the items end, counted in bytes from the front.
    pub fn at(self) -> u64
        ensures { result ≡ self.at }
    {
        self.at
    }

    /// Why they do not go on, in words.
    pub fn why(self) -> &'static str
        ensures { result.now ≡ why_text self.why }
    {
        why_text(self.why)
    }
}

/// The length of the value, as the head says it.
#[tactic(auto, unfolding(kmip_wire::specs::Head::head_length))]
fn head_length(bytes: &[u8]) -> u32
    requires { 8 ≤ length bytes.now }
    ensures { result ≡ head_length bytes.now }
{
    u32::from_be_bytes([bytes[4], bytes[5], bytes[6], bytes[7]])
}

fn value_why(kind: Kind, value: &[u8]) -> Why
    ensures { result ≡ value_why kind value.now }
{
    match kind {
        Kind::Boolean => {
            if value.len() == 8 {
                Why::NotBoolean
            } else {
                Why::WrongLength
            }
        }
        Kind::TextString => Why::NotUtf8,
        _ => Why::WrongLength,
    }
}

fn type_why(kind: Option<Kind>, bytes: &[u8]) -> Why
    requires { 8 ≤ length bytes.now }
    ensures { result ≡ type_why kind bytes.now }
{
    let Some(kind) = kind else {
        return Why::UnknownType;
    };
    let length = head_length(bytes) as usize;
    if bytes.len() < 8 + length {
        return Why::CutOff;
    }
    if bytes.len() < (length + 15) / 8 * 8 {
        return Why::NoPads;
    }
    value_why(kind, contents(bytes))
}

/// Why neither an item of the level nor a structure begins the bytes.
#[tactic(auto, unfolding(crate::specs::Fault::why_at))]
fn why_at(bytes: &[u8], level: u32) -> Why
    ensures { result ≡ why_at level bytes.now }
{
    if level > 64 {
        return Why::TooDeep;
    }
    if bytes.len() < 8 {
        return Why::ShortHead;
    }
    type_why(Kind::from_code(bytes[3]), bytes)
}

/// Where the bytes stop being items, and why; `None` where all of them are items.
pub fn fault_of(bytes: &[u8]) -> Option<Fault>
    ensures { result ≡ fault_of bytes.now }
{
    let mut rest = bytes;
    let mut at = 0u64;
    let mut level = 1;
    let mut is_cut_off = false;
    'shown: loop {
        match step_at(rest, level) {
            Step::Ended => return unended(at, is_cut_off),
            Step::Stopped => {
                return Some(Fault {
                    at,
                    why: why_at(rest, level),
                });
            }
            Step::Item(_, after) => {
                at += (rest.len() - after.len()) as u64;
                rest = after;
            }
            Step::CutOff(_, inner) => {
                at += 8;
                level += 1;
                is_cut_off = true;
                rest = inner;
            }
        }
    }
}

/// The fault of bytes that end at `at`, after items alone.
fn unended(at: u64, is_cut_off: bool) -> Option<Fault>
    ensures { result ≡ fault_in at 1 is_cut_off [] ended }
{
    if is_cut_off {
        Some(Fault {
            at,
            why: Why::Unended,
        })
    } else {
        None
    }
}

fn why_text(why: Why) -> &'static str
    ensures { result.now ≡ why_text why }
{
    match why {
        Why::TooDeep => "this would be level 65, and no item is deeper than level 64",
        Why::ShortHead => "fewer than 8 bytes are left here, and a head has 8",
        Why::UnknownType => "the type is none of the ten",
        Why::CutOff => "the length leads past the end of the bytes, or of the Structure around",
        Why::NoPads => "the pads after the value are cut off",
        Why::WrongLength => "no value of the type has this length",
        Why::NotBoolean => "the Boolean is neither 0 nor 1",
        Why::NotUtf8 => "the Text String is no UTF-8",
        Why::Unended => "a Structure around goes on, and its bytes end here",
    }
}

/// A fault as text: the place and the reason; nothing where there is none.
pub fn fault_text(alloc: Global, fault: Option<Fault>) -> Result<Text, OutOfMemory>
    ensures { IfOk result (λ text. text ≡ fault_text fault) }
{
    let Some(fault) = fault else {
        return Ok(Text::new(alloc));
    };
    let at = fault.at;
    let why = why_text(fault.why);
    match format!(in alloc; "{at} {why}") {
        Ok(made) => Text::of(alloc, made.as_str()),
        Err(_) => Err(OutOfMemory),
    }
}
