//! Label sets as bytes in a file, and back.

ghost use Rattle.std.specs.Prelude.{◌≡◌, ◌++◌, ◌<◌, ◌^◌, ◌≤◌, length, take, None, ℕ, List, Ok, option_copied, IfOk, IfErr, OnOk, OnErr};
ghost use Rattle.std.specs.List.{AllByRecursion};
ghost use Rattle.std.specs.Str.{IsUtf8};
ghost use Rattle.vm_labels.specs.Labels.{limit_of};
ghost use Rattle.vm_labels.specs.Bytes.{HasBytes, NoneBeginsAnother, ReadIsWritten, Reads, Takes, WrittenIsRead, cut_at, fault_of, fields_of, is_next_name, is_value, label_set_bytes, label_set_of, limited, number_at, only_if, pair_at, pairs_at, text_at, text_bytes};
ghost use Rattle.vm_labels.specs.Broken.{IsRefusal};
ghost use Rattle.vm_labels.specs.declared.pair.Pair.{Pair};
ghost use Rattle.vm_labels.specs.declared.bytes.Stop.TheVariants.{At, Memory};

use crate::{Labels, Pair, ReadFault, is_name};
use std::alloc::{AllocError, AllocFailed, Global};
use std::str;
use vm_base::{List, Text};

/// Why a reader stopped.
#[derive(Drop)]
pub(crate) enum Stop {
    /// A fault, with so many bytes from it on.
    At { left: usize },
    /// Memory ran out.
    Memory,
}

impl From<AllocError> for Stop {
    ghost from_gives = { λ _ e. e ≡ Memory };

    fn from(_e: AllocError) -> Stop {
        Stop::Memory
    }
}

impl<T: Drop> From<AllocFailed<T>> for Stop {
    ghost from_gives = { λ _ e. e ≡ Memory };

    fn from(_e: AllocFailed<T>) -> Stop {
        Stop::Memory
    }
}

impl Labels {
    /// Appends the set's bytes to `out`, which stays as it was where memory runs out.
    ///
    /// Two bytes count the labels, and each name and each value has two bytes of length before it.
    /// Numbers are big-endian. The set is within the limits of an import, which `limit` tests.
    pub fn bytes(&self, out: &mut Vec<u8>) -> Result<(), AllocError>
        requires { limit_of self.now ≡ None }
        ensures ok { OnOk result (out.new.items ≡ out.old.items ++ label_set_bytes self.now) }
        ensures err { OnErr result (out.new.items ≡ out.old.items) }
        // So `read` gives the set back.
        ensures readable { OnOk result (HasBytes self.now) }
    {
        let start = out.len();
        let written = put_set(out, self.as_slice());
        if written.is_err() {
            out.truncate(start);
        }
        written
    }

    /// The label set whose bytes these are, all of them.
    ///
    /// `Broken` names the first byte of the first field, a number, a length, a name or a value,
    /// that is cut off or breaks its rule: a name is a name and stands after the one before it, a
    /// value is UTF-8 and not empty. Where bytes are left over it is the first of them. A label set
    /// that has none of these faults and breaks a limit of an import is `Broken` at 0.
    pub fn read(alloc: Global, bytes: &[u8]) -> Result<Labels, ReadFault>
        // What is read was written.
        ensures found { IfOk result
            (λ pairs. HasBytes pairs × (bytes.now ≡ label_set_bytes pairs)) }
        // What was written is read, unless memory runs out.
        ensures only { (pairs : List Pair) → HasBytes pairs → bytes.now ≡ label_set_bytes pairs
            → Reads result (Ok pairs) }
        // What is refused breaks at the first wrong field, or only breaks a limit.
        ensures broken { IfErr result (λ fault. IsRefusal fault bytes.now) }
        // Which set it is, or which fault.
        ensures exact { Reads result (label_set_of bytes.now) }
    {
        label_set_of(alloc, bytes)
    }
}

/// Appends the bytes of a set. What `out` held stays at its front.
fn put_set(out: &mut Vec<u8>, pairs: &[Pair]) -> Result<(), AllocError>
    requires { limit_of pairs.now ≡ None }
    ensures ok { OnOk result (out.new.items ≡ out.old.items ++ label_set_bytes pairs.now) }
    ensures kept { take (length out.old.items) out.new.items ≡ out.old.items }
    ensures texts { OnOk result (AllByRecursion (λ p. IsUtf8 p.value) pairs.now) }
{
    out.extend_from_slice(&(pairs.len() as u16).to_be_bytes())?;
    for pair in pairs {
        put_text(out, pair.name.as_str())?;
        put_text(out, pair.value.as_str())?;
    }
    Ok(())
}

/// Appends a text with its length before it.
fn put_text(out: &mut Vec<u8>, text: &str) -> Result<(), AllocError>
    requires { length text.now < 2 ^ 16 }
    ensures ok { OnOk result (out.new.items ≡ out.old.items ++ text_bytes text.now) }
    ensures kept { take (length out.old.items) out.new.items ≡ out.old.items }
{
    out.extend_from_slice(&(text.len() as u16).to_be_bytes())?;
    out.extend_from_slice(text.as_bytes())?;
    Ok(())
}

fn label_set_of(alloc: Global, bytes: &[u8]) -> Result<Labels, ReadFault>
    ensures { Reads result (label_set_of bytes.now) }
{
    match fields_of(alloc, bytes) {
        Ok(pairs) => limited(Labels::from_pairs(pairs)),
        Err(stop) => Err(fault_of(stop, bytes.len())),
    }
}

/// The fault for a caller, who counts places from the front.
fn fault_of(stop: Stop, total: usize) -> ReadFault
    requires { (left : ℕ) → stop ≡ At left → left ≤ total }
    ensures { result ≡ fault_of total stop }
{
    match stop {
        Stop::At { left } => ReadFault::Broken {
            at: (total - left) as u64,
        },
        Stop::Memory => ReadFault::Memory,
    }
}

/// The set, unless it breaks a limit of an import.
fn limited(labels: Labels) -> Result<Labels, ReadFault>
    ensures { Reads result (limited labels) }
{
    if labels.limit().is_some() {
        return Err(ReadFault::Broken { at: 0 });
    }
    Ok(labels)
}

/// The pairs that the bytes spell, all of the bytes.
#[tactic(auto, unfolding(crate::specs::Bytes::fields_of))]
fn fields_of(alloc: Global, bytes: &[u8]) -> Result<List<Pair>, Stop>
    ensures { Takes (λ pairs. pairs) result (fields_of bytes.now) }
{
    let (count, rest) = number_at(bytes)?;
    match pairs_at(alloc, count, rest) {
        Ok((pairs, [])) => Ok(List::from_vec(pairs)),
        Ok((_, rest)) => Err(Stop::At { left: rest.len() }),
        Err(stop) => Err(stop),
    }
}

/// So many pairs.
fn pairs_at(alloc: Global, count: u16, bytes: &[u8]) -> Result<(Vec<Pair>, &[u8]), Stop>
    ensures { Takes (λ x. (x.0.items, x.1.now)) result (pairs_at count None bytes.now) }
{
    let mut pairs = Vec::new(alloc);
    let mut last = None;
    let mut rest = bytes;
    for _ in 0..count {
        let (name, value, after) = pair_at(last, rest)?;
        pairs.push(made(alloc, name, value)?)?;
        last = Some(name);
        rest = after;
    }
    Ok((pairs, rest))
}

/// A pair of these texts.
fn made(alloc: Global, name: &str, value: &str) -> Result<Pair, AllocError>
    ensures { IfOk result (λ pair. pair ≡ record { name = name.now; value = value.now }) }
{
    let name = Text::from_str(alloc, name)?;
    let value = Text::from_str(alloc, value)?;
    Ok(Pair { name, value })
}

/// The texts of a pair that stands after the last name, and the bytes after it.
#[tactic(auto, unfolding(crate::specs::Bytes::pair_at))]
fn pair_at<'a>(last: Option<&str>, bytes: &'a [u8]) -> Result<(&'a str, &'a str, &'a [u8]), Stop>
    ensures { Takes (λ x. (record { name = x.0.now; value = x.1.now }, x.2.now)) result
        (pair_at (option_copied last.entry) bytes.now) }
{
    let (name, rest) = name_at(last, bytes)?;
    let (value, rest) = value_at(rest)?;
    Ok((name, value, rest))
}

/// A name that stands after the last one, and the bytes after it.
#[tactic(auto, unfolding(crate::specs::Bytes::text_at))]
fn name_at<'a>(last: Option<&str>, bytes: &'a [u8]) -> Result<(&'a str, &'a [u8]), Stop>
    ensures { Takes (λ x. (x.0.now, x.1.now)) result
        (text_at (is_next_name (option_copied last.entry)) bytes.now) }
{
    let (len, rest) = number_at(bytes)?;
    let (name, after) = cut_at(len, rest)?;
    match as_name(last, name) {
        Some(name) => Ok((name, after)),
        None => Err(Stop::At { left: rest.len() }),
    }
}

/// A value, and the bytes after it.
#[tactic(auto, unfolding(crate::specs::Bytes::text_at))]
fn value_at(bytes: &[u8]) -> Result<(&str, &[u8]), Stop>
    ensures { Takes (λ x. (x.0.now, x.1.now)) result (text_at is_value bytes.now) }
{
    let (len, rest) = number_at(bytes)?;
    let (value, after) = cut_at(len, rest)?;
    match as_value(value) {
        Some(value) => Ok((value, after)),
        None => Err(Stop::At { left: rest.len() }),
    }
}

/// The text that these bytes are, where it is a name after the last one.
fn as_name<'a>(last: Option<&str>, bytes: &'a [u8]) -> Option<&'a str>
    ensures { option_copied result ≡ only_if (is_next_name (option_copied last.entry)) bytes.now }
{
    match str::from_utf8(bytes) {
        Ok(name) => {
            if is_next_name(last, name) {
                Some(name)
            } else {
                None
            }
        }
        Err(_) => None,
    }
}

/// The text that these bytes are, where it is a value.
fn as_value(bytes: &[u8]) -> Option<&str>
    ensures { option_copied result ≡ only_if is_value bytes.now }
{
    match str::from_utf8(bytes) {
        Ok(value) => { if value.is_empty() { None } else { Some(value) } }
        Err(_) => None,
    }
}

fn is_next_name(last: Option<&str>, name: &str) -> bool
    ensures { result ≡ is_next_name (option_copied last.entry) name.now }
{
    match last {
        None => is_name(name.as_bytes()),
        Some(last) => is_name(name.as_bytes()) && last < name,
    }
}

/// So many bytes, and those after them.
fn cut_at(len: u16, bytes: &[u8]) -> Result<(&[u8], &[u8]), Stop>
    ensures { Takes (λ x. (x.0.now, x.1.now)) result (cut_at len bytes.now) }
{
    let len = len as usize;
    if bytes.len() < len {
        return Err(Stop::At { left: bytes.len() });
    }
    Ok(bytes.split_at(len))
}

/// A number of two bytes, and the bytes after it.
fn number_at(bytes: &[u8]) -> Result<(u16, &[u8]), Stop>
    ensures { Takes (λ x. (x.0, x.1.now)) result (number_at bytes.now) }
{
    if bytes.len() < 2 {
        return Err(Stop::At { left: bytes.len() });
    }
    let (front, rest) = bytes.split_at(2);
    Ok((u16::from_be_bytes([front[0], front[1]]), rest))
}

/// What `bytes` writes of a set, `read` gives back.
pub fn what_is_written_is_read()
    ensures { WrittenIsRead }
{}

/// What `read` takes for a set is what `bytes` writes of it.
pub fn what_is_read_is_written()
    ensures { ReadIsWritten }
{}

/// No set's bytes begin another's, so sets that stand one after the other are told apart.
pub fn no_set_begins_another()
    ensures { NoneBeginsAnother }
{}
