//! Label sets as text, for people and as JSON.

ghost use Rattle.std.specs.Prelude.{◌≡◌, ◌++◌, ◌∷◌, ◌≤◌, ◌||◌, true, length, take, flat_map, OnOk, OnErr};
ghost use Rattle.memchr.specs.Find.{is_byte3};
ghost use Rattle.vm_labels.specs.Text.{comma_before, escaped_byte, label_json, label_text, pair_text, tokens_of};

use crate::{Labels, Pair};
use json::Writer;
use memchr::memchr3;
use std::alloc::AllocError;
use std::mem;

impl Labels {
    /// Appends the set as `{a="b",c="d"}` to `out`, which stays as it was where memory runs out.
    ///
    /// The labels are by name. In a value a backslash, a quote and a line feed are written as
    /// `\\`, `\"` and `\n`. (Prometheus text format 0.0.4, "Line format")
    pub fn print(&self, out: &mut Vec<u8>) -> Result<(), AllocError>
        ensures ok { OnOk result (out.new.items ≡ out.old.items ++ label_text self.now) }
        ensures err { OnErr result (out.new.items ≡ out.old.items) }
    {
        let start = out.len();
        let written = put_labels(out, self.as_slice());
        if written.is_err() {
            out.truncate(start);
        }
        written
    }

    /// Appends the set as a JSON object of strings to `out`, which stays as it was where memory
    /// runs out. The labels are by name, without spaces, and strings as `serde_json` writes them.
    pub fn print_json(&self, out: &mut Vec<u8>) -> Result<(), AllocError>
        ensures ok { OnOk result (out.new.items ≡ out.old.items ++ label_json self.now) }
        ensures err { OnErr result (out.new.items ≡ out.old.items) }
    {
        let start = out.len();
        let alloc = *out.allocator();
        let mut writer = Writer::new(mem::replace(out, Vec::new(alloc)));
        let written = put_object(&mut writer, self.as_slice());
        *out = writer.into_inner();
        if written.is_err() {
            out.truncate(start);
        }
        written
    }
}

/// Appends the text of a set. What `out` held stays at its front.
fn put_labels(out: &mut Vec<u8>, pairs: &[Pair]) -> Result<(), AllocError>
    ensures ok { OnOk result (out.new.items ≡ out.old.items ++ label_text pairs.now) }
    ensures kept { take (length out.old.items) out.new.items ≡ out.old.items }
{
    out.push(b'{')?;
    for (index, pair) in pairs.iter().enumerate() {
        put_comma_before(out, index)?;
        put_pair(out, pair)?;
    }
    out.push(b'}')?;
    Ok(())
}

/// Appends a comma, but none before the first pair.
fn put_comma_before(out: &mut Vec<u8>, index: usize) -> Result<(), AllocError>
    ensures ok { OnOk result (out.new.items ≡ out.old.items ++ comma_before index) }
    ensures kept { take (length out.old.items) out.new.items ≡ out.old.items }
{
    if index > 0 {
        out.push(b',')?;
    }
    Ok(())
}

/// Appends a pair as `a="b"`.
fn put_pair(out: &mut Vec<u8>, pair: &Pair) -> Result<(), AllocError>
    ensures ok { OnOk result (out.new.items ≡ out.old.items ++ pair_text pair.now) }
    ensures kept { take (length out.old.items) out.new.items ≡ out.old.items }
{
    out.extend_from_slice(pair.name.as_str().as_bytes())?;
    out.extend_from_slice(b"=\"")?;
    put_escaped(out, pair.value.as_str().as_bytes())?;
    out.push(b'"')?;
    Ok(())
}

/// Appends a value with its escapes, in runs of bytes that need none.
fn put_escaped(out: &mut Vec<u8>, value: &[u8]) -> Result<(), AllocError>
    ensures ok { OnOk result (out.new.items ≡ out.old.items ++ flat_map escaped_byte value.now) }
    ensures kept { take (length out.old.items) out.new.items ≡ out.old.items }
{
    let mut rest = value;
    'runs: while let Some(at) = memchr3(b'\\', b'"', b'\n', rest) {
        out.extend_from_slice(&rest[..at])?;
        out.extend_from_slice(escape(rest[at]))?;
        rest = &rest[at + 1..];
    }
    out.extend_from_slice(rest)?;
    Ok(())
}

/// What stands for a byte that needs an escape.
fn escape(byte: u8) -> &'static [u8]
    requires { is_byte3 92 34 10 byte ≡ true }
    ensures { result.now ≡ escaped_byte byte }
{
    match byte {
        b'\\' => b"\\\\",
        b'"' => b"\\\"",
        _ => b"\\n",
    }
}

/// Writes the tokens of the object.
fn put_object(writer: &mut Writer, pairs: &[Pair]) -> Result<(), AllocError>
    ensures ok { OnOk result (writer.new.tokens ≡ writer.old.tokens ++ tokens_of pairs.now) }
    ensures before { writer.new.before ≡ writer.old.before }
{
    writer.begin_object()?;
    for pair in pairs {
        writer.key(pair.name.as_str())?;
        writer.string(pair.value.as_str())?;
    }
    writer.end_object()
}
