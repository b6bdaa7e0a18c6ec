//! Blanks, names and single bytes at the front of a text.

ghost use Rattle.std.specs.Prelude.{◌≡◌, ◌<◌, ◌≤◌, length, true, IfOk};
ghost use Rattle.vm_labels.specs.Name.{is_name};
ghost use Rattle.vm_promtext.specs.Grammar.{is_blank};
ghost use Rattle.vm_promtext.specs.Reading.{behind_blanks, mark_reading, name_reading, before_blank};
ghost use Rattle.vm_promtext.specs.inner.Stop.{seen};

use crate::stop::Wrong;
use vm_labels::name_len;

fn is_blank(byte: u8) -> bool
    ensures { result ≡ is_blank byte }
{
    byte == b' ' || byte == b'\t'
}

/// What stands after the blanks at the front of a text.
pub fn behind_blanks(text: &[u8]) -> &[u8]
    ensures value { result.now ≡ behind_blanks text.now }
    ensures within { length result.now ≤ length text.now }
{
    let mut rest = text;
    'blanks: while !rest.is_empty() && is_blank(rest[0]) {
        rest = &rest[1..];
    }
    rest
}

/// What stands after a byte that has to come first.
pub fn behind_mark(text: &[u8], mark: u8) -> Result<&[u8], Wrong>
    requires { 0 < mark }
    ensures { seen (λ rest. rest.now) result ≡ mark_reading mark text.now }
{
    if text.is_empty() || text[0] != mark {
        return Err(Wrong { left: text.len() });
    }
    Ok(&text[1..])
}

/// The name at the front of a text, and what stands after it.
pub fn named(text: &[u8]) -> Result<(&[u8], &[u8]), Wrong>
    ensures value { seen (λ p. (p.0.now, p.1.now)) result ≡ name_reading text.now }
    ensures named { IfOk result (λ p. is_name p.0.now ≡ true) }
{
    let len = name_len(text);
    if len == 0 {
        return Err(Wrong { left: text.len() });
    }
    Ok((&text[..len], &text[len..]))
}

/// How many bytes stand before the first blank.
pub fn before_blank(text: &[u8]) -> usize
    ensures value { result ≡ before_blank text.now }
    ensures within { result ≤ length text.now }
{
    let mut len = 0;
    'value: while len < text.len() && !is_blank(text[len]) {
        len += 1;
    }
    len
}
