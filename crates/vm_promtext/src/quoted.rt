//! The value of a label, from after its opening quote on.

ghost use Rattle.std.specs.Prelude.{◌≡◌, ◌<◌, ◌-◌, length, false, IfSome};
ghost use Rattle.vm_promtext.specs.Reading.{quote_place, quoted_reading};
ghost use Rattle.vm_promtext.specs.inner.Stop.{seen};
ghost use Rattle.vm_promtext.specs.Utf8.{readable, nothing};

use crate::stop::Wrong;
use crate::utf8::readable;
use memchr::memchr2;

/// The value as it stands before the quote that ends it, and what stands after that quote.
#[tactic(auto, unfolding(crate::specs::Reading::quoted_reading))]
pub fn quoted(text: &[u8]) -> Result<(&str, &[u8]), Wrong>
    ensures { seen (λ p. (p.0.now, p.1.now)) result ≡ quoted_reading text.now }
{
    let Some(end) = quote_place(text) else {
        return Err(wrong_in(text, text));
    };
    match std::str::from_utf8(&text[..end]) {
        Ok(raw) => Ok((raw, &text[end + 1..])),
        Err(_) => Err(wrong_in(&text[..end], text)),
    }
}

/// Where a value that begins a text stops being UTF-8.
fn wrong_in(value: &[u8], text: &[u8]) -> Wrong
    ensures { result.left ≡ length text.now - readable nothing value.now }
{
    Wrong {
        left: text.len().saturating_sub(readable(value)),
    }
}

/// The place of the quote that ends a value: the first that no backslash stands before.
fn quote_place(text: &[u8]) -> Option<usize>
    ensures value { result ≡ quote_place false text.now }
    ensures within { IfSome result (λ at. at < length text.now) }
{
    let mut from = 0;
    'escapes: while from < text.len() {
        let Some(step) = memchr2(b'"', b'\\', &text[from..]) else {
            return None;
        };
        if text[from + step] == b'"' {
            return Some(from + step);
        }
        from += step + 2;
    }
    None
}
