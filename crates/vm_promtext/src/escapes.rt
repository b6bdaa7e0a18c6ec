//! What a label's value stands for. (Prometheus text format 0.0.4, "Line format")

ghost use Rattle.std.specs.Prelude.{◌≡◌, ◌≤◌, ◌<◌, ◌++◌, IfSome, IfNone, IfOk, OnOk, string_bytes, length, true, false};
ghost use Rattle.vm_promtext.specs.Quoted.{unescaped, decoded};

use std::alloc::{AllocError, Global};
use vm_base::Text;

/// The text that a value in quotes stands for.
pub fn unescaped(alloc: Global, raw: &str) -> Result<Text, AllocError>
    ensures { IfOk result (λ text. text ≡ unescaped raw.now) }
{
    match at_escape(raw) {
        None => Text::from_str(alloc, raw),
        Some((front, escaped)) => {
            let mut text = String::from_str(alloc, front)?;
            push_decoded(&mut text, escaped)?;
            Text::from_str(alloc, text.as_str())
        }
    }
}

/// Appends what a text stands for that a backslash stands before.
fn push_decoded(text: &mut String, escaped: &str) -> Result<(), AllocError>
    ensures { OnOk result (string_bytes text.new
        ≡ string_bytes text.old ++ decoded true escaped.now) }
{
    let mut rest = push_escape(text, escaped)?;
    'escapes: while let Some((front, escaped)) = at_escape(rest) {
        text.push_str(front)?;
        rest = push_escape(text, escaped)?;
    }
    text.push_str(rest)?;
    Ok(())
}

/// Appends what a backslash before a text stands for, and gives what is still to be decoded.
fn push_escape<'a>(text: &mut String, escaped: &'a str) -> Result<&'a str, AllocError>
    ensures decoded { IfOk result (λ rest. string_bytes text.old ++ decoded true escaped.now
        ≡ string_bytes text.new ++ decoded false rest.now) }
    ensures shorter { IfOk result (λ rest. length rest.now ≤ length escaped.now) }
{
    if let Some(rest) = escaped.strip_prefix('n') {
        text.push('\n')?;
        return Ok(rest);
    }
    if let Some(rest) = escaped.strip_prefix('"') {
        text.push('"')?;
        return Ok(rest);
    }
    text.push('\\')?;
    match escaped.strip_prefix('\\') {
        Some(rest) => Ok(rest),
        None => Ok(escaped),
    }
}

/// What stands before the first backslash and after it.
fn at_escape(text: &str) -> Option<(&str, &str)>
    ensures plain { IfNone result (decoded false text.now ≡ text.now) }
    ensures escaped { IfSome result
        (λ p. decoded false text.now ≡ p.0.now ++ decoded true p.1.now) }
    ensures shorter { IfSome result (λ p. length p.1.now < length text.now) }
{
    match text.split_once('\\') {
        None => None,
        Some((front, escaped)) => Some((front, escaped)),
    }
}
