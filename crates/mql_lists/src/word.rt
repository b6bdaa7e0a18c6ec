//! What names and strings say.

ghost use Rattle.std.specs.Prelude.{◌≡◌, ◌≤◌, ◌<◌, ◌+◌, ◌++◌, length, IfOk, OnOk, IfNone, IfSome, string_bytes, true, false};
ghost use Rattle.mql_lex.specs.Tokens.{StandsIn, slice_of};
ghost use Rattle.mql_lists.specs.Values.{value_of, unescaped};

use mql_lex::{Token, TokenKind};
use std::alloc::{AllocError, Global};
use vm_base::Text;

/// The text of a name.
pub fn name_text(alloc: Global, text: &str, token: Token) -> Result<Text, AllocError>
    requires stands { StandsIn text.now token }
    requires name { token.kind ≡ TokenKind.Name }
    ensures { IfOk result (λ name. name ≡ slice_of text.now token) }
{
    let at = token.at as usize;
    Text::from_str(alloc, &text[at..at + token.len as usize])
}

/// The value of a string: what stands between its quotes, each escape replaced by what it stands
/// for. The escapes are a backslash before itself, `"`, `'`, `n` for a line feed and `t` for a tab.
/// (PromQL, "String literals")
pub fn unquote(alloc: Global, text: &str, token: Token) -> Result<Text, AllocError>
    requires stands { StandsIn text.now token }
    requires quoted { token.kind ≡ TokenKind.Str }
    ensures { IfOk result (λ value. value ≡ value_of (slice_of text.now token)) }
{
    let at = token.at as usize;
    unescape(alloc, &text[at + 1..at + token.len as usize - 1])
}

fn unescape(alloc: Global, raw: &str) -> Result<Text, AllocError>
    ensures { IfOk result (λ value. value ≡ unescaped false raw.now) }
{
    match at_escape(raw) {
        None => Text::from_str(alloc, raw),
        Some((front, escaped)) => {
            let mut text = String::from_str(alloc, front)?;
            push_unescaped(&mut text, escaped)?;
            Text::from_str(alloc, text.as_str())
        }
    }
}

/// Appends what a text stands for that a backslash stands before.
fn push_unescaped(text: &mut String, escaped: &str) -> Result<(), AllocError>
    ensures { OnOk result (string_bytes text.new
        ≡ string_bytes text.old ++ unescaped true escaped.now) }
{
    let mut rest = push_escape(text, escaped)?;
    'escapes: while let Some((front, escaped)) = at_escape(rest) {
        text.push_str(front)?;
        rest = push_escape(text, escaped)?;
    }
    text.push_str(rest)?;
    Ok(())
}

/// Appends what the character after a backslash stands for, where it isn't itself, and gives what
/// is still to be read.
fn push_escape<'a>(text: &mut String, escaped: &'a str) -> Result<&'a str, AllocError>
    ensures read { IfOk result (λ rest. string_bytes text.old ++ unescaped true escaped.now
        ≡ string_bytes text.new ++ unescaped false rest.now) }
    ensures shorter { IfOk result (λ rest. length rest.now ≤ length escaped.now) }
{
    if let Some(rest) = escaped.strip_prefix('n') {
        text.push('\n')?;
        return Ok(rest);
    }
    if let Some(rest) = escaped.strip_prefix('t') {
        text.push('\t')?;
        return Ok(rest);
    }
    match escaped.strip_prefix('\\') {
        Some(rest) => {
            text.push('\\')?;
            Ok(rest)
        }
        None => Ok(escaped),
    }
}

/// What stands before the first backslash and after it.
fn at_escape(text: &str) -> Option<(&str, &str)>
    ensures plain { IfNone result (unescaped false text.now ≡ text.now) }
    ensures found { IfSome result
        (λ p. unescaped false text.now ≡ p.0.now ++ unescaped true p.1.now) }
    ensures shorter { IfSome result (λ p. length p.1.now < length text.now) }
{
    match text.split_once('\\') {
        None => None,
        Some((front, escaped)) => Some((front, escaped)),
    }
}
