ghost use Rattle.std.specs.Prelude.{◌≡◌, ◌≢◌, ◌↔◌, IfOk, IsOk, IsErrOf, string_bytes};
ghost use Rattle.regex.specs.Strings.{captures_haystack, captures_span};
ghost use Rattle.vm_patterns.specs.inner.Expressions.{IsMeant, IsReadFrom, texts_of};
ghost use Rattle.vm_patterns.specs.Patterns.{IsExpression, IsPattern, anchored, in_span, is_whole_match, whole_groups};

use regex::{Captures, Error, Regex};
use regex_syntax::{Config, ErrorKind, parse};
use std::alloc::{AllocError, Global};
use vm_base::{List, Text};
use vm_outside::{Pattern, PatternFault};

/// The groups whose texts are told.
const GROUPS: [usize; 10] = [0, 1, 2, 3, 4, 5, 6, 7, 8, 9];

/// A pattern of the library `regex`.
#[derive(Drop)]
pub struct MemPattern {
    alloc: Global,
    text: Text,
    /// The pattern between anchors.
    whole: Regex,
    ghost meant: { IsMeant whole text },
}

impl Pattern for MemPattern {
    ghost text = { λ pattern. pattern.text };

    ghost matches = { is_whole_match };

    ghost groups_of = { whole_groups };

    fn whole(&mut self, value: &str) -> Result<bool, AllocError> {
        let mut matcher = self.whole.matcher(self.alloc)?;
        Ok(matcher.is_match(value))
    }

    fn groups(&mut self, value: &str) -> Result<Option<List<Text>>, AllocError> {
        let mut matcher = self.whole.matcher(self.alloc)?;
        match matcher.captures(value) {
            Some(captures) => Ok(Some(texts(self.alloc, &captures, &GROUPS)?)),
            None => Ok(None),
        }
    }
}

/// The pattern of a text.
pub(crate) fn built(alloc: Global, text: &str) -> Result<MemPattern, PatternFault>
    ensures text { IfOk result (λ pattern. pattern.text ≡ text.now) }
    ensures pattern { IsOk result → IsPattern text.now }
    ensures syntax { IsErrOf result PatternFault.Syntax → IsPattern text.now → ⊥ }
    ensures refused { IsErrOf result PatternFault.Refused → IsPattern text.now }
{
    expression(alloc, text)?;
    let whole = between_anchors(alloc, text)?;
    let whole = compiled(alloc, whole.as_str())?;
    let text = Text::from_str(alloc, text)?;
    Ok(MemPattern { alloc, text, whole })
}

/// Whether the text is an expression.
fn expression(alloc: Global, text: &str) -> Result<(), PatternFault>
    ensures ok { IsOk result → IsExpression text.now }
    ensures syntax { IsErrOf result PatternFault.Syntax → IsExpression text.now → ⊥ }
    ensures refused { IsErrOf result PatternFault.Refused → ⊥ }
{
    match parse(alloc, text, &Config::default()) {
        Ok(_) => Ok(()),
        Err(error) => Err(fault_of(error.kind)),
    }
}

fn fault_of(kind: ErrorKind) -> PatternFault
    ensures memory { result ≡ PatternFault.Memory ↔ kind ≡ ErrorKind.OutOfMemory }
    ensures refused { result ≢ PatternFault.Refused }
{
    match kind {
        ErrorKind::OutOfMemory => PatternFault::Memory,
        _ => PatternFault::Syntax,
    }
}

/// The text between anchors.
fn between_anchors(alloc: Global, text: &str) -> Result<String, AllocError>
    ensures { IfOk result (λ whole. string_bytes whole ≡ anchored text.now) }
{
    let mut whole = String::from_str(alloc, r"\A(?:")?;
    whole.push_str(text)?;
    whole.push_str(r")\z")?;
    Ok(whole)
}

/// The expression that the text is.
fn compiled(alloc: Global, text: &str) -> Result<Regex, PatternFault>
    ensures source { IfOk result (λ regex. IsReadFrom regex text.now) }
    ensures ok { IsOk result → IsExpression text.now }
    ensures syntax { IsErrOf result PatternFault.Syntax → IsExpression text.now → ⊥ }
    ensures refused { IsErrOf result PatternFault.Refused → IsExpression text.now }
{
    match Regex::new(alloc, text) {
        Ok(regex) => Ok(regex),
        Err(Error::Syntax(_)) => Err(PatternFault::Syntax),
        Err(Error::OutOfMemory) => Err(PatternFault::Memory),
        Err(Error::CompiledTooBig) => Err(PatternFault::Refused),
        Err(Error::Internal) => Err(PatternFault::Refused),
    }
}

/// The texts of these groups.
fn texts(
    alloc: Global,
    captures: &Captures<'_, '_>,
    groups: &[usize],
) -> Result<List<Text>, AllocError>
    ensures { IfOk result (λ texts. texts ≡ texts_of captures.now groups.now) }
{
    let mut texts = List::new(alloc);
    for group in groups {
        texts.push(Text::from_str(alloc, text(captures, *group))?)?;
    }
    Ok(texts)
}

/// The text of a group, empty where it took no part.
fn text<'h>(captures: &Captures<'_, 'h>, group: usize) -> &'h str
    ensures { result.now
        ≡ in_span (captures_haystack captures.now) (captures_span captures.now group) }
{
    match captures.get(group) {
        Some(found) => found.as_str(),
        None => "",
    }
}
