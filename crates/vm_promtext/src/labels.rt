//! The labels of a line.

ghost use Rattle.std.specs.Prelude.{◌≡◌, ◌++◌, ◌∷◌, [], true, length, IfOk, OnOk};
ghost use Rattle.vm_labels.specs.Name.{is_name};
ghost use Rattle.vm_promtext.specs.Quoted.{unescaped};
ghost use Rattle.vm_promtext.specs.Reading.{PairRead, pair_reading, behind_pair, turn_reading, braces_reading, labels_reading};
ghost use Rattle.vm_promtext.specs.inner.Stop.{seen, Gives};

use crate::escapes::unescaped;
use crate::quoted::quoted;
use crate::stop::{Stop, Wrong};
use crate::tokens::{behind_blanks, behind_mark, named};
use std::alloc::{AllocError, Global};
use vm_base::{List, Text};
use vm_labels::Pair;

/// A label as it is spelled, and what stands after it and any blanks.
#[derive(Clone, Copy)]
struct Spelled<'a> {
    name: &'a [u8],
    raw: &'a str,
    rest: &'a [u8],
}

/// What stands after the pairs so far.
#[derive(Clone, Copy)]
struct Turn<'a> {
    closed: bool,
    rest: &'a [u8],
}

/// Adds the labels after a name to `pairs`, and gives what stands after them and any blanks.
#[tactic(auto, unfolding(crate::specs::Reading::labels_reading))]
pub fn read_labels<'a>(
    alloc: Global,
    pairs: &mut List<Pair>,
    text: &'a [u8],
) -> Result<&'a [u8], Stop>
    ensures { Gives (λ rest. (pairs.new, rest.now)) result (labels_reading pairs.old text.now) }
{
    let rest = behind_blanks(text);
    if let [b'{', inside @ ..] = rest {
        let behind = read_braces(alloc, pairs, inside)?;
        return Ok(behind_blanks(behind));
    }
    if rest.len() < text.len() {
        return Ok(rest);
    }
    Err(Stop::Broken(Wrong { left: rest.len() }))
}

/// Adds the pairs in braces, and gives what stands after the closing brace.
fn read_braces<'a>(alloc: Global, pairs: &mut List<Pair>, text: &'a [u8]) -> Result<&'a [u8], Stop>
    ensures { Gives (λ rest. (pairs.new, rest.now)) result
        (braces_reading (length text.now) pairs.old text.now) }
{
    let mut rest = text;
    for _pair in 0..text.len() {
        let turn = next_pair(alloc, pairs, rest)?;
        if turn.closed {
            return Ok(turn.rest);
        }
        rest = turn.rest;
    }
    Err(Stop::Broken(Wrong { left: rest.len() }))
}

/// Reads the closing brace, or adds one pair and reads what ends it.
#[tactic(auto, unfolding(crate::specs::Reading::turn_reading))]
fn next_pair<'a>(alloc: Global, pairs: &mut List<Pair>, text: &'a [u8]) -> Result<Turn<'a>, Stop>
    ensures { Gives
        (λ turn. record { pairs = pairs.new; closed = turn.closed; rest = turn.rest.now })
        result (turn_reading pairs.old text.now) }
{
    let text = behind_blanks(text);
    if let [b'}', rest @ ..] = text {
        return Ok(Turn { closed: true, rest });
    }
    let pair = spelled_pair(text)?;
    add_pair(alloc, pairs, &pair)?;
    match pair.rest {
        [b',', rest @ ..] => Ok(Turn {
            closed: false,
            rest,
        }),
        [b'}', rest @ ..] => Ok(Turn { closed: true, rest }),
        other => Err(Stop::Broken(Wrong { left: other.len() })),
    }
}

/// Adds the pair that is spelled so.
fn add_pair(alloc: Global, pairs: &mut List<Pair>, pair: &Spelled<'_>) -> Result<(), AllocError>
    requires { is_name pair.now.name.now ≡ true }
    ensures { OnOk result (pairs.new
        ≡ pairs.old
        ++ record { name = pair.now.name.now; value = unescaped pair.now.raw.now } ∷ []) }
{
    let name = name_text(alloc, pair.name)?;
    let value = unescaped(alloc, pair.raw)?;
    pairs.push(Pair { name, value })?;
    Ok(())
}

/// A name as a text.
pub fn name_text(alloc: Global, name: &[u8]) -> Result<Text, AllocError>
    requires { is_name name.now ≡ true }
    ensures { IfOk result (λ text. text ≡ name.now) }
{
    match std::str::from_utf8(name) {
        Ok(text) => Text::from_str(alloc, text),
        Err(_) => unreachable!(),
    }
}

/// The parts of the pair at the front of a text.
#[tactic(auto, unfolding(crate::specs::Reading::pair_reading))]
fn spelled_pair(text: &[u8]) -> Result<Spelled<'_>, Wrong>
    ensures value { seen (λ p. record { name = p.name.now; raw = p.raw.now; rest = p.rest.now })
        result
        ≡ pair_reading text.now }
    ensures named { IfOk result (λ p. is_name p.name.now ≡ true) }
{
    let (name, rest) = named(text)?;
    let rest = behind_mark(behind_blanks(rest), b'=')?;
    let rest = behind_mark(behind_blanks(rest), b'"')?;
    let (raw, rest) = quoted(rest)?;
    Ok(Spelled {
        name,
        raw,
        rest: behind_blanks(rest),
    })
}
