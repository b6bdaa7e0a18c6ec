//! A line that writes a row.

ghost use Rattle.std.specs.Prelude.{◌≡◌, ◌≤◌, ◌<◌, ◌-◌, ◌^◌, ◌∷◌, [], true, length, IfOk};
ghost use Rattle.std.specs.Char.{is_ascii_digit};
ghost use Rattle.std.specs.List.{prefix_len, list_all};
ghost use Rattle.vm_labels.specs.Labels.{built};
ghost use Rattle.vm_labels.specs.Name.{is_name};
ghost use Rattle.vm_promtext.specs.Grammar.{name_pair};
ghost use Rattle.vm_promtext.specs.Outcome.{with_labels, kept, time_of};
ghost use Rattle.vm_promtext.specs.Reading.{row_reading, value_reading, time_reading, digits_reading};
ghost use Rattle.vm_promtext.specs.inner.Stop.{seen, Gives};

use crate::labels::{name_text, read_labels};
use crate::line::Line;
use crate::stop::{Stop, Wrong};
use crate::tokens::{before_blank, behind_blanks, named};
use std::alloc::{AllocError, Global};
use vm_base::limits::MAX_TIME;
use vm_base::{List, Text};
use vm_decimal::{NumFault, SampleText, read_sample};
use vm_labels::{LabelFault, Labels, Pair, Row};

/// How many labels a line has room for before its list grows.
const ROOM: usize = 16;

/// What a value's text says, and how many bytes it has.
#[derive(Drop)]
struct Valued {
    number: Result<SampleText, NumFault>,
    len: usize,
}

/// A time's digits, none where no time is written, and how many bytes of the line are left there.
#[derive(Clone, Copy)]
struct Timed<'a> {
    digits: &'a [u8],
    left: usize,
}

/// Reads the line of which this text, after any blanks, is the row.
#[tactic(auto, unfolding(crate::specs::Reading::row_reading))]
pub fn read_row(alloc: Global, line: &[u8], text: &[u8], now: u64) -> Result<Line, Stop>
    ensures { Gives (λ said. said) result (row_reading now line.now text.now) }
{
    let (name, rest) = named(text)?;
    let mut pairs = with_name(alloc, name)?;
    let value_text = read_labels(alloc, &mut pairs, rest)?;
    let value = read_value(value_text)?;
    let time = read_time(&value_text[value.len..])?;
    let value_at = place(line, value_text.len());
    let time_at = place(line, time.left);
    let Ok(number) = value.number else {
        return Ok(Line::Skipped { at: value_at });
    };
    let Some(time) = time_of(now, time.digits) else {
        return Ok(Line::Skipped { at: time_at });
    };
    Ok(labeled(alloc, number, time, pairs)?)
}

/// The place in a line after which this many bytes are left.
pub fn place(line: &[u8], left: usize) -> u64
    ensures { result ≡ length line.now - left }
{
    line.len().saturating_sub(left) as u64
}

/// The row of these pairs, where they make a label set within the limits.
fn labeled(
    alloc: Global,
    number: SampleText,
    time: u64,
    pairs: List<Pair>,
) -> Result<Line, AllocError>
    ensures { IfOk result (λ said. said ≡ with_labels number time (kept (built pairs))) }
{
    let labels = match Labels::build(alloc, pairs) {
        Ok(labels) => labels,
        Err(LabelFault::Memory) => return Err(AllocError),
        Err(_) => return Ok(Line::Skipped { at: 0 }),
    };
    if labels.limit().is_some() {
        return Ok(Line::Skipped { at: 0 });
    }
    Ok(match number {
        SampleText::NoNumber => Line::NoNumber,
        SampleText::Value(value) => Line::Row(Row {
            labels,
            time,
            value,
        }),
    })
}

/// A list that holds the metric's name, with room for its labels.
fn with_name(alloc: Global, name: &[u8]) -> Result<List<Pair>, AllocError>
    requires { is_name name.now ≡ true }
    ensures { IfOk result (λ pairs. pairs ≡ name_pair name.now ∷ []) }
{
    let mut pairs = List::from_vec(Vec::with_capacity(alloc, ROOM)?);
    let value = name_text(alloc, name)?;
    let name = Text::from_str(alloc, "__name__")?;
    pairs.push(Pair { name, value })?;
    Ok(pairs)
}

/// The value at the front of a text, which ends at a blank or with it.
#[tactic(auto, unfolding(crate::specs::Reading::value_reading))]
fn read_value(text: &[u8]) -> Result<Valued, Wrong>
    ensures value { seen (λ v. (v.number, v.len)) result ≡ value_reading text.now }
    ensures within { IfOk result (λ v. v.len ≤ length text.now) }
{
    let len = before_blank(text);
    let number = read_sample(&text[..len]);
    if let Err(NumFault::NotANumber { at }) = number {
        return Err(Wrong {
            left: text.len().saturating_sub(at as usize),
        });
    }
    Ok(Valued { number, len })
}

/// The time after a value, with any blanks around it.
#[tactic(auto, unfolding(crate::specs::Reading::time_reading))]
fn read_time(text: &[u8]) -> Result<Timed<'_>, Wrong>
    ensures value { seen (λ t. (t.digits.now, t.left)) result ≡ time_reading text.now }
    ensures digits { IfOk result (λ t. list_all is_ascii_digit t.digits.now ≡ true) }
{
    let rest = behind_blanks(text);
    if rest.is_empty() {
        return Ok(Timed {
            digits: &[],
            left: 0,
        });
    }
    read_digits(rest)
}

/// The digits at the front of a text, where only blanks stand after them.
fn read_digits(text: &[u8]) -> Result<Timed<'_>, Wrong>
    ensures value { seen (λ t. (t.digits.now, t.left)) result ≡ digits_reading text.now }
    ensures digits { IfOk result (λ t. list_all is_ascii_digit t.digits.now ≡ true) }
{
    let count = digit_count(text);
    if count == 0 {
        return Err(Wrong { left: text.len() });
    }
    let end = behind_blanks(&text[count..]);
    if !end.is_empty() {
        return Err(Wrong { left: end.len() });
    }
    Ok(Timed {
        digits: &text[..count],
        left: text.len(),
    })
}

/// How many digits stand at the front of a text.
fn digit_count(text: &[u8]) -> usize
    ensures value { result ≡ prefix_len is_ascii_digit text.now }
    ensures within { result ≤ length text.now }
{
    let mut count = 0;
    'digits: while count < text.len() && text[count].is_ascii_digit() {
        count += 1;
    }
    count
}

/// The time that digits write, `now` where there are none. None above 2^48 - 1.
fn time_of(now: u64, digits: &[u8]) -> Option<u64>
    requires { list_all is_ascii_digit digits.now ≡ true }
    ensures { result ≡ time_of now digits.now }
{
    if digits.is_empty() {
        return Some(now);
    }
    let mut time = 0u64;
    for digit in digits {
        if time > MAX_TIME {
            return None;
        }
        time = time * 10 + u64::from(*digit - b'0');
    }
    if time > MAX_TIME { None } else { Some(time) }
}
