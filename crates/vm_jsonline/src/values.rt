//! Labels, values and times of a series.

ghost use Rattle.std.specs.Prelude.{◌≡◌, true, IfOk, option_and_then};
ghost use Rattle.std.specs.Char.{is_ascii_digit};
ghost use Rattle.std.specs.List.{list_all};
ghost use Rattle.std.specs.Str.Parse.{digits_value};
ghost use Rattle.vm_jsonline.specs.Parts.{string_at as string_in};
ghost use Rattle.vm_jsonline.specs.Reading.{is_number_byte, number_at, text_at, pair_at, sample_at, time_at, all_members, all_items, pairs_reading, samples_reading, times_reading};
ghost use Rattle.vm_jsonline.specs.Series.{all_of, value_of, no_value, time_in, small_time};
ghost use Rattle.vm_jsonline.specs.inner.Stop.{Gives};
ghost use Rattle.vm_jsonline.specs.Strings.{string_reading};

use crate::parts::{next_item, next_member, string_at};
use crate::stop::Stop;
use crate::strings::string_text;
use std::alloc::{AllocError, Global};
use vm_base::limits::MAX_TIME;
use vm_base::{List, Sample, Text};
use vm_decimal::{NumFault, SampleText, read_sample};
use vm_labels::Pair;

/// The labels of an object of strings.
#[tactic(auto, unfolding(crate::specs::Reading::pairs_reading))]
pub(crate) fn read_pairs(alloc: Global, text: &[u8]) -> Result<List<Pair>, Stop>
    ensures { Gives (λ pairs. pairs) result (pairs_reading text.now) }
{
    match text {
        [b'{', inner @ ..] => pairs_inside(alloc, inner),
        _ => Err(Stop::Faulty),
    }
}

fn pairs_inside(alloc: Global, text: &[u8]) -> Result<List<Pair>, Stop>
    ensures { Gives (λ pairs. pairs) result (all_of pair_at (all_members text.now)) }
{
    let mut pairs = List::new(alloc);
    let mut rest = text;
    for _member in 0..text.len() {
        let Some(member) = next_member(rest) else {
            return Ok(pairs);
        };
        pairs.push(read_pair(alloc, member.key, member.value)?)?;
        rest = member.rest;
    }
    Ok(pairs)
}

/// A label, where its value is a string.
#[tactic(auto, unfolding(crate::specs::Reading::pair_at))]
fn read_pair(alloc: Global, key: &[u8], value: &[u8]) -> Result<Pair, Stop>
    ensures { Gives (λ pair. pair) result (pair_at (record { key = key.now; value = value.now })) }
{
    let name = some_text(string_text(alloc, key)?)?;
    let value = some_text(text_at(alloc, value)?)?;
    Ok(Pair { name, value })
}

fn some_text(text: Option<Text>) -> Result<Text, Stop>
    ensures { Gives (λ text. text) result text }
{
    match text {
        Some(text) => Ok(text),
        None => Err(Stop::Faulty),
    }
}

/// The text of the string at the front, none where no string stands there.
#[tactic(auto, unfolding(crate::specs::Reading::text_at))]
fn text_at(alloc: Global, text: &[u8]) -> Result<Option<Text>, AllocError>
    ensures { IfOk result (λ found. found ≡ text_at text.now) }
{
    match text {
        [b'"', quoted @ ..] => quoted_text(alloc, quoted),
        _ => Ok(None),
    }
}

/// The text after a first quote.
fn quoted_text(alloc: Global, quoted: &[u8]) -> Result<Option<Text>, AllocError>
    ensures { IfOk result
        (λ found. found ≡ option_and_then (λ s. string_reading s.0) (string_in quoted.now)) }
{
    match string_at(quoted) {
        Some((raw, _)) => string_text(alloc, raw),
        None => Ok(None),
    }
}

/// The values of an array, none for each item that has none.
#[tactic(auto, unfolding(crate::specs::Reading::samples_reading))]
pub(crate) fn read_samples(alloc: Global, text: &[u8]) -> Result<List<Option<Sample>>, Stop>
    ensures { Gives (λ samples. samples) result (samples_reading text.now) }
{
    match text {
        [b'[', inner @ ..] => samples_inside(alloc, inner),
        _ => Err(Stop::Faulty),
    }
}

fn samples_inside(alloc: Global, text: &[u8]) -> Result<List<Option<Sample>>, Stop>
    ensures { Gives (λ samples. samples) result (all_of sample_at (all_items text.now)) }
{
    let mut samples = List::new(alloc);
    let mut rest = text;
    for _item in 0..text.len() {
        let Some(item) = next_item(rest) else {
            return Ok(samples);
        };
        samples.push(read_sample_at(alloc, item.value)?)?;
        rest = item.rest;
    }
    Ok(samples)
}

/// A number's value, or none for `null` and for texts that say that there is no number.
#[tactic(auto, unfolding(crate::specs::Reading::sample_at))]
fn read_sample_at(alloc: Global, text: &[u8]) -> Result<Option<Sample>, Stop>
    ensures { Gives (λ sample. sample) result (sample_at text.now) }
{
    match text {
        [b'n', ..] => Ok(None),
        [b'"', ..] => {
            let text = some_text(text_at(alloc, text)?)?;
            no_value(read_sample(text.as_str().as_bytes()))
        }
        [b'0'..=b'9' | b'-', ..] => value_of(read_sample(number_at(text))),
        _ => Err(Stop::Faulty),
    }
}

fn value_of(read: Result<SampleText, NumFault>) -> Result<Option<Sample>, Stop>
    ensures { Gives (λ sample. sample) result (value_of read) }
{
    let Ok(text) = read else {
        return Err(Stop::Faulty);
    };
    match text {
        SampleText::Value(sample) => Ok(Some(sample)),
        SampleText::NoNumber => Err(Stop::Faulty),
    }
}

fn no_value(read: Result<SampleText, NumFault>) -> Result<Option<Sample>, Stop>
    ensures { Gives (λ sample. sample) result (no_value read) }
{
    let Ok(text) = read else {
        return Err(Stop::Faulty);
    };
    match text {
        SampleText::Value(_) => Err(Stop::Faulty),
        SampleText::NoNumber => Ok(None),
    }
}

fn is_number_byte(byte: u8) -> bool
    ensures { result ≡ is_number_byte byte }
{
    matches!(byte, b'0'..=b'9' | b'-' | b'+' | b'.' | b'e' | b'E')
}

/// The number at the front.
fn number_at(text: &[u8]) -> &[u8]
    ensures { result.now ≡ number_at text.now }
{
    let mut len = 0;
    'number: while len < text.len() && is_number_byte(text[len]) {
        len += 1;
    }
    &text[..len]
}

/// The times of an array.
#[tactic(auto, unfolding(crate::specs::Reading::times_reading))]
pub(crate) fn read_times(alloc: Global, text: &[u8]) -> Result<List<u64>, Stop>
    ensures { Gives (λ times. times) result (times_reading text.now) }
{
    match text {
        [b'[', inner @ ..] => times_inside(alloc, inner),
        _ => Err(Stop::Faulty),
    }
}

fn times_inside(alloc: Global, text: &[u8]) -> Result<List<u64>, Stop>
    ensures { Gives (λ times. times) result (all_of time_at (all_items text.now)) }
{
    let mut times = List::new(alloc);
    let mut rest = text;
    for _item in 0..text.len() {
        let Some(item) = next_item(rest) else {
            return Ok(times);
        };
        let Some(time) = time_at(item.value) else {
            return Err(Stop::Faulty);
        };
        times.push(time)?;
        rest = item.rest;
    }
    Ok(times)
}

/// A time: digits alone, at most 2^48 - 1.
#[tactic(auto, unfolding(crate::specs::Reading::time_at))]
fn time_at(text: &[u8]) -> Option<u64>
    ensures { result ≡ time_at text.now }
{
    match text {
        [b'0'..=b'9', ..] => time_in(number_at(text)),
        _ => None,
    }
}

fn time_in(digits: &[u8]) -> Option<u64>
    ensures { result ≡ time_in digits.now }
{
    if !all_digits(digits) {
        return None;
    }
    small_time(digits)
}

fn all_digits(text: &[u8]) -> bool
    ensures { result ≡ list_all is_ascii_digit text.now }
{
    for byte in text {
        if !byte.is_ascii_digit() {
            return false;
        }
    }
    true
}

/// The time that digits write, none above 2^48 - 1.
fn small_time(digits: &[u8]) -> Option<u64>
    requires { list_all is_ascii_digit digits.now ≡ true }
    ensures { result ≡ small_time (digits_value 10 digits.now) }
{
    let mut time = 0u64;
    for digit in digits {
        if time > MAX_TIME {
            return None;
        }
        time = time * 10 + u64::from(*digit - b'0');
    }
    if time > MAX_TIME { None } else { Some(time) }
}
