//! The grammar of JSON texts as a table of moves, one byte at a time.

ghost use Rattle.std.specs.Prelude.{◌≡◌, ◌&&◌, ◌==◌, length};
ghost use Rattle.std.specs.Option.{option_map};
ghost use Rattle.vm_json.specs.Machine.{at, symbol_of as symbol, in_string, in_digits, may_end as digits_end, in_word, wanted, behind, first_item, key, first_key, behind_key, in_number, by_phase, ends};
ghost use Rattle.vm_json.specs.declared.nesting.Bracket.{Bracket};
ghost use Rattle.std.specs.Prelude.{List};

use crate::nesting::{Bracket, Nesting};
use crate::string_machine::{Within, next_within};

/// What a byte outside of strings is.
#[derive(Clone, Copy)]
pub(crate) enum Symbol {
    /// White space.
    Space,
    Quote,
    BeginArray,
    BeginObject,
    EndArray,
    EndObject,
    Comma,
    Colon,
    Minus,
    Plus,
    Point,
    /// `0`
    Nought,
    /// `1` to `9`
    Digit,
    /// `e` or `E`
    Mark,
    /// `t`, `f` and `n`
    BeginTrue,
    BeginFalse,
    BeginNull,
    Other,
}

/// How far a number has been read.
#[derive(Clone, Copy)]
pub(crate) enum Digits {
    Signed,
    /// A first `0`.
    Zero,
    Whole,
    /// After the point.
    Bare,
    Fraction,
    Marked,
    MarkSigned,
    /// Digits of the exponent.
    Power,
}

/// How far `true`, `false` or `null` has been read.
#[derive(Clone, Copy)]
pub(crate) enum Word {
    T,
    Tr,
    Tru,
    F,
    Fa,
    Fal,
    Fals,
    N,
    Nu,
    Nul,
}

/// What may come next.
#[derive(Clone, Copy)]
pub(crate) enum Phase {
    /// A value.
    Wanted,
    /// A value or `]`.
    FirstItem,
    /// A key or `}`.
    FirstKey,
    /// A key.
    Key,
    /// A colon.
    BehindKey,
    /// What follows a value.
    Behind,
    /// More of a string, which is a key or not.
    InString(bool, Within),
    InNumber(Digits),
    InWord(Word),
}

/// Where a byte leads to, none where no text goes on with it.
#[inline]
pub(crate) fn step(phase: Phase, inside: &mut Nesting, byte: u8) -> Option<Phase>
    ensures { option_map (λ p. at p inside.new) result ≡ by_phase phase inside.old byte }
{
    match phase {
        Phase::InString(a_key, within) => in_string(a_key, within, byte),
        Phase::InWord(word) => in_word(word, byte),
        Phase::InNumber(digits) => in_number(digits, inside, symbol_of(byte)),
        Phase::Wanted => wanted(inside, symbol_of(byte)),
        Phase::FirstItem => first_item(inside, symbol_of(byte)),
        Phase::FirstKey => first_key(inside, symbol_of(byte)),
        Phase::Key => key(symbol_of(byte)),
        Phase::BehindKey => behind_key(symbol_of(byte)),
        Phase::Behind => behind(inside, symbol_of(byte)),
    }
}

/// Whether a text may end in this phase, if no bracket is open.
pub(crate) fn ends(phase: Phase) -> bool
    ensures { result ≡ ends phase }
{
    match phase {
        Phase::Behind => true,
        Phase::InNumber(digits) => may_end(digits),
        _ => false,
    }
}

#[inline]
fn symbol_of(byte: u8) -> Symbol
    ensures { result ≡ symbol byte }
{
    match byte {
        b' ' | b'\t' | b'\n' | b'\r' => Symbol::Space,
        b'"' => Symbol::Quote,
        b'[' => Symbol::BeginArray,
        b'{' => Symbol::BeginObject,
        b']' => Symbol::EndArray,
        b'}' => Symbol::EndObject,
        b',' => Symbol::Comma,
        b':' => Symbol::Colon,
        b'-' => Symbol::Minus,
        b'+' => Symbol::Plus,
        b'.' => Symbol::Point,
        b'0' => Symbol::Nought,
        b'1'..=b'9' => Symbol::Digit,
        b'e' | b'E' => Symbol::Mark,
        b't' => Symbol::BeginTrue,
        b'f' => Symbol::BeginFalse,
        b'n' => Symbol::BeginNull,
        _ => Symbol::Other,
    }
}

#[inline]
fn in_string(a_key: bool, w: Within, byte: u8) -> Option<Phase>
    ensures { result ≡ in_string a_key w byte }
{
    if matches!(w, Within::Plain) && byte == b'"' {
        return Some(if a_key {
            Phase::BehindKey
        } else {
            Phase::Behind
        });
    }
    match next_within(w, byte) {
        Some(next) => Some(Phase::InString(a_key, next)),
        None => None,
    }
}

#[inline]
fn in_digits(digits: Digits, symbol: Symbol) -> Option<Digits>
    ensures { result ≡ in_digits symbol digits }
{
    match (digits, symbol) {
        (Digits::Signed, Symbol::Nought) => Some(Digits::Zero),
        (Digits::Signed | Digits::Whole, Symbol::Digit) => Some(Digits::Whole),
        (Digits::Whole, Symbol::Nought) => Some(Digits::Whole),
        (Digits::Zero | Digits::Whole, Symbol::Point) => Some(Digits::Bare),
        (Digits::Bare | Digits::Fraction, Symbol::Nought | Symbol::Digit) => Some(Digits::Fraction),
        (Digits::Zero | Digits::Whole | Digits::Fraction, Symbol::Mark) => Some(Digits::Marked),
        (Digits::Marked, Symbol::Plus | Symbol::Minus) => Some(Digits::MarkSigned),
        (Digits::Marked | Digits::MarkSigned | Digits::Power, Symbol::Nought | Symbol::Digit) =>
            Some(Digits::Power),
        _ => None,
    }
}

fn may_end(digits: Digits) -> bool
    ensures { result ≡ digits_end digits }
{
    matches!(
        digits,
        Digits::Zero | Digits::Whole | Digits::Fraction | Digits::Power
    )
}

fn in_word(word: Word, byte: u8) -> Option<Phase>
    ensures { result ≡ in_word word byte }
{
    match (word, byte) {
        (Word::T, b'r') => Some(Phase::InWord(Word::Tr)),
        (Word::Tr, b'u') => Some(Phase::InWord(Word::Tru)),
        (Word::F, b'a') => Some(Phase::InWord(Word::Fa)),
        (Word::Fa, b'l') => Some(Phase::InWord(Word::Fal)),
        (Word::Fal, b's') => Some(Phase::InWord(Word::Fals)),
        (Word::N, b'u') => Some(Phase::InWord(Word::Nu)),
        (Word::Nu, b'l') => Some(Phase::InWord(Word::Nul)),
        (Word::Tru | Word::Fals, b'e') => Some(Phase::Behind),
        (Word::Nul, b'l') => Some(Phase::Behind),
        _ => None,
    }
}

#[inline]
fn in_number(digits: Digits, inside: &mut Nesting, symbol: Symbol) -> Option<Phase>
    ensures { option_map (λ p. at p inside.new) result
        ≡ in_number digits inside.old symbol (in_digits symbol digits) }
{
    if let Some(next) = in_digits(digits, symbol) {
        return Some(Phase::InNumber(next));
    }
    if !may_end(digits) {
        return None;
    }
    behind(inside, symbol)
}

/// Where a value is wanted.
fn wanted(inside: &mut Nesting, symbol: Symbol) -> Option<Phase>
    ensures { option_map (λ p. at p inside.new) result ≡ wanted inside.old symbol }
{
    match symbol {
        Symbol::Space => Some(Phase::Wanted),
        Symbol::Quote => Some(Phase::InString(false, Within::Plain)),
        Symbol::BeginArray if inside.has_room() => {
            inside.push(Bracket::Square);
            Some(Phase::FirstItem)
        }
        Symbol::BeginObject if inside.has_room() => {
            inside.push(Bracket::Curly);
            Some(Phase::FirstKey)
        }
        Symbol::Minus => Some(Phase::InNumber(Digits::Signed)),
        Symbol::Nought => Some(Phase::InNumber(Digits::Zero)),
        Symbol::Digit => Some(Phase::InNumber(Digits::Whole)),
        Symbol::BeginTrue => Some(Phase::InWord(Word::T)),
        Symbol::BeginFalse => Some(Phase::InWord(Word::F)),
        Symbol::BeginNull => Some(Phase::InWord(Word::N)),
        _ => None,
    }
}

/// After a value.
fn behind(inside: &mut Nesting, symbol: Symbol) -> Option<Phase>
    ensures { option_map (λ p. at p inside.new) result ≡ behind inside.old symbol }
{
    if let Symbol::Space = symbol {
        return Some(Phase::Behind);
    }
    match (inside.innermost(), symbol) {
        (Some(Bracket::Square), Symbol::Comma) => Some(Phase::Wanted),
        (Some(Bracket::Curly), Symbol::Comma) => Some(Phase::Key),
        (Some(Bracket::Square), Symbol::EndArray) => {
            inside.pop();
            Some(Phase::Behind)
        }
        (Some(Bracket::Curly), Symbol::EndObject) => {
            inside.pop();
            Some(Phase::Behind)
        }
        _ => None,
    }
}

/// After the bracket that opens an array.
fn first_item(inside: &mut Nesting, symbol: Symbol) -> Option<Phase>
    ensures { option_map (λ p. at p inside.new) result ≡ first_item inside.old symbol }
{
    match symbol {
        Symbol::Space => Some(Phase::FirstItem),
        Symbol::EndArray => {
            inside.pop();
            Some(Phase::Behind)
        }
        other => wanted(inside, other),
    }
}

/// After the bracket that opens an object.
fn first_key(inside: &mut Nesting, symbol: Symbol) -> Option<Phase>
    ensures { option_map (λ p. at p inside.new) result ≡ first_key inside.old symbol }
{
    match symbol {
        Symbol::Space => Some(Phase::FirstKey),
        Symbol::EndObject => {
            inside.pop();
            Some(Phase::Behind)
        }
        Symbol::Quote => Some(Phase::InString(true, Within::Plain)),
        _ => None,
    }
}

/// After a comma in an object.
fn key(symbol: Symbol) -> Option<Phase>
    ensures { (inside : List Bracket) → option_map (λ p. at p inside) result ≡ key inside symbol }
{
    match symbol {
        Symbol::Space => Some(Phase::Key),
        Symbol::Quote => Some(Phase::InString(true, Within::Plain)),
        _ => None,
    }
}

/// After a key.
fn behind_key(symbol: Symbol) -> Option<Phase>
    ensures { (inside : List Bracket)
        → option_map (λ p. at p inside) result ≡ behind_key inside symbol }
{
    match symbol {
        Symbol::Space => Some(Phase::BehindKey),
        Symbol::Colon => Some(Phase::Wanted),
        _ => None,
    }
}
