//! What strings stand for. (RFC 8259, sections 7 and 8.2)

ghost use Rattle.std.specs.Prelude.{◌≡◌, ◌++◌, ◌∷◌, ℕ, List, true, false, is_some, Option, Some, None, option_map, IfOk, if◌then◌else◌};
ghost use Rattle.std.specs.Char.{digit_value};
ghost use Rattle.vm_json.specs.Grammar.{Piece, unit};
ghost use Rattle.vm_jsonline.specs.Strings.{is_high, is_low, joined, with_char, text_from, letter_unit, with_digit, pieces, given as given_of, raw_text, utf8_only, string_reading, is_paired};
ghost use Rattle.vm_jsonline.specs.declared.strings.Pending.TheVariants as pendings;

use memchr::memchr;
use std::alloc::{AllocError, Global};
use vm_base::Text;

/// What of an escape has been read.
#[derive(Clone, Copy)]
pub(crate) enum Pending {
    Nothing,
    /// A backslash.
    Slash,
    /// So many digits of `\uXXXX` are left after the next, and what the ones so far write.
    Hexes(u8, u32),
}

/// What a byte of a string leads to.
#[derive(Clone, Copy)]
pub(crate) enum Given {
    Nothing,
    /// Half a pair of UTF-16 stands alone.
    Lone,
    Byte(u8),
    Char(char),
}

/// Reads what stands between quotes, one byte at a time.
#[derive(Clone, Copy)]
struct Decoder {
    pending: Pending,
    /// The first half of a pair of UTF-16, where one has just been read.
    high: Option<u32>,
}

impl Decoder {
    const START: Decoder = Decoder {
        pending: Pending::Nothing,
        high: None,
    };

    /// Reads a byte.
    fn next(self, byte: u8) -> (Decoder, Given)
        ensures { (more : List ℕ) → text_from self.high (pieces self.pending (byte ∷ more))
            ≡ given_of result.1 (text_from result.0.high (pieces result.0.pending more)) }
    {
        match self.pending {
            Pending::Nothing => self.plain(byte),
            Pending::Slash => self.escaped(byte),
            Pending::Hexes(0, value) => self.unit(with_digit(value, byte)),
            Pending::Hexes(left, value) => {
                let pending = Pending::Hexes(left - 1, with_digit(value, byte));
                (Decoder { pending, ..self }, Given::Nothing)
            }
        }
    }

    /// Reads a byte where nothing is open.
    fn plain(self, byte: u8) -> (Decoder, Given)
        ensures { (more : List ℕ) → text_from self.high (pieces pendings.Nothing (byte ∷ more))
            ≡ given_of result.1 (text_from result.0.high (pieces result.0.pending more)) }
    {
        if byte == b'\\' {
            let pending = Pending::Slash;
            return (Decoder { pending, ..self }, Given::Nothing);
        }
        match self.high {
            None => (Decoder::START, Given::Byte(byte)),
            Some(_) => (Decoder::START, Given::Lone),
        }
    }

    /// Reads a byte after a backslash.
    fn escaped(self, byte: u8) -> (Decoder, Given)
        ensures { (more : List ℕ) → text_from self.high (pieces pendings.Slash (byte ∷ more))
            ≡ given_of result.1 (text_from result.0.high (pieces result.0.pending more)) }
    {
        if byte == b'u' {
            let pending = Pending::Hexes(3, 0);
            return (Decoder { pending, ..self }, Given::Nothing);
        }
        self.unit(letter_unit(byte))
    }

    /// Takes a code unit, with which an escape ends.
    fn unit(self, code: u32) -> (Decoder, Given)
        ensures { (more : List ℕ) → text_from self.high (unit code ∷ pieces pendings.Nothing more)
            ≡ given_of result.1 (text_from result.0.high (pieces result.0.pending more)) }
    {
        let high = match self.high {
            None if is_high(code) => Some(code),
            _ => None,
        };
        let given = match self.high {
            None if is_high(code) => Given::Nothing,
            None => char_given(code),
            Some(high) if is_low(code) => char_given(joined(high, code)),
            Some(_) => Given::Lone,
        };
        let pending = Pending::Nothing;
        (Decoder { pending, high }, given)
    }
}

fn is_high(unit: u32) -> bool
    ensures { result ≡ is_high unit }
{
    unit >= 0xD800 && unit <= 0xDBFF
}

fn is_low(unit: u32) -> bool
    ensures { result ≡ is_low unit }
{
    unit >= 0xDC00 && unit <= 0xDFFF
}

fn joined(high: u32, low: u32) -> u32
    ensures { result ≡ joined high low }
{
    0x10000 + high % 0x400 * 0x400 + low % 0x400
}

/// A character, unless it is half a pair.
fn char_given(code: u32) -> Given
    ensures { (rest : Option (List ℕ)) → given_of result rest ≡ with_char code rest }
{
    match char::from_u32(code) {
        Some(c) => Given::Char(c),
        None => Given::Lone,
    }
}

/// The code unit of a letter after a backslash.
fn letter_unit(letter: u8) -> u32
    ensures { result ≡ letter_unit letter }
{
    match letter {
        b'b' => 8,
        b'f' => 12,
        b'n' => 10,
        b'r' => 13,
        b't' => 9,
        other => u32::from(other),
    }
}

fn with_digit(value: u32, digit: u8) -> u32
    ensures { result ≡ with_digit value digit }
{
    value % 0x1000 * 16 + u32::from(digit_value(digit))
}

/// The value of a digit or letter, 36 of any other byte.
fn digit_value(digit: u8) -> u8
    ensures { result ≡ digit_value digit }
{
    match digit {
        b'0'..=b'9' => digit - b'0',
        b'A'..=b'Z' => digit - b'A' + 10,
        b'a'..=b'z' => digit - b'a' + 10,
        _ => 36,
    }
}

/// The text of what stands between quotes, none where half a pair of UTF-16 stands alone.
#[tactic(auto, unfolding(crate::specs::Strings::string_reading))]
pub(crate) fn string_text(alloc: Global, raw: &[u8]) -> Result<Option<Text>, AllocError>
    ensures { IfOk result (λ text. text ≡ string_reading raw.now) }
{
    if is_bare(raw) {
        return utf8_text(alloc, raw);
    }
    let mut bytes = Vec::new(alloc);
    if !push_raw(&mut bytes, raw)? {
        return Ok(None);
    }
    utf8_text(alloc, &bytes)
}

/// Whether a text holds no backslash. Then it stands for itself.
fn is_bare(text: &[u8]) -> bool
    ensures { result ≡ true → raw_text text.now ≡ Some text.now }
{
    match memchr(b'\\', text) {
        None => true,
        Some(_) => false,
    }
}

fn utf8_text(alloc: Global, bytes: &[u8]) -> Result<Option<Text>, AllocError>
    ensures { IfOk result (λ text. text ≡ utf8_only bytes.now) }
{
    match std::str::from_utf8(bytes) {
        Ok(text) => Ok(Some(Text::from_str(alloc, text)?)),
        Err(_) => Ok(None),
    }
}

/// Appends what stands between quotes to an empty text, or says that half a pair stands alone.
fn push_raw(bytes: &mut Vec<u8>, raw: &[u8]) -> Result<bool, AllocError>
    ensures { IfOk result (λ whole. option_map (λ text. bytes.old.items ++ text) (raw_text raw.now)
        ≡ (if whole then Some bytes.new.items else None)) }
{
    let mut decoder = Decoder::START;
    for byte in raw {
        let (next, given) = decoder.next(*byte);
        if !push_given(bytes, given)? {
            return Ok(false);
        }
        decoder = next;
    }
    Ok(decoder.high.is_none())
}

/// Appends what is given, or says that half a pair stands alone.
fn push_given(bytes: &mut Vec<u8>, given: Given) -> Result<bool, AllocError>
    ensures { IfOk result
        (λ whole. (rest : Option (List ℕ))
        → option_map (λ text. bytes.old.items ++ text) (given_of given rest)
        ≡ (if whole then option_map (λ text. bytes.new.items ++ text) rest else None)) }
{
    match given {
        Given::Nothing => {}
        Given::Lone => return Ok(false),
        Given::Byte(byte) => bytes.push(byte)?,
        Given::Char(c) => bytes.extend_from_slice(c.encode_utf8(&mut [0; 4]).as_bytes())?,
    }
    Ok(true)
}

/// Whether no half of a pair of UTF-16 stands alone in a text.
#[tactic(auto, unfolding(crate::specs::Strings::is_paired))]
pub(crate) fn is_paired(text: &[u8]) -> bool
    ensures { result ≡ is_paired text.now }
{
    if is_bare(text) {
        return true;
    }
    let mut decoder = Decoder::START;
    for byte in text {
        let (next, given) = decoder.next(*byte);
        if is_lone(given) {
            return false;
        }
        decoder = next;
    }
    decoder.high.is_none()
}

fn is_lone(given: Given) -> bool
    ensures { (rest : Option (List ℕ))
        → is_some (given_of given rest) ≡ (if result then false else is_some rest) }
{
    matches!(given, Given::Lone)
}
