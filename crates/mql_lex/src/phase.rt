//! How far a piece of a text was read, one byte a step.

ghost use Rattle.std.specs.Prelude.{◌≡◌};
ghost use Rattle.mql_lex.specs.Machine.{next as next_phase, first as first_phase, behind_whole as whole_phase, behind_count as count_phase, within as string_phase, digit_or as digit_phase, only_if as tested_phase, piece_of as piece};

use crate::bytes::{
    begins_name, is_blank, is_escape, is_lone_mark, is_mark_letter, is_name_byte, is_quote,
    is_sign, is_unit,
};
use crate::piece::Piece;
use crate::token::TokenKind;

/// How far a piece was read. No call takes or gives one: it is a word of the laws of `mql_laws`.
#[derive(Clone, Copy)]
pub enum Phase {
    /// Nothing was read.
    Start,
    /// A name so far.
    Named,
    /// Digits, of a number or before a unit.
    Whole,
    /// A point without a digit.
    Bare,
    /// Digits and a point.
    Fraction,
    /// The letter of an exponent.
    Marked,
    /// The letter of an exponent and a sign.
    MarkSigned,
    /// The digits of an exponent.
    Power,
    /// `m` after digits, which may become `ms`.
    Minutes,
    /// Any other unit.
    Counted,
    /// Digits after a unit.
    Counting,
    /// In a string that this quote opened.
    Within(u8),
    /// In such a string, after a backslash.
    Escaped(u8),
    /// A string with its closing quote.
    Closed,
    /// A mark with which no longer one begins.
    Marking,
    /// `=`
    Equals,
    /// `!`
    Bang,
    /// `<` or `>`
    Angle,
    /// Blanks.
    Blanks,
    /// A comment.
    Comment,
}

/// The phase after a byte, none where no piece goes on with it.
pub(crate) fn next(phase: Phase, byte: u8) -> Option<Phase>
    ensures { result ≡ next_phase phase byte }
{
    match phase {
        Phase::Start => first(byte),
        Phase::Named => only_if(Phase::Named, is_name_byte(byte)),
        Phase::Whole => digit_or(Phase::Whole, byte, behind_whole(byte)),
        Phase::Bare => digit_or(Phase::Fraction, byte, None),
        Phase::Fraction => {
            let marked = only_if(Phase::Marked, is_mark_letter(byte));
            digit_or(Phase::Fraction, byte, marked)
        }
        Phase::Marked => {
            let signed = only_if(Phase::MarkSigned, is_sign(byte));
            digit_or(Phase::Power, byte, signed)
        }
        Phase::MarkSigned | Phase::Power => digit_or(Phase::Power, byte, None),
        Phase::Minutes => {
            let counted = only_if(Phase::Counted, byte == b's');
            digit_or(Phase::Counting, byte, counted)
        }
        Phase::Counted => digit_or(Phase::Counting, byte, None),
        Phase::Counting => digit_or(Phase::Counting, byte, behind_count(byte)),
        Phase::Within(quote) => within(quote, byte),
        Phase::Escaped(quote) => only_if(Phase::Within(quote), is_escape(byte)),
        Phase::Closed | Phase::Marking => None,
        Phase::Equals | Phase::Bang => only_if(Phase::Marking, byte == b'=' || byte == b'~'),
        Phase::Angle => only_if(Phase::Marking, byte == b'='),
        Phase::Blanks => only_if(Phase::Blanks, is_blank(byte)),
        Phase::Comment => only_if(Phase::Comment, byte != b'\n'),
    }
}

/// The phase after the first byte of a piece.
fn first(byte: u8) -> Option<Phase>
    ensures { result ≡ first_phase byte }
{
    if byte.is_ascii_digit() {
        Some(Phase::Whole)
    } else if begins_name(byte) {
        Some(Phase::Named)
    } else if is_blank(byte) {
        Some(Phase::Blanks)
    } else if byte == b'.' {
        Some(Phase::Bare)
    } else if is_quote(byte) {
        Some(Phase::Within(byte))
    } else if byte == b'#' {
        Some(Phase::Comment)
    } else if byte == b'=' {
        Some(Phase::Equals)
    } else if byte == b'!' {
        Some(Phase::Bang)
    } else if byte == b'<' || byte == b'>' {
        Some(Phase::Angle)
    } else {
        only_if(Phase::Marking, is_lone_mark(byte))
    }
}

/// The phase after a byte that isn't a digit and follows digits, which may be of a number.
fn behind_whole(byte: u8) -> Option<Phase>
    ensures { result ≡ whole_phase byte }
{
    if byte == b'.' {
        Some(Phase::Fraction)
    } else if is_mark_letter(byte) {
        Some(Phase::Marked)
    } else {
        behind_count(byte)
    }
}

/// The phase after a byte that follows digits and begins a unit.
fn behind_count(byte: u8) -> Option<Phase>
    ensures { result ≡ count_phase byte }
{
    if byte == b'm' {
        Some(Phase::Minutes)
    } else {
        only_if(Phase::Counted, is_unit(byte))
    }
}

/// The phase after a byte in a string that this quote opened.
fn within(quote: u8, byte: u8) -> Option<Phase>
    ensures { result ≡ string_phase quote byte }
{
    if byte == quote {
        Some(Phase::Closed)
    } else if byte == b'\\' {
        Some(Phase::Escaped(quote))
    } else {
        Some(Phase::Within(quote))
    }
}

/// This phase after a digit.
fn digit_or(phase: Phase, byte: u8, other: Option<Phase>) -> Option<Phase>
    ensures { result ≡ digit_phase phase byte other }
{
    if byte.is_ascii_digit() {
        Some(phase)
    } else {
        other
    }
}

/// This phase where a test holds.
fn only_if(phase: Phase, test: bool) -> Option<Phase>
    ensures { result ≡ tested_phase phase test }
{
    if test { Some(phase) } else { None }
}

/// The piece that may end in a phase.
pub(crate) fn piece_of(phase: Phase) -> Option<Piece>
    ensures { result ≡ piece phase }
{
    match phase {
        Phase::Named => Some(Piece::Token(TokenKind::Name)),
        Phase::Whole | Phase::Fraction | Phase::Power => Some(Piece::Token(TokenKind::Number)),
        Phase::Minutes | Phase::Counted => Some(Piece::Token(TokenKind::Duration)),
        Phase::Closed => Some(Piece::Token(TokenKind::Str)),
        Phase::Marking | Phase::Equals | Phase::Angle => Some(Piece::Token(TokenKind::Mark)),
        Phase::Blanks | Phase::Comment => Some(Piece::Gap),
        _ => None,
    }
}
