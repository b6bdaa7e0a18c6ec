//! The piece at the front of a text: a token, or what may stand between two.

ghost use Rattle.std.specs.Prelude.{◌≡◌, ◌<◌, ◌≤◌, length, IfSome};
ghost use Rattle.mql_lex.specs.Grammar.{may_end as ends_before};
ghost use Rattle.mql_lex.specs.Reading.{reach as reached, piece_reading};
ghost use Rattle.mql_lex.specs.declared.phase.Phase.TheVariants.{Start};

use crate::bytes::is_word_byte;
use crate::phase::{Phase, next, piece_of};
use crate::token::TokenKind;

/// What a piece is. No call takes or gives one: it is a word of the laws of `mql_laws`.
#[derive(Clone, Copy)]
pub enum Piece {
    /// A token.
    Token(TokenKind),
    /// Blanks or a comment.
    Gap,
}

/// The longest piece at the front of a text and its length, none where none begins there.
#[tactic(auto, unfolding(crate::specs::Reading::piece_reading))]
pub(crate) fn piece_at(text: &[u8]) -> Option<(Piece, usize)>
    ensures value { result ≡ piece_reading text.now }
    ensures some { IfSome result (λ p. 0 < p.1) }
    ensures within { IfSome result (λ p. p.1 ≤ length text.now) }
{
    let (len, phase) = reach(text);
    let piece = piece_of(phase)?;
    if may_end(piece, &text[len..]) {
        Some((piece, len))
    } else {
        None
    }
}

/// How many bytes at the front of a text may stand in one piece, and the phase after them.
fn reach(text: &[u8]) -> (usize, Phase)
    ensures value { result ≡ reached Start text.now }
    ensures within { result.0 ≤ length text.now }
{
    let mut phase = Phase::Start;
    for (at, byte) in text.iter().enumerate() {
        match next(phase, *byte) {
            Some(further) => phase = further,
            None => return (at, phase),
        }
    }
    (text.len(), phase)
}

/// Whether a piece may stand right before a text.
fn may_end(piece: Piece, more: &[u8]) -> bool
    ensures { result ≡ ends_before piece more.now }
{
    match piece {
        Piece::Token(TokenKind::Number | TokenKind::Duration) => {
            more.is_empty() || !is_word_byte(more[0])
        }
        _ => true,
    }
}
