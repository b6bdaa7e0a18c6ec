//! The tokens of a text.

ghost use Rattle.std.specs.Prelude.{All, ◌≡◌, ◌↔◌, ◌<◌, ◌++◌, ℕ, length, IfOk, OnOk, Err};
ghost use Rattle.mql_lex.specs.Reading.{reading, lexed, or_bad, token_of, Gives};
ghost use Rattle.mql_lex.specs.Tokens.{AreTokens, AreInOrder, IsBad, StandsIn};
ghost use Rattle.mql_lex.specs.declared.fault.LexFault.TheVariants.{TooLong, BadToken};

use crate::fault::LexFault;
use crate::piece::{Piece, piece_at};
use crate::token::Token;
use std::alloc::{AllocError, Global};
use vm_base::List;
use vm_base::limits::MAX_QUERY_TEXT;

/// Cuts a query's text into its tokens, each the longest at its place, in the order in which they
/// stand. Between them stand spaces, tabs, carriage returns, line feeds and comments from `#` to
/// the line's end, and nothing else. A token's text is the slice at its place, of its length.
///
/// `TooLong` comes exactly for a text of more than 16,384 bytes, whatever it holds. `BadToken`
/// names the first byte where no token, blank or comment begins.
///
/// (PromQL, "Literals"; MetricsQL)
pub fn tokens(alloc: Global, text: &str) -> Result<List<Token>, LexFault>
    // What `Ok` holds.
    ensures tokens { IfOk result (AreTokens text.now) }
    ensures slices { IfOk result (All (StandsIn text.now)) }
    ensures order { IfOk result (AreInOrder 0) }

    // When each error comes.
    ensures too_long { (n : ℕ)
        → (result ≡ Err (TooLong n)) ↔ ((16384 < length text.now) × (n ≡ length text.now)) }
    ensures bad_token { (at : ℕ) → result ≡ Err (BadToken at) → IsBad text.now at }

    // The same as a function of the text, where memory doesn't run out.
    ensures value { Gives result (reading text.now) }
{
    let bytes = text.as_bytes();
    if bytes.len() as u64 > MAX_QUERY_TEXT {
        return Err(LexFault::TooLong {
            n: bytes.len() as u64,
        });
    }
    cut(alloc, bytes)
}

/// The tokens of a text of any length.
fn cut(alloc: Global, text: &[u8]) -> Result<List<Token>, LexFault>
    ensures { Gives result (or_bad (lexed 0 0 text.now)) }
{
    let mut found = List::new(alloc);
    let mut at = 0;
    'pieces: while at < text.len() {
        let Some((piece, len)) = piece_at(&text[at..]) else {
            return Err(LexFault::BadToken { at: at as u64 });
        };
        push_piece(&mut found, piece, at, len)?;
        at += len;
    }
    Ok(found)
}

/// Adds a piece to the tokens where it is one.
fn push_piece(
    found: &mut List<Token>,
    piece: Piece,
    at: usize,
    len: usize,
) -> Result<(), AllocError>
    ensures { OnOk result (found.new ≡ found.old ++ token_of piece at len) }
{
    if let Piece::Token(kind) = piece {
        found.push(Token {
            kind,
            at: at as u64,
            len: len as u64,
        })?;
    }
    Ok(())
}
