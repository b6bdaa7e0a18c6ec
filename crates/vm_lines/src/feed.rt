//! The line feeds and carriage returns of bytes that were read.

ghost use Rattle.std.specs.Prelude.{◌≡◌, ◌≤◌, ◌+◌, ◌<◌, length, take, MatchOption};
ghost use Rattle.vm_lines.specs.Feeds.{HasNoFeed, IsFirstFeed};
ghost use Rattle.vm_lines.specs.Lines.{without_return};

use memchr::memchr;

/// The place of the first line feed. None stands before `searched`.
pub fn line_feed(bytes: &[u8], searched: usize) -> Option<usize>
    requires within { searched ≤ length bytes.now }
    requires clear { HasNoFeed (take searched bytes.now) }
    ensures { MatchOption result (HasNoFeed bytes.now) (IsFirstFeed bytes.now) }
{
    match first_feed(&bytes[searched..]) {
        Some(at) => Some(searched + at),
        None => None,
    }
}

#[tactic(auto, using(crate::proofs::LineLaws::feed_missing, crate::proofs::LineLaws::feed_found))]
pub fn first_feed(bytes: &[u8]) -> Option<usize>
    ensures { MatchOption result (HasNoFeed bytes.now) (IsFirstFeed bytes.now) }
{
    memchr(b'\n', bytes)
}

/// A piece without the carriage return at its end, if it has one.
pub fn without_return(piece: &[u8]) -> &[u8]
    ensures { result.now ≡ without_return piece.now }
{
    match piece {
        [front @ .., b'\r'] => front,
        _ => piece,
    }
}
