//! The grammar of numbers as a table of moves, one symbol at a time.
ghost use Rattle.std.specs.Prelude.{◌≡◌};
ghost use Rattle.vm_decimal.specs.NumberMachine.{symbol_of as symbol, next as next_phase, may_end as ends};

/// What a byte is to a number.
#[derive(Clone, Copy)]
pub(crate) enum Symbol {
    /// A digit, by its value.
    Digit(u8),
    /// `-`, which is true, or `+`.
    Sign(bool),
    /// `.`
    Point,
    /// `e` or `E`, before an exponent.
    Mark,
    Other,
}

/// How far a number has been read.
#[derive(Clone, Copy)]
pub(crate) enum Phase {
    Start,
    Signed,
    /// Digits, and no point yet.
    Whole,
    /// A point without a digit before it, and no digit after it yet.
    Bare,
    /// Digits and a point.
    Fraction,
    Marked,
    MarkSigned,
    /// Digits of the exponent.
    Power,
}

#[inline]
pub(crate) fn symbol_of(byte: u8) -> Symbol
    ensures { result ≡ symbol byte }
{
    match byte {
        b'0'..=b'9' => Symbol::Digit(byte - b'0'),
        b'+' => Symbol::Sign(false),
        b'-' => Symbol::Sign(true),
        b'.' => Symbol::Point,
        b'e' | b'E' => Symbol::Mark,
        _ => Symbol::Other,
    }
}

/// The phase after a symbol, none where no number goes on with it.
#[inline]
pub(crate) fn next(phase: Phase, symbol: Symbol) -> Option<Phase>
    ensures { result ≡ next_phase phase symbol }
{
    match (phase, symbol) {
        (Phase::Start, Symbol::Sign(_)) => Some(Phase::Signed),
        (Phase::Start | Phase::Signed | Phase::Whole, Symbol::Digit(_)) => Some(Phase::Whole),
        (Phase::Start | Phase::Signed, Symbol::Point) => Some(Phase::Bare),
        (Phase::Whole, Symbol::Point) => Some(Phase::Fraction),
        (Phase::Bare | Phase::Fraction, Symbol::Digit(_)) => Some(Phase::Fraction),
        (Phase::Whole | Phase::Fraction, Symbol::Mark) => Some(Phase::Marked),
        (Phase::Marked, Symbol::Sign(_)) => Some(Phase::MarkSigned),
        (Phase::Marked | Phase::MarkSigned | Phase::Power, Symbol::Digit(_)) => Some(Phase::Power),
        _ => None,
    }
}

/// Whether a number may end here.
#[inline]
pub(crate) fn may_end(phase: Phase) -> bool
    ensures { result ≡ ends phase }
{
    matches!(phase, Phase::Whole | Phase::Fraction | Phase::Power)
}
