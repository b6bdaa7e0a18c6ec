//! The brackets that are open at a place.

ghost use Rattle.std.specs.Prelude.{◌≡◌, ◌∷◌, [], ◌<◌, ◌==◌, length, drop, nat_lt};
ghost use Rattle.vm_json.specs.inner.Nesting.{innermost};

use std::marker::Model;

/// How many brackets may be open at a place.
pub const MAX_NESTING: u8 = 100;

/// What is open: an array or an object.
#[derive(Clone, Copy)]
pub(crate) enum Bracket {
    Square,
    Curly,
}

/// The brackets that are open, 100 at most. Contracts see the list of them, the innermost first.
#[derive(Drop)]
pub(crate) struct Nesting {
    // one bit each, the innermost in the lowest: 1 where it is an object
    bits: u128,
    count: u8,
}

impl Model for Nesting {
    ghost use Rattle.std.specs.Prelude.{List};
    ghost use Rattle.vm_json.specs.inner.Nesting.{brackets, IsNesting};
    ghost use Rattle.vm_json.specs.declared.nesting.Bracket.{Bracket};

    ghost Value = { List Bracket };

    ghost view = { λ n. brackets n.count n.bits };

    ghost invariant = { λ n. IsNesting n.count n.bits };
}

impl Nesting {
    /// No bracket.
    pub(crate) fn none() -> Nesting
        ensures { result ≡ [] }
    {
        Nesting { bits: 0, count: 0 }
    }

    pub(crate) fn is_none(&self) -> bool
        ensures { result ≡ (length self.now == 0) }
    {
        self.count == 0
    }

    /// Whether one more may be opened.
    pub(crate) fn has_room(&self) -> bool
        ensures { result ≡ nat_lt (length self.now) 100 }
    {
        self.count < MAX_NESTING
    }

    pub(crate) fn push(&mut self, bracket: Bracket)
        requires { length self.old < 100 }
        ensures { self.new ≡ bracket ∷ self.old }
    {
        let bit = match bracket {
            Bracket::Square => 0,
            Bracket::Curly => 1,
        };
        self.bits = self.bits * 2 + bit;
        self.count += 1;
    }

    /// Closes the innermost bracket, where there is one.
    pub(crate) fn pop(&mut self)
        ensures { self.new ≡ drop 1 self.old }
    {
        if self.count > 0 {
            self.bits /= 2;
            self.count -= 1;
        }
    }

    /// The innermost bracket.
    pub(crate) fn innermost(&self) -> Option<Bracket>
        ensures { result ≡ innermost self.now }
    {
        if self.count == 0 {
            return None;
        }
        if self.bits % 2 == 0 {
            Some(Bracket::Square)
        } else {
            Some(Bracket::Curly)
        }
    }
}
