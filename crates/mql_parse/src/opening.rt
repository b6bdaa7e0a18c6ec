//! What is opened and closed on the stack.

ghost use Rattle.std.specs.Prelude.{◌≡◌, [], ◌∷◌, ◌==◌, length, nat_lt, true, false, OnOk, IfNone, IfSome, MatchOption};
ghost use Rattle.mql_parse.specs.Grammar.{deepest};
ghost use Rattle.mql_parse.specs.Machine.{opened, opens, ends, first_ends};
ghost use Rattle.mql_parse.specs.inner.Stack.{stack_of};
ghost use Rattle.mql_parse.specs.inner.Views.{the_frame, the_frames};

use crate::stack::{MAX_LEVELS, Stack};
use crate::state::Open;
use mql_expr::level_of_op;
use std::alloc::{AllocError, Global};
use vm_base::List;

impl Stack {
    /// Nothing is open. It takes no memory.
    #[tactic(auto, unfolding(crate::specs::inner::Stack::stack_of))]
    pub(crate) fn new(alloc: Global) -> Stack
        ensures { stack_of result ≡ [] }
    {
        Stack {
            opens: List::new(alloc),
            levels: 0,
        }
    }

    /// Opens one more. Memory ends before the count of levels does.
    #[tactic(auto, unfolding(crate::specs::inner::Stack::stack_of))]
    pub(crate) fn push(&mut self, frame: Open) -> Result<(), AllocError>
        ensures { OnOk result (stack_of self.new ≡ frame ∷ stack_of self.old) }
    {
        let mut levels = self.levels;
        if frame.is_level() {
            levels = levels.checked_add(1).ok_or(AllocError)?;
        }
        self.opens.push(frame)?;
        self.levels = levels;
        Ok(())
    }

    /// Whether nothing is open.
    #[tactic(auto, unfolding(crate::specs::inner::Stack::stack_of))]
    pub(crate) fn is_empty(&self) -> bool
        ensures { result ≡ (length (stack_of self.now) == 0) }
    {
        self.opens.len() == 0
    }

    /// Whether one level more may be opened.
    #[tactic(auto, unfolding(crate::specs::inner::Stack::stack_of))]
    pub(crate) fn has_room(&self) -> bool
        ensures { result ≡ nat_lt (opened (the_frames (stack_of self.now))) deepest }
    {
        self.levels < MAX_LEVELS
    }

    /// Takes off the innermost where an operator of this level ends it. At 0 all end that need no
    /// closing bracket.
    pub(crate) fn pop_ended(&mut self, level: u8) -> Option<Open>
        ensures kept { IfNone result (stack_of self.new ≡ stack_of self.old) }
        ensures none { IfNone result (first_ends level (the_frames (stack_of self.old)) ≡ false) }
        ensures popped { IfSome result (λ frame. stack_of self.old ≡ frame ∷ stack_of self.new) }
        ensures ends { IfSome result (λ frame. ends level (the_frame frame) ≡ true) }
    {
        if self.innermost_ends(level) {
            self.pop()
        } else {
            None
        }
    }

    #[tactic(auto, unfolding(crate::specs::inner::Stack::stack_of))]
    fn innermost_ends(&self, level: u8) -> bool
        ensures { result ≡ first_ends level (the_frames (stack_of self.now)) }
    {
        match self.opens.as_slice().last() {
            Some(frame) => frame.ends(level),
            None => false,
        }
    }

    /// Takes off the innermost.
    #[tactic(auto, unfolding(crate::specs::inner::Stack::stack_of))]
    pub(crate) fn pop(&mut self) -> Option<Open>
        ensures { MatchOption result ((stack_of self.old ≡ []) × (stack_of self.new ≡ []))
            (λ frame. stack_of self.old ≡ frame ∷ stack_of self.new) }
    {
        let frame = self.opens.pop()?;
        if frame.is_level() {
            self.levels -= 1;
        }
        Some(frame)
    }
}

impl Open {
    /// Whether an operator of this level ends it.
    fn ends(&self, level: u8) -> bool
        ensures { result ≡ ends level (the_frame self.now) }
    {
        match self {
            Open::Negating(_) | Open::Adding => true,
            Open::Operating(pending, _) => level <= level_of_op(pending.op),
            Open::Scoped(_) => level == 0,
            Open::Round | Open::Calling(_) | Open::Defining(_, _, _) => false,
        }
    }

    /// Whether it is a level.
    fn is_level(&self) -> bool
        ensures { result ≡ opens (the_frame self.now) }
    {
        match self {
            Open::Round | Open::Negating(_) | Open::Adding | Open::Calling(_) => true,
            Open::Defining(_, _, _) => true,
            Open::Operating(_, _) | Open::Scoped(_) => false,
        }
    }
}
