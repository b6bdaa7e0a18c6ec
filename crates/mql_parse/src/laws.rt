//! That the machine reads the grammar and nothing else.

ghost use Rattle.std.specs.Prelude.{◌≡◌, ◌↔◌, ◌++◌, ◌∷◌, ℕ, true, false, List, Some, None, Err};
ghost use Rattle.vm_base.specs.Run.{run, result as result_of};
ghost use Rattle.mql_expr.specs.Tree.{Tree};
ghost use Rattle.mql_lists.specs.Classes.{class_of_word};
ghost use Rattle.mql_lists.specs.Words.{Word};
ghost use Rattle.mql_parse.specs.Faults.{IsUnexpected, IsBeyond};
ghost use Rattle.mql_parse.specs.Grammar.{Spells};
ghost use Rattle.mql_parse.specs.Machine.{State, by, step as step_of, final_of, start};
ghost use Rattle.mql_parse.specs.declared.fault.Wrong.TheVariants.{Unexpected, TooDeep, NumberTooWide};

/// The machine reads expressions as the grammar says, and nothing else.
pub fn expressions_are_read()
    ensures { (len : ℕ) (words : List Word) (t : Tree)
        → Spells len words t ↔ (result_of (step_of len) final_of start words ≡ Some t) }
{}

/// Words are one expression at most.
pub fn words_are_one_expression()
    ensures { (len : ℕ) (words : List Word) (t u : Tree) → Spells len words t → Spells len words u
        → t ≡ u }
{}

/// Where the machine can't go on with a word, that word is the first wrong one, and what it answers
/// says why. Where the words end too early, they do at their end.
pub fn wrong_words_are_named()
    ensures unexpected { (len : ℕ) (front rest : List Word) (s : State) (w : Word)
        → run (step_of len) start front ≡ Some s
        → by len s.frames s.before w (class_of_word w) ≡ Err Unexpected
        → IsUnexpected len (front ++ (w ∷ rest)) w.at }
    ensures too_deep { (len : ℕ) (front rest : List Word) (s : State) (w : Word)
        → run (step_of len) start front ≡ Some s
        → by len s.frames s.before w (class_of_word w) ≡ Err TooDeep
        → IsBeyond false len (front ++ (w ∷ rest)) w.at }
    ensures too_wide { (len : ℕ) (front rest : List Word) (s : State) (w : Word)
        → run (step_of len) start front ≡ Some s
        → by len s.frames s.before w (class_of_word w) ≡ Err NumberTooWide
        → IsBeyond true len (front ++ (w ∷ rest)) w.at }
    ensures short { (len : ℕ) (words : List Word) (s : State)
        → run (step_of len) start words ≡ Some s
        → final_of s ≡ None → IsUnexpected len words len }
{}
