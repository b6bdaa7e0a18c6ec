//! That the readers read the grammar and nothing else.

ghost use Rattle.mql_lists.specs.Laws.{NamesAreRead, ParamsAreRead, BracesAreRead};

/// Names in parentheses are read as the grammar says, and nothing else is read.
pub fn names_are_read()
    ensures { NamesAreRead }
{}

/// Parameters of a template are read as the grammar says, and nothing else is read.
pub fn params_are_read()
    ensures { ParamsAreRead }
{}

/// What stands in braces is read as the grammar says, and nothing else is read.
pub fn braces_are_read()
    ensures { BracesAreRead }
{}
