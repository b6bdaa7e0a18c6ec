//! That lines mean one thing, and that a script is read in one way and prints one text.

ghost use Rattle.vm_top.specs.Laws.{NoBadLine, OneBadLine, OneMeaning, OnePlay, SomeMeaning};

/// Lines of a format mean something, whatever they are, and one thing alone.
pub fn lines_mean_one_thing()
    ensures some { SomeMeaning }
    ensures one { OneMeaning }
{}

/// A script has at most one first line outside its grammar, and none where all its lines are
/// commands.
pub fn one_line_is_the_first_bad_one()
    ensures one { OneBadLine }
    ensures none { NoBadLine }
{}

/// A script prints one text: two plays of it print the same, unless an answer is that memory ran
/// out.
pub fn a_script_prints_one_text()
    ensures { OnePlay }
{}
