//! That canonical text is read back.

ghost use Rattle.mql_laws.specs.Lexed.{PrintsItsWords};
ghost use Rattle.mql_laws.specs.ReadBack.{PrintedIsRead, SaidIsRead, TextIsSaid, SameText, OneQuery};

/// The text that `print` writes has the words of the query as its tokens and no others, where names
/// are names, numbers aren't below zero, a selector has a name or braces, and of several lists none
/// is empty.
pub fn what_is_printed_is_its_words()
    ensures { PrintsItsWords }
{}

/// The canonical text of an expression reads as the same expression. Only places, the side of a
/// call's only group and the case of a function's name may differ, and only the limits on length
/// and depth may refuse it.
pub fn what_is_printed_is_read_back()
    ensures of_texts { PrintedIsRead }
    ensures of_trees { SaidIsRead }
    ensures texts_are { TextIsSaid }
{}

/// The same queries have one canonical text. Of the queries that a text can say no two others share
/// one.
pub fn canonical_text_is_one_query()
    ensures same { SameText }
    ensures apart { OneQuery }
{}
