//! Names in parentheses, as those of `by (job, instance)`.

ghost use Rattle.std.specs.Prelude.{◌≡◌, ◌++◌, ◌∷◌, [], IfOk};
ghost use Rattle.mql_lex.specs.Tokens.{StandsIn};
ghost use Rattle.mql_lists.specs.Words.{word_of};
ghost use Rattle.mql_lists.specs.Machines.{names_start, names_step, names_go};

use crate::progress::Progress;
use crate::role::{Role, role_of_token};
use crate::word::name_text;
use mql_lex::Token;
use std::alloc::{AllocError, Global};
use vm_base::{List, Text};

/// Reads the names of labels after `(`, up to `)`. They are parted by commas, and one may stand
/// after the last. A reserved word may be a name here. (PromQL, "Aggregation operators")
#[derive(Drop)]
pub struct NamesReader {
    /// The names that were read.
    names: List<Text>,
    /// Whether a name may come next, and no comma.
    wanted: bool,
}

impl NamesReader {
    /// After `(`. It takes no memory.
    pub fn new(alloc: Global) -> NamesReader
        ensures { result ≡ names_start }
    {
        NamesReader {
            names: List::new(alloc),
            wanted: true,
        }
    }

    /// Takes one more token of the text. None is said of a token with which no names go on.
    pub fn step(
        self,
        alloc: Global,
        text: &str,
        token: Token,
    ) -> Result<Option<Progress<NamesReader, List<Text>>>, AllocError>
        requires { StandsIn text.now token }
        ensures { IfOk result (λ progress. progress ≡ names_step self (word_of text.now token)) }
    {
        let NamesReader { names, wanted } = self;
        let role = role_of_token(text, token);
        if wanted && role.is_label() {
            let names = with_name(names, name_text(alloc, text, token)?)?;
            return Ok(goes(names, false));
        }
        match role {
            Role::Next if !wanted => Ok(goes(names, true)),
            Role::EndRound => Ok(Some(Progress::Done(names))),
            _ => Ok(None),
        }
    }
}

fn goes(names: List<Text>, wanted: bool) -> Option<Progress<NamesReader, List<Text>>>
    ensures { result ≡ names_go names wanted }
{
    Some(Progress::Goes(NamesReader { names, wanted }))
}

fn with_name(names: List<Text>, name: Text) -> Result<List<Text>, AllocError>
    ensures { IfOk result (λ all. all ≡ names ++ name ∷ []) }
{
    let mut all = names;
    all.push(name)?;
    Ok(all)
}
