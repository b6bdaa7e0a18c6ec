//! The parameters of a template, as those of `f(x, y) = x / y`.

ghost use Rattle.std.specs.Prelude.{◌≡◌, ◌++◌, ◌∷◌, [], IfOk};
ghost use Rattle.mql_lex.specs.Tokens.{StandsIn};
ghost use Rattle.mql_lists.specs.Words.{word_of};
ghost use Rattle.mql_lists.specs.Machines.{params_start, params_step, params_go};

use crate::progress::Progress;
use crate::role::{Role, role_of_token};
use crate::word::name_text;
use mql_expr::Param;
use mql_lex::Token;
use std::alloc::{AllocError, Global};
use vm_base::List;

/// Reads the parameters of a template after `(`, up to `)`. They are parted by commas, with none
/// after the last, and no reserved word is one. (MetricsQL, "WITH templates")
#[derive(Drop)]
pub struct ParamsReader {
    /// The parameters that were read.
    params: List<Param>,
    spot: Spot,
}

/// What was read last.
#[derive(Clone, Copy)]
pub(crate) enum Spot {
    /// `(`
    Opened,
    BehindName,
    BehindComma,
}

impl ParamsReader {
    /// After `(`. It takes no memory.
    pub fn new(alloc: Global) -> ParamsReader
        ensures { result ≡ params_start }
    {
        ParamsReader {
            params: List::new(alloc),
            spot: Spot::Opened,
        }
    }

    /// Takes one more token of the text. None is said of a token with which no parameters go on.
    pub fn step(
        self,
        alloc: Global,
        text: &str,
        token: Token,
    ) -> Result<Option<Progress<ParamsReader, List<Param>>>, AllocError>
        requires { StandsIn text.now token }
        ensures { IfOk result (λ progress. progress ≡ params_step self (word_of text.now token)) }
    {
        let ParamsReader { params, spot } = self;
        match role_of_token(text, token) {
            Role::Free if !matches!(spot, Spot::BehindName) => {
                let name = name_text(alloc, text, token)?;
                let params = with_param(params, Param { at: token.at, name })?;
                Ok(goes(params, Spot::BehindName))
            }
            Role::Next if matches!(spot, Spot::BehindName) => Ok(goes(params, Spot::BehindComma)),
            Role::EndRound if !matches!(spot, Spot::BehindComma) => {
                Ok(Some(Progress::Done(params)))
            }
            _ => Ok(None),
        }
    }
}

fn goes(params: List<Param>, spot: Spot) -> Option<Progress<ParamsReader, List<Param>>>
    ensures { result ≡ params_go params spot }
{
    Some(Progress::Goes(ParamsReader { params, spot }))
}

fn with_param(params: List<Param>, param: Param) -> Result<List<Param>, AllocError>
    ensures { IfOk result (λ all. all ≡ params ++ param ∷ []) }
{
    let mut all = params;
    all.push(param)?;
    Ok(all)
}
