//! What stands between the braces of a selector, as `{job="api", env=~"dev.*" or job="web"}`.

ghost use Rattle.std.specs.Prelude.{◌≡◌, IfOk};
ghost use Rattle.mql_lex.specs.Tokens.{StandsIn, slice_of};
ghost use Rattle.mql_lists.specs.Words.{word_of};
ghost use Rattle.mql_lists.specs.Values.{value_of};
ghost use Rattle.mql_lists.specs.Machines.{braces_start, braces_step, word_role};
ghost use Rattle.mql_lists.specs.Machines.{goes as goes_on, done as ended, with_item as one_more};
ghost use Rattle.mql_lists.specs.Machines.{with_list as list_more, filter_item};
ghost use Rattle.mql_lists.specs.Machines.{begins_item as item_begun, at_first as first_turn};
ghost use Rattle.mql_lists.specs.Machines.{behind_item as item_turn, behind_name as name_turn};
ghost use Rattle.mql_lists.specs.Machines.{after_comma as comma_turn};
ghost use Rattle.mql_lists.specs.declared.braces.Place.TheVariants.{BehindItem};

use crate::progress::Progress;
use crate::role::{Role, role_of_token};
use crate::word::{name_text, unquote};
use mql_expr::Item;
use mql_lex::{Token, TokenKind};
use std::alloc::{AllocError, Global};
use vm_base::{List, Text};
use vm_labels::{Filter, FilterOp};

/// Reads the lists of items after `{`, up to `}`: filters and names, parted by commas, of which one
/// may stand after the last of a list, and lists parted by `or`. Empty braces hold one empty list.
/// (MetricsQL, "filters")
#[derive(Drop)]
pub struct BracesReader {
    found: Gathered,
    place: Place,
}

/// What was read.
#[derive(Drop)]
pub(crate) struct Gathered {
    /// The lists that are read to their end.
    lists: List<List<Item>>,
    /// The items of the list that is being read.
    items: List<Item>,
}

/// What was read last.
#[derive(Drop)]
pub(crate) enum Place {
    /// `{`
    First,
    /// `or` after a list.
    Wanted,
    /// A name at the beginning of an item.
    AtName(Heading),
    /// The operator of a filter.
    AtSign(Begun),
    BehindItem,
    AfterComma,
    /// `or` after a comma: a name where an operator follows, and else it parts two lists.
    AfterOr(Text),
}

/// A name at the beginning of an item, which is an item of its own or that of a filter.
#[derive(Drop)]
pub(crate) struct Heading {
    /// The place of its first byte in the query's text.
    at: u64,
    name: Text,
    /// Whether it is no reserved word. A reserved word is no item of its own.
    free: bool,
}

/// A filter without its value.
#[derive(Drop)]
pub(crate) struct Begun {
    name: Text,
    op: FilterOp,
}

/// What a token leads to.
type Turn = Option<Progress<BracesReader, List<List<Item>>>>;

impl BracesReader {
    /// After `{`. It takes no memory.
    pub fn new(alloc: Global) -> BracesReader
        ensures { result ≡ braces_start }
    {
        BracesReader {
            found: Gathered {
                lists: List::new(alloc),
                items: List::new(alloc),
            },
            place: Place::First,
        }
    }

    /// Takes one more token of the text. None is said of a token with which no lists go on.
    pub fn step(
        self,
        alloc: Global,
        text: &str,
        token: Token,
    ) -> Result<Option<Progress<BracesReader, List<List<Item>>>>, AllocError>
        requires { StandsIn text.now token }
        ensures { IfOk result (λ progress. progress ≡ braces_step self (word_of text.now token)) }
    {
        let BracesReader { found, place } = self;
        let role = role_of_token(text, token);
        match place {
            Place::First => at_first(alloc, found, text, token, role),
            Place::Wanted => begins_item(alloc, found, text, token, role),
            Place::AtName(head) => behind_name(alloc, found, head, role),
            Place::AtSign(begun) => match role {
                Role::Value => behind_sign(alloc, found, begun, text, token),
                _ => Ok(None),
            },
            Place::BehindItem => behind_item(alloc, found, role),
            Place::AfterComma => after_comma(alloc, found, text, token, role),
            Place::AfterOr(name) => match role {
                Role::Compare(op) => Ok(goes(found, Place::AtSign(Begun { name, op }))),
                _ => begins_list(alloc, found, text, token, role),
            },
        }
    }
}

fn goes(found: Gathered, place: Place) -> Turn
    ensures { result ≡ goes_on found place }
{
    Some(Progress::Goes(BracesReader { found, place }))
}

/// Ends the last list, and with it all.
fn done(found: Gathered) -> Result<Turn, AllocError>
    ensures { IfOk result (λ turn. turn ≡ ended found) }
{
    let Gathered { mut lists, items } = found;
    lists.push(items)?;
    Ok(Some(Progress::Done(lists)))
}

fn with_item(found: Gathered, item: Item) -> Result<Gathered, AllocError>
    ensures { IfOk result (λ all. all ≡ one_more found item) }
{
    let Gathered { lists, mut items } = found;
    items.push(item)?;
    Ok(Gathered { lists, items })
}

/// Ends a list, so that another may begin.
fn with_list(alloc: Global, found: Gathered) -> Result<Gathered, AllocError>
    ensures { IfOk result (λ all. all ≡ list_more found) }
{
    let Gathered { mut lists, items } = found;
    lists.push(items)?;
    Ok(Gathered {
        lists,
        items: List::new(alloc),
    })
}

/// Takes a name at the beginning of an item.
fn begins_item(
    alloc: Global,
    found: Gathered,
    text: &str,
    token: Token,
    role: Role,
) -> Result<Turn, AllocError>
    requires stands { StandsIn text.now token }
    requires role { role ≡ word_role (word_of text.now token) }
    ensures { IfOk result (λ turn. turn ≡ item_begun found (word_of text.now token) role) }
{
    if !role.is_label() {
        return Ok(None);
    }
    let head = Heading {
        at: token.at,
        name: name_text(alloc, text, token)?,
        free: role.is_free(),
    };
    Ok(goes(found, Place::AtName(head)))
}

/// Ends a list and takes a name at the beginning of an item.
fn begins_list(
    alloc: Global,
    found: Gathered,
    text: &str,
    token: Token,
    role: Role,
) -> Result<Turn, AllocError>
    requires stands { StandsIn text.now token }
    requires role { role ≡ word_role (word_of text.now token) }
    ensures { IfOk result
        (λ turn. turn ≡ item_begun (list_more found) (word_of text.now token) role) }
{
    let found = with_list(alloc, found)?;
    begins_item(alloc, found, text, token, role)
}

fn at_first(
    alloc: Global,
    found: Gathered,
    text: &str,
    token: Token,
    role: Role,
) -> Result<Turn, AllocError>
    requires stands { StandsIn text.now token }
    requires role { role ≡ word_role (word_of text.now token) }
    ensures { IfOk result (λ turn. turn ≡ first_turn found (word_of text.now token) role) }
{
    match role {
        Role::EndCurly => done(found),
        _ => begins_item(alloc, found, text, token, role),
    }
}

fn behind_item(alloc: Global, found: Gathered, role: Role) -> Result<Turn, AllocError>
    ensures { IfOk result (λ turn. turn ≡ item_turn found role) }
{
    match role {
        Role::Next => Ok(goes(found, Place::AfterComma)),
        Role::Either => {
            let found = with_list(alloc, found)?;
            Ok(goes(found, Place::Wanted))
        }
        Role::EndCurly => done(found),
        _ => Ok(None),
    }
}

fn behind_name(
    alloc: Global,
    found: Gathered,
    head: Heading,
    role: Role,
) -> Result<Turn, AllocError>
    ensures { IfOk result (λ turn. turn ≡ name_turn found head role) }
{
    let Heading { at, name, free } = head;
    if let Role::Compare(op) = role {
        return Ok(goes(found, Place::AtSign(Begun { name, op })));
    }
    if !free {
        return Ok(None);
    }
    let found = with_item(found, Item::Named { at, name })?;
    behind_item(alloc, found, role)
}

fn behind_sign(
    alloc: Global,
    found: Gathered,
    begun: Begun,
    text: &str,
    token: Token,
) -> Result<Turn, AllocError>
    requires stands { StandsIn text.now token }
    requires quoted { token.kind ≡ TokenKind.Str }
    ensures { let item = filter_item begun (value_of (slice_of text.now token)) in
        IfOk result (λ turn. turn ≡ goes_on (one_more found item) BehindItem) }
{
    let Begun { name, op } = begun;
    let value = unquote(alloc, text, token)?;
    let found = with_item(found, Item::Is(Filter { name, op, value }))?;
    Ok(goes(found, Place::BehindItem))
}

/// After a comma, where `or` may be a name or part two lists.
fn after_comma(
    alloc: Global,
    found: Gathered,
    text: &str,
    token: Token,
    role: Role,
) -> Result<Turn, AllocError>
    requires stands { StandsIn text.now token }
    requires role { role ≡ word_role (word_of text.now token) }
    ensures { IfOk result (λ turn. turn ≡ comma_turn found (word_of text.now token) role) }
{
    match role {
        Role::Either => {
            let name = name_text(alloc, text, token)?;
            Ok(goes(found, Place::AfterOr(name)))
        }
        Role::EndCurly => done(found),
        _ => begins_item(alloc, found, text, token, role),
    }
}
