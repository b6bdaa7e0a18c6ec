//! The canonical text of the parts of a query that hold no expressions.

ghost use Rattle.std.specs.Prelude.{◌≡◌, ◌++◌, ◌∷◌, flat_map, codes, if◌then◌else◌, OnOk};
ghost use Rattle.vm_labels.specs.Text.{escaped_byte as escaped};
ghost use Rattle.mql_expr.specs.Canonical.{text_of, piece_text, parted_names, names_pieces, filter_op_text as text_of_filter_op, string_text, item_pieces, list_pieces, braces_pieces, select_pieces, span_pieces, window_pieces, offset_pieces, call_name, group_pieces, before_pieces, after_pieces, keep_pieces, op_piece, truth_pieces, kind_pieces, many_pieces, matching_pieces, operator_pieces, params_pieces};

use crate::expr::Param;
use crate::item::Item;
use crate::names::Known;
use crate::span_text::{is_negative, put_span_size};
use mql_lex::{Group, Many, MatchKind, Matching, Op, Span};
use std::alloc::AllocError;
use vm_base::{List, Text};
use vm_labels::{Filter, FilterOp};

pub(crate) fn put_text(text: &Text, out: &mut Vec<u8>) -> Result<(), AllocError>
    ensures { OnOk result (out.new.items ≡ out.old.items ++ text.now) }
{
    out.extend_from_slice(text.as_str().as_bytes())
}

/// Appends names in parentheses, parted by commas.
pub(crate) fn put_names(names: &[Text], out: &mut Vec<u8>) -> Result<(), AllocError>
    ensures { OnOk result (out.new.items ≡ out.old.items ++ text_of (names_pieces names.now)) }
{
    out.push(b'(')?;
    put_parted_names(names, out)?;
    out.push(b')')?;
    Ok(())
}

fn put_parted_names(names: &[Text], out: &mut Vec<u8>) -> Result<(), AllocError>
    ensures { OnOk result (out.new.items ≡ out.old.items ++ text_of (parted_names names.now)) }
{
    if let [first, rest @ ..] = names {
        put_text(first, out)?;
        put_more_names(rest, out)?;
    }
    Ok(())
}

/// Appends names, each after a comma.
fn put_more_names(names: &[Text], out: &mut Vec<u8>) -> Result<(), AllocError>
    ensures { OnOk result
        (out.new.items ≡ out.old.items ++ flat_map (λ name. 44 ∷ name) names.now) }
{
    for name in names {
        out.push(b',')?;
        put_text(name, out)?;
    }
    Ok(())
}

/// Appends a text in quotes.
pub(crate) fn put_string(text: &str, out: &mut Vec<u8>) -> Result<(), AllocError>
    ensures { OnOk result (out.new.items ≡ out.old.items ++ string_text text.now) }
{
    out.push(b'"')?;
    put_escaped(text.as_bytes(), out)?;
    out.push(b'"')?;
    Ok(())
}

fn put_escaped(text: &[u8], out: &mut Vec<u8>) -> Result<(), AllocError>
    ensures { OnOk result (out.new.items ≡ out.old.items ++ flat_map escaped text.now) }
{
    for byte in text {
        put_escaped_byte(*byte, out)?;
    }
    Ok(())
}

fn put_escaped_byte(byte: u8, out: &mut Vec<u8>) -> Result<(), AllocError>
    ensures { OnOk result (out.new.items ≡ out.old.items ++ escaped byte) }
{
    match byte {
        b'\\' => out.extend_from_slice(b"\\\\"),
        b'"' => out.extend_from_slice(b"\\\""),
        b'\n' => out.extend_from_slice(b"\\n"),
        _ => {
            out.push(byte)?;
            Ok(())
        }
    }
}

/// Appends a selector. A name without braces has no lists.
pub(crate) fn put_select(
    name: &Option<Text>,
    lists: &[List<Item>],
    out: &mut Vec<u8>,
) -> Result<(), AllocError>
    ensures { OnOk result
        (out.new.items ≡ out.old.items ++ text_of (select_pieces name.now lists.now)) }
{
    if let Some(name) = name {
        put_text(name, out)?;
    }
    put_braces(lists, out)
}

fn put_braces(lists: &[List<Item>], out: &mut Vec<u8>) -> Result<(), AllocError>
    ensures { OnOk result (out.new.items ≡ out.old.items ++ text_of (braces_pieces lists.now)) }
{
    if let [first, rest @ ..] = lists {
        out.push(b'{')?;
        put_list(first.as_slice(), out)?;
        put_more_lists(rest, out)?;
        out.push(b'}')?;
    }
    Ok(())
}

/// Appends lists, each after an ` or `.
fn put_more_lists(lists: &[List<Item>], out: &mut Vec<u8>) -> Result<(), AllocError>
    ensures { OnOk result
        (out.new.items ≡ out.old.items
        ++ flat_map (λ items. codes " or " ++ text_of (list_pieces items)) lists.now) }
{
    for items in lists {
        out.extend_from_slice(b" or ")?;
        put_list(items.as_slice(), out)?;
    }
    Ok(())
}

fn put_list(items: &[Item], out: &mut Vec<u8>) -> Result<(), AllocError>
    ensures { OnOk result (out.new.items ≡ out.old.items ++ text_of (list_pieces items.now)) }
{
    if let [first, rest @ ..] = items {
        put_item(first, out)?;
        put_more_items(rest, out)?;
    }
    Ok(())
}

/// Appends items, each after a comma.
fn put_more_items(items: &[Item], out: &mut Vec<u8>) -> Result<(), AllocError>
    ensures { OnOk result
        (out.new.items ≡ out.old.items
        ++ flat_map (λ item. 44 ∷ text_of (item_pieces item)) items.now) }
{
    for item in items {
        out.push(b',')?;
        put_item(item, out)?;
    }
    Ok(())
}

fn put_item(item: &Item, out: &mut Vec<u8>) -> Result<(), AllocError>
    ensures { OnOk result (out.new.items ≡ out.old.items ++ text_of (item_pieces item.now)) }
{
    match item {
        Item::Is(filter) => put_filter(filter, out),
        Item::Named { at: _, name } => put_text(name, out),
    }
}

fn put_filter(filter: &Filter, out: &mut Vec<u8>) -> Result<(), AllocError>
    ensures { OnOk result
        (out.new.items ≡ out.old.items ++ text_of (item_pieces (Item.Is filter.now))) }
{
    put_text(&filter.name, out)?;
    out.extend_from_slice(filter_op_text(filter.op))?;
    put_string(filter.value.as_str(), out)
}

fn filter_op_text(op: FilterOp) -> &'static [u8]
    ensures { result.now ≡ text_of_filter_op op }
{
    match op {
        FilterOp::Equal => b"=",
        FilterOp::Differs => b"!=",
        FilterOp::Matches => b"=~",
        FilterOp::MatchesNot => b"!~",
    }
}

/// Appends a span with its sign.
fn put_span(span: Span, out: &mut Vec<u8>) -> Result<(), AllocError>
    ensures { OnOk result (out.new.items ≡ out.old.items ++ text_of (span_pieces span)) }
{
    if is_negative(span) {
        out.push(b'-')?;
    }
    put_span_size(span, out)
}

pub(crate) fn put_window(window: Option<Span>, out: &mut Vec<u8>) -> Result<(), AllocError>
    ensures { OnOk result (out.new.items ≡ out.old.items ++ text_of (window_pieces window)) }
{
    if let Some(span) = window {
        out.push(b'[')?;
        put_span(span, out)?;
        out.push(b']')?;
    }
    Ok(())
}

pub(crate) fn put_offset(offset: Option<Span>, out: &mut Vec<u8>) -> Result<(), AllocError>
    ensures { OnOk result (out.new.items ≡ out.old.items ++ text_of (offset_pieces offset)) }
{
    if let Some(span) = offset {
        out.extend_from_slice(b" offset ")?;
        put_span(span, out)?;
    }
    Ok(())
}

/// Appends the name of a call: of a function and an aggregate in lower case.
pub(crate) fn put_call_name(name: &str, out: &mut Vec<u8>) -> Result<(), AllocError>
    ensures { OnOk result (out.new.items ≡ out.old.items ++ call_name name.now) }
{
    match Known::of(name) {
        Some(known) => out.extend_from_slice(known.name().as_bytes()),
        None => out.extend_from_slice(name.as_bytes()),
    }
}

/// Appends what stands before the arguments: the first of two groups.
pub(crate) fn put_before(
    before: &Option<Group>,
    after: &Option<Group>,
    out: &mut Vec<u8>,
) -> Result<(), AllocError>
    ensures { OnOk result
        (out.new.items ≡ out.old.items ++ text_of (before_pieces before.now after.now)) }
{
    if let (Some(group), Some(_)) = (before, after) {
        put_group(group, out)?;
        out.push(b' ')?;
    }
    Ok(())
}

/// Appends what stands after the arguments: the only group, or the second.
pub(crate) fn put_after(
    before: &Option<Group>,
    after: &Option<Group>,
    out: &mut Vec<u8>,
) -> Result<(), AllocError>
    ensures { OnOk result
        (out.new.items ≡ out.old.items ++ text_of (after_pieces before.now after.now)) }
{
    match (before, after) {
        (_, Some(group)) => put_group(group, out),
        (Some(group), None) => put_group(group, out),
        (None, None) => Ok(()),
    }
}

/// Appends a group after a blank.
fn put_group(group: &Group, out: &mut Vec<u8>) -> Result<(), AllocError>
    ensures { OnOk result (out.new.items ≡ out.old.items ++ 32 ∷ text_of (group_pieces group.now)) }
{
    out.extend_from_slice(group_text(group.by))?;
    put_names(group.names.as_slice(), out)
}

fn group_text(by: bool) -> &'static [u8]
    ensures { result.now ≡ (if by then codes " by " else codes " without ") }
{
    if by { b" by " } else { b" without " }
}

pub(crate) fn put_keep(keep: bool, out: &mut Vec<u8>) -> Result<(), AllocError>
    ensures { OnOk result (out.new.items ≡ out.old.items ++ text_of (keep_pieces keep)) }
{
    if keep {
        out.extend_from_slice(b" keep_metric_names")?;
    }
    Ok(())
}

/// Appends what stands between the operands, with the blanks round it.
pub(crate) fn put_operator(
    op: Op,
    truth: bool,
    matching: &Matching,
    out: &mut Vec<u8>,
) -> Result<(), AllocError>
    ensures { OnOk result
        (out.new.items ≡ out.old.items ++ text_of (operator_pieces op truth matching.now)) }
{
    out.push(b' ')?;
    out.extend_from_slice(op_text(op))?;
    put_truth(truth, out)?;
    put_matching(matching, out)?;
    out.push(b' ')?;
    Ok(())
}

fn op_text(op: Op) -> &'static [u8]
    ensures { result.now ≡ piece_text (op_piece op) }
{
    match op {
        Op::Default => b"default",
        Op::If => b"if",
        Op::IfNot => b"ifnot",
        Op::Or => b"or",
        Op::And => b"and",
        Op::Unless => b"unless",
        Op::Equal => b"==",
        Op::Differs => b"!=",
        Op::AtMost => b"<=",
        Op::AtLeast => b">=",
        Op::Below => b"<",
        Op::Above => b">",
        Op::Add => b"+",
        Op::Sub => b"-",
        Op::Mul => b"*",
        Op::Div => b"/",
        Op::Rem => b"%",
    }
}

fn put_truth(truth: bool, out: &mut Vec<u8>) -> Result<(), AllocError>
    ensures { OnOk result (out.new.items ≡ out.old.items ++ text_of (truth_pieces truth)) }
{
    if truth {
        out.extend_from_slice(b" bool")?;
    }
    Ok(())
}

fn put_matching(matching: &Matching, out: &mut Vec<u8>) -> Result<(), AllocError>
    ensures { OnOk result
        (out.new.items ≡ out.old.items ++ text_of (matching_pieces matching.now)) }
{
    put_kind(matching.kind, matching.names.as_slice(), out)?;
    put_many(matching.many, matching.extra.as_slice(), out)
}

fn put_kind(kind: MatchKind, names: &[Text], out: &mut Vec<u8>) -> Result<(), AllocError>
    ensures { OnOk result (out.new.items ≡ out.old.items ++ text_of (kind_pieces kind names.now)) }
{
    match kind {
        MatchKind::All => Ok(()),
        MatchKind::On => put_modifier(b" on", names, out),
        MatchKind::Ignoring => put_modifier(b" ignoring", names, out),
    }
}

fn put_many(many: Many, names: &[Text], out: &mut Vec<u8>) -> Result<(), AllocError>
    ensures { OnOk result (out.new.items ≡ out.old.items ++ text_of (many_pieces many names.now)) }
{
    match many {
        Many::One => Ok(()),
        Many::Left => put_modifier(b" group_left", names, out),
        Many::Right => put_modifier(b" group_right", names, out),
    }
}

/// Appends a word and names in parentheses.
fn put_modifier(word: &[u8], names: &[Text], out: &mut Vec<u8>) -> Result<(), AllocError>
    ensures { OnOk result
        (out.new.items ≡ out.old.items ++ word.now ++ text_of (names_pieces names.now)) }
{
    out.extend_from_slice(word)?;
    put_names(names, out)
}

/// Appends the parameters of a template in parentheses, where it has any.
pub(crate) fn put_params(params: &[Param], out: &mut Vec<u8>) -> Result<(), AllocError>
    ensures { OnOk result (out.new.items ≡ out.old.items ++ text_of (params_pieces params.now)) }
{
    if let [first, rest @ ..] = params {
        out.push(b'(')?;
        put_text(&first.name, out)?;
        put_more_params(rest, out)?;
        out.push(b')')?;
    }
    Ok(())
}

/// Appends parameters, each after a comma.
fn put_more_params(params: &[Param], out: &mut Vec<u8>) -> Result<(), AllocError>
    ensures { OnOk result
        (out.new.items ≡ out.old.items ++ flat_map (λ param. 44 ∷ param.name) params.now) }
{
    for param in params {
        out.push(b',')?;
        put_text(&param.name, out)?;
    }
    Ok(())
}
