//! The expression of the script's `query`. (MetricsQL, "filters")

ghost use Rattle.std.specs.Prelude.{◌≡◌, ◌<◌, [], ◌∷◌, length, None, Some, IfOk, IfSome, IfNone};
ghost use Rattle.std.specs.Option.{option_map};
ghost use Rattle.std.specs.List.{list_any, slice_split};
ghost use Rattle.std.specs.Str.{byte, str_eq_ignore_ascii_case};
ghost use Rattle.vm_script.specs.Expression.{Spells, selector_of, filters_of, one_list};
ghost use Rattle.vm_script.specs.Expression.{metric_filters, braces_filters, inner_filters};
ghost use Rattle.vm_script.specs.Expression.{items_behind, item_of, op_of};
ghost use Rattle.vm_script.specs.Expression.{behind, front_name, behind_name};
ghost use Rattle.vm_script.specs.Expression.{is_free_name, is_reserved, is_quote};
ghost use Rattle.vm_script.specs.inner.Front.{with_front};
ghost use Rattle.vm_labels.specs.declared.selector.Selector.{Selector as SelectorOf};

use std::alloc::{AllocError, Global};
use vm_base::{List, Text};
use vm_labels::{Filter, FilterOp, Selector, name_len};

/// The words of the query language that are no names, in any case.
const RESERVED: [&str; 16] = [
    "default",
    "if",
    "ifnot",
    "or",
    "and",
    "unless",
    "bool",
    "on",
    "ignoring",
    "group_left",
    "group_right",
    "offset",
    "with",
    "by",
    "without",
    "keep_metric_names",
];

/// The selector that a text spells, as one list of filters in the order of the text, or none.
///
/// It is a metric's name, or braces, or both, without blanks between. The braces hold nothing
/// or items `name="value"` or `name!="value"`, parted by commas. A value is any text without `"`
/// and `\`. No name is a reserved word of the query language. A metric's name is the filter
/// `__name__="name"`, before the others.
pub fn read_selector(alloc: Global, text: &str) -> Result<Option<Selector>, AllocError>
    ensures value { IfOk result (λ selector. selector ≡ selector_of text.now) }
    // What is read is spelled so, each byte of it.
    ensures spelled { IfOk result (λ selector. IfSome selector (Spells text.now)) }
    // What is spelled so is read.
    ensures only { (selector : SelectorOf) → Spells text.now selector
        → IfOk result (λ read. read ≡ Some selector) }
{
    match read_filters(alloc, text)? {
        Some(filters) => Ok(Some(one_list(alloc, filters)?)),
        None => Ok(None),
    }
}

fn one_list(alloc: Global, filters: List<Filter>) -> Result<Selector, AllocError>
    ensures { IfOk result (λ selector. selector ≡ one_list filters) }
{
    let mut lists = List::new(alloc);
    lists.push(filters)?;
    Ok(Selector { lists })
}

/// All filters of a text in their order.
fn read_filters(alloc: Global, text: &str) -> Result<Option<List<Filter>>, AllocError>
    ensures { IfOk result (λ filters. filters ≡ filters_of text.now) }
{
    if text.is_empty() {
        return Ok(None);
    }
    let (name, braces) = split_name(text);
    match metric_filters(alloc, name)? {
        Some(first) => braces_filters(alloc, first, braces),
        None => Ok(None),
    }
}

/// The filter of a metric's name, no filter for no name, and none for a reserved word.
fn metric_filters(alloc: Global, name: &str) -> Result<Option<List<Filter>>, AllocError>
    ensures { IfOk result (λ filters. filters ≡ metric_filters name.now) }
{
    let mut filters = List::new(alloc);
    if name.is_empty() {
        return Ok(Some(filters));
    }
    if is_reserved(name) {
        return Ok(None);
    }
    filters.push(Filter {
        name: Text::from_str(alloc, "__name__")?,
        op: FilterOp::Equal,
        value: Text::from_str(alloc, name)?,
    })?;
    Ok(Some(filters))
}

/// The filters with those of the braces after them.
fn braces_filters(
    alloc: Global,
    filters: List<Filter>,
    text: &str,
) -> Result<Option<List<Filter>>, AllocError>
    ensures { IfOk result (λ all. all ≡ with_front filters (braces_filters text.now)) }
{
    if text.is_empty() {
        return Ok(Some(filters));
    }
    match behind('{', text) {
        Some(inner) => inner_filters(alloc, filters, inner),
        None => Ok(None),
    }
}

/// The filters with those of what stands after the opening brace.
fn inner_filters(
    alloc: Global,
    filters: List<Filter>,
    inner: &str,
) -> Result<Option<List<Filter>>, AllocError>
    ensures { IfOk result (λ all. all ≡ with_front filters (inner_filters inner.now)) }
{
    if inner == "}" {
        return Ok(Some(filters));
    }
    let mut filters = filters;
    let Some(behind) = push_item(alloc, &mut filters, inner)? else {
        return Ok(None);
    };
    more_filters(alloc, filters, behind)
}

/// The filters with those of what stands after an item.
fn more_filters(
    alloc: Global,
    filters: List<Filter>,
    text: &str,
) -> Result<Option<List<Filter>>, AllocError>
    ensures { IfOk result (λ all. all ≡ with_front filters (items_behind text.now)) }
{
    let mut filters = filters;
    let mut rest = text;
    'items: while let Some(item) = behind(',', rest) {
        match push_item(alloc, &mut filters, item)? {
            Some(behind) => rest = behind,
            None => return Ok(None),
        }
    }
    if rest == "}" {
        Ok(Some(filters))
    } else {
        Ok(None)
    }
}

/// Puts the item at the front of a text to the filters, and gives what stands after it. None where
/// no item stands there.
fn push_item<'a>(
    alloc: Global,
    filters: &mut List<Filter>,
    text: &'a str,
) -> Result<Option<&'a str>, AllocError>
    ensures pushed { IfOk result (λ read. IfSome read (λ behind.
        with_front filters.new (items_behind behind.now)
        ≡ with_front filters.old (items_behind (byte "," ∷ text.now)))) }
    ensures none { IfOk result (λ read. IfNone read (items_behind (byte "," ∷ text.now) ≡ None)) }
    ensures shorter { IfOk result (λ read.
        IfSome read (λ behind. length behind.now < length text.now)) }
{
    let Some((key, behind)) = cut_at_quote(text) else {
        return Ok(None);
    };
    let Some((value, behind)) = cut_at_quote(behind) else {
        return Ok(None);
    };
    let Some(item) = read_item(alloc, key, value)? else {
        return Ok(None);
    };
    filters.push(item)?;
    Ok(Some(behind))
}

/// What stands before the first quote of a text and after it.
#[tactic(auto, using(crate::proofs::ItemLaws::cut_first, crate::proofs::ItemLaws::cut_none))]
fn cut_at_quote(text: &str) -> Option<(&str, &str)>
    ensures cut { IfSome result (λ parts.
        slice_split is_quote text.now ≡ parts.0.now ∷ slice_split is_quote parts.1.now) }
    ensures shorter { IfSome result (λ parts. length parts.1.now < length text.now) }
    ensures whole { IfNone result (slice_split is_quote text.now ≡ text.now ∷ []) }
{
    text.split_once('"')
}

/// The filter of a name with its operator and of a value.
fn read_item(alloc: Global, key: &str, value: &str) -> Result<Option<Filter>, AllocError>
    ensures { IfOk result (λ item. item ≡ item_of key.now value.now) }
{
    let (name, op) = split_name(key);
    if !is_free_name(name) || value.as_bytes().contains(&b'\\') {
        return Ok(None);
    }
    let Some(op) = op_of(op) else {
        return Ok(None);
    };
    Ok(Some(Filter {
        name: Text::from_str(alloc, name)?,
        op,
        value: Text::from_str(alloc, value)?,
    }))
}

fn op_of(text: &str) -> Option<FilterOp>
    ensures { result ≡ op_of text.now }
{
    match text {
        "=" => Some(FilterOp::Equal),
        "!=" => Some(FilterOp::Differs),
        _ => None,
    }
}

/// The name at the front of a text and what stands after it.
fn split_name(text: &str) -> (&str, &str)
    ensures name { result.0.now ≡ front_name text.now }
    ensures rest { result.1.now ≡ behind_name text.now }
{
    text.split_at(name_len(text.as_bytes()))
}

/// What stands after the first character of a text, where it is this one.
fn behind(first: char, text: &str) -> Option<&str>
    requires some { 0 < first }
    requires ascii { first < 128 }
    ensures { option_map (λ rest. rest.now) result ≡ behind first text.now }
{
    text.strip_prefix(first)
}

fn is_free_name(name: &str) -> bool
    ensures { result ≡ is_free_name name.now }
{
    !name.is_empty() && !is_reserved(name)
}

fn is_reserved(name: &str) -> bool
    ensures { result ≡ is_reserved name.now }
{
    is_one_of(name, &RESERVED)
}

/// Whether a name is one of the words, without regard to ASCII case.
fn is_one_of(name: &str, words: &[&str]) -> bool
    ensures { result ≡ list_any (λ word. str_eq_ignore_ascii_case name.now word.now) words.now }
{
    words.iter().any(|word| name.eq_ignore_ascii_case(word))
}
