//! `mql_lists`: what the readers make of texts, worked out by hand from the grammar of MetricsQL.

use mql_expr::{Item, Param};
use mql_lex::tokens;
use mql_lists::{BracesReader, NamesReader, ParamsReader, Progress};
use std::alloc::{AllocError, Global};
use std::str::from_utf8;
use std::test::Fail;
use test_rows::bytes_of;
use vm_base::{List, Text};
use vm_labels::FilterOp;

/// A reader, the text after the opening bracket ` -> ` what is read: the names, the parameters with
/// their places, or each list of items, in brackets, or `-`. Texts have the escapes of `bytes_of`.
const ROWS: &str = r#"names ) -> []
names job) -> [ job]
names job, instance) -> [ job instance]
names job,) -> [ job]
names by, OR, With) -> [ by OR With]
names ) by (x) -> []
names ,) -> -
names job,,x) -> -
names job x) -> -
names "job") -> -
names job} -> -
names job, -> -
params ) -> []
params x) -> [ x@0]
params x, y) = x -> [ x@0 y@3]
params x,) -> -
params ,x) -> -
params by) -> -
params x, Or) -> -
params x y) -> -
params 1) -> -
braces } -> []
braces job="api"} -> [ job=api]
braces a="1", b!="2", c=~"3", d!~"4",} -> [ a=1 b!=2 c=~3 d!~4]
braces common} -> [ common@0]
braces a="1", common or other, b="2"} -> [ a=1 common@7][ other@17 b=2]
braces a="1", or b="2"} -> [ a=1][ b=2]
braces a="1", or="2"} -> [ a=1 or=2]
braces or="1" OR Or!="2"} -> [ or=1][ Or!=2]
braces a="1", or or="2"} -> [ a=1][ or=2]
braces by="1", With="2"} -> [ by=1 With=2]
braces a='it\\'s \\\\ \\n'} -> [ a=it's \\ \n]
braces a="\\t\\"ü\\""} -> [ a=\t"ü"]
braces by} -> -
braces or} -> -
braces a or} -> -
braces a, or} -> -
braces a, by} -> -
braces or or a} -> -
braces ,} -> -
braces a,,b} -> -
braces a b} -> -
braces a=="1"} -> -
braces a=1} -> -
braces ="1"} -> -
braces "a"} -> -
braces a) -> -
braces a="1" -> -"#;

#[test]
fn readers(rt: HostRuntime) -> Result<(), Fail> {
    for row in ROWS.lines() {
        assert!(rt; is_right(rt.alloc(), row)?, "{row}");
    }
    Ok(())
}

/// Whether a reader makes of a text what its row has.
fn is_right(alloc: Global, row: &str) -> Result<bool, AllocError> {
    let Some((given, due)) = row.split_once(" -> ") else {
        return Ok(false);
    };
    let Some((reader, text)) = given.split_once(' ') else {
        return Ok(false);
    };
    let text = bytes_of(alloc, text)?;
    let Ok(text) = from_utf8(&text) else {
        return Ok(false);
    };
    let mut read = String::new(alloc);
    match reader {
        "names" => names(alloc, text, &mut read)?,
        "params" => params(alloc, text, &mut read)?,
        "braces" => braces(alloc, text, &mut read)?,
        _ => return Ok(false),
    }
    let due = bytes_of(alloc, due)?;
    Ok(read.as_bytes() == due.as_slice())
}

/// Reads names.
fn names(alloc: Global, text: &str, out: &mut String) -> Result<(), AllocError> {
    let Ok(list) = tokens(alloc, text) else {
        return out.push_str("no tokens");
    };
    let mut reader = NamesReader::new(alloc);
    for token in list.as_slice() {
        match reader.step(alloc, text, *token)? {
            Some(Progress::Goes(next)) => reader = next,
            Some(Progress::Done(names)) => return push_names(&names, out),
            None => return out.push('-'),
        }
    }
    out.push('-')
}

fn push_names(names: &List<Text>, out: &mut String) -> Result<(), AllocError> {
    out.push('[')?;
    for name in names.as_slice() {
        let name = name.as_str();
        write!(out, " {name}")?;
    }
    out.push(']')
}

/// Reads parameters.
fn params(alloc: Global, text: &str, out: &mut String) -> Result<(), AllocError> {
    let Ok(list) = tokens(alloc, text) else {
        return out.push_str("no tokens");
    };
    let mut reader = ParamsReader::new(alloc);
    for token in list.as_slice() {
        match reader.step(alloc, text, *token)? {
            Some(Progress::Goes(next)) => reader = next,
            Some(Progress::Done(params)) => return push_params(&params, out),
            None => return out.push('-'),
        }
    }
    out.push('-')
}

fn push_params(params: &List<Param>, out: &mut String) -> Result<(), AllocError> {
    out.push('[')?;
    for param in params.as_slice() {
        let (name, at) = (param.name.as_str(), param.at);
        write!(out, " {name}@{at}")?;
    }
    out.push(']')
}

/// Reads what stands in braces.
fn braces(alloc: Global, text: &str, out: &mut String) -> Result<(), AllocError> {
    let Ok(list) = tokens(alloc, text) else {
        return out.push_str("no tokens");
    };
    let mut reader = BracesReader::new(alloc);
    for token in list.as_slice() {
        match reader.step(alloc, text, *token)? {
            Some(Progress::Goes(next)) => reader = next,
            Some(Progress::Done(lists)) => return push_lists(&lists, out),
            None => return out.push('-'),
        }
    }
    out.push('-')
}

fn push_lists(lists: &List<List<Item>>, out: &mut String) -> Result<(), AllocError> {
    for items in lists.as_slice() {
        out.push('[')?;
        for item in items.as_slice() {
            push_item(item, out)?;
        }
        out.push(']')?;
    }
    Ok(())
}

fn push_item(item: &Item, out: &mut String) -> Result<(), AllocError> {
    match item {
        Item::Is(filter) => {
            let op = match filter.op {
                FilterOp::Equal => "=",
                FilterOp::Differs => "!=",
                FilterOp::Matches => "=~",
                FilterOp::MatchesNot => "!~",
            };
            let (name, value) = (filter.name.as_str(), filter.value.as_str());
            write!(out, " {name}{op}{value}")
        }
        Item::Named { at, name } => {
            let name = name.as_str();
            write!(out, " {name}@{at}")
        }
    }
}
