//! Label sets, by `vm_labels`: how they are built, changed, printed and kept as bytes.
//!
//! The rows were worked out by hand; JSON and bytes as Python's `json` and `struct` write them.
use crate::base::{stand, text_of};
use std::alloc::{AllocError, Global};
use test_rows::bytes_of;
use vm_base::{List, Text};
use vm_labels::{LabelFault, Labels, Pair, ReadFault, is_name, name_len};

/// What is done, with what, to which label set, and what is due. A set is pairs as `name=value`.
///
/// `set`, `with`, `only`, `without` and `copy` come to the text of a set, or to why there is none.
/// `json` is due a set's JSON, `get` the value of a name, and `order` how two sets compare. `read`
/// is of bytes: they come to the bytes that the set read is written with, which is within the
/// limits, or to the place where they are broken. `name` and `len` tell names.
const ROWS: &str = r#"set - c=d\n,x=,__name__="é\\ -> {__name__="\\"é\\\\",c="d\\n"}
json - c=d\n,x=,__name__="é\\ -> {"__name__":"\\"é\\\\","c":"d\\n"}
set - c=d,0=,c=x,0=y -> bad name 3
set - c=d,a=x,a=y,c=b -> twice a
get b a=1,b=2 -> 2
with ab=3 a=1,b=2 -> {a="1",ab="3",b="2"}
order a=1,ab=3,b=2 a=1,b=2 -> less
only b a=1,b=2 -> {b="2"}
without b a=1,b=2 -> {a="1"}
copy - a=1 -> {a="1"}
order a=1 a=1 -> equal
read \x00\x02\x00\x01a\x00\x02bc\x00\x02ab\x00\x01d -> \x00\x02\x00\x01a\x00\x02bc\x00\x02ab\x00\x01d
read \x00 -> broken 0
read \x00\x00 -> broken 0
read \x00\x01\x00\x02a -> broken 4
read \x00\x01\x00\x01a\x00\x00 -> broken 7
read \x00\x01\x00\x01a\x00\x01\xff -> broken 7
read \x00\x01\x00\x01a\x00\x01bc -> broken 8
read \x00\x02\x00\x01b\x00\x01b\x00\x01a\x00\x01b -> broken 10
name a:_9 -> true
name  -> false
name 9a -> false
len job= -> 3
"#;

/// Whether a row is right.
fn is_right(alloc: Global, row: &str) -> Result<bool, AllocError> {
    let Some((given, due)) = row.split_once(" -> ") else {
        return Ok(false);
    };
    let mut words = given.split(' ');
    let word = words.next().unwrap_or("");
    let with = words.next().unwrap_or("");
    let set = words.next().unwrap_or("");
    match word {
        "name" => Ok(
            due == if is_name(with.as_bytes()) {
                "true"
            } else {
                "false"
            },
        ),
        "len" => Ok(due.parse() == Ok(name_len(with.as_bytes()))),
        "read" => is_read(alloc, with, due),
        "order" => are_in_order(alloc, with, set, due),
        "set" | "with" | "only" | "without" | "copy" | "json" | "get" => {
            Ok(came_to(alloc, word, with, set)?.as_slice() == bytes_of(alloc, due)?.as_slice())
        }
        _ => Ok(false),
    }
}

/// The set of these pairs.
pub(crate) fn set_of(alloc: Global, text: &str) -> Result<Labels, LabelFault> {
    let mut pairs = List::new(alloc);
    for pair in text.split(',') {
        let (name, value) = pair.split_once("=").unwrap_or((pair, "missing"));
        pairs.push(Pair {
            name: Text::from_str(alloc, name)?,
            value: text_of(alloc, value)?,
        })?;
    }
    Labels::build(alloc, pairs)
}

/// The text that a set comes to.
fn came_to(alloc: Global, word: &str, with: &str, set: &str) -> Result<Vec<u8>, AllocError> {
    let labels = match set_of(alloc, set) {
        Ok(labels) => labels,
        Err(fault) => return fault_of(alloc, fault),
    };
    match word {
        "get" => Vec::from_slice(alloc, labels.get(with).unwrap_or("").as_bytes()),
        "json" => printed(alloc, &labels, true),
        _ => match changed(alloc, labels, word, with) {
            Ok(labels) => printed(alloc, &labels, false),
            Err(fault) => fault_of(alloc, fault),
        },
    }
}

fn printed(alloc: Global, labels: &Labels, json: bool) -> Result<Vec<u8>, AllocError> {
    let mut out = Vec::new(alloc);
    if json {
        labels.print_json(&mut out)?;
    } else {
        labels.print(&mut out)?;
    }
    Ok(out)
}

fn changed(alloc: Global, labels: Labels, word: &str, with: &str) -> Result<Labels, LabelFault> {
    let names = [Text::from_str(alloc, with)?];
    match word {
        "with" => {
            let (name, value) = with.split_once("=").unwrap_or((with, ""));
            labels.with(alloc, name, value)
        }
        "only" => labels.only(alloc, &names),
        "without" => labels.without(alloc, &names),
        "copy" => labels.copy(alloc),
        _ => Ok(labels),
    }
}

fn fault_of(alloc: Global, fault: LabelFault) -> Result<Vec<u8>, AllocError> {
    let text = match fault {
        LabelFault::BadName { index } => format!(in alloc; "bad name {index}")?,
        LabelFault::TwiceNamed { name } => format!(in alloc; "twice {}", name.as_str())?,
        LabelFault::Memory => return Err(AllocError),
    };
    Vec::from_slice(alloc, text.as_bytes())
}

fn are_in_order(alloc: Global, one: &str, other: &str, due: &str) -> Result<bool, AllocError> {
    match (set_of(alloc, one), set_of(alloc, other)) {
        (Ok(one), Ok(other)) => Ok(stand(&one, &other, due)),
        _ => Ok(false),
    }
}

/// Whether the set of these bytes is written as what is due, or the bytes are broken there.
fn is_read(alloc: Global, bytes: &str, due: &str) -> Result<bool, AllocError> {
    let bytes = bytes_of(alloc, bytes)?;
    match Labels::read(alloc, bytes.as_slice()) {
        Ok(labels) => {
            let mut out = Vec::new(alloc);
            if labels.limit() == None {
                labels.bytes(&mut out)?;
            }
            Ok(out.as_slice() == bytes_of(alloc, due)?.as_slice())
        }
        Err(ReadFault::Broken { at }) => match due.strip_prefix("broken ") {
            Some(place) => Ok(place.parse() == Ok(at)),
            None => Ok(false),
        },
        Err(ReadFault::Memory) => Err(AllocError),
    }
}

#[test]
fn rows(rt: HostRuntime) -> Result<(), AllocError> {
    for row in ROWS.lines() {
        assert!(rt; is_right(rt.alloc(), row)?, "{row}");
    }
    Ok(())
}
