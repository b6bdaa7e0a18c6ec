//! `vm_script`: which lines are commands and which texts are selectors, worked out by hand from the
//! script's grammar in `docs/replay.md`.

use std::alloc::{AllocError, Global};
use std::str::from_utf8;
use std::test::Fail;
use test_rows::repeated;
use vm_labels::{FilterOp, Selector};
use vm_script::{Command, is_body_end, read_command, read_number, read_selector};

/// What is read (a line, a number, a line that may end a body, a selector), its text ` -> ` what it
/// says, or `-`. Texts are as `repeated` takes them.
const ROWS: &str = r#"line prom 0 -> Prom 0
line prom 0001700000000000 -> Prom 1700000000000
line prom 281474976710655 -> Prom 281474976710655
line prom 281474976710656 -> -
line prom 18446744073709551616 -> -
line prom -> -
line prom  -> -
line prom 0  -> -
line prom  0 -> -
line prom -1 -> -
line prom +1 -> -
line prom 1e3 -> -
line Prom 0 -> -
line  prom 0 -> -
line query 0 1000 a{j!="y"} -> query 0 1000 [a{j!="y"}]
line query 999 18446744073709551615 up -> query 999 18446744073709551615 [up]
line query 0 18446744073709551616 up -> -
line query 1000 0 up -> -
line query 1 2  up and ü  -> query 1 2 [ up and ü ]
line query 1 2   -> query 1 2 [ ]
line query 1 2  -> -
line query 1 2 -> -
line query 1  2 up -> -
line query 1 up -> -
line run 0 -> run 0
line run 00000000000000000007 -> run 7
line run 000000000000000000007 -> -
line run 999 -> run 999
line run 1000 -> -
line run 1  -> -
line run 1 2 -> -
line run -> -
line end 12 -> end 12
line end x -> -
line close 12 -> close 12
line close -> -
line json 0 -> Json 0
line json 281474976710656 -> -
line json -> -
line jsonl 0 -> -
line . -> -
line  -> -
line query 1 2 \xff -> -
line query 1 2 |4194294*x -> query 1 2 [|4194294*x|]
line query 1 2 |4194295*x -> -
number 0 -> 0
number 00000000000000000012 -> 12
number 000000000000000000012 -> -
number 18446744073709551615 -> 18446744073709551615
number 18446744073709551616 -> -
number 99999999999999999999 -> -
number  -> -
number +1 -> -
number -1 -> -
number 1  -> -
number 1x -> -
end . -> yes
end .. -> no
end  -> no
selector up -> list [__name__ is up]
selector _:a9 -> list [__name__ is _:a9]
selector {} -> list
selector up{} -> list [__name__ is up]
selector {a=""} -> list [a is ]
selector {a!="x"} -> list [a is not x]
selector up{b="2",a!="1",b="3"} -> list [__name__ is up] [b is 2] [a is not 1] [b is 3]
selector {__name__="x y"} -> list [__name__ is x y]
selector {a="}",b="{,=ü\n"} -> list [a is }] [b is {,=ü\n]
selector ore{forby="x"} -> list [__name__ is ore] [forby is x]
selector {a="x",} -> -
selector {,a="x"} -> -
selector {a="x",,b="y"} -> -
selector {a="x"b="y"} -> -
selector {a="x"}  -> -
selector {a="x"}} -> -
selector { a="x"} -> -
selector {a ="x"} -> -
selector {a= "x"} -> -
selector {a="x" ,b="y"} -> -
selector up {} -> -
selector  up -> -
selector up  -> -
selector {a="x" -> -
selector {a="x} -> -
selector {a=x} -> -
selector {a} -> -
selector {="x"} -> -
selector {9a="x"} -> -
selector {a=~"x"} -> -
selector {a!~"x"} -> -
selector {a=="x"} -> -
selector {a="\\\\"} -> -
selector {a='x'} -> -
selector {"up"} -> -
selector { -> -
selector } -> -
selector up} -> -
selector up{}{} -> -
selector {a="x" or b="y"} -> -
selector sum(up) -> -
selector 9up -> -
selector ü -> -
selector or -> -
selector Default -> -
selector KEEP_METRIC_NAMES -> -
selector {GROUP_left="x"} -> -
selector without{} -> -
selector up{a="x",On="y"} -> -
selector  -> -"#;

#[test]
fn texts(rt: HostRuntime) -> Result<(), Fail> {
    for row in ROWS.lines() {
        assert!(rt; is_right(rt.alloc(), row)?, "{row}");
    }
    Ok(())
}

/// Whether a text says what its row has.
fn is_right(alloc: Global, row: &str) -> Result<bool, AllocError> {
    let Some((given, due)) = row.split_once(" -> ") else {
        return Ok(false);
    };
    let Some((kind, text)) = given.split_once(' ') else {
        return Ok(false);
    };
    let text = repeated(alloc, text)?;
    let said = match kind {
        "line" => command(alloc, &text)?,
        "number" => number(alloc, &text)?,
        "end" => end(alloc, &text)?,
        "selector" => selector(alloc, &text)?,
        _ => return Ok(false),
    };
    let due = repeated(alloc, due)?;
    Ok(said.as_bytes() == due.as_slice())
}

/// A command with its numbers in decimal.
fn command(alloc: Global, line: &[u8]) -> Result<String, AllocError> {
    match read_command(alloc, line)? {
        Some(Command::Import { format, now }) => format!(in alloc; "{format:?} {now}"),
        Some(
            Command::Query {
                run,
                time,
                expression,
            },
        ) => format!(in alloc; "query {run} {time} [{}]", expression.as_str()),
        Some(Command::Run { run }) => format!(in alloc; "run {run}"),
        Some(Command::End { run }) => format!(in alloc; "end {run}"),
        Some(Command::Close { run }) => format!(in alloc; "close {run}"),
        None => String::from_str(alloc, "-"),
    }
}

fn number(alloc: Global, digits: &[u8]) -> Result<String, AllocError> {
    match read_number(digits) {
        Some(number) => format!(in alloc; "{number}"),
        None => String::from_str(alloc, "-"),
    }
}

fn end(alloc: Global, line: &[u8]) -> Result<String, AllocError> {
    String::from_str(alloc, if is_body_end(line) { "yes" } else { "no" })
}

/// The filters of a selector, each in brackets, list by list.
fn selector(alloc: Global, text: &[u8]) -> Result<String, AllocError> {
    let Ok(text) = from_utf8(text) else {
        return String::from_str(alloc, "no text");
    };
    match read_selector(alloc, text)? {
        Some(selector) => listed(alloc, &selector),
        None => String::from_str(alloc, "-"),
    }
}

fn listed(alloc: Global, selector: &Selector) -> Result<String, AllocError> {
    let mut text = String::new(alloc);
    for list in selector.lists.as_slice() {
        text.push_str("list")?;
        for filter in list.as_slice() {
            let op = match filter.op {
                FilterOp::Equal => "is",
                FilterOp::Differs => "is not",
                FilterOp::Matches => "matches",
                FilterOp::MatchesNot => "matches not",
            };
            let (name, value) = (filter.name.as_str(), filter.value.as_str());
            write!(text, " [{name} {op} {value}]")?;
        }
    }
    Ok(text)
}
