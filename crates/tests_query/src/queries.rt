//! `mql_parse`, and `check` and `print` of `mql_expr`: what texts come to, worked out by hand from
//! the grammar and the rules in `docs/query-language.md`. Texts at the limits, and as deep as they
//! can be, are read, checked, printed and dropped on the stack that a program begins with.

use crate::fault_rows::{CHECKS, FAULTS};
use crate::query_rows::QUERIES;
use mql_expr::{CheckFault, Expr, check, print};
use mql_lex::tokens;
use mql_parse::{ParseFault, parse};
use std::alloc::{AllocError, Global};
use std::str::from_utf8;
use std::test::Fail;
use test_rows::repeated;

/// `read`, a text ` => ` its canonical text or its fault, or `check`, a text ` => ` what `check`
/// finds. Texts are as `repeated` takes them: blanks and comments, line feeds and tabs in strings,
/// a hundred levels and one more, signs, of which more than 50 have a canonical text with too many
/// levels to be read, the longest text, and as many bodies in bodies as a text can hold.
const ESCAPED: &str = r#"read \r\n\ta\t+\r\nb \n => a + b
read a + b => a + b
read a # b\n+ c => a + c
read a + c => a + c
read sum(# all\na) => sum(a)
read sum(a) => sum(a)
read  => unexpected 0
read a +  => unexpected 4
read 'a\nb' => "a\\nb"
read "a\\nb" => "a\\nb"
read 'a\\tb' => "a\tb"
read "a\tb" => "a\tb"
read 100*(|(a => too deep 100
read 100*-|-a => too deep 100
read 100*+|(a => too deep 100
read 100*f(|f(a => too deep 201
read 100*sum by (x) (|-a => too deep 1200
read 100*with (x = |with (y = 1) y => too deep 1005
read 100*(|with () a => too deep 105
read 100*(|sum by (x) (a) => too deep 111
read 100*( => unexpected 100
read 100*(|with => unexpected 104
read 100*(|sum by (x) => unexpected 110
read 100*(|1 ( => unexpected 102
read 100*(|) => unexpected 100
read 100*(|a|100*) => a
read 100*(|a + on(x) b|100*) => a + on(x) b
read 100*+|a => a
read 50*-|a => 49*-(|-a|49*)
read 49*-(|-a|49*) => 49*-(|-a|49*)
read 51*-|a => 50*-(|-a|50*)
read 50*-(|-a|50*) => too deep 100
read 100*-|a => 99*-(|-a|99*)
read 16383* |a => a
read a => a
read 2730*with()|a => 2729*WITH () (|WITH () a|2729*)
check 2730*with()|a => right"#;

/// Each operator, and each comparison with `bool`.
const OPERATORS: &str = "default
if
ifnot
or
and
unless
==
!=
<=
>=
<
>
+
-
*
/
%
== bool
!= bool
<= bool
>= bool
< bool
> bool";

/// What may stand after any operator, in canonical form. The first line is no modifier.
const MODIFIERS: &str = "
on()
on(x)
on(x,y)
ignoring(x)
on(x) group_left()
ignoring(x) group_left(y,z)
ignoring() group_right()
on(x) group_right(y)";

#[test]
fn queries(rt: HostRuntime) -> Result<(), Fail> {
    let mut count = 0u32;
    for row in QUERIES.lines() {
        if let Some((text, due)) = row.split_once(" => ") {
            assert!(rt; is_canonical(rt.alloc(), text, due)?, "{row}");
            count = count.saturating_add(1);
        }
    }
    assert_eq!(rt; count, 180);
    Ok(())
}

#[test]
fn faults(rt: HostRuntime) -> Result<(), Fail> {
    let mut count = 0u32;
    for row in FAULTS.lines() {
        if let Some((text, due)) = row.split_once(" => ") {
            assert!(rt; is_read(rt.alloc(), text, due)?, "{row}");
            count = count.saturating_add(1);
        }
    }
    assert_eq!(rt; count, 146);
    Ok(())
}

#[test]
fn faults_of_queries(rt: HostRuntime) -> Result<(), Fail> {
    let mut count = 0u32;
    for row in CHECKS.lines() {
        if let Some((text, due)) = row.split_once(" => ") {
            assert!(rt; is_checked(rt.alloc(), text, due)?, "{row}");
            count = count.saturating_add(1);
        }
    }
    assert_eq!(rt; count, 125);
    Ok(())
}

#[test]
fn escaped_texts(rt: HostRuntime) -> Result<(), Fail> {
    for row in ESCAPED.lines() {
        assert!(rt; is_right(rt.alloc(), row)?, "{row}");
    }
    Ok(())
}

#[test]
fn each_operator_with_each_modifier(rt: HostRuntime) -> Result<(), Fail> {
    for operator in OPERATORS.lines() {
        assert!(rt; takes_modifiers(rt.alloc(), operator)?, "{operator}");
    }
    Ok(())
}

/// Whether a text has this canonical text, which is its own.
fn is_canonical(alloc: Global, text: &str, due: &str) -> Result<bool, AllocError> {
    Ok(is_read(alloc, text, due)? && is_read(alloc, due, due)?)
}

/// Whether a text comes to what is due, a canonical text or a fault.
fn is_read(alloc: Global, text: &str, due: &str) -> Result<bool, AllocError> {
    Ok(words(alloc, text)?.as_slice() == due.as_bytes())
}

/// Whether `check` finds what is due. A query that is right is in canonical form in the rows.
fn is_checked(alloc: Global, text: &str, due: &str) -> Result<bool, AllocError> {
    if due == "right" && !is_read(alloc, text, text)? {
        return Ok(false);
    }
    Ok(checked_words(alloc, text)?.as_slice() == due.as_bytes())
}

/// Whether a text comes to what a row with escapes has.
fn is_right(alloc: Global, row: &str) -> Result<bool, AllocError> {
    let Some((given, due)) = row.split_once(" => ") else {
        return Ok(false);
    };
    let Some((asked, text)) = given.split_once(' ') else {
        return Ok(false);
    };
    let text = repeated(alloc, text)?;
    let Ok(text) = from_utf8(&text) else {
        return Ok(false);
    };
    let found = match asked {
        "read" => words(alloc, text)?,
        "check" => checked_words(alloc, text)?,
        _ => return Ok(false),
    };
    let due = repeated(alloc, due)?;
    Ok(found.as_slice() == due.as_slice())
}

/// Whether an operator with each modifier is in canonical form.
fn takes_modifiers(alloc: Global, operator: &str) -> Result<bool, AllocError> {
    for modifier in MODIFIERS.lines() {
        let blank = if modifier.is_empty() { "" } else { " " };
        let text = format!(in alloc; "a {operator}{blank}{modifier} b")?;
        if !is_read(alloc, text.as_str(), text.as_str())? {
            return Ok(false);
        }
    }
    Ok(true)
}

/// What a text comes to: its canonical text, or its fault.
fn words(alloc: Global, text: &str) -> Result<Vec<u8>, AllocError> {
    let mut out = Vec::new(alloc);
    match query(alloc, text) {
        Ok(expr) => push_query(&expr, &mut out)?,
        Err(e) => push_fault(alloc, e, &mut out)?,
    }
    Ok(out)
}

/// What `check` says of the query that a text is.
fn checked_words(alloc: Global, text: &str) -> Result<Vec<u8>, AllocError> {
    let mut out = Vec::new(alloc);
    match query(alloc, text) {
        Ok(expr) => push_check(alloc, &expr, &mut out)?,
        Err(e) => push_fault(alloc, e, &mut out)?,
    }
    Ok(out)
}

/// The query that a text is.
fn query(alloc: Global, text: &str) -> Result<Expr, ParseFault> {
    match tokens(alloc, text) {
        Ok(cut) => parse(alloc, text, cut.as_slice()),
        Err(_) => Err(ParseFault::Memory),
    }
}

fn push_query(expr: &Expr, out: &mut Vec<u8>) -> Result<(), AllocError> {
    print(expr, out)
}

fn push_fault(alloc: Global, e: ParseFault, out: &mut Vec<u8>) -> Result<(), AllocError> {
    match e {
        ParseFault::Unexpected { at } => push_place(alloc, "unexpected", at, out),
        ParseFault::TooDeep { at } => push_place(alloc, "too deep", at, out),
        ParseFault::NumberTooWide { at } => push_place(alloc, "too wide", at, out),
        ParseFault::Memory => Err(AllocError),
    }
}

fn push_check(alloc: Global, expr: &Expr, out: &mut Vec<u8>) -> Result<(), AllocError> {
    match check(expr) {
        Ok(()) => out.extend_from_slice(b"right"),
        Err(CheckFault::UnknownFunction { at }) => push_place(alloc, "unknown", at, out),
        Err(CheckFault::WrongArguments { at }) => push_place(alloc, "wrong", at, out),
    }
}

/// Writes a word and a place.
fn push_place(alloc: Global, word: &str, at: u64, out: &mut Vec<u8>) -> Result<(), AllocError> {
    out.extend_from_slice(format!(in alloc; "{word} {at}")?.as_bytes())
}
