//! What texts come to as patterns, by `vm_patterns`, against rows that were worked out by hand.

use crate::base::text_of;
use std::alloc::{AllocError, Global};
use test_rows::bytes_of;
use vm_base::{List, Text};
use vm_outside::{Pattern, PatternFault, Patterns};
use vm_patterns::MemPatterns;

/// A pattern, a value, and the texts of groups 0 to 9 of the match, each after a `;`. A dot is no
/// line feed unless the pattern says so.
const ROWS: &str = r"a|b a ;a;;;;;;;;;
a|b ab no
b abc no
  ;;;;;;;;;;
 a no
a$|b a ;a;;;;;;;;;
.* any ;any;;;;;;;;;
(?i)node-[0-9]+ NODE-17 ;NODE-17;;;;;;;;;
\d+ ١٢ ;١٢;;;;;;;;;
(a+)(b)?-(c) aa-c ;aa-c;aa;;c;;;;;;
(a|ab)(c|bcd) abcd ;abcd;a;bcd;;;;;;;
(.)(.)(.)(.)(.)(.)(.)(.)(.)(.) abcdefghij ;abcdefghij;a;b;c;d;e;f;g;h;i
( a syntax
a)(b ab syntax
[z-a] a syntax
a{2,1} a syntax
\q q syntax
* a syntax
(?<a>b)(?<a>c) bc syntax
(((a{1000}){1000}){1000}){1000} a refused
.* a\nb no
(?s).* a\nb ;a\nb;;;;;;;;;";

/// The same of a builder whose second call is refused.
const REFUSED: &str = "\
a a ;a;;;;;;;;;
a a refused
a b no
";

/// Whether a row is right.
fn is_right(alloc: Global, patterns: &mut MemPatterns, row: &str) -> Result<bool, AllocError> {
    let Some((text, rest)) = row.split_once(" ") else {
        return Ok(false);
    };
    let Some((value, due)) = rest.split_once(" ") else {
        return Ok(false);
    };
    let value = text_of(alloc, value)?;
    match patterns.build(text) {
        Ok(mut pattern) => {
            let told = match_of(alloc, &mut pattern, value.as_str())?;
            Ok(told.as_slice() == bytes_of(alloc, due)?.as_slice())
        }
        Err(PatternFault::Syntax) => Ok(due == "syntax"),
        Err(PatternFault::Refused) => Ok(due == "refused"),
        Err(PatternFault::Memory) => Err(AllocError),
    }
}

/// The groups of a pattern's match with a value.
fn match_of<P: Pattern>(
    alloc: Global,
    pattern: &mut P,
    value: &str,
) -> Result<Vec<u8>, AllocError> {
    let whole = pattern.whole(value)?;
    match (whole, pattern.groups(value)?) {
        (true, Some(groups)) => texts(alloc, &groups),
        (true, None) => Vec::from_slice(alloc, b"groups are missing"),
        (false, Some(_)) => Vec::from_slice(alloc, b"groups without a match"),
        (false, None) => Vec::from_slice(alloc, b"no"),
    }
}

fn texts(alloc: Global, groups: &List<Text>) -> Result<Vec<u8>, AllocError> {
    let mut told = Vec::new(alloc);
    for group in groups.as_slice() {
        told.push(b';')?;
        told.extend_from_slice(group.as_str().as_bytes())?;
    }
    Ok(told)
}

/// Each row comes to what is expected of it, and what is refused is counted.
#[test]
fn rows(rt: HostRuntime) -> Result<(), AllocError> {
    let mut patterns = MemPatterns::steady(rt.alloc());
    for row in ROWS.lines() {
        assert!(rt; is_right(rt.alloc(), &mut patterns, row)?, "{row}");
    }
    assert!(rt; patterns.refusals() == 1);
    Ok(())
}

/// A chosen call is refused and counted.
#[test]
fn chosen_calls_are_refused(rt: HostRuntime) -> Result<(), AllocError> {
    let failing = Vec::from_array(rt.alloc(), [1])?;
    let mut patterns = MemPatterns::new(rt.alloc(), failing);
    for row in REFUSED.lines() {
        assert!(rt; is_right(rt.alloc(), &mut patterns, row)?, "{row}");
    }
    assert!(rt; patterns.refusals() == 1);
    Ok(())
}
