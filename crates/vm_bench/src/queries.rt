//! Queries, cut into tokens, read, printed and checked.

use mql_expr::{check, print};
use mql_lex::tokens;
use mql_parse::parse;
use std::alloc::{AllocError, Global};

/// Reads each line as a query, prints it and checks it, in all rounds. Gives how many lines are
/// queries, how many of these have no fault, and how many bytes their canonical texts have. An
/// input that isn't UTF-8 has none.
pub(crate) fn read_and_print(
    alloc: Global,
    input: &[u8],
    rounds: u32,
) -> Result<String, AllocError> {
    let (mut queries, mut right, mut bytes) = (0u64, 0u64, 0u64);
    let mut text = Vec::new(alloc);
    for _round in 0..rounds {
        for line in str::from_utf8(input).unwrap_or("").lines() {
            text.clear();
            let (is_query, is_right) = query(alloc, line, &mut text)?;
            queries = queries.saturating_add(u64::from(is_query));
            right = right.saturating_add(u64::from(is_right));
            bytes = bytes.saturating_add(text.len() as u64);
        }
    }
    format!(in alloc; "queries {queries} right {right} bytes {bytes}")
}

/// Whether a line is a query, and one without a fault. Its canonical text is appended to `out`.
fn query(alloc: Global, line: &str, out: &mut Vec<u8>) -> Result<(bool, bool), AllocError> {
    let Ok(cut) = tokens(alloc, line) else {
        return Ok((false, false));
    };
    let Ok(query) = parse(alloc, line, cut.as_slice()) else {
        return Ok((false, false));
    };
    print(&query, out)?;
    Ok((true, check(&query).is_ok()))
}
