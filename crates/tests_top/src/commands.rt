//! What the commands print: that answers come, and which.

use crate::trial::{is_right, left, pieces, text_of};
use crate::{last_rows, replay_rows};
use std::alloc::{AllocError, Global};
use std::process::Abort;
use std::test::Fail;

/// Each row of a table is right, and it has so many.
fn are_right(rt: &impl Abort, alloc: Global, rows: &str, count: u32) -> Result<(), AllocError> {
    let mut seen = 0u32;
    for row in rows.lines() {
        if !row.starts_with("# ") {
            assert!(rt; is_right(alloc, row)?, "{row}");
            seen = seen.saturating_add(1);
        }
    }
    assert_eq!(rt; seen, count);
    Ok(())
}

#[test]
fn last(rt: HostRuntime) -> Result<(), Fail> {
    are_right(&rt, rt.alloc(), last_rows::ROWS, 68)?;
    Ok(())
}

#[test]
fn replay(rt: HostRuntime) -> Result<(), Fail> {
    are_right(&rt, rt.alloc(), replay_rows::ROWS, 30)?;
    Ok(())
}

/// Times and inputs at which `last`, which keeps one sample a series, has to answer what `replay`
/// does, whose machine keeps all rows in one list.
const SAME: &str = r#"899 | -
900 | -
1000 | -
899 | up 1 900\nup 2 900\n\ndown 9 950\nup 1.5 800\nup 7 1001
900 | up 1 900\nup 2 900\n\ndown 9 950\nup 1.5 800\nup 7 1001
1000 | up 1 900\nup 2 900\n\ndown 9 950\nup 1.5 800\nup 7 1001
899 | up{b="2"} 1 900\nup{a="1"} 4 700\nup{b="2"} 3 899\nup{a="1"} 2 701
900 | up{b="2"} 1 900\nup{a="1"} 4 700\nup{b="2"} 3 899\nup{a="1"} 2 701
1000 | up{b="2"} 1 900\nup{a="1"} 4 700\nup{b="2"} 3 899\nup{a="1"} 2 701"#;

/// Whether the two commands give one reply, whatever the pieces in which the input of `last` comes.
fn is_same(alloc: Global, row: &str) -> Result<bool, AllocError> {
    let Some((time, input)) = row.split_once(" | ") else {
        return Ok(false);
    };
    let input = text_of(alloc, input)?;
    let mut script = Vec::from_slice(alloc, b"prom 900\n")?;
    script.extend_from_slice(&input)?;
    let query = format!(in alloc; "\n.\nquery 0 {time} up\nend 0\n")?;
    script.extend_from_slice(query.as_bytes())?;
    let replayed = left(alloc, "replay", &script, pieces(usize::MAX))?;
    let words = format!(in alloc; "last up {time}")?;
    for most in [1, 7, usize::MAX] {
        let answer = left(alloc, words.as_str(), &input, pieces(most))?;
        match answer.strip_prefix(b"0|") {
            Some(reply) if replayed.ends_with(reply) => {}
            _ => return Ok(false),
        }
    }
    Ok(true)
}

#[test]
fn last_answers_as_replay_does(rt: HostRuntime) -> Result<(), Fail> {
    for row in SAME.lines() {
        assert!(rt; is_same(rt.alloc(), row)?, "{row}");
    }
    Ok(())
}
