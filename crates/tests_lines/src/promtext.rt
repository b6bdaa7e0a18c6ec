//! `vm_promtext`: lines and what they say. The expected values were worked out by hand from the
//! description of the text format 0.0.4; places are counted from 0 up to the first byte that no
//! line can have there.

use crate::printed::{push_row, push_skipped};
use std::alloc::{AllocError, Global};
use std::test::Fail;
use test_rows::repeated;
use vm_promtext::{Line, read_line};

/// The time at which the lines of the tables are read.
const NOW: u64 = 7;

/// A line ` -> ` its row, `nothing`, `no number`, or where it goes wrong: by its value, then its
/// time, then its labels.
const ROWS: &str =
    r#"go_gc_duration_seconds{quantile="0"} 2.7667e-05 -> {__name__="go_gc_duration_seconds",quantile="0"} 0.000027667 7
go_gc_duration_seconds_sum 0.000198 -> {__name__="go_gc_duration_seconds_sum"} 0.000198 7
process_virtual_memory_max_bytes 1.8446744073709552e+19 -> {__name__="process_virtual_memory_max_bytes"} 18446744073709552000 7
a{b="x\"y\\z\n"} 1 -> {__name__="a",b="x\"y\\z\n"} 1 7
a{b="\q"} 1 -> {__name__="a",b="\\q"} 1 7
a{b="\\q\\"} 1 -> {__name__="a",b="\\q\\"} 1 7
a {b="c",} 1 5 -> {__name__="a",b="c"} 1 5
a{b="c"}1 -> {__name__="a",b="c"} 1 7
a{} 1 -> {__name__="a"} 1 7
a{ } 1 -> {__name__="a"} 1 7
a{b="c" , } 1 -> {__name__="a",b="c"} 1 7
b{z="1",a="2"} 3 -> {__name__="b",a="2",z="1"} 3 7
a{b=""} 1 -> {__name__="a"} 1 7
a{b="",b="c"} 1 -> {__name__="a",b="c"} 1 7
a{b="é€😀"} 1 -> {__name__="a",b="é€😀"} 1 7
a{b="}, #"} 1 -> {__name__="a",b="}, #"} 1 7
:a_:9 1 -> {__name__=":a_:9"} 1 7
a .5 5 -> {__name__="a"} 0.5 5
a -0  -> {__name__="a"} 0 7
a 1 281474976710655 -> {__name__="a"} 1 281474976710655
a 1 000000000000000000000000000005 -> {__name__="a"} 1 5
  a  1  5   -> {__name__="a"} 1 5
 -> nothing
# HELP go_gc_duration_seconds A summary of GC pauses. -> nothing
go_gc_duration_seconds{quantile="1"} NaN -> no number
a +Inf -> no number
a nAn 5 -> no number
a -infinity -> no number
a 1e400 -> skipped 2
a 1e400 281474976710656 -> skipped 2
a{b="c",b="d"} 1e400 -> skipped 15
a 1 281474976710656 -> skipped 4
a{b="c",b="d"} 1 281474976710656 -> skipped 17
a NaN 281474976710656 -> skipped 6
a{b="c",b="d"} 1 -> skipped 0
a{b="c",b="d"} NaN -> skipped 0
a{__name__="b"} 1 -> skipped 0
a -> skipped 1
a  -> skipped 2
a! 1 -> skipped 1
1a 1 -> skipped 0
{a="b"} 1 -> skipped 0
a{ -> skipped 2
a{,} 1 -> skipped 2
a{1b="c"} 1 -> skipped 2
a{b -> skipped 3
a{b-c="d"} 1 -> skipped 3
a{b= -> skipped 4
a{b=c"} 1 -> skipped 4
a{b=" -> skipped 5
a{b="c} 1 -> skipped 9
a{b="c\"} 1 -> skipped 11
a{b="c" -> skipped 7
a{b="c"d"} 1 -> skipped 7
a{b="c" "d"} 1 -> skipped 8
a{b="c", -> skipped 8
a{b="c",,} 1 -> skipped 8
a{b="c"} -> skipped 8
a{b="c"} {} 1 -> skipped 9
a 0x10 -> skipped 3
a 1,5 -> skipped 3
a - 5 -> skipped 3
a 1e -> skipped 4
a 1e 5 -> skipped 4
a in 5 -> skipped 4
a inx -> skipped 4
a 1 -1 -> skipped 4
a 1 2x -> skipped 5
a 1 2 3 -> skipped 6
a 1e400 x -> skipped 8"#;

/// As `ROWS`, with texts as `repeated` takes them: white space, bytes that are no text, and limits.
/// The first row at a limit has 40 labels with the metric's name, the next one 41.
const ESCAPED: &str = r#"\ta\t{\tb\t=\t"c"\t,\td =\t"e"\t}\t1\t5\t -> {__name__="a",b="c",d="e"} 1 5
 \t  -> nothing
\t #{ -> nothing
\r -> skipped 0
a 1\r -> skipped 3
a 1 5\r -> skipped 5
# \xff\xfe -> nothing
\xff -> skipped 0
a\xff 1 -> skipped 1
a{b="\xff"} 1 -> skipped 5
a{b="\x80"} 1 -> skipped 5
a{b="\xc1\xbf"} 1 -> skipped 5
a{b="\xf5\x80\x80\x80"} 1 -> skipped 5
a{b="\xc3("} 1 -> skipped 6
a{b="\xe0\x9f\xbf"} 1 -> skipped 6
a{b="\xed\xa0\x80"} 1 -> skipped 6
a{b="\xf0\x8f\xbf\xbf"} 1 -> skipped 6
a{b="\xf4\x90\x80\x80"} 1 -> skipped 6
a{b="\xe2\\n"} 1 -> skipped 6
a{b="\xe2\x82"} 1 -> skipped 7
a{b="\xe2\x82 -> skipped 7
a{b="\xf0\x9f\x98"} 1 -> skipped 8
a{b="\\\xff"} 1 -> skipped 6
a{b="c\xff -> skipped 6
a{l0="x",l1="x",l2="x",l3="x",l4="x",l5="x",l6="x",l7="x",l8="x",l9="x",l10="x",l11="x",l12="x",l13="x",l14="x",l15="x",l16="x",l17="x",l18="x",l19="x",l20="x",l21="x",l22="x",l23="x",l24="x",l25="x",l26="x",l27="x",l28="x",l29="x",l30="x",l31="x",l32="x",l33="x",l34="x",l35="x",l36="x",l37="x",n="v"} 1 -> {__name__="a",l0="x",l1="x",l10="x",l11="x",l12="x",l13="x",l14="x",l15="x",l16="x",l17="x",l18="x",l19="x",l2="x",l20="x",l21="x",l22="x",l23="x",l24="x",l25="x",l26="x",l27="x",l28="x",l29="x",l3="x",l30="x",l31="x",l32="x",l33="x",l34="x",l35="x",l36="x",l37="x",l4="x",l5="x",l6="x",l7="x",l8="x",l9="x",n="v"} 1 7
a{l0="x",l1="x",l2="x",l3="x",l4="x",l5="x",l6="x",l7="x",l8="x",l9="x",l10="x",l11="x",l12="x",l13="x",l14="x",l15="x",l16="x",l17="x",l18="x",l19="x",l20="x",l21="x",l22="x",l23="x",l24="x",l25="x",l26="x",l27="x",l28="x",l29="x",l30="x",l31="x",l32="x",l33="x",l34="x",l35="x",l36="x",l37="x",l38="x",n="v"} 1 -> skipped 0
a{|256*n|="v"} 1 -> {__name__="a",|256*n|="v"} 1 7
a{|257*n|="v"} 1 -> skipped 0
a{n="|4096*v|"} 1 -> {__name__="a",n="|4096*v|"} 1 7
a{n="|4097*v|"} 1 -> skipped 0
4194304*  -> nothing
4194305*  -> skipped 4194304"#;

#[test]
fn lines(rt: HostRuntime) -> Result<(), Fail> {
    for row in ROWS.lines() {
        let (line, due) = row.split_once(" -> ").unwrap_or((row, "no row"));
        assert!(rt; says(rt.alloc(), line.as_bytes(), due.as_bytes())?, "{row}");
    }
    Ok(())
}

#[test]
fn escaped_lines(rt: HostRuntime) -> Result<(), Fail> {
    for row in ESCAPED.lines() {
        assert!(rt; is_right(rt.alloc(), row)?, "{row}");
    }
    Ok(())
}

/// Whether a line says what a row with escapes has.
fn is_right(alloc: Global, row: &str) -> Result<bool, AllocError> {
    let (line, due) = row.split_once(" -> ").unwrap_or((row, "no row"));
    let line = repeated(alloc, line)?;
    let due = repeated(alloc, due)?;
    says(alloc, &line, &due)
}

/// Whether a line says what is due.
fn says(alloc: Global, line: &[u8], due: &[u8]) -> Result<bool, AllocError> {
    let mut said = Vec::new(alloc);
    push_line(alloc, &read_line(alloc, line, NOW)?, &mut said)?;
    Ok(said.as_slice() == due)
}

fn push_line(alloc: Global, line: &Line, out: &mut Vec<u8>) -> Result<(), AllocError> {
    match line {
        Line::Nothing => out.extend_from_slice(b"nothing"),
        Line::NoNumber => out.extend_from_slice(b"no number"),
        Line::Skipped { at } => push_skipped(alloc, *at, out),
        Line::Row(row) => push_row(alloc, row, out),
    }
}
