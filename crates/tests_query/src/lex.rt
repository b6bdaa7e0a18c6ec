//! `mql_lex`: texts and their tokens, worked out by hand from the grammar in
//! `docs/query-language.md`. Places and lengths count bytes.

use mql_lex::{LexFault, Token, TokenKind, tokens};
use std::alloc::{AllocError, Global};
use std::str::from_utf8;
use std::test::Fail;
use test_rows::repeated;
use vm_base::List;

/// A text ` -> ` its tokens, each as its kind, its text and its place, or `none`, or the fault. A
/// kind is `n` for a name, `#` for a number, `d` for a duration, `s` for a string and `m` for a
/// mark.
const ROWS: &str = r##"# a b -> none
"#" -> s"#"@0
a -> na@0
_:aZ9 -> n_:aZ9@0
a:b:c -> na:b:c@0
WITH by or -> nWITH@0 nby@5 nor@8
e5 m5 inf -> ne5@0 nm5@3 ninf@6
a.b -> bad 1
é -> bad 0
aé -> bad 1
0 -> #0@0
007 -> #007@0
1.5 -> #1.5@0
.5 -> #.5@0
5. -> #5.@0
5.5.5 -> #5.5@0 #.5@3
1e5 -> #1e5@0
1E+5 -> #1E+5@0
.5e-05 -> #.5e-05@0
5.e3 -> #5.e3@0
1e5.5 -> #1e5@0 #.5@3
1+2 -> #1@0 m+@1 #2@2
1e5+2 -> #1e5@0 m+@3 #2@4
-1 -> m-@0 #1@1
. -> bad 0
.a -> bad 0
..5 -> bad 0
a+. -> bad 2
1:a -> #1@0 n:a@1
1é -> bad 1
5x -> bad 0
a 5_ -> bad 2
0x10 -> bad 0
1e -> bad 0
1e+ -> bad 0
1E-x -> bad 0
1e5e -> bad 0
1.5m -> bad 0
.5s -> bad 0
1e5s -> bad 0
5m -> d5m@0
5ms -> d5ms@0
1s2m3h4d5w6y7i8ms -> d1s2m3h4d5w6y7i8ms@0
5m5s -> d5m5s@0
5m5ms -> d5m5ms@0
1h30m -> d1h30m@0
1d2i -> d1d2i@0
5m 5s -> d5m@0 d5s@3
5m.5 -> d5m@0 #.5@2
5m:a -> d5m@0 n:a@2
[5m] -> m[@0 d5m@1 m]@3
5M -> bad 0
5mm -> bad 0
5mss -> bad 0
5msm -> bad 0
5s5 -> bad 0
5m_ -> bad 0
1h30 -> bad 0
1h 30 -> d1h@0 #30@3
"" -> s""@0
'' '' -> s''@0 s''@3
"a'b" -> s"a'b"@0
'a"b' -> s'a"b'@0
"a\\b\"c\'d\ne\t" -> s"a\\b\"c\'d\ne\t"@0
'a\'b\"' -> s'a\'b\"'@0
"é€😀" -> s"é€😀"@0
"a"b -> s"a"@0 nb@3
"x -> bad 0
a "x' -> bad 2
"x\" -> bad 0
"\q" -> bad 0
"\r" -> bad 0
a+'\x41' -> bad 2
"\ -> bad 0
' -> bad 0
(){}[],=+-*/%<> -> m(@0 m)@1 m{@2 m}@3 m[@4 m]@5 m,@6 m=@7 m+@8 m-@9 m*@10 m/@11 m%@12 m<@13 m>@14
=~!~==!=<=>= -> m=~@0 m!~@2 m==@4 m!=@6 m<=@8 m>=@10
=== -> m==@0 m=@2
=!= -> m=@0 m!=@1
<== -> m<=@0 m=@2
<> -> m<@0 m>@1
! -> bad 0
a!b -> bad 1
~ -> bad 0
a & b -> bad 2
a; -> bad 1
a@b -> bad 1
`a` -> bad 0
sum by(job)(rate(m[5m]))-1 -> nsum@0 nby@4 m(@6 njob@7 m)@10 m(@11 nrate@12 m(@16 nm@17 m[@18 d5m@19 m]@21 m)@22 m)@23 m-@24 #1@25
foo{a="b",c!~'d|e'} offset -1h # last hour -> nfoo@0 m{@3 na@4 m=@5 s"b"@6 m,@9 nc@10 m!~@11 s'd|e'@13 m}@18 noffset@20 m-@27 d1h@28"##;

/// As `ROWS`, with texts as `repeated` takes them: white space, control characters, and texts at
/// the greatest length and above. `0*.` is an empty text.
const ESCAPED: &str = r##"0*. -> none
 \t\r\n -> none
#\n#\n -> none
a # b\nc -> na@0 nc@6
a#\r\nb -> na@0 nb@4
# é\na -> na@5
"a\nb\tc" -> s"a\nb\tc"@0
a\x0bb -> bad 1
a\x00 -> bad 1
16383* |a -> na@16383
16383* |a! -> too long 16385
16383* |! -> bad 16383
16384* |a -> too long 16385"##;

#[test]
fn texts(rt: HostRuntime) -> Result<(), Fail> {
    for row in ROWS.lines() {
        let (text, due) = row.split_once(" -> ").unwrap_or((row, "no row"));
        assert!(rt; comes_to(rt.alloc(), text, due.as_bytes())?, "{row}");
    }
    Ok(())
}

#[test]
fn escaped_texts(rt: HostRuntime) -> Result<(), Fail> {
    for row in ESCAPED.lines() {
        assert!(rt; is_right(rt.alloc(), row)?, "{row}");
    }
    Ok(())
}

/// Whether a text comes to what a row with escapes has.
fn is_right(alloc: Global, row: &str) -> Result<bool, AllocError> {
    let (text, due) = row.split_once(" -> ").unwrap_or((row, "no row"));
    let text = repeated(alloc, text)?;
    let due = repeated(alloc, due)?;
    let Ok(text) = from_utf8(&text) else {
        return Ok(false);
    };
    comes_to(alloc, text, &due)
}

/// Whether a text comes to what is due.
fn comes_to(alloc: Global, text: &str, due: &[u8]) -> Result<bool, AllocError> {
    let mut said = String::new(alloc);
    match tokens(alloc, text) {
        Ok(list) => push_tokens(text, &list, &mut said)?,
        Err(LexFault::TooLong { n }) => write!(said, "too long {n}")?,
        Err(LexFault::BadToken { at }) => write!(said, "bad {at}")?,
        Err(LexFault::Memory) => return Err(AllocError),
    }
    Ok(said.as_bytes() == due)
}

fn push_tokens(text: &str, list: &List<Token>, out: &mut String) -> Result<(), AllocError> {
    let mut blank = "";
    for token in list.as_slice() {
        let end = token.at.saturating_add(token.len);
        let part = text.get(token.at as usize..end as usize);
        let part = part.unwrap_or("(no text)");
        let (kind, at) = (letter(token.kind), token.at);
        write!(out, "{blank}{kind}{part}@{at}")?;
        blank = " ";
    }
    if list.as_slice().is_empty() {
        out.push_str("none")?;
    }
    Ok(())
}

fn letter(kind: TokenKind) -> char {
    match kind {
        TokenKind::Name => 'n',
        TokenKind::Number => '#',
        TokenKind::Duration => 'd',
        TokenKind::Str => 's',
        TokenKind::Mark => 'm',
    }
}
