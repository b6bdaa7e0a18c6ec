//! `vm_json`: which texts are JSON, and where others go wrong. Places were worked out by hand from
//! RFC 8259; which texts are JSON agrees with Python's `json`, but for `NaN`, infinities and the
//! depth.

use std::alloc::{AllocError, Global};
use std::test::Fail;
use test_rows::repeated;
use vm_json::first_wrong;

/// A text ` -> ` `json`, or the place where it goes wrong. Texts are as `repeated` takes them.
const ROWS: &str = r#"null -> json
 true\t -> json
\r\nfalse  -> json
0 -> json
-0 -> json
-0.5e-7 -> json
1E+2 -> json
12345678901234567890.0123456789 -> json
"" -> json
"a\\"\\\\\\/\\b\\f\\n\\r\\té€😀\\u00e9\\uD83d" -> json
"\x7f\xc2\x80\xdf\xbf\xe0\xa0\x80\xed\x9f\xbf\xee\x80\x80\xef\xbf\xbf\xf0\x90\x80\x80\xf4\x8f\xbf\xbf" -> json
[] -> json
[ ] -> json
[1,null , [2],{}] -> json
{} -> json
{ "a" : 1 , "a":{"b":[]},"":"x"} -> json
 -> 0
   -> 2
nul -> 3
nulL -> 3
tru e -> 3
False -> 0
NaN -> 0
1 2 -> 2
01 -> 1
- -> 1
-a -> 1
+1 -> 0
.5 -> 0
5. -> 2
5.e1 -> 2
1e -> 2
1e+ -> 3
1e5.0 -> 3
0x10 -> 1
[1,] -> 3
[,1] -> 1
[1 2] -> 3
[1 -> 2
[1} -> 2
] -> 0
{"a":1,} -> 7
{,} -> 1
{a:1} -> 1
{"a"} -> 4
{"a":} -> 5
{"a" 1} -> 5
{"a":1] -> 6
{"a":1 -> 6
"a -> 2
"\t" -> 1
"\\x" -> 2
"\\u12g4" -> 5
"\\u12" -> 5
"\x80" -> 1
"\xc1\x80" -> 1
"\xc3(" -> 2
"\xed\xa0\x80" -> 2
"\xf4\x90\x80\x80" -> 2
"\xe2\x82" -> 3
1\xa0 -> 1
50*[{"": -> 250
50*[{"":|[ -> 250
50*[{"":|0|50*}] -> json"#;

#[test]
fn texts(rt: HostRuntime) -> Result<(), Fail> {
    for row in ROWS.lines() {
        assert!(rt; is_right(rt.alloc(), row)?, "{row}");
    }
    Ok(())
}

/// Whether a text goes wrong where its row has it.
fn is_right(alloc: Global, row: &str) -> Result<bool, AllocError> {
    let Some((text, due)) = row.split_once(" -> ") else {
        return Ok(false);
    };
    let text = repeated(alloc, text)?;
    Ok(is_wrong_at(&text, due))
}

fn is_wrong_at(text: &[u8], due: &str) -> bool {
    match first_wrong(text) {
        Some(place) => due.parse().ok() == Some(place),
        None => due == "json",
    }
}
