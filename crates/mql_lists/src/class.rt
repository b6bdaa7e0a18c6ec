//! What a word is to the language.

ghost use Rattle.std.specs.Prelude.{◌≡◌, ◌≤◌, ◌+◌, length, map, unwrap_or};
ghost use Rattle.std.specs.Str.{str_eq_ignore_ascii_case};
ghost use Rattle.mql_lists.specs.Words.{word_of};
ghost use Rattle.mql_lists.specs.Classes.{class_of_word, class_in, class_of_name as named_class};
ghost use Rattle.mql_lists.specs.Classes.{class_of_mark as mark_class, filter_op as op_of};
ghost use Rattle.mql_lists.specs.declared.class.Class.{Class as ClassOf};

use mql_lex::{Many, MatchKind, Op, Token, TokenKind};
use vm_labels::FilterOp;

/// What a token is to the language. The reserved words are read without regard to ASCII case.
/// (MetricsQL; PromQL, "Operators" and "Vector matching")
#[derive(Clone, Copy, Debug)]
pub enum Class {
    /// A name that is no reserved word.
    Identifier,
    /// A number.
    Numeral,
    /// A duration.
    Time,
    /// A string.
    Quoted,
    /// An operator between two expressions, a word or a mark. `!=` is also that of a filter.
    Operator(Op),
    /// `=`, of a filter or a template.
    Assign,
    /// `=~`
    Like,
    /// `!~`
    Unlike,
    /// `,`
    Comma,
    /// `(`
    OpenRound,
    /// `)`
    CloseRound,
    /// `{`
    OpenCurly,
    /// `}`
    CloseCurly,
    /// `[`
    OpenSquare,
    /// `]`
    CloseSquare,
    /// `by` or `without`.
    Grouping { by: bool },
    /// `on` or `ignoring`.
    Pairing(MatchKind),
    /// `group_left` or `group_right`.
    Joining(Many),
    /// `bool`
    Truth,
    /// `offset`
    Offset,
    /// `with`
    With,
    /// `keep_metric_names`
    Keep,
    /// A mark that the language lacks: no token of a text is one.
    Strange,
}

/// The reserved words.
const RESERVED: [(&str, Class); 16] = [
    ("default", Class::Operator(Op::Default)),
    ("if", Class::Operator(Op::If)),
    ("ifnot", Class::Operator(Op::IfNot)),
    ("or", Class::Operator(Op::Or)),
    ("and", Class::Operator(Op::And)),
    ("unless", Class::Operator(Op::Unless)),
    ("bool", Class::Truth),
    ("on", Class::Pairing(MatchKind::On)),
    ("ignoring", Class::Pairing(MatchKind::Ignoring)),
    ("group_left", Class::Joining(Many::Left)),
    ("group_right", Class::Joining(Many::Right)),
    ("offset", Class::Offset),
    ("with", Class::With),
    ("by", Class::Grouping { by: true }),
    ("without", Class::Grouping { by: false }),
    ("keep_metric_names", Class::Keep),
];

/// What a token of a text is to the language.
pub fn class_of(text: &str, token: Token) -> Class
    requires { token.at + token.len ≤ length text.now }
    ensures { result ≡ class_of_word (word_of text.now token) }
{
    let at = token.at as usize;
    let word = &text.as_bytes()[at..at + token.len as usize];
    match token.kind {
        TokenKind::Name => class_of_name(word),
        TokenKind::Number => Class::Numeral,
        TokenKind::Duration => Class::Time,
        TokenKind::Str => Class::Quoted,
        TokenKind::Mark => class_of_mark(word),
    }
}

#[tactic(auto, unfolding(crate::specs::Classes::class_of_name))]
fn class_of_name(name: &[u8]) -> Class
    ensures { result ≡ named_class name.now }
{
    match reserved_class(name, &RESERVED) {
        Some(class) => class,
        None => Class::Identifier,
    }
}

/// The class of the row whose word a name is, without regard to ASCII case.
fn reserved_class(name: &[u8], rows: &[(&str, Class)]) -> Option<Class>
    ensures { let table = map (λ row. (row.0.now, row.1)) rows.now in
        (other : ClassOf) → unwrap_or result other
        ≡ class_in table (str_eq_ignore_ascii_case name.now) other }
{
    for (word, class) in rows {
        if is_word(name, word) {
            return Some(*class);
        }
    }
    None
}

/// Whether a name is a word, without regard to ASCII case.
fn is_word(name: &[u8], word: &str) -> bool
    ensures { result ≡ str_eq_ignore_ascii_case name.now word.now }
{
    name.eq_ignore_ascii_case(word.as_bytes())
}

#[tactic(auto, unfolding(crate::specs::Classes::class_of_mark))]
fn class_of_mark(mark: &[u8]) -> Class
    ensures { result ≡ mark_class mark.now }
{
    match mark {
        b"(" => Class::OpenRound,
        b")" => Class::CloseRound,
        b"{" => Class::OpenCurly,
        b"}" => Class::CloseCurly,
        b"[" => Class::OpenSquare,
        b"]" => Class::CloseSquare,
        b"," => Class::Comma,
        b"=" => Class::Assign,
        b"=~" => Class::Like,
        b"!~" => Class::Unlike,
        b"==" => Class::Operator(Op::Equal),
        b"!=" => Class::Operator(Op::Differs),
        b"<=" => Class::Operator(Op::AtMost),
        b">=" => Class::Operator(Op::AtLeast),
        b"<" => Class::Operator(Op::Below),
        b">" => Class::Operator(Op::Above),
        b"+" => Class::Operator(Op::Add),
        b"-" => Class::Operator(Op::Sub),
        b"*" => Class::Operator(Op::Mul),
        b"/" => Class::Operator(Op::Div),
        b"%" => Class::Operator(Op::Rem),
        _ => Class::Strange,
    }
}

/// The operator of a filter that a word of this class is: one of `=`, `!=`, `=~` and `!~`.
pub fn filter_op(class: Class) -> Option<FilterOp>
    ensures { result ≡ op_of class }
{
    match class {
        Class::Assign => Some(FilterOp::Equal),
        Class::Operator(Op::Differs) => Some(FilterOp::Differs),
        Class::Like => Some(FilterOp::Matches),
        Class::Unlike => Some(FilterOp::MatchesNot),
        _ => None,
    }
}
