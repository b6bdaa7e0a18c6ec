//! What a byte may be to a token.

ghost use Rattle.std.specs.Prelude.{◌≡◌};
ghost use Rattle.vm_labels.specs.Name.{begins_name as begins, is_name_byte as in_name};
ghost use Rattle.mql_lex.specs.Grammar.{is_blank as blank, is_word_byte as in_word, is_escape as escape, is_quote as quote, is_sign as sign};
ghost use Rattle.mql_lex.specs.Machine.{is_mark_letter as mark_letter, is_lone_mark as lone_mark, is_unit as unit};

/// A space, a tab, a carriage return or a line feed.
pub(crate) fn is_blank(byte: u8) -> bool
    ensures { result ≡ blank byte }
{
    matches!(byte, b' ' | b'\t' | b'\r' | b'\n')
}

/// Whether a name may begin with it.
pub(crate) fn begins_name(byte: u8) -> bool
    ensures { result ≡ begins byte }
{
    matches!(byte, b'a'..=b'z' | b'A'..=b'Z' | b'_' | b':')
}

pub(crate) fn is_name_byte(byte: u8) -> bool
    ensures { result ≡ in_name byte }
{
    matches!(byte, b'a'..=b'z' | b'A'..=b'Z' | b'_' | b':' | b'0'..=b'9')
}

/// A letter, a digit or `_`, which may not stand right after a number or a duration.
pub(crate) fn is_word_byte(byte: u8) -> bool
    ensures { result ≡ in_word byte }
{
    matches!(byte, b'a'..=b'z' | b'A'..=b'Z' | b'0'..=b'9' | b'_')
}

pub(crate) fn is_quote(byte: u8) -> bool
    ensures { result ≡ quote byte }
{
    matches!(byte, b'"' | b'\'')
}

/// Whether it may stand after a backslash.
pub(crate) fn is_escape(byte: u8) -> bool
    ensures { result ≡ escape byte }
{
    matches!(byte, b'\\' | b'"' | b'\'' | b'n' | b't')
}

/// The letter before the exponent of a number.
pub(crate) fn is_mark_letter(byte: u8) -> bool
    ensures { result ≡ mark_letter byte }
{
    matches!(byte, b'e' | b'E')
}

pub(crate) fn is_sign(byte: u8) -> bool
    ensures { result ≡ sign byte }
{
    matches!(byte, b'+' | b'-')
}

/// A unit of one byte with which no longer one begins.
pub(crate) fn is_unit(byte: u8) -> bool
    ensures { result ≡ unit byte }
{
    matches!(byte, b's' | b'h' | b'd' | b'w' | b'y' | b'i')
}

/// A mark of one byte with which no longer one begins.
pub(crate) fn is_lone_mark(byte: u8) -> bool
    ensures { result ≡ lone_mark byte }
{
    matches!(
        byte,
        b'(' | b')' | b'{' | b'}' | b'[' | b']' | b',' | b'+' | b'-' | b'*' | b'/' | b'%'
    )
}
