//! The moves within a string.

ghost use Rattle.std.specs.Prelude.{◌≡◌};
ghost use Rattle.vm_json.specs.Grammar.{is_plain, is_hex, is_tail};
ghost use Rattle.vm_json.specs.Machine.{behind_lead, behind_plain, behind_escape, next_within as next_of};

/// How far a string has been read.
#[derive(Clone, Copy)]
pub(crate) enum Within {
    /// Between characters.
    Plain,
    /// After a backslash.
    Escape,
    /// After `\u`.
    FourHex,
    ThreeHex,
    TwoHex,
    OneHex,
    /// Where so many bytes of a character are left, each from 0x80 to 0xBF.
    OneTail,
    TwoTails,
    ThreeTails,
    /// After a first byte that narrows the second one down. (Unicode 15.0, table 3-7)
    BehindE0,
    BehindED,
    BehindF0,
    BehindF4,
}

/// Where a byte leads to, none where no string goes on with it. The last quote is not looked at.
pub(crate) fn next_within(within: Within, byte: u8) -> Option<Within>
    ensures { result ≡ next_of within byte }
{
    match within {
        Within::Plain => behind_plain(byte),
        Within::Escape => behind_escape(byte),
        Within::FourHex if is_hex(byte) => Some(Within::ThreeHex),
        Within::ThreeHex if is_hex(byte) => Some(Within::TwoHex),
        Within::TwoHex if is_hex(byte) => Some(Within::OneHex),
        Within::OneHex if is_hex(byte) => Some(Within::Plain),
        Within::OneTail if is_tail(byte) => Some(Within::Plain),
        Within::TwoTails if is_tail(byte) => Some(Within::OneTail),
        Within::ThreeTails if is_tail(byte) => Some(Within::TwoTails),
        Within::BehindE0 if byte >= 0xA0 && byte <= 0xBF => Some(Within::OneTail),
        Within::BehindED if byte >= 0x80 && byte <= 0x9F => Some(Within::OneTail),
        Within::BehindF0 if byte >= 0x90 && byte <= 0xBF => Some(Within::TwoTails),
        Within::BehindF4 if byte >= 0x80 && byte <= 0x8F => Some(Within::TwoTails),
        _ => None,
    }
}

fn is_tail(byte: u8) -> bool
    ensures { result ≡ is_tail byte }
{
    byte >= 0x80 && byte <= 0xBF
}

fn is_hex(byte: u8) -> bool
    ensures { result ≡ is_hex byte }
{
    matches!(byte, b'0'..=b'9' | b'A'..=b'F' | b'a'..=b'f')
}

fn behind_plain(byte: u8) -> Option<Within>
    ensures { result ≡ behind_plain byte }
{
    match byte {
        b'"' => None,
        b'\\' => Some(Within::Escape),
        0x20..=0x7F => Some(Within::Plain),
        _ => behind_lead(byte),
    }
}

/// Where a byte above ASCII leads to.
fn behind_lead(byte: u8) -> Option<Within>
    ensures { result ≡ behind_lead byte }
{
    match byte {
        0xC2..=0xDF => Some(Within::OneTail),
        0xE0 => Some(Within::BehindE0),
        0xED => Some(Within::BehindED),
        0xE1..=0xEF => Some(Within::TwoTails),
        0xF0 => Some(Within::BehindF0),
        0xF1..=0xF3 => Some(Within::ThreeTails),
        0xF4 => Some(Within::BehindF4),
        _ => None,
    }
}

fn behind_escape(byte: u8) -> Option<Within>
    ensures { result ≡ behind_escape byte }
{
    match byte {
        b'u' => Some(Within::FourHex),
        b'"' | b'\\' | b'/' | b'b' | b'f' | b'n' | b'r' | b't' => Some(Within::Plain),
        _ => None,
    }
}
