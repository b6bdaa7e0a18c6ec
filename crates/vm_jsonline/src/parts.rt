//! The parts of a text that is known to be JSON, where they lie.

ghost use Rattle.std.specs.Prelude.{◌≡◌, ◌≤◌, ◌<◌, ◌+◌, ◌^◌, ◌∷◌, ℕ, List, ◌==◌, ◌&&◌, not, length, false, option_map, IfSome};
ghost use Rattle.vm_json.specs.Grammar.{is_space};
ghost use Rattle.vm_jsonline.specs.Parts.{behind_spaces, quote_place, string_at, is_opening, is_closing, behind_value, is_end, behind_comma, next_start, next_item, next_member, with_colon, MemberRead};
ghost use Rattle.vm_jsonline.specs.declared.parts.Mode.TheVariants as modes;

/// Where a byte stands.
#[derive(Clone, Copy)]
pub(crate) enum Mode {
    Outside,
    /// In a string.
    Inside,
    /// In a string after a backslash.
    Escaped,
}

/// A text that begins with an item of an array, and what follows its comma.
#[derive(Clone, Copy)]
pub(crate) struct Item<'a> {
    pub(crate) value: &'a [u8],
    pub(crate) rest: &'a [u8],
}

/// What stands between the quotes of a member's key, a text that begins with its value, and what
/// follows its comma.
#[derive(Clone, Copy)]
pub(crate) struct Member<'a> {
    pub(crate) key: &'a [u8],
    pub(crate) value: &'a [u8],
    pub(crate) rest: &'a [u8],
}

fn is_space(byte: u8) -> bool
    ensures { result ≡ is_space byte }
{
    matches!(byte, b' ' | b'\t' | b'\n' | b'\r')
}

/// What stands after any white space.
pub(crate) fn behind_spaces(text: &[u8]) -> &[u8]
    ensures value { result.now ≡ behind_spaces text.now }
    ensures within { length result.now ≤ length text.now }
{
    let mut rest = text;
    'spaces: while !rest.is_empty() && is_space(rest[0]) {
        rest = &rest[1..];
    }
    rest
}

/// Whether a byte is this mark, and no backslash stands before it.
fn is_bare(escaped: bool, byte: u8, mark: u8) -> bool
    ensures { result ≡ (not escaped && byte == mark) }
{
    !escaped && byte == mark
}

/// The place of the quote that ends a string.
fn quote_place(text: &[u8]) -> Option<usize>
    ensures value { result ≡ quote_place false text.now }
    ensures within { IfSome result (λ at. at < length text.now) }
{
    let mut escaped = false;
    for (at, byte) in text.iter().enumerate() {
        if is_bare(escaped, *byte, b'"') {
            return Some(at);
        }
        escaped = is_bare(escaped, *byte, b'\\');
    }
    None
}

/// What stands between the quotes, after the first, and the rest.
pub(crate) fn string_at(text: &[u8]) -> Option<(&[u8], &[u8])>
    ensures { option_map (λ s. (s.0.now, s.1.now)) result ≡ string_at text.now }
{
    let at = quote_place(text)?;
    Some((&text[..at], &text[at + 1..]))
}

fn is_opening(byte: u8) -> bool
    ensures { result ≡ is_opening byte }
{
    byte == b'[' || byte == b'{'
}

fn is_closing(byte: u8) -> bool
    ensures { result ≡ is_closing byte }
{
    byte == b']' || byte == b'}'
}

/// Where a byte leads to that doesn't end the value.
fn turned(depth: usize, mode: Mode, byte: u8) -> (usize, Mode)
    requires { depth + 1 < 2 ^ 64 }
    ensures next { (more : List ℕ) → is_end depth mode byte ≡ false
        → behind_value depth mode (byte ∷ more) ≡ behind_value result.0 result.1 more }
    ensures near { result.0 ≤ depth + 1 }
{
    match mode {
        Mode::Inside if byte == b'"' => (depth, Mode::Outside),
        Mode::Inside if byte == b'\\' => (depth, Mode::Escaped),
        Mode::Inside | Mode::Escaped => (depth, Mode::Inside),
        Mode::Outside if is_closing(byte) => (depth.saturating_sub(1), Mode::Outside),
        Mode::Outside if byte == b'"' => (depth, Mode::Inside),
        Mode::Outside if is_opening(byte) => (depth + 1, Mode::Outside),
        Mode::Outside => (depth, Mode::Outside),
    }
}

/// Whether a byte ends the value: a comma or a closing bracket where no bracket is open.
fn is_end(depth: usize, mode: Mode, byte: u8) -> bool
    ensures { result ≡ is_end depth mode byte }
{
    matches!(mode, Mode::Outside) && depth == 0 && (byte == b',' || is_closing(byte))
}

/// What follows the value at the front, from its comma or bracket on.
fn behind_value(text: &[u8]) -> &[u8]
    ensures value { result.now ≡ behind_value 0 modes.Outside text.now }
    ensures within { length result.now ≤ length text.now }
{
    let mut depth = 0;
    let mut mode = Mode::Outside;
    for (at, byte) in text.iter().enumerate() {
        if is_end(depth, mode, *byte) {
            return &text[at..];
        }
        (depth, mode) = turned(depth, mode, *byte);
    }
    &text[text.len()..]
}

/// What follows the comma after the value at the front, nothing where there is none.
fn next_start(value: &[u8]) -> &[u8]
    ensures { result.now ≡ next_start value.now }
{
    match behind_value(value) {
        [b',', rest @ ..] => rest,
        _ => &[],
    }
}

/// The next item of an array.
#[tactic(auto, unfolding(crate::specs::Parts::next_item))]
pub(crate) fn next_item(text: &[u8]) -> Option<Item<'_>>
    ensures { option_map (λ i. (i.value.now, i.rest.now)) result ≡ next_item text.now }
{
    let value = behind_spaces(text);
    if value.is_empty() || value[0] == b']' {
        return None;
    }
    Some(Item {
        value,
        rest: next_start(value),
    })
}

/// The next member of an object.
#[tactic(auto, unfolding(crate::specs::Parts::next_member))]
pub(crate) fn next_member(text: &[u8]) -> Option<Member<'_>>
    ensures { option_map (λ m. record { key = m.key.now; value = m.value.now; rest = m.rest.now })
        result ≡ next_member text.now }
{
    match behind_spaces(text) {
        [b'"', quoted @ ..] => {
            let (key, behind) = string_at(quoted)?;
            with_colon(key, behind)
        }
        _ => None,
    }
}

/// The member with this key, where a colon follows it.
fn with_colon<'a>(key: &'a [u8], behind: &'a [u8]) -> Option<Member<'a>>
    ensures { option_map (λ m. record { key = m.key.now; value = m.value.now; rest = m.rest.now })
        result ≡ with_colon (key.now, behind.now) }
{
    match behind_spaces(behind) {
        [b':', rest @ ..] => {
            let value = behind_spaces(rest);
            Some(Member {
                key,
                value,
                rest: next_start(value),
            })
        }
        _ => None,
    }
}
