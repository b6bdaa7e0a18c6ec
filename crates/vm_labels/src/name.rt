//! Names of metrics and labels. (Prometheus data model, "Metric names and labels")

ghost use Rattle.std.specs.Prelude.{◌≡◌, ◌≤◌, length};
ghost use Rattle.std.specs.List.{list_all, prefix_len};
ghost use Rattle.vm_labels.specs.Name.{begins_name, is_name, is_name_byte, name_len};

/// Whether a text is a name, `[A-Za-z_:][A-Za-z0-9_:]*`.
pub fn is_name(text: &[u8]) -> bool
    ensures { result ≡ is_name text.now }
{
    match text.first() {
        Some(first) => begins_name(*first) && continues_name(text),
        None => false,
    }
}

/// How many bytes the longest name at the front of a text has, 0 where none begins there.
pub fn name_len(text: &[u8]) -> usize
    ensures value { result ≡ name_len text.now }
    ensures within { result ≤ length text.now }
{
    match text.first() {
        Some(first) if begins_name(*first) => run_len(text),
        _ => 0,
    }
}

fn continues_name(text: &[u8]) -> bool
    ensures { result ≡ list_all is_name_byte text.now }
{
    text.iter().all(|byte| is_name_byte(*byte))
}

/// How many bytes at the front of a text may stand in a name.
fn run_len(text: &[u8]) -> usize
    ensures value { result ≡ prefix_len is_name_byte text.now }
    ensures within { result ≤ length text.now }
{
    let mut end = 0;
    'name: while end < text.len() && is_name_byte(text[end]) {
        end += 1;
    }
    end
}

fn is_name_byte(byte: u8) -> bool
    ensures { result ≡ is_name_byte byte }
{
    // Lower case first, since most bytes are. `:` follows `9`.
    if byte >= b'a' {
        byte <= b'z'
    } else if byte >= b'A' {
        byte <= b'Z' || byte == b'_'
    } else {
        byte >= b'0' && byte <= b':'
    }
}

fn begins_name(byte: u8) -> bool
    ensures { result ≡ begins_name byte }
{
    matches!(byte, b'a'..=b'z' | b'A'..=b'Z' | b'_' | b':')
}
