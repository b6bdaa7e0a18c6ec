//! Fields of bytes that are read, each with its rule.
ghost use Rattle.std.specs.Prelude.{◌≡◌, ◌+◌, ◌^◌, ◌<◌, ◌≤◌, true, false, OnOk, IfOk, IfErr, length};
ghost use Rattle.vm_part.specs.Broken.{is_whole, number_at};
ghost use Rattle.vm_part.specs.inner.Reading.{has_mark};

use vm_base::Broken;

/// Broken at a field's place where its rule isn't kept.
pub(crate) fn check(is_kept: bool, at: u64) -> Result<(), Broken>
    ensures ok { OnOk result (is_kept ≡ true) }
    ensures broken { IfErr result (λ e. (is_kept ≡ false) × (e.at ≡ at)) }
{
    if is_kept { Ok(()) } else { Err(Broken { at }) }
}

/// The number whose eight bytes stand at a place, highest byte first.
pub(crate) fn number_at(bytes: &[u8], at: u64) -> u64
    requires { at + 8 ≤ length bytes.now }
    ensures { result ≡ number_at at bytes.now }
{
    let place = at as usize;
    let mut field = [0; 8];
    field.copy_from_slice(&bytes[place..place + 8]);
    u64::from_be_bytes(field)
}

/// Whether eight bytes stand at a place.
fn is_whole(bytes: &[u8], at: u64) -> bool
    requires { at + 8 < 2 ^ 64 }
    ensures { result ≡ is_whole at bytes.now }
{
    at + 8 <= bytes.len() as u64
}

/// The number at a place, or broken where its bytes are cut off.
pub(crate) fn read_number(bytes: &[u8], at: u64) -> Result<u64, Broken>
    requires { at + 8 < 2 ^ 64 }
    ensures number { IfOk result (λ number. number ≡ number_at at bytes.now) }
    ensures whole { OnOk result (is_whole at bytes.now ≡ true) }
    ensures broken { IfErr result (λ e. (is_whole at bytes.now ≡ false) × (e.at ≡ at)) }
{
    if is_whole(bytes, at) {
        Ok(number_at(bytes, at))
    } else {
        Err(Broken { at })
    }
}

/// Whether a mark stands at a place.
pub(crate) fn has_mark(bytes: &[u8], at: u64, mark: &[u8; 8]) -> bool
    requires { at + 8 < 2 ^ 64 }
    ensures { result ≡ has_mark at bytes.now mark.now }
{
    if !is_whole(bytes, at) {
        return false;
    }
    let place = at as usize;
    &bytes[place..place + 8] == mark.as_slice()
}
