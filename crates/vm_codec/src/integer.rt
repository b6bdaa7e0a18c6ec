//! Numbers in groups of 7 bits, the lowest group first. The high bit is set on each byte but the
//! last.
ghost use Rattle.std.specs.Prelude.{◌≡◌, IfSome, ◌^◌, ◌+◌, ◌≤◌, ◌<◌, ◌++◌, length, take, drop};
ghost use Rattle.std.specs.Option.{option_map};
ghost use Rattle.vm_codec.specs.Integer.{groups};
ghost use Rattle.vm_codec.specs.inner.Reading.{number_at, groups_at, behind, in_64_bits};

/// What the tenth group of a number is worth.
const LAST: u64 = 1 << 63;

/// The number at the front of the bytes and what stands after it, none where the front is no
/// number in its one spelling.
pub(crate) fn read_number(bytes: &[u8]) -> Option<(u64, &[u8])>
    ensures value { option_map (λ r. (r.0, r.1.now)) result ≡ number_at bytes.now }
    ensures shorter { IfSome result (λ r. length r.1.now ≤ length bytes.now) }
{
    let mut number = 0;
    let mut scale = 1;
    let mut rest = bytes;
    for place in 0..9u32 {
        let (byte, more) = rest.split_first()?;
        let byte = *byte;
        let group = u64::from(byte % 128);
        number += group * scale;
        if byte < 128 {
            return if group == 0 && place > 0 {
                None
            } else {
                Some((number, more))
            };
        }
        scale *= 128;
        rest = more;
    }
    last_group(number, rest)
}

/// The number whose tenth group stands at the front, after the nine of `below`. It can only be 1.
fn last_group(below: u64, bytes: &[u8]) -> Option<(u64, &[u8])>
    requires { below < 2 ^ 63 }
    ensures value { option_map (λ r. (r.0, r.1.now)) result
        ≡ in_64_bits (behind 9 below (2 ^ 63) (groups_at 1 bytes.now)) }
    ensures shorter { IfSome result (λ r. length r.1.now ≤ length bytes.now) }
{
    let (group, more) = bytes.split_first()?;
    if *group == 1 {
        Some((below + LAST, more))
    } else {
        None
    }
}

/// Writes a number to this place of `into`, and says where it ends.
pub(crate) fn write_number(number: u64, into: &mut [u8], at: usize) -> usize
    requires room { at + 10 ≤ length into.old }
    ensures front { take result into.new ≡ take at into.old ++ groups 10 number }
    ensures back { drop result into.new ≡ drop result into.old }
    ensures few { (at ≤ result) × (result ≤ at + 10) }
{
    let mut left = number;
    let mut end = at;
    'groups: while left >= 128 {
        into[end] = (left % 128) as u8 + 128;
        left /= 128;
        end += 1;
    }
    into[end] = left as u8;
    end + 1
}

/// How many bytes a number takes.
pub(crate) fn number_len(number: u64) -> usize
    ensures value { result ≡ length (groups 10 number) }
    ensures few { result ≤ 10 }
{
    let mut left = number;
    let mut len = 1;
    'groups: while left >= 128 {
        left /= 128;
        len += 1;
    }
    len
}
