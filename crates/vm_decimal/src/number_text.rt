ghost use Rattle.std.specs.Prelude.{◌≡◌, ◌+◌, ◌≤◌, [], ◌++◌, length};
ghost use Rattle.vm_base.specs.Number.{number};
ghost use Rattle.vm_decimal.specs.Dec.{IsDecForm};
ghost use Rattle.vm_decimal.specs.NumberText.{number_text as text_of, sign, size_text};
ghost use Rattle.vm_decimal.specs.NumberText.{plain, scientific, power, noughts};

use arrayvec::ArrayVec;
use itoa::Buffer;

/// The length of the longest text: a sign, `0.`, six zeros and 38 digits.
pub(crate) const LONGEST: usize = 47;

/// The text of the number with these parts.
#[tactic(auto, using(crate::proofs::NumberTexts::texts))]
pub(crate) fn number_text(negative: bool, size: u128, shift: u16) -> ArrayVec<u8, LONGEST>
    requires { IsDecForm negative size shift }
    ensures { result.items ≡ text_of (number negative size shift) }
{
    let mut text = ArrayVec::new();
    if size == 0 {
        text.push(b'0');
        return text;
    }
    put_sign(&mut text, negative);
    let mut buffer = Buffer::new();
    put_size(&mut text, buffer.format(size).as_bytes(), shift);
    text
}

/// Begins the text of a number that isn't zero.
fn put_sign(text: &mut ArrayVec<u8, LONGEST>, negative: bool)
    requires { text.old.items ≡ [] }
    ensures { text.new.items ≡ sign negative }
{
    if negative {
        text.push(b'-');
    }
}

/// Appends a size that has these digits.
fn put_size(text: &mut ArrayVec<u8, LONGEST>, digits: &[u8], shift: u16)
    requires sign { length text.old.items ≤ 1 }
    requires some { 1 ≤ length digits.now }
    requires few { length digits.now ≤ 38 }
    requires high { shift ≤ 2000 }
    ensures { text.new.items ≡ text.old.items ++ size_text digits.now shift }
{
    let place = digits.len() + shift as usize - 1;
    if 993 <= place && place <= 1020 {
        put_plain(text, digits, shift as usize);
    } else {
        put_scientific(text, digits, place);
    }
}

fn put_plain(text: &mut ArrayVec<u8, LONGEST>, digits: &[u8], shift: usize)
    requires sign { length text.old.items ≤ 1 }
    requires few { length digits.now ≤ 38 }
    requires low { 994 ≤ length digits.now + shift }
    requires high { length digits.now + shift ≤ 1021 }
    ensures { text.new.items ≡ text.old.items ++ plain digits.now shift }
{
    let end = digits.len() + shift;
    if shift >= 1000 {
        put(text, digits);
        put_noughts(text, shift - 1000);
    } else if end > 1000 {
        let (whole, rest) = digits.split_at(end - 1000);
        put(text, whole);
        text.push(b'.');
        put(text, rest);
    } else {
        put(text, b"0.");
        put_noughts(text, 1000 - end);
        put(text, digits);
    }
}

fn put_scientific(text: &mut ArrayVec<u8, LONGEST>, digits: &[u8], place: usize)
    requires sign { length text.old.items ≤ 1 }
    requires some { 1 ≤ length digits.now }
    requires few { length digits.now ≤ 38 }
    requires high { place ≤ 2037 }
    ensures { text.new.items ≡ text.old.items ++ scientific digits.now place }
{
    let (first, rest) = digits.split_at(1);
    put(text, first);
    if !rest.is_empty() {
        text.push(b'.');
        put(text, rest);
    }
    text.push(b'e');
    put_power(text, place);
}

/// Appends the power of ten of the first digit. `place` is 1000 above it, as a shift is.
fn put_power(text: &mut ArrayVec<u8, LONGEST>, place: usize)
    requires room { length text.old.items ≤ 41 }
    requires high { place ≤ 2037 }
    ensures { text.new.items ≡ text.old.items ++ power place }
{
    let mut buffer = Buffer::new();
    if place < 1000 {
        text.push(b'-');
        put(text, buffer.format((1000 - place) as u16).as_bytes());
    } else {
        text.push(b'+');
        put(text, buffer.format((place - 1000) as u16).as_bytes());
    }
}

#[tactic(auto, using(crate::proofs::NumberTexts::fewer_noughts))]
fn put_noughts(text: &mut ArrayVec<u8, LONGEST>, count: usize)
    requires few { count ≤ 21 }
    requires room { length text.old.items + count ≤ LONGEST }
    ensures { text.new.items ≡ text.old.items ++ noughts count }
{
    put(text, &[b'0'; 21][..count]);
}

/// Appends a piece that there is room for.
fn put(text: &mut ArrayVec<u8, LONGEST>, piece: &[u8])
    requires { length text.old.items + length piece.now ≤ LONGEST }
    ensures { text.new.items ≡ text.old.items ++ piece.now }
{
    let _ = text.try_extend_from_slice(piece);
}
