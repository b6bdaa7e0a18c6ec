//! Where bytes leave the grammar of JSON texts.

ghost use Rattle.std.specs.Prelude.{◌≡◌, IfNone, IfSome};
ghost use Rattle.vm_base.specs.FirstWrong.{FirstWrong};
ghost use Rattle.vm_json.specs.Grammar.{IsJson};
ghost use Rattle.vm_json.specs.Machine.{wrong_place};

use crate::nesting::Nesting;
use crate::phase::{Phase, ends, step};

/// The first byte with which the bytes so far begin no JSON text, or their length where they end
/// too early. None where they are a JSON text. Places count bytes from 0.
///
/// A JSON text is one value with white space around it, in which at most 100 brackets are open at a
/// place. Its strings are UTF-8. No memory is taken, and the time grows with the length alone.
/// (RFC 8259)
pub fn first_wrong(text: &[u8]) -> Option<usize>
    // What the bytes are by the grammar.
    ensures json { IfNone result (IsJson text.now) }
    ensures wrong { IfSome result (λ at. FirstWrong IsJson text.now at) }
    // The same as a function of the bytes.
    ensures value { result ≡ wrong_place text.now }
{
    place(text)
}

/// The place where the machine can't go on, or the length where the text may not end there.
fn place(text: &[u8]) -> Option<usize>
    ensures { result ≡ wrong_place text.now }
{
    let mut phase = Phase::Wanted;
    let mut inside = Nesting::none();
    for (at, byte) in text.iter().enumerate() {
        match step(phase, &mut inside, *byte) {
            Some(next) => phase = next,
            None => return Some(at),
        }
    }
    if ends(phase) && inside.is_none() {
        return None;
    }
    Some(text.len())
}
