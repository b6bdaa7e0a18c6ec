//! Where a text stops being UTF-8. (Unicode 15.0, table 3-7)

ghost use Rattle.std.specs.Prelude.{◌≡◌, ◌≤◌, ◌<◌, length};
ghost use Rattle.vm_promtext.specs.Utf8.{behind_first, behind_byte, readable, nothing};

/// What is wanted next within a character.
#[derive(Clone, Copy)]
pub struct Wanted {
    /// How many more bytes the character has.
    pub count: u8,
    /// The least byte that may come next, where the character has one more.
    pub least: u8,
    /// The greatest one.
    pub greatest: u8,
}

impl Wanted {
    ghost use Rattle.vm_promtext.specs.Utf8.{behind_first, behind_byte, nothing};

    /// Between characters.
    const NOTHING: Wanted = Wanted {
        count: 0,
        least: 0x80,
        greatest: 0xBF,
    };

    /// What is wanted after a byte, none where the byte can't stand here.
    fn behind(self, byte: u8) -> Option<Wanted>
        ensures { result ≡ behind_byte self byte }
    {
        if self.count == 0 {
            return Wanted::behind_first(byte);
        }
        if byte < self.least || byte > self.greatest {
            return None;
        }
        Some(Wanted {
            count: self.count - 1,
            least: 0x80,
            greatest: 0xBF,
        })
    }

    /// What a character's first byte wants after it.
    fn behind_first(byte: u8) -> Option<Wanted>
        ensures { result ≡ behind_first byte }
    {
        if byte < 0x80 {
            return Some(Wanted::NOTHING);
        }
        if byte < 0xC2 || byte > 0xF4 {
            return None;
        }
        let count = if byte < 0xE0 {
            1
        } else if byte < 0xF0 {
            2
        } else {
            3
        };
        let least = match byte {
            0xE0 => 0xA0,
            0xF0 => 0x90,
            _ => 0x80,
        };
        let greatest = match byte {
            0xED => 0x9F,
            0xF4 => 0x8F,
            _ => 0xBF,
        };
        Some(Wanted {
            count,
            least,
            greatest,
        })
    }
}

/// The place of the first byte with which the bytes so far begin no UTF-8, or the text's length
/// where there is none.
pub fn readable(text: &[u8]) -> usize
    ensures value { result ≡ readable nothing text.now }
    ensures within { result ≤ length text.now }
{
    let mut wanted = Wanted::NOTHING;
    for (at, byte) in text.iter().enumerate() {
        match wanted.behind(*byte) {
            Some(next) => wanted = next,
            None => return at,
        }
    }
    text.len()
}
