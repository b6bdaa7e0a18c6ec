//! A line that takes no memory.

ghost use Rattle.std.specs.Prelude.{◌≡◌, ◌≤◌, ◌+◌, ◌++◌, length, decimal};

use arrayvec::ArrayVec;
use itoa::Buffer;

/// How many bytes the longest line has: that of a body that was imported, with three numbers of 20
/// digits.
pub const LONGEST: usize = 93;

/// A line of at most 93 bytes.
pub type Short = ArrayVec<u8, LONGEST>;

/// Puts a piece at the end of a line.
pub fn put(line: &mut Short, piece: &[u8])
    requires { length line.old.items + length piece.now ≤ 93 }
    ensures { line.new.items ≡ line.old.items ++ piece.now }
{
    let _ = line.try_extend_from_slice(piece);
}

/// Puts the digits of a number at the end of a line, at most 20.
pub fn put_number(line: &mut Short, number: u64)
    requires { length line.old.items ≤ 73 }
    ensures text { line.new.items ≡ line.old.items ++ decimal number }
    ensures room { length line.new.items ≤ length line.old.items + 20 }
{
    let mut buffer = Buffer::new();
    put(line, buffer.format(number).as_bytes());
}
