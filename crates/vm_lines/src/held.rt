//! The buffer of an input: pieces come in behind, lines go at the front.

ghost use Rattle.std.specs.Prelude.{◌≡◌, ℕ, ◌+◌, ◌-◌, ◌<◌, ◌≤◌, ◌↔◌, List, [], length, take, drop, IfOk, OnOk, OnErr};
ghost use Rattle.vm_outside.specs.Outside.{Gives, Rose, Told};
ghost use Rattle.vm_lines.specs.inner.Held.{Bytes, HasRead};

use std::alloc::{AllocError, Global};
use std::marker::Model;
use vm_base::limits::MAX_IMPORT_LINE;
use vm_outside::{Failed, Source};

/// How many bytes a read asks for at least.
const PIECE: usize = 65_536;

/// How long the buffer is at first.
const FIRST: usize = 2 * PIECE;

/// How long the buffer is at most.
const MOST: usize = 2 * (LONGEST + PIECE);

/// How many bytes a line has at most with its carriage return.
pub const LONGEST: usize = 4_194_305;

const _: () = prove!(LONGEST as u64 == MAX_IMPORT_LINE + 1);

/// The present line of an input, and the bytes behind it that were read.
#[derive(Drop)]
pub struct Held {
    buffer: Vec<u8>,
    /// Where the present line stands.
    line_from: usize,
    line_to: usize,
    /// Where the bytes behind it stand. Pieces come in behind these.
    from: usize,
    to: usize,
}

impl Model for Held {
    ghost use Rattle.std.specs.Prelude.{◌≤◌, ◌-◌, take, drop, vec_len};
    ghost use Rattle.vm_lines.specs.inner.Held.{Bytes};
    ghost use Rattle.vm_lines.specs.declared.held.TheConstants.{FIRST, MOST};

    ghost Value = { Bytes };

    ghost view = { λ h. record {
      line = drop h.line_from (take h.line_to h.buffer.items);
      ahead = drop h.from (take h.to h.buffer.items);
      room = vec_len h.buffer - h.to;
    } };

    ghost invariant = { λ h. (h.line_from ≤ h.line_to) × (h.line_to ≤ vec_len h.buffer)
        × (h.from ≤ h.to) × (h.to ≤ vec_len h.buffer)
        × (FIRST ≤ vec_len h.buffer) × (vec_len h.buffer ≤ MOST) };
}

impl Held {
    /// A buffer that holds nothing.
    pub fn new(alloc: Global) -> Result<Held, AllocError>
        ensures line { IfOk result (λ held. held.line ≡ []) }
        ensures ahead { IfOk result (λ held. held.ahead ≡ []) }
    {
        let buffer = vec![in alloc; 0; FIRST]?;
        Ok(Held {
            buffer,
            line_from: 0,
            line_to: 0,
            from: 0,
            to: 0,
        })
    }

    pub fn line(&self) -> &[u8]
        ensures { result.now ≡ self.now.line }
    {
        &self.buffer[self.line_from..self.line_to]
    }

    pub fn ahead(&self) -> &[u8]
        ensures { result.now ≡ self.now.ahead }
    {
        &self.buffer[self.from..self.to]
    }

    /// Makes the first `len` bytes ahead the present line, and goes on behind the first `used`
    /// ones.
    pub fn give(&mut self, len: usize, used: usize)
        requires len { len ≤ length self.old.ahead }
        requires used { used ≤ length self.old.ahead }
        ensures line { self.new.line ≡ take len self.old.ahead }
        ensures ahead { self.new.ahead ≡ drop used self.old.ahead }
    {
        self.line_from = self.from;
        self.line_to = self.from + len;
        self.from += used;
    }

    /// Makes room for a piece: moves the bytes ahead to the front, and doubles the buffer where
    /// less than a piece fits behind them. The present line is gone then.
    pub fn make_room(&mut self) -> Result<(), AllocError>
        requires { length self.old.ahead ≤ LONGEST }
        ensures room { OnOk result (0 < self.new.room) }
        ensures ahead { self.new.ahead ≡ self.old.ahead }
    {
        self.line_from = 0;
        self.line_to = 0;
        self.to = move_to_front(&mut self.buffer, self.from, self.to);
        self.from = 0;
        if self.buffer.len() - self.to < PIECE {
            let longer = 2 * self.buffer.len();
            self.buffer.resize(longer, 0)?;
        }
        Ok(())
    }

    /// Reads a piece of at most `most` bytes behind those ahead. 0 is the end of the input.
    pub fn read_piece<S: Source>(&mut self, input: &mut S, most: u64) -> Result<usize, Failed>
        requires room { 0 < self.old.room }
        requires some { 0 < most }

        // What `Ok` holds.
        ensures moved { IfOk result (λ n.
            HasRead self.old.ahead self.new.ahead n (S.left input.old) (S.left input.new)) }
        ensures within { IfOk result (λ n. n ≤ most) }
        ensures end { IfOk result (λ n. Told (S.left input.old) (λ bytes. (n ≡ 0) ↔ (bytes ≡ []))) }

        // What `Failed` leaves, and when it comes.
        ensures kept { OnErr result (self.new.ahead ≡ self.old.ahead) }
        ensures left { OnErr result (S.left input.new ≡ S.left input.old) }
        ensures cause { OnErr result (Rose (S.faults input.old) (S.faults input.new)) }
        ensures counted { S.faults input.old ≤ S.faults input.new }
    {
        let room = self.buffer.len() - self.to;
        let room = match usize::try_from(most) {
            Ok(most) => room.min(most),
            Err(_) => room,
        };
        self.line_from = 0;
        self.line_to = 0;
        let n = read_behind(input, &mut self.buffer, self.to, room)?;
        self.to += n;
        Ok(n)
    }
}

/// Reads into the part of a buffer that begins at `from` and has `room` bytes.
fn read_behind<S: Source>(
    input: &mut S,
    buffer: &mut [u8],
    from: usize,
    room: usize,
) -> Result<usize, Failed>
    requires some { 0 < room }
    requires fits { from + room ≤ length buffer.old }
    ensures front { take from buffer.new ≡ take from buffer.old }
    ensures moved { IfOk result (λ n.
        Gives (S.left input.old) (take n (drop from buffer.new)) (S.left input.new)) }
    ensures within { IfOk result (λ n. n ≤ room) }
    ensures inside { IfOk result (λ n. from + n ≤ length buffer.new) }
    ensures end { IfOk result (λ n. Told (S.left input.old) (λ bytes. (n ≡ 0) ↔ (bytes ≡ []))) }
    ensures kept { OnErr result (S.left input.new ≡ S.left input.old) }
    ensures cause { OnErr result (Rose (S.faults input.old) (S.faults input.new)) }
    ensures counted { S.faults input.old ≤ S.faults input.new }
{
    input.read(&mut buffer[from..from + room])
}

/// Moves the bytes from `from` up to `to` to the front, and answers where they end then.
fn move_to_front(buffer: &mut [u8], from: usize, to: usize) -> usize
    requires order { from ≤ to }
    requires within { to ≤ length buffer.old }
    ensures end { result ≡ to - from }
    ensures moved { take result buffer.new ≡ drop from (take to buffer.old) }
{
    if from > 0 {
        buffer.copy_within(from..to, 0);
    }
    to - from
}
