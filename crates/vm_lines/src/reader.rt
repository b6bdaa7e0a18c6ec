//! The reader of lines.

ghost use Rattle.std.specs.Prelude.{◌≡◌, ℕ, ◌+◌, ◌<◌, ◌≤◌, ◌↔◌, ◌^◌, List, [], ◌++◌, length, take, drop, true, false, IfOk, OnOk, OnErr, IsErrOf, Ok, Err};
ghost use Rattle.std.specs.Bool.{OnTrue, OnFalse};
ghost use Rattle.vm_outside.specs.Outside.{Gives, Rose, Told};
ghost use Rattle.vm_lines.specs.Feeds.{HasNoFeed, IsFirstFeed};
ghost use Rattle.vm_lines.specs.Reading.{KnowsEnd, Reads, GoesOn, Moves, GoesThrough};
ghost use Rattle.vm_lines.specs.inner.Steps.{Takes, Shows, Ends};

use crate::fault::LineFault;
use crate::feed::{first_feed, line_feed, without_return};
use crate::held::{Held, LONGEST};
use crate::step::Step;
use std::alloc::{AllocError, Global};
use std::marker::Model;
use vm_base::limits::{MAX_IMPORT_LINE, MAX_INPUT};
use vm_outside::{Failed, Source};

/// A reader of an input's lines, which shows one at a time.
///
/// It asks for pieces of at least 64 KiB and shows each line where it lies in its buffer. The
/// buffer doubles only where a line is longer than a piece, and stays below three times
/// `MAX_IMPORT_LINE`.
#[derive(Drop)]
pub struct LineReader {
    held: Held,
    taken: u64,
    /// Whether the end of the input was met. It isn't asked for again.
    ended: bool,
}

impl Model for LineReader {
    ghost use Rattle.std.specs.Prelude.{◌≡◌, ◌≤◌, ◌^◌, true, [], length};
    ghost use Rattle.vm_lines.specs.Reading.{Reading};

    ghost Value = { Reading };

    ghost view = { λ r. record {
      line = r.held.line;
      ahead = r.held.ahead;
      taken = r.taken;
      ended = r.ended;
    } };

    ghost invariant = { λ r. (r.taken ≤ 2 ^ 62) × (length r.held.ahead ≤ r.taken)
        × (r.ended ≡ true → r.held.ahead ≡ []) };
}

impl LineReader {
    /// A reader that has taken nothing yet. Its line is empty.
    pub fn new(alloc: Global) -> Result<LineReader, AllocError>
        ensures { IfOk result (λ reader.
            reader ≡ record { line = []; ahead = []; taken = 0; ended = false }) }
    {
        LineReader::after(alloc, 0)
    }

    /// A reader of what follows the first `taken` bytes of an input, which count as taken. Its line
    /// is empty.
    pub fn after(alloc: Global, taken: u64) -> Result<LineReader, AllocError>
        requires { taken ≤ 2 ^ 62 }
        ensures { IfOk result (λ reader.
            reader ≡ record { line = []; ahead = []; taken = taken; ended = false }) }
    {
        let held = Held::new(alloc)?;
        Ok(LineReader {
            held,
            taken,
            ended: false,
        })
    }

    /// The line that `advance` came to, without its line feed and carriage return. What it shows
    /// after another answer than `Line` is open.
    pub fn line(&self) -> &[u8]
        ensures { result.now ≡ self.now.line }
    {
        self.held.line()
    }

    /// Goes to the next line.
    ///
    /// It reads from the input only where no whole line stands in the buffer, and shows all whole
    /// lines of the first `MAX_INPUT` bytes before it answers `InputTooLong`. Once the end of the
    /// input was met, the input is not read again, and after its last line each call answers `End`.
    ///
    /// After an error another call may go on. No byte is lost but those of a line that is too long:
    /// where the error came amid one, the next call takes the rest of it for a line.
    pub fn advance<S: Source>(&mut self, input: &mut S) -> Result<Step, LineFault>
        // What `Ok` holds.
        ensures reads { KnowsEnd self.old (S.left input.old) → IfOk result (λ step.
            Reads step self.old self.new (S.left input.old) (S.left input.new)) }
        ensures goes_on { IfOk result (λ step. GoesOn step self.old self.new) }

        // The end of the input is met once.
        ensures once { self.old.ended ≡ true →
            (result ≡ Ok Step.End) × (self.new ≡ self.old) × (input.new ≡ input.old) }
        ensures end { KnowsEnd self.old (S.left input.old) → KnowsEnd self.new (S.left input.new) }

        // When each error comes.
        ensures input_fault { IsErrOf result LineFault.Input
            → Rose (S.faults input.old) (S.faults input.new) }
        ensures too_long { IsErrOf result LineFault.InputTooLong → Told (S.left input.old) (λ bytes.
            2 ^ 62 ≤ self.old.taken + length bytes) }
        ensures limit { IsErrOf result LineFault.InputTooLong → self.new.taken ≡ 2 ^ 62 }

        // An error comes, and the input is read, only where no whole line stands ahead.
        ensures needed { OnErr result (HasNoFeed self.new.ahead) }
        ensures ready { (at : ℕ) → IsFirstFeed self.old.ahead at → self.new.taken ≡ self.old.taken }

        // What each call does to the bytes.
        ensures moves { (through : List ℕ)
            × Moves self.old self.new (S.left input.old) (S.left input.new) through
            × GoesThrough result self.new.ended through }
        ensures counted { S.faults input.old ≤ S.faults input.new }
    {
        if self.ended {
            return Ok(Step::End);
        }
        match first_feed(self.ahead()) {
            Some(at) => Ok(self.give(at, at + 1)),
            None => self.read_on(input),
        }
    }

    /// The bytes that were taken and stand behind the line.
    fn ahead(&self) -> &[u8]
        ensures value { result.now ≡ self.now.ahead }
        ensures within { length self.now.ahead ≤ self.now.taken }
        ensures limit { self.now.taken ≤ 2 ^ 62 }
    {
        self.held.ahead()
    }

    /// Shows the first `len` bytes ahead as a line, unless it is too long, and goes on behind the
    /// first `used` ones.
    fn give(&mut self, len: usize, used: usize) -> Step
        requires before_end { self.old.ended ≡ false }
        requires len { len ≤ length self.old.ahead }
        requires used { used ≤ length self.old.ahead }
        ensures line { Shows result (take len self.old.ahead) self.new.line }
        ensures ahead { self.new.ahead ≡ drop used self.old.ahead }
        ensures taken { self.new.taken ≡ self.old.taken }
        ensures before_end { self.new.ended ≡ false }
    {
        let line = without_return(first(self.ahead(), len)).len();
        if line as u64 > MAX_IMPORT_LINE {
            self.held.give(0, used);
            return Step::TooLong;
        }
        self.held.give(line, used);
        Step::Line
    }

    /// Takes pieces until a line ends in them, the input ends, or the line is too long to be held.
    fn read_on<S: Source>(&mut self, input: &mut S) -> Result<Step, LineFault>
        requires before_end { self.old.ended ≡ false }
        requires clear { HasNoFeed self.old.ahead }
        ensures reads { IfOk result (λ step.
            Reads step self.old self.new (S.left input.old) (S.left input.new)) }
        ensures goes_on { IfOk result (λ step. GoesOn step self.old self.new) }
        ensures end { KnowsEnd self.new (S.left input.new) }
        ensures input_fault { IsErrOf result LineFault.Input
            → Rose (S.faults input.old) (S.faults input.new) }
        ensures limit { IsErrOf result LineFault.InputTooLong → self.new.taken ≡ 2 ^ 62 }
        ensures needed { OnErr result (HasNoFeed self.new.ahead) }
        ensures moves { (through : List ℕ)
            × Moves self.old self.new (S.left input.old) (S.left input.new) through
            × GoesThrough result self.new.ended through }
        ensures counted { S.faults input.old ≤ S.faults input.new }
    {
        let mut searched = self.ahead().len();
        'pieces: while searched <= LONGEST {
            if self.take_piece(input)? == 0 {
                return Ok(self.last());
            }
            if let Some(at) = line_feed(self.ahead(), searched) {
                return Ok(self.give(at, at + 1));
            }
            searched = self.ahead().len();
        }
        self.let_go(input)
    }

    /// What stands ahead at the end of the input, which was met now.
    fn last(&mut self) -> Step
        requires before_end { self.old.ended ≡ false }
        requires clear { HasNoFeed self.old.ahead }
        ensures line { Ends result self.old.ahead self.new.line }
        ensures ahead { self.new.ahead ≡ [] }
        ensures taken { self.new.taken ≡ self.old.taken }
        ensures ended { self.new.ended ≡ true }
    {
        let len = self.ahead().len();
        if len == 0 {
            self.end();
            return Step::End;
        }
        let step = self.give(len, len);
        self.end();
        step
    }

    /// Keeps in mind that the end of the input was met.
    fn end(&mut self)
        requires { self.old.ahead ≡ [] }
        ensures line { self.new.line ≡ self.old.line }
        ensures ahead { self.new.ahead ≡ [] }
        ensures taken { self.new.taken ≡ self.old.taken }
        ensures ended { self.new.ended ≡ true }
    {
        self.ended = true;
    }

    /// Lets go of a line that is too long.
    fn let_go<S: Source>(&mut self, input: &mut S) -> Result<Step, LineFault>
        requires before_end { self.old.ended ≡ false }
        requires clear { HasNoFeed self.old.ahead }
        requires long { LONGEST < length self.old.ahead }
        ensures reads { IfOk result (λ step.
            Reads step self.old self.new (S.left input.old) (S.left input.new)) }
        ensures goes_on { IfOk result (λ step. GoesOn step self.old self.new) }
        ensures end { KnowsEnd self.new (S.left input.new) }
        ensures input_fault { IsErrOf result LineFault.Input
            → Rose (S.faults input.old) (S.faults input.new) }
        ensures limit { IsErrOf result LineFault.InputTooLong → self.new.taken ≡ 2 ^ 62 }
        ensures needed { OnErr result (HasNoFeed self.new.ahead) }
        ensures moves { (through : List ℕ)
            × Moves self.old self.new (S.left input.old) (S.left input.new) through
            × GoesThrough result self.new.ended through }
        ensures counted { S.faults input.old ≤ S.faults input.new }
    {
        self.skip_all();
        'pieces: loop {
            if self.take_piece(input)? == 0 {
                self.end();
                return Ok(Step::TooLong);
            }
            if self.skip_line() {
                return Ok(Step::TooLong);
            }
        }
    }

    /// Goes on behind all bytes ahead.
    fn skip_all(&mut self)
        requires before_end { self.old.ended ≡ false }
        ensures within { length self.old.ahead ≤ self.old.taken }
        ensures ahead { self.new.ahead ≡ [] }
        ensures taken { self.new.taken ≡ self.old.taken }
        ensures before_end { self.new.ended ≡ false }
    {
        let all = self.ahead().len();
        self.held.give(0, all);
    }

    /// Goes on behind the first line feed, or behind all bytes where there is none. Answers whether
    /// there is one.
    fn skip_line(&mut self) -> bool
        requires before_end { self.old.ended ≡ false }
        ensures found { OnTrue result ((at : ℕ) × IsFirstFeed self.old.ahead at
            × (self.new.ahead ≡ drop (at + 1) self.old.ahead)) }
        ensures missing { OnFalse result (HasNoFeed self.old.ahead × (self.new.ahead ≡ [])) }
        ensures taken { self.new.taken ≡ self.old.taken }
        ensures before_end { self.new.ended ≡ false }
    {
        match first_feed(self.ahead()) {
            Some(at) => {
                self.held.give(0, at + 1);
                true
            }
            None => {
                self.skip_all();
                false
            }
        }
    }

    /// Takes a piece from the input. 0 is its end.
    fn take_piece<S: Source>(&mut self, input: &mut S) -> Result<usize, LineFault>
        requires before_end { self.old.ended ≡ false }
        requires fits { length self.old.ahead ≤ LONGEST }
        ensures took { IfOk result (λ n.
            Takes self.old self.new n (S.left input.old) (S.left input.new)) }
        ensures below { OnOk result (self.old.taken < 2 ^ 62) }
        ensures within { OnOk result (self.new.taken ≤ 2 ^ 62) }
        ensures end { IfOk result (λ n. Told (S.left input.old) (λ bytes. (n ≡ 0) ↔ (bytes ≡ []))) }
        ensures kept { OnErr result (self.new.ahead ≡ self.old.ahead) }
        ensures same { OnErr result (self.new.taken ≡ self.old.taken) }
        ensures left { OnErr result (S.left input.new ≡ S.left input.old) }
        ensures input_fault { IsErrOf result LineFault.Input
            → Rose (S.faults input.old) (S.faults input.new) }
        ensures limit { IsErrOf result LineFault.InputTooLong → self.old.taken ≡ 2 ^ 62 }
        ensures before_end { self.new.ended ≡ false }
        ensures counted { S.faults input.old ≤ S.faults input.new }
    {
        if self.taken >= MAX_INPUT {
            return Err(LineFault::InputTooLong);
        }
        self.held.make_room()?;
        match self.held.read_piece(input, MAX_INPUT - self.taken) {
            Ok(n) => {
                self.taken += n as u64;
                Ok(n)
            }
            Err(Failed) => Err(LineFault::Input),
        }
    }
}

/// The first `len` bytes.
fn first(bytes: &[u8], len: usize) -> &[u8]
    requires { len ≤ length bytes.now }
    ensures { result.now ≡ take len bytes.now }
{
    &bytes[..len]
}
