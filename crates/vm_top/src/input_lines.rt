//! The lines of an input, with their numbers.

ghost use Rattle.std.specs.Prelude.{◌≡◌, ◌+◌, ◌≤◌, ◌^◌, length, IfOk, OnOk, OnErr, IsErrOf, ◌⊎◌};
ghost use Rattle.vm_lines.specs.Reading.{KnowsEnd};
ghost use Rattle.vm_outside.specs.Outside.{Rose, Told};
ghost use Rattle.vm_top.specs.inner.Reading.{Comes, Takes, GoesOver, StopsAt, first_place};

use crate::fault::Fault;
use std::alloc::{AllocError, Global};
use std::marker::Model;
use vm_lines::{LineReader, Step};
use vm_outside::Source;

/// The lines of an input, and how many of them were read.
#[derive(Drop)]
pub struct InputLines {
    reader: LineReader,
    number: u64,
}

impl Model for InputLines {
    ghost use Rattle.std.specs.Prelude.{◌+◌, ◌≤◌, ◌^◌};
    ghost use Rattle.vm_lines.specs.Reading.{to_go};
    ghost use Rattle.vm_top.specs.inner.Reading.{Place};

    ghost Value = { Place };

    ghost view = { λ l. record { reading = l.reader; number = l.number } };

    ghost invariant = { λ l. l.number + to_go l.reader ≤ 2 ^ 62 };
}

impl InputLines {
    /// The lines of an input of which nothing was taken.
    pub fn new(alloc: Global) -> Result<InputLines, AllocError>
        ensures { IfOk result (λ lines. lines ≡ first_place) }
    {
        let reader = LineReader::new(alloc)?;
        Ok(InputLines { reader, number: 0 })
    }

    /// The line that `advance` came to.
    pub fn line(&self) -> &[u8]
        ensures { result.now ≡ self.now.reading.line }
    {
        self.reader.line()
    }

    /// The number of that line, counted from 1.
    pub fn number(&self) -> u64
        ensures value { result ≡ self.now.number }
        ensures small { result ≤ 2 ^ 62 }
    {
        self.number
    }

    /// Goes to the next line, which is shown or is too long to be shown. None at the input's end.
    pub fn advance<S: Source>(&mut self, input: &mut S) -> Result<Option<Step>, Fault>
        requires { KnowsEnd self.old.reading (S.left input.old) }

        // What `Ok` holds.
        ensures comes { IfOk result (λ step.
            Comes step self.old self.new (S.left input.old) (S.left input.new)) }
        ensures over { OnOk result
            (GoesOver self.old self.new (S.left input.old) (S.left input.new)) }

        // When each error comes.
        ensures input_fault { IsErrOf result Fault.Input
            → Rose (S.faults input.old) (S.faults input.new) }
        ensures too_long { IsErrOf result Fault.InputTooLong → Told (S.left input.old) (λ bytes.
            2 ^ 62 ≤ self.old.reading.taken + length bytes) }
        ensures others { OnErr result
            (IsErrOf result Fault.Input ⊎ IsErrOf result Fault.InputTooLong
            ⊎ IsErrOf result Fault.Memory) }
        ensures stops { OnErr result (StopsAt self.old (S.left input.old) (S.left input.new)) }

        // What each call does to the bytes.
        ensures end { KnowsEnd self.new.reading (S.left input.new) }
        ensures takes { Takes self.old self.new (S.left input.old) (S.left input.new) }
        ensures counted { S.faults input.old ≤ S.faults input.new }
    {
        match self.reader.advance(input)? {
            Step::End => Ok(None),
            step => {
                self.number += 1;
                Ok(Some(step))
            }
        }
    }
}
