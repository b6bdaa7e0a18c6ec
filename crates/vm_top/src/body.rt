//! The body of an import: the rows of its lines, in batches.

ghost use Rattle.std.specs.Prelude.{◌≡◌, ◌≤◌, ◌<◌, ◌^◌, ◌+◌, [], ℕ, List as ListOf, None, Some, length, IfOk, IfErr, OnOk, OnErr, IsErrOf, ◌⊎◌};
ghost use Rattle.vm_lines.specs.Reading.{to_go, KnowsEnd};
ghost use Rattle.vm_machine.specs.Batches.{enough, with_more, row_count};
ghost use Rattle.vm_outside.specs.Outside.{Rose, Told};
ghost use Rattle.vm_jsonline.specs.Means.{rows_said};
ghost use Rattle.vm_jsonline.specs.Reading.{reading as json_reading};
ghost use Rattle.vm_promtext.specs.Means.{rows_of};
ghost use Rattle.vm_script.specs.Command.{is_body_end};
ghost use Rattle.vm_script.specs.declared.command.Command.TheVariants.{Import};
ghost use Rattle.vm_top.specs.inner.Playing.{Adds, BreaksOff, Gathers, ReadsBody};
ghost use Rattle.vm_top.specs.inner.Said.{format_rows};
ghost use Rattle.vm_top.specs.inner.Reading.{Takes, GoesOver, IsLineOf};

use crate::fault::Fault;
use crate::input_lines::InputLines;
use crate::last::read_step;
use std::alloc::{AllocError, Global};
use std::marker::Model;
use vm_base::List;
use vm_base::limits::MAX_IMPORT_LINE;
use vm_jsonline::{self as jsonline, JsonLine};
use vm_labels::Batch;
use vm_lines::Step;
use vm_machine::Batches;
use vm_outside::Source;
use vm_promtext::Line;
use vm_script::{Format, is_body_end};

/// The rows of the lines so far, and how many of the lines were skipped.
#[derive(Drop)]
pub struct Body {
    format: Format,
    /// The time of rows that have none of their own.
    time: u64,
    batches: Batches,
    skipped: u64,
}

impl Model for Body {
    ghost use Rattle.std.specs.Prelude.{◌<◌, ◌^◌};
    ghost use Rattle.vm_top.specs.inner.Playing.{BodyOf};

    ghost Value = { BodyOf };

    ghost view = { λ b. record {
      format = b.format;
      time = b.time;
      parted = b.batches;
      skipped = b.skipped;
    } };

    ghost invariant = { λ b. b.time < 2 ^ 48 };
}

impl Body {
    /// A body without lines. It takes no memory.
    pub fn new(alloc: Global, format: Format, time: u64) -> Body
        requires { time < 2 ^ 48 }
        ensures gathers { Gathers result [] }
        ensures format { result.format ≡ format }
        ensures time { result.time ≡ time }
    {
        Body {
            format,
            time,
            batches: Batches::new(alloc),
            skipped: 0,
        }
    }

    /// Takes one line more, the one that was come to.
    pub fn add(&mut self, alloc: Global, step: Step, shown: &[u8]) -> Result<(), AllocError>
        ensures { OnOk result ((text : ListOf ℕ) → IsLineOf step shown.now text
            → length self.old.parted.held < enough
            → Adds (format_rows self.old.format self.old.time text) self.old self.new) }
    {
        match self.format {
            Format::Prom => {
                let line = read_step(alloc, step, shown, self.time)?;
                self.add_text(alloc, line)
            }
            Format::Json => {
                let line = read_json_step(alloc, step, shown)?;
                self.add_json(alloc, line)
            }
        }
    }

    fn add_text(&mut self, alloc: Global, line: Line) -> Result<(), AllocError>
        ensures { OnOk result
            (length self.old.parted.held < enough → Adds (rows_of line) self.old self.new) }
    {
        match line {
            Line::Row(row) => self.batches.add(alloc, row),
            Line::Skipped { .. } => self.skip(),
            Line::Nothing | Line::NoNumber => Ok(()),
        }
    }

    fn add_json(&mut self, alloc: Global, line: JsonLine) -> Result<(), AllocError>
        ensures { OnOk result
            (length self.old.parted.held < enough → Adds (rows_said line) self.old self.new) }
    {
        match line {
            JsonLine::Rows(rows) => self.batches.add_line(alloc, rows),
            JsonLine::Skipped { .. } => self.skip(),
            JsonLine::Nothing => Ok(()),
        }
    }

    fn skip(&mut self) -> Result<(), AllocError>
        ensures { OnOk result (length self.old.parted.held < enough → Adds None self.old self.new) }
    {
        self.skipped = self.skipped.checked_add(1).ok_or(AllocError)?;
        Ok(())
    }

    /// How many of its lines were skipped.
    pub fn skipped(&self) -> u64
        ensures { result ≡ self.now.skipped }
    {
        self.skipped
    }

    /// How many rows it has.
    pub fn rows(&self) -> usize
        ensures { result ≡ row_count (with_more self.now.parted []) }
    {
        self.batches.rows()
    }

    /// Its batches, once it ended.
    pub fn into_batches(self) -> Result<List<Batch>, AllocError>
        ensures { IfOk result (λ batches. batches ≡ with_more self.parted []) }
    {
        self.batches.into_batches()
    }
}

/// Reads the lines of a body up to the line that ends it. None where the input ends before that.
pub fn read_body<S: Source>(
    alloc: Global,
    format: Format,
    time: u64,
    lines: &mut InputLines,
    input: &mut S,
) -> Result<Option<Body>, Fault>
    requires time { time < 2 ^ 48 }
    requires knows { KnowsEnd lines.old.reading (S.left input.old) }

    // What `Ok` holds.
    ensures reads { IfOk result (λ body.
        ReadsBody format time body lines.old lines.new (S.left input.old) (S.left input.new)) }
    ensures over { OnOk result
        (GoesOver lines.old lines.new (S.left input.old) (S.left input.new)) }

    // When each error comes.
    ensures input_fault { IsErrOf result Fault.Input
        → Rose (S.faults input.old) (S.faults input.new) }
    ensures too_long { IsErrOf result Fault.InputTooLong → Told (S.left input.old) (λ bytes.
        2 ^ 62 ≤ lines.old.reading.taken + length bytes) }
    ensures others { OnErr result (IsErrOf result Fault.Input ⊎ IsErrOf result Fault.InputTooLong
        ⊎ IsErrOf result Fault.Memory) }
    ensures breaks { IfErr result (λ fault.
        BreaksOff fault (Some (Import format time)) lines.old (S.left input.old)
        (S.left input.new)) }

    // What each call does to the bytes.
    ensures end { KnowsEnd lines.new.reading (S.left input.new) }
    ensures takes { Takes lines.old lines.new (S.left input.old) (S.left input.new) }
    ensures counted { S.faults input.old ≤ S.faults input.new }
{
    let mut body = Body::new(alloc, format, time);
    'lines: while let Some(step) = lines.advance(input)? {
        if ends_body(step, lines.line()) {
            return Ok(Some(body));
        }
        body.add(alloc, step, lines.line())?;
    }
    Ok(None)
}

/// What a line of JSON says that was come to.
#[tactic(auto, using(crate::proofs::InputLaws::json_long))]
fn read_json_step(alloc: Global, step: Step, shown: &[u8]) -> Result<JsonLine, AllocError>
    ensures { IfOk result
        (λ said. (line : ListOf ℕ) → IsLineOf step shown.now line → said ≡ json_reading line) }
{
    match step {
        Step::Line => jsonline::read_line(alloc, shown),
        Step::TooLong | Step::End => Ok(JsonLine::Skipped {
            at: MAX_IMPORT_LINE,
        }),
    }
}

/// Whether the line that was come to ends a body.
#[tactic(auto, using(crate::proofs::BodyLaws::no_end))]
fn ends_body(step: Step, shown: &[u8]) -> bool
    ensures { (line : ListOf ℕ) → IsLineOf step shown.now line → result ≡ is_body_end line }
{
    match step {
        Step::Line => is_body_end(shown),
        Step::TooLong | Step::End => false,
    }
}
