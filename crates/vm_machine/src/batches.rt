//! The rows of a body, parted into batches.

ghost use Rattle.std.specs.Prelude.{◌≡◌, ◌<◌, [], ◌∷◌, ◌++◌, List as ListOf, length, IfOk, OnOk};
ghost use Rattle.vm_labels.specs.declared.row.Row.{Row as RowOf};
ghost use Rattle.vm_machine.specs.Batches.{with_more, row_count, enough};

use std::alloc::{AllocError, Global};
use std::marker::Model;
use std::mem::replace;
use vm_base::List;
use vm_base::limits::BATCH_ROWS;
use vm_labels::{Batch, Row};

/// The batches of the lines that came so far, and the rows that are in hand for the next one.
#[derive(Drop)]
pub struct Batches {
    whole: List<Batch>,
    held: List<Row>,
    rows: usize,
}

impl Model for Batches {
    ghost use Rattle.std.specs.Prelude.{◌≡◌, ◌<◌, ◌+◌, length};
    ghost use Rattle.vm_machine.specs.Batches.{Parted, enough, row_count};

    ghost Value = { Parted };

    ghost view = { λ b. record { whole = b.whole; held = b.held } };

    ghost invariant = { λ b. (length b.held < enough) × (b.rows ≡ row_count b.whole + length b.held) };
}

impl Batches {
    /// Those of no lines. It takes no memory.
    pub fn new(alloc: Global) -> Batches
        ensures { result ≡ record { whole = []; held = [] } }
    {
        Batches {
            whole: List::new(alloc),
            held: List::new(alloc),
            rows: 0,
        }
    }

    /// Takes a line that holds one row. After want of memory rows are lost.
    pub fn add(&mut self, alloc: Global, row: Row) -> Result<(), AllocError>
        ensures added { OnOk result ((more : ListOf (ListOf RowOf)) →
            with_more self.old ((row ∷ []) ∷ more) ≡ with_more self.new more) }
        ensures small { length self.new.held < enough }
    {
        let rows = self.rows.checked_add(1).ok_or(AllocError)?;
        self.held.push(row)?;
        self.rows = rows;
        if self.held.len() as u64 == BATCH_ROWS {
            let batch = replace(&mut self.held, List::new(alloc));
            self.rows = rows - batch.len();
            self.whole.push(Batch { rows: batch })?;
            self.rows = rows;
        }
        Ok(())
    }

    /// Takes a line with its rows. After want of memory rows are lost.
    pub fn add_line(&mut self, alloc: Global, rows: List<Row>) -> Result<(), AllocError>
        ensures added { OnOk result ((more : ListOf (ListOf RowOf)) →
            with_more self.old (rows ∷ more) ≡ with_more self.new more) }
        ensures small { length self.new.held < enough }
    {
        let count = self.rows.checked_add(rows.len()).ok_or(AllocError)?;
        let held = replace(&mut self.held, List::new(alloc));
        self.rows -= held.len();
        let held = joined(held, rows)?;
        if held.len() as u64 >= BATCH_ROWS {
            self.whole.push(Batch { rows: held })?;
        } else {
            self.held = held;
        }
        self.rows = count;
        Ok(())
    }

    /// How many rows there are.
    pub fn rows(&self) -> usize
        ensures { result ≡ row_count (with_more self.now []) }
    {
        self.rows
    }

    /// All batches, once the body ended.
    pub fn into_batches(self) -> Result<List<Batch>, AllocError>
        ensures { IfOk result (λ batches. batches ≡ with_more self []) }
    {
        let Batches {
            whole,
            held,
            rows: _,
        } = self;
        let mut batches = whole;
        if !held.is_empty() {
            batches.push(Batch { rows: held })?;
        }
        Ok(batches)
    }
}

/// Rows with others behind them.
fn joined(held: List<Row>, rows: List<Row>) -> Result<List<Row>, AllocError>
    ensures { IfOk result (λ all. all ≡ held ++ rows) }
{
    if held.is_empty() {
        return Ok(rows);
    }
    let mut all = held;
    for row in rows.into_vec() {
        all.push(row)?;
    }
    Ok(all)
}
