//! The series that a question selects, gathered in one pass over rows.
//!
//! Of each series no more than one sample is kept: the latest of two parts of its samples is the
//! later one of theirs.

ghost use Rattle.std.specs.Prelude.{◌≡◌, ◌++◌, [], ◌∷◌, List as ListOf, length, map, IfOk, OnOk, OnErr, None, false, option_to_list};
ghost use Rattle.std.specs.Bool.{OnTrue};
ghost use Rattle.std.specs.Option.{option_map, is_some};
ghost use Rattle.vm_base.specs.Sorted.{later};
ghost use Rattle.vm_base.specs.Stamped.{is_in_order};
ghost use Rattle.std.specs.List.{list_all};
ghost use Rattle.std.specs.List.Sorted.{IsStrictlySortedBy};
ghost use Rattle.std.specs.Map.{keys_of};
ghost use Rattle.vm_labels.specs.Labels.{value_in, label_cmp};
ghost use Rattle.vm_labels.specs.Selected.{selects, meets};
ghost use Rattle.vm_labels.specs.declared.row.Row.{Row as RowOf};
ghost use Rattle.vm_machine.specs.Eval.{no_pattern, lookback};
ghost use Rattle.vm_machine.specs.Found.{found, values_of, value_of_entry};
ghost use Rattle.vm_machine.specs.Window.{is_within};
ghost use Rattle.vm_machine.specs.inner.Put.{sample_within, at, IsPut};

use crate::question::{Question, Valued};
use crate::window::{is_within, later};
use std::alloc::{AllocError, Global};
use std::collections::BTreeMap;
use std::marker::Model;
use vm_base::limits::DEFAULT_LOOKBACK;
use vm_base::{List, Stamped, Text};
use vm_labels::{Filter, FilterOp, Labels, Row, Selector};

/// The series that a question selects of some rows, each with its last sample in the question's
/// window.
#[derive(Drop)]
pub struct Found {
    series: BTreeMap<Labels, Option<Stamped>>,
}

impl Model for Found {
    ghost use Rattle.std.specs.Prelude.{List, Option};
    ghost use Rattle.std.specs.BTreeMap.{IsOrdered};
    ghost use Rattle.vm_base.specs.declared.stamped.Stamped.{Stamped};
    ghost use Rattle.vm_labels.specs.Labels.{label_cmp};
    ghost use Rattle.vm_labels.specs.declared.pair.Pair.{Pair};

    ghost Value = { List (List Pair × Option Stamped) };

    ghost view = { λ f. f.series.entries };

    ghost invariant = { λ f. IsOrdered label_cmp f.series };
}

impl Found {
    /// Those of no rows. It takes no memory.
    pub fn new(alloc: Global) -> Found
        ensures { result ≡ [] }
    {
        Found {
            series: BTreeMap::new(alloc),
        }
    }

    /// How many series are selected, those without a sample in the window too.
    pub fn len(&self) -> usize
        ensures { result ≡ length self.now }
    {
        self.series.len()
    }

    #[tactic(auto, using(crate::proofs::ValueLaws::values_more))]
    /// The series that have a sample in the window, with the value of the last one.
    pub fn into_values(self, alloc: Global) -> Result<List<Valued>, AllocError>
        ensures { IfOk result (λ values. values ≡ values_of self) }
    {
        let Found { series } = self;
        let mut values = List::new(alloc);
        for (labels, last) in series {
            push_value(&mut values, labels, last)?;
        }
        Ok(values)
    }

    /// Takes one more row.
    pub fn add(&mut self, alloc: Global, question: &Question, row: &Row) -> Result<(), AllocError>
        ensures added { OnOk result ((rows : ListOf RowOf) → self.old ≡ found question.now rows →
            self.new ≡ found question.now (rows ++ row.now ∷ [])) }
        ensures err { OnErr result (self.new ≡ self.old) }
    {
        if is_selected(&question.selector, &row.labels) {
            self.put(alloc, &row.labels, sample_within(question.time, row))?;
        }
        Ok(())
    }

    /// Lets a sample come to a series.
    fn put(
        &mut self,
        alloc: Global,
        labels: &Labels,
        here: Option<Stamped>,
    ) -> Result<(), AllocError>
        ensures put { OnOk result (IsPut self.old labels.now here self.new) }
        ensures rises { IsStrictlySortedBy label_cmp (keys_of self.new) }
        ensures err { OnErr result (self.new ≡ self.old) }
    {
        if !self.update(labels, here) {
            self.insert(copy_of(alloc, labels)?, here)?;
        }
        Ok(())
    }

    /// Begins a series that isn't there with a sample.
    fn insert(&mut self, labels: Labels, here: Option<Stamped>) -> Result<(), AllocError>
        requires new { at self.old labels ≡ None }
        ensures put { OnOk result (IsPut self.old labels here self.new) }
        ensures rises { IsStrictlySortedBy label_cmp (keys_of self.new) }
        ensures err { OnErr result (self.new ≡ self.old) }
    {
        self.series.insert(labels, here)?;
        Ok(())
    }

    /// Makes a sample the last one of a series that is there, if it is later. Whether it is there.
    fn update(&mut self, labels: &Labels, here: Option<Stamped>) -> bool
        ensures there { result ≡ is_some (at self.old labels.now) }
        ensures put { OnTrue result (IsPut self.old labels.now here self.new) }
        ensures rises { IsStrictlySortedBy label_cmp (keys_of self.new) }
        ensures kept { result ≡ false → self.new ≡ self.old }
    {
        match self.series.get_mut(labels) {
            Some(last) => {
                *last = later_one(*last, here);
                true
            }
            None => false,
        }
    }
}

/// Appends the value of a series, if it has one.
fn push_value(
    values: &mut List<Valued>,
    labels: Labels,
    last: Option<Stamped>,
) -> Result<(), AllocError>
    ensures { OnOk result
        (values.new ≡ values.old ++ option_to_list (value_of_entry (labels, last))) }
{
    if let Some(last) = last {
        values.push(Valued {
            labels,
            value: last.value,
        })?;
    }
    Ok(())
}

/// Whether a selector without patterns selects a label set.
fn is_selected(selector: &Selector, labels: &Labels) -> bool
    ensures { result ≡ selects no_pattern selector.now labels.now }
{
    selector
        .lists
        .as_slice()
        .iter()
        .any(|filters| meets_all(filters.as_slice(), labels))
}

fn meets_all(filters: &[Filter], labels: &Labels) -> bool
    ensures { result ≡ list_all (λ f. meets no_pattern f labels.now) filters.now }
{
    filters.iter().all(|filter| is_met(filter, labels))
}

/// Whether a label set meets a filter without a pattern.
fn is_met(filter: &Filter, labels: &Labels) -> bool
    ensures { result ≡ meets no_pattern filter.now labels.now }
{
    let value = value_of(labels, &filter.name);
    match filter.op {
        FilterOp::Equal => value == filter.value.as_str(),
        FilterOp::Differs => value != filter.value.as_str(),
        FilterOp::Matches => false,
        FilterOp::MatchesNot => true,
    }
}

fn value_of<'a>(labels: &'a Labels, name: &Text) -> &'a str
    ensures { result.now ≡ value_in name.now labels.now }
{
    labels.get(name.as_str()).unwrap_or("")
}

/// Whether the sample of a row lies in the window of a question at this time, and that sample.
fn sample_within(time: u64, row: &Row) -> Option<Stamped>
    ensures { result ≡ sample_within time row.now }
{
    let sample = row.stamped();
    if is_within(time, DEFAULT_LOOKBACK, &sample) {
        Some(sample)
    } else {
        None
    }
}

/// The later one of two samples that may be missing.
fn later_one(first: Option<Stamped>, second: Option<Stamped>) -> Option<Stamped>
    ensures { result ≡ later is_in_order first second }
{
    match (first, second) {
        (Some(first), Some(second)) => Some(later(first, second)),
        (Some(first), None) => Some(first),
        (None, second) => second,
    }
}

fn copy_of(alloc: Global, labels: &Labels) -> Result<Labels, AllocError>
    ensures { IfOk result (λ l. l ≡ labels.now) }
{
    match labels.copy(alloc) {
        Ok(copy) => Ok(copy),
        Err(_) => Err(AllocError),
    }
}
