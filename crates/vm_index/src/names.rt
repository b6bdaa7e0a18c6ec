//! The names of labels and the values of a name, from postings in order.

ghost use Rattle.std.specs.Prelude.{◌≡◌, filter, map, bytes_eq, IfOk, OnOk};
ghost use Rattle.std.specs.List.{dedup};
ghost use Rattle.vm_index.specs.Index.{PostingsRise};
ghost use Rattle.vm_index.specs.Texts.{is_last, put_new};

use crate::Posting;
use std::alloc::{AllocError, Global};
use vm_base::Text;

/// The names of postings, none of them twice in a row.
pub(crate) fn names_of(alloc: Global, postings: &[Posting]) -> Result<Vec<Text>, AllocError>
    ensures { IfOk result
        (λ names. names.items ≡ dedup bytes_eq (map (λ q. q.pair.name) postings.now)) }
{
    let mut names = Vec::new(alloc);
    for posting in postings {
        put_new(alloc, &mut names, &posting.pair.name)?;
    }
    Ok(names)
}

/// Appends a name that isn't the last one already.
fn put_new(alloc: Global, names: &mut Vec<Text>, name: &Text) -> Result<(), AllocError>
    ensures { OnOk result (names.new.items ≡ put_new names.old.items name.now) }
{
    if is_last(names.as_slice(), name) {
        return Ok(());
    }
    names.push(name.copy(alloc)?)?;
    Ok(())
}

fn is_last(names: &[Text], name: &Text) -> bool
    ensures { result ≡ is_last names.now name.now }
{
    match names.last() {
        Some(last) => name == last,
        None => false,
    }
}

/// The values that postings have of a name.
pub(crate) fn values_of(
    alloc: Global,
    postings: &[Posting],
    name: &str,
) -> Result<Vec<Text>, AllocError>
    requires { PostingsRise postings.now }
    ensures { IfOk result
        (λ values. values.items
        ≡ map (λ q. q.pair.value) (filter (λ q. bytes_eq q.pair.name name.now) postings.now)) }
{
    let mut values = Vec::new(alloc);
    let run = run_of(postings, name);
    for posting in run {
        values.push(posting.pair.value.copy(alloc)?)?;
    }
    Ok(values)
}

/// The postings of a name, which stand together.
fn run_of<'a>(postings: &'a [Posting], name: &str) -> &'a [Posting]
    requires { PostingsRise postings.now }
    ensures { result.now ≡ filter (λ q. bytes_eq q.pair.name name.now) postings.now }
{
    let first = postings.partition_point(|posting| posting.pair.name.as_str() < name);
    let (_, rest) = postings.split_at(first);
    let len = rest.partition_point(|posting| posting.pair.name.as_str() == name);
    let (run, _) = rest.split_at(len);
    run
}
