//! Copies of selectors.

ghost use Rattle.std.specs.Prelude.{◌≡◌, IfOk};

use std::alloc::{AllocError, Global};
use vm_base::List;
use vm_labels::{Filter, Selector};

/// The same selector.
pub(crate) fn copy_of_selector(alloc: Global, selector: &Selector) -> Result<Selector, AllocError>
    ensures { IfOk result (λ copy. copy ≡ selector.now) }
{
    let lists = selector.lists.as_slice();
    let mut copies = Vec::with_capacity(alloc, lists.len())?;
    for filters in lists {
        copies.push(copy_of_list(alloc, filters.as_slice())?)?;
    }
    Ok(Selector {
        lists: List::from_vec(copies),
    })
}

/// The same filters.
fn copy_of_list(alloc: Global, filters: &[Filter]) -> Result<List<Filter>, AllocError>
    ensures { IfOk result (λ copy. copy ≡ filters.now) }
{
    let mut copies = Vec::with_capacity(alloc, filters.len())?;
    for filter in filters {
        copies.push(copy_of(alloc, filter)?)?;
    }
    Ok(List::from_vec(copies))
}

/// The same filter.
fn copy_of(alloc: Global, filter: &Filter) -> Result<Filter, AllocError>
    ensures { IfOk result (λ copy. copy ≡ filter.now) }
{
    let name = filter.name.copy(alloc)?;
    let value = filter.value.copy(alloc)?;
    Ok(Filter {
        name,
        op: filter.op,
        value,
    })
}
