//! Postings by their pairs.

ghost use Rattle.std.specs.Prelude.{◌≡◌, length};
ghost use Rattle.std.specs.List.Sorted.{IsBinarySearchResult, IsSearchInRange};
ghost use Rattle.vm_labels.specs.Labels.{pair_cmp};
ghost use Rattle.vm_index.specs.Index.{PostingsRise, found_in};

use crate::Posting;
use std::cmp::Ordering;

/// The ordinals of a pair, none where no posting is of it.
pub(crate) fn found<'a>(postings: &'a [Posting], name: &str, value: &str) -> &'a [u64]
    requires { PostingsRise postings.now }
    ensures { result.now ≡ found_in postings.now (record { name = name.now; value = value.now }) }
{
    match place_of(postings, name, value) {
        Ok(at) => postings[at].ordinals.as_slice(),
        Err(_) => &[],
    }
}

/// Where the posting of a pair stands, or would stand.
fn place_of(postings: &[Posting], name: &str, value: &str) -> Result<usize, usize>
    ensures bound { IsSearchInRange result (length postings.now) }
    ensures place { IsBinarySearchResult
        (λ q. pair_cmp q.pair (record { name = name.now; value = value.now })) postings.now result }
{
    postings.binary_search_by(|posting| compare(posting, name, value))
}

/// A posting's pair beside a name and a value.
fn compare(posting: &Posting, name: &str, value: &str) -> Ordering
    ensures { result ≡ pair_cmp posting.now.pair (record { name = name.now; value = value.now }) }
{
    match posting.pair.name.as_str().cmp(name) {
        Ordering::Equal => posting.pair.value.as_str().cmp(value),
        order => order,
    }
}
