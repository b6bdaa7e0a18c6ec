//! One label of a set.

use vm_base::Text;

/// A name and its value. Pairs are in order by name, and at one name by value, each by its bytes.
#[derive(Debug, Drop, PartialEq, Eq, PartialOrd, Ord)]
pub struct Pair {
    /// The name of the label.
    pub name: Text,
    /// The value of the label.
    pub value: Text,
}
