//! What stands between the braces of a selector.

use vm_base::Text;
use vm_labels::Filter;

/// An item of a list in braces. (MetricsQL, "filters")
#[derive(Debug, Drop)]
pub enum Item {
    /// A filter, as `job="api"`.
    Is(Filter),
    /// A bare name, which stands for the filters of a template.
    Named {
        /// The place of its first byte in the query's text.
        at: u64,
        /// The name.
        name: Text,
    },
}
