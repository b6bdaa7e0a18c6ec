/// A call on the outside that failed. The object that answers it has counted it as a fault.
///
/// It has no cause inside: what went wrong is a matter of the adapter, and of no code above it.
#[derive(Clone, Copy, Debug, PartialEq, Eq)]
pub struct Failed;
