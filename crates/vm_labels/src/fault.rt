//! Why there is no label set.

ghost use Rattle.std.specs.Prelude.{◌≡◌};
ghost use Rattle.vm_labels.specs.declared.fault.LabelFault.TheVariants.{Memory as NoRoom};
ghost use Rattle.vm_labels.specs.declared.fault.ReadFault.TheVariants.{Memory as Unread};

use std::alloc::AllocError;
use vm_base::Text;

/// Why pairs make no label set. A pair with an empty value counts as one that isn't there.
#[derive(Debug, Drop)]
pub enum LabelFault {
    /// A name isn't `[A-Za-z_:][A-Za-z0-9_:]*`. This is the place of the first such pair among the
    /// pairs that were given, counted from 0.
    BadName { index: u64 },
    /// Two pairs have one name. Of the pairs whose name an earlier pair has, the first has this
    /// one.
    TwiceNamed { name: Text },
    /// Memory ran out.
    Memory,
}

/// Which limit of an import a label set breaks: the first one in this order.
#[derive(Clone, Copy, Debug, PartialEq, Eq)]
pub enum LimitFault {
    /// It has no label.
    NoLabel,
    /// It has n labels, more than `MAX_LABELS`.
    TooMany { n: u64 },
    /// A name has more than `MAX_LABEL_NAME` bytes or a value more than `MAX_LABEL_VALUE`. This is
    /// the place of the first such label, counted from 0.
    TooLong { index: u64 },
}

/// Why bytes are no label set.
#[derive(Clone, Copy, Debug, PartialEq, Eq)]
pub enum ReadFault {
    /// The bytes leave their grammar. This is the place of the first fault, in bytes from 0.
    Broken { at: u64 },
    /// Memory ran out.
    Memory,
}

impl From<AllocError> for LabelFault {
    ghost from_gives = { λ _ e. e ≡ NoRoom };

    fn from(_e: AllocError) -> LabelFault {
        LabelFault::Memory
    }
}

impl From<AllocError> for ReadFault {
    ghost from_gives = { λ _ e. e ≡ Unread };

    fn from(_e: AllocError) -> ReadFault {
        ReadFault::Memory
    }
}
