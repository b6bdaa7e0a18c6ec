//! The exit statuses.

/// How a command ended: the exit status of the program.
#[derive(Clone, Copy, Debug, PartialEq, Eq)]
pub enum Status {
    /// It did what was asked, and read its input to the end.
    Ok = 0,
    /// It refused what was asked; the note says why.
    Refused = 1,
    /// The words are no command.
    Usage = 2,
    /// There was no memory.
    Memory = 3,
    /// The disk failed.
    DiskFault = 4,
    /// The network failed.
    NetFault = 5,
    /// The input failed.
    InputFault = 6,
    /// The output failed.
    OutputFault = 7,
    /// A file of the store is damaged.
    Damaged = 8,
    /// The store has another deduplication interval.
    OtherInterval = 9,
    /// The store has no number left for another part.
    Spent = 10,
}

impl Status {
    ghost use Rattle.std.specs.Prelude.{◌≡◌};
    ghost use Rattle.vm_top.specs.ExitCodes.{exit_code_of};

    /// The number with which the program ends.
    pub fn exit_code(self) -> u8
        ensures { result ≡ exit_code_of self }
    {
        self as u8
    }
}
