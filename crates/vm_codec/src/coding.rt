ghost use Rattle.std.specs.Prelude.{◌≡◌, Option};
ghost use Rattle.vm_codec.specs.Coding.{coding_number, coding_of};

/// How a column of values is spelled. Columns of one value are always `Const`.
#[derive(Clone, Copy, Debug, PartialEq, Eq)]
pub enum Coding {
    /// The one difference of two or more values, each of which lies as far above the one before it.
    DeltaConst,
    /// Nothing: all values are the first one.
    Const,
    /// The first difference, and then the differences of differences.
    NearestDelta2,
    /// The differences.
    NearestDelta,
}

impl Coding {
    /// The byte that stands for the coding in a file.
    pub fn number(self) -> u8
        ensures { result ≡ coding_number self }
    {
        match self {
            Coding::DeltaConst => 2,
            Coding::Const => 3,
            Coding::NearestDelta2 => 5,
            Coding::NearestDelta => 6,
        }
    }

    /// The coding that a byte stands for, none for every other byte.
    pub fn of_number(number: u8) -> Option<Coding>
        ensures { result ≡ coding_of number }
    {
        match number {
            2 => Some(Coding::DeltaConst),
            3 => Some(Coding::Const),
            5 => Some(Coding::NearestDelta2),
            6 => Some(Coding::NearestDelta),
            _ => None,
        }
    }
}
