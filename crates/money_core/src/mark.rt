//! The marks of a number.

ghost use Rattle.std.specs.Prelude.{◌≡◌};
ghost use Rattle.money_core.specs.Mark.{decimal_byte, group_byte};

/// The decimal mark of a number. The other one may stand between its groups.
#[derive(Clone, Copy, Debug, PartialEq, Eq)]
pub enum Mark {
    Point,
    Comma,
}

impl Mark {
    /// The byte of the decimal mark.
    pub fn decimal(self) -> u8
        ensures { result ≡ decimal_byte self }
    {
        match self {
            Mark::Point => b'.',
            Mark::Comma => b',',
        }
    }

    /// The byte of the mark between groups.
    pub fn group(self) -> u8
        ensures { result ≡ group_byte self }
    {
        match self {
            Mark::Point => b',',
            Mark::Comma => b'.',
        }
    }
}
