// MODEL 18.2, 18.5, 18.6 and 18.8: what is printed of an input that is too long, or of a line that is at fault.
ghost use Rattle.std.specs.Prelude.{◌≡◌};
ghost use Rattle.desk.specs.declared.fault.Fault.TheVariants.{Device};
ghost use Rattle.desk.specs.Fault.{line_of, number_of};

// An input that is too long, of which no line is looked at; a line that is missing or malformed, by its number; or the second line's device, which
// new refuses.
#[derive(Clone, Copy, Debug, PartialEq, Eq)]
pub(crate) enum Fault {
    TooLong,
    Malformed(u32),
    Device(card::Refusal),
}

impl Fault {
    // The number of the line, or 0 where no line is looked at.
    pub(crate) fn line(self) -> u32
        ensures { result ≡ line_of self }
    {
        match self {
            Fault::TooLong => 0,
            Fault::Malformed(line) => line,
            Fault::Device(_) => 2,
        }
    }
}

impl From<card::Refusal> for Fault {
    ghost from_gives = { λ refusal fault. fault ≡ Device refusal };

    fn from(refusal: card::Refusal) -> Fault {
        Fault::Device(refusal)
    }
}

// MODEL 13.1 and 18.2: the answer that is printed.
impl From<Fault> for i32 {
    ghost from_gives = { λ fault number. number ≡ number_of fault };

    fn from(fault: Fault) -> i32 {
        match fault {
            Fault::TooLong | Fault::Malformed(_) => crate::MALFORMED_LINE,
            Fault::Device(refusal) => i32::from(refusal),
        }
    }
}
