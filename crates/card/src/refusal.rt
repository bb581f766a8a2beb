// MODEL 13.1: the refusals of the calls.
ghost use Rattle.std.specs.Prelude.{◌≡◌};
ghost use Rattle.card.specs.Refusals.{number_of};

// The table but for its last row, which is the sheet's. `DeviceOrColumn` is new's for what is no device, and the interval count's for a column
// that the device does not have. No `Display`: its number is what crosses to C and what is printed, and it has no other text.
#[derive(Clone, Copy, Debug, PartialEq, Eq)]
pub enum Refusal {
    RecordLength,
    RecordNotSound,
    DeviceOrColumn,
    TaskLength,
    TaskNotWellFormed,
    OutputShort,
    BadNumber,
    Full,
    NoPosition,
    Misfit,
    NotRunning,
}

impl From<Refusal> for i32 {
    ghost from_gives = { λ refusal number. number ≡ number_of refusal };

    fn from(refusal: Refusal) -> i32 {
        match refusal {
            Refusal::RecordLength => -1,
            Refusal::RecordNotSound => -2,
            Refusal::DeviceOrColumn => -3,
            Refusal::TaskLength => -4,
            Refusal::TaskNotWellFormed => -5,
            Refusal::OutputShort => -6,
            Refusal::BadNumber => -7,
            Refusal::Full => -8,
            Refusal::NoPosition => -9,
            Refusal::Misfit => -10,
            Refusal::NotRunning => -11,
        }
    }
}
