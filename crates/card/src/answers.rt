// MODEL 12.1: what the calls answer, and an answer as its number.
ghost use Rattle.std.specs.Prelude.{◌≡◌, MatchResult};
ghost use Rattle.card.specs.Refusals.{number_of};
ghost use Rattle.card.specs.Answers.{position_of};

use crate::Refusal;

// MODEL 11.6: the position that choose answers.
#[derive(Clone, Copy, Debug, PartialEq, Eq)]
pub struct Chosen {
    pub column: u8,
    pub bottom: u16,
}

// As a number it is 1,024 × column + bottom.
impl From<Chosen> for i32 {
    ghost from_gives = { λ at number. number ≡ position_of at };

    fn from(at: Chosen) -> i32 {
        i32::from(at.column) * model::COLUMN_WEIGHT.cast_signed() + i32::from(at.bottom)
    }
}

// MODEL 22.5: how broken up a card is: its connected sets, its free cells, and the degree in hundredths of a percent.
#[derive(Clone, Copy, Debug, PartialEq, Eq, Default)]
pub struct Fragmentation {
    pub sets: u32,
    pub free: u32,
    pub degree: u32,
}

// MODEL 12.1: an answer as the number that the model has for it: that of what a call answers, or of its refusal.
pub fn answer<T: Into<i32>>(answer: Result<T, Refusal>) -> i32
    ensures { MatchResult answer (λ x. T.converts x result) (λ e. result ≡ number_of e) }
{
    match answer {
        Ok(x) => x.into(),
        Err(refusal) => i32::from(refusal),
    }
}
