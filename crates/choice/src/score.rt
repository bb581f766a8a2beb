// MODEL 11.2 to 11.5: the n and s of a position, and which of two positions is better.
ghost use Rattle.std.specs.Prelude.{◌≡◌, ◌*◌, ◌≤◌, ltb};
ghost use Rattle.choice.specs.Bounds.{max_pieces, max_stretch};

use task::Position;

// MODEL 11.2 and 11.3: n and s. Each block adds two pieces at most, and the height of one interval.
#[derive(Clone, Copy)]
pub struct Score {
    pub pieces: u32,
    pub stretch: u32,
    pub ghost few: { pieces ≤ max_pieces },
    pub ghost short: { stretch ≤ max_stretch },
}

// A position at which the task fits, with its score.
#[derive(Clone, Copy)]
pub struct Choice {
    pub position: Position,
    pub score: Score,
}

impl Score {
    // MODEL 11.4: is n / s less than the other's? This is no `PartialOrd`, by which scores of one n / s would be one score.
    fn is_better(self, other: Score) -> bool
        ensures { result ≡ ltb (self.pieces * other.stretch) (other.pieces * self.stretch) }
    {
        self.pieces * other.stretch < other.pieces * self.stretch
    }
}

impl Choice {
    ghost use Rattle.choice.specs.Choosing.{better_of};

    // MODEL 11.5: the better of the best so far and this one, and the best so far where they are equal.
    pub(crate) fn or_best(self, best: Option<Choice>) -> Option<Choice>
        ensures { result ≡ better_of best self }
    {
        match best {
            Some(old) if !self.score.is_better(old.score) => Some(old),
            _ => Some(self),
        }
    }
}
