// Where the program stands between two turns.
ghost use Rattle.std.specs.Prelude.{◌≡◌, ◌+◌, ◌<◌, ◌≤◌, length, MatchOption};
ghost use Rattle.model.specs.Limits.{max_sheet};
ghost use Rattle.desk.specs.Input.{Parts};

use crate::input::next_line;

// At a line, without its newline, with the bytes of the input after it, and its number.
#[derive(Clone, Copy)]
pub struct Stand<'a> {
    pub line: &'a [u8],
    pub rest: &'a [u8],
    pub number: u32,
    ghost counted: { number + length rest.now < max_sheet + 4 },
}

impl<'a> Stand<'a> {
    // At the first line of what is left of the input, if a line is left.
    pub(crate) fn at(input: &'a [u8], number: u32) -> Option<Stand<'a>>
        requires { number + length input.now ≤ max_sheet + 4 }
        ensures { MatchOption result (length input.now ≡ 0) (λ s. (s.number ≡ number) × Parts input.now s.line.now s.rest.now) }
    {
        let (line, rest) = next_line(input)?;
        Some(Stand { line, rest, number })
    }
}
