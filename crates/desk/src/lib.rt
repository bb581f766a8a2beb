// The sheet's desk: a card's record and a draft task, and what each line of a sheet does to them and prints.
// Each contract is the model's line by the book (model/specs/Program.antt), and that of `turn` is one turn of the model's program.
// The program `sheet` only reads, makes turns and writes.
#![tactic(auto)]

ghost use Rattle.desk.specs.Desk.{Card};

pub mod program; // the start, and one turn
mod fault; // lines that are at fault
mod input; // where lines end, and the first three lines
mod stand; // where the program stands
mod buffer; // lent bytes that are filled from the first on
mod draft; // the draft task
mod lines; // a line from the fourth on
mod ranges; // L
mod output; // lines that have only an answer
mod text; // what is printed, as text
#[cfg(test)]
mod tests; // a desk that is handed on

use arrayvec::ArrayString;
pub use buffer::Buffer;
pub use draft::{Draft, LentDraft};
pub use stand::Stand;

// The most bytes of an input.
pub const MAX_SHEET: usize = 32768;

// The greatest input, and one byte more, by which a longer one is known.
pub const INPUT_ROOM: usize = MAX_SHEET + 1;

// The bytes of the greatest draft.
pub const DRAFT_ROOM: usize = model::BLOCK_SIZE * model::MAX_BLOCKS;

// The bytes that the longest output of one line of input needs: a line for each range that a listing has room for.
pub const OUTPUT_ROOM: usize = line::LINE_ROOM * (model::LIST_ROOM / model::RANGE_SIZE);

// A malformed line's refusal.
pub const MALFORMED_LINE: i32 = -12;

// Room for what a turn prints, as text. A turn of a `Desk` takes any that is no smaller, and its start any that has room for two lines.
pub type Output = ArrayString<OUTPUT_ROOM>;

// A card's record and a draft task that it owns, for a caller that hands the desk on. Each of its turns is one of a `LentDesk` on copies of them.
#[derive(Drop)]
pub struct Desk {
    pub card: [u8; model::RECORD_SIZE],
    pub draft: Draft,
    ghost is_card: { Card card },
}

// A card's record and a draft task, in what is lent. So a desk is small, and nothing of them is moved where it is.
#[derive(Drop)]
pub struct LentDesk<'a> {
    pub card: &'a mut [u8],
    pub draft: LentDraft<'a>,
    ghost is_card: { Card card.now },
}
