// The model (docs/MODEL.md). Its definitions stand in specs/, what is proved of them in proofs/Laws.
// The code here is the kind of a column, and the limits, lengths and offsets that all other crates use.
#![tactic(auto)]

ghost use Rattle.std.specs.Prelude.{◌≡◌, ◌/◌, ◌%◌, ◌≤◌, eqb};
ghost use Rattle.model.specs.Limits.{max_rows};
ghost use Rattle.model.specs.Columns.{height, cells_in, top_in};
ghost use Rattle.model.specs.Kinds.{number_of, kind_of};

use std::error::Error;
use std::fmt;

// MODEL 2.2 to 2.8: the limits; and the highest number of a kind (MODEL 3.3).
pub const MAX_ROWS: u32 = 128;

pub const MAX_COLUMNS: usize = 64;

pub const MAX_BLOCKS: usize = 32;

pub const MAX_RUNNING: usize = 64;

pub const MAX_INTERVALS: usize = 64;

pub const MAX_NUMBER: u32 = 65535;

pub const MAX_KIND: u8 = 2;

pub const REACH: u32 = 256;

// How many numbers one byte holds, and two bytes.
pub const BYTES: u32 = 256;

pub const WORDS: u32 = 65536;

// MODEL 8.1 and 8.2: the record's length, and where its parts stand.
pub const RECORD_SIZE: usize = 29188;

pub const ROWS_AT: usize = 0;

pub const COLUMNS_AT: usize = 2;

pub const RUNNING_AT: usize = 3;

pub const KINDS_AT: usize = 4;

pub const COUNTS_AT: usize = 68;

pub const INTERVALS_AT: usize = 132;

pub const COLUMN_SIZE: usize = 256;

pub const ENTRIES_AT: usize = 16516;

// MODEL 8.3: an interval. Its bottom stands first.
pub const INTERVAL_SIZE: usize = 4;

pub const INTERVAL_TOP_AT: usize = 2;

// MODEL 8.4: a running entry. Its number stands first.
pub const ENTRY_SIZE: usize = 198;

pub const ENTRY_COLUMN_AT: usize = 2;

pub const ENTRY_COUNT_AT: usize = 3;

pub const ENTRY_BOTTOM_AT: usize = 4;

pub const BLOCKS_AT: usize = 6;

// MODEL 4.2: a block. Its column stands first.
pub const BLOCK_SIZE: usize = 6;

pub const BLOCK_KIND_AT: usize = 1;

pub const BLOCK_BOTTOM_AT: usize = 2;

pub const BLOCK_TOP_AT: usize = 4;

// MODEL 10.6: a listed range. Its column stands first.
pub const RANGE_SIZE: usize = 6;

pub const RANGE_STEP_AT: usize = 1;

pub const RANGE_FIRST_AT: usize = 2;

pub const RANGE_LAST_AT: usize = 4;

// MODEL 2.9: the least output of a listing.
pub const LIST_ROOM: usize = 24576;

// MODEL 11.6: what choose multiplies a column by in its answer.
pub const COLUMN_WEIGHT: u32 = 1024;

// MODEL 22.4: all of it, in hundredths of a percent.
pub const WHOLE_DEGREE: u32 = 10000;

// MODEL 3.3: the kind of a column: logic (CLB), memory (BRAM) or multiplier (DSP).
#[derive(Clone, Copy, Debug, PartialEq, Eq)]
pub enum Kind {
    C,
    B,
    D,
}

// A byte that is no kind's number.
#[derive(Clone, Copy, Debug, PartialEq, Eq)]
pub struct UnknownKind(pub u8);

impl TryFrom<u8> for Kind {
    type Error = UnknownKind;

    ghost try_from_gives = { λ n r. r ≡ kind_of n };

    fn try_from(number: u8) -> Result<Self, UnknownKind> {
        match number {
            0 => Ok(Kind::C),
            1 => Ok(Kind::B),
            2 => Ok(Kind::D),
            _ => Err(UnknownKind(number)),
        }
    }
}

impl From<Kind> for u8 {
    ghost from_gives = { λ kind r. r ≡ number_of kind };

    fn from(kind: Kind) -> u8 {
        match kind {
            Kind::C => 0,
            Kind::B => 1,
            Kind::D => 2,
        }
    }
}

impl fmt::Display for UnknownKind {
    fn fmt<W: fmt::Write>(&self, f: &mut fmt::Formatter<W>) -> fmt::Result {
        write!(f, "no kind has number {}", self.0)
    }
}

impl Error for UnknownKind {}

#[tactic(auto, using(crate::proofs::Laws::Columns::height_pos), unfolding(crate::specs::Columns::height, crate::specs::Columns::cells_in, crate::specs::Columns::top_in))]
impl Kind {
    // MODEL 3.3: heights in half rows.
    pub const C_HEIGHT: u32 = 2;

    pub const B_HEIGHT: u32 = 5;

    pub const D_HEIGHT: u32 = 5;

    // What `f` makes of the height of this kind. In each arm that is a constant, so a division by it is as fast as one by a constant.
    fn with_height<T, F: FnOnce(u32) -> T>(self, f: F) -> T
        requires { F.pre f (height (number_of self)) }
        ensures { F.post f (height (number_of self)) result }
    {
        match self {
            Kind::C => f(Kind::C_HEIGHT),
            Kind::B => f(Kind::B_HEIGHT),
            Kind::D => f(Kind::D_HEIGHT),
        }
    }

    pub fn height(self) -> u32
        ensures { result ≡ height (number_of self) }
    {
        self.with_height(|height| height)
    }

    // MODEL 3.4: the cells of a column of this kind. Here and at `top` the bound only keeps twice the rows within 32 bits: no type of its own for that.
    pub fn cells(self, rows: u32) -> u32
        requires { rows ≤ max_rows }
        ensures { result ≡ cells_in rows (number_of self) }
    {
        self.with_height(|height| 2 * rows / height)
    }

    // MODEL 3.6: the top of such a column.
    pub fn top(self, rows: u32) -> u32
        requires { rows ≤ max_rows }
        ensures { result ≡ top_in rows (number_of self) }
    {
        self.with_height(|height| height * (2 * rows / height))
    }

    // MODEL 3.5: the cell of such a column that has half row z.
    pub fn cell(self, z: u32) -> u32
        ensures { result ≡ z / height (number_of self) }
    {
        self.with_height(|height| z / height)
    }

    // Whether n half rows are whole cells.
    pub fn whole(self, n: u32) -> bool
        ensures { result ≡ eqb (n % height (number_of self)) 0 }
    {
        self.with_height(|height| n % height == 0)
    }
}
