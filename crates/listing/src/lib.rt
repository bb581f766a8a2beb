// MODEL 10: the ranges of a task on a sound record, those of one column, and the whole listing.
// The list of runs of a column starts with all half rows, and is met with the free intervals of one block after the other.
#![tactic(auto)]

pub mod run; // a run, and a list of runs
pub mod walk; // one block along a list
pub mod columns; // the ranges of one column
pub mod output; // the whole listing

// Bottoms are kept this much above their value, so that a block far above the first gives no negative number.
pub const LIFT: u32 = 2 * model::REACH;

// A column has at most this many runs.
pub const MAX_RUNS: usize = model::MAX_INTERVALS;
