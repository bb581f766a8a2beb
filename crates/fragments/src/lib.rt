// MODEL 22: how broken up a sound record's card is. Its intervals are counted, not its cells: the free cells of an interval are one connected set,
// and two intervals of neighbouring columns are parts of one set where they share a half row.
#![tactic(auto)]

pub mod sweep; // two neighbouring columns
pub mod connected; // the connected sets
pub mod free; // the free cells, and the degree

// One node for each interval that a record can have.
pub const NODES: usize = model::MAX_COLUMNS * model::MAX_INTERVALS;
