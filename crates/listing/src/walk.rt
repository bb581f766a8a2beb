// MODEL 6.5: one block along a list of bottoms. Those bottoms stay at which the block stands in a free interval of its column.
ghost use Rattle.std.specs.Prelude.{◌≡◌, ◌*◌, ◌≤◌, length, take};
ghost use Rattle.task.specs.Blocks.{seen};
ghost use Rattle.model.specs.Limits.{reach, max_rows};
ghost use Rattle.model.specs.Columns.{height};
ghost use Rattle.column.specs.Part.{listed_in};
ghost use Rattle.listing.specs.Bottoms.{range_in};
ghost use Rattle.listing.specs.Lists.{max_runs, Meetable, Met as MetBlock};

use crate::LIFT;
use crate::run::{Run, Runs, put_in};
use column::{Column, Interval};
use runs::Range;
use task::Block;

// The lifted bottoms at which a block stands in an interval.
fn bottoms_in(b: Block, i: Interval) -> Range
    requires { (i.top ≤ 2 * max_rows) × (i.bottom ≤ i.top) × (b.extent.high ≤ 2 * reach) × (b.extent.low ≤ b.extent.high) }
    ensures { result ≡ range_in b.extent.low b.extent.high (height (seen b).kind) i.bottom i.top }
{
    Range {
        first: i.bottom + LIFT + model::REACH - b.extent.low,
        last: i.top + LIFT + model::REACH - b.extent.high,
        step: b.height(),
    }
}

// Of the bottoms of a list, those at which a block of the column stands free.
pub fn meet_block(column: Column, b: Block, step: u32, list: &[Run], met: &mut Runs)
    requires { Meetable (listed_in column.part.now column.count) (seen b) list.now step }
    ensures { MetBlock (listed_in column.entry.part.now column.entry.count) (seen b) step list.now met.new }
{
    met.count = meet_in(column, b, step, list, met.runs);
}

// They are the first runs of `met` then, and the answer is how many. Run i meets interval j, and the one that ends first is passed.
pub fn meet_in(column: Column, b: Block, step: u32, list: &[Run], met: &mut [Run]) -> usize
    requires meetable { Meetable (listed_in column.part.now column.count) (seen b) list.now step }
    requires room { max_runs ≤ length met.old }
    ensures met { MetBlock (listed_in column.entry.part.now column.entry.count) (seen b) step list.now (take result met.new) }
    ensures few { result ≤ max_runs }
{
    let mut n: usize = 0;
    let mut i: usize = 0;
    let mut j: usize = 0;
    // A `while`: each turn passes a run or an interval, and which of them its numbers say.
    while i < list.len() && j < column.count {
        let free = column.interval(j);
        if free.top - free.bottom < b.extent.high - b.extent.low {
            j += 1;
            continue;
        }
        let x = list[i].in_steps(step);
        let y = bottoms_in(b, free);
        n = put_in(x, y, met, n);
        if x.last < y.last {
            i += 1;
        } else {
            j += 1;
        }
    }
    n
}
