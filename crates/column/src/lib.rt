// MODEL 12.4 and 12.5: one column's intervals. Its part, lent out of the middle of the record (MODEL 21.5), is cut, joined and searched.
#![tactic(auto)]

ghost use Rattle.std.specs.Prelude.{◌≡◌, ◌<◌, ◌≤◌, ◌↔◌, IsTrue};
ghost use Rattle.runs.specs.Intervals.{subtract, unite};
ghost use Rattle.model.specs.Limits.{max_intervals};
ghost use Rattle.column.specs.Part.{Part, ReadAt, listed_in, Room, Joinable, Changed, held_in, first_reaching};

mod rewrite; // a part that is cut or joined is written anew

use model::{INTERVAL_SIZE, INTERVAL_TOP_AT};
use rewrite::{rewrite, write_cut, write_joined};
use words::get16;

// MODEL 7.2: the half rows from bottom up to top, top excluded. std's Range is no Copy.
#[derive(Clone, Copy)]
pub struct Interval {
    pub bottom: u32,
    pub top: u32,
}

// MODEL 8.3: the part of a record that lists a column's free intervals, and how many they are.
#[derive(Clone, Copy)]
pub struct Column<'a> {
    pub part: &'a [u8],
    pub count: usize,
    ghost listed: { Part part.now count },
}

impl Interval {
    // Whether all half rows of a run lie in it. The top first: of the intervals below the run it alone is looked at.
    fn holds(self, run: Interval) -> bool
        ensures { IsTrue result ↔ ((self.bottom ≤ run.bottom) × (run.top ≤ self.top)) }
    {
        run.top <= self.top && self.bottom <= run.bottom
    }
}

impl Column<'_> {
    // MODEL 8.3: interval i of the part.
    #[tactic(auto, unfolding(crate::specs::Part::interval_at))]
    pub fn interval(self, i: usize) -> Interval
        requires { i < max_intervals }
        ensures { ReadAt self.entry.part.now i result }
    {
        let at = INTERVAL_SIZE * i;
        Interval {
            bottom: get16(self.part, at),
            top: get16(self.part, at + INTERVAL_TOP_AT),
        }
    }

    // MODEL 6.5 and 11.1: the interval in which all half rows of a run lie.
    pub fn holder(self, run: Interval) -> Option<Interval>
        ensures { result ≡ held_in run.bottom run.top (listed_in self.entry.part.now self.entry.count) }
    {
        (0..self.count)
            .map(|i| self.interval(i))
            .find(|next| next.holds(run))
    }

    // MODEL 11.1: the number of the first interval, from number `from` on, that ends at `top` or above it. Only tops are read. Where there is none the
    // answer is `count`, as std's `partition_point` answers the length: an Option would be no plainer, since who goes on from it reads up to `count`.
    pub fn reaching(self, from: usize, top: u32) -> usize
        ensures { result ≡ first_reaching from top (listed_in self.entry.part.now self.entry.count) }
    {
        (from..self.count)
            .find(|&i| get16(self.part, INTERVAL_SIZE * i + INTERVAL_TOP_AT) >= top)
            .unwrap_or(self.count)
    }
}

// MODEL 12.4: cuts a run out of the intervals of a part. The answer is how many are left. Here and at `join` part and count come loose,
// as they stand apart in the record: a struct of both would be made by their one caller, and taken apart by it to write the count back.
pub fn cut(part: &mut [u8], count: usize, run: Interval) -> usize
    requires { Room (subtract run.bottom run.top) part.old count }
    ensures { Changed (subtract run.bottom run.top) part.old count part.new result }
{
    rewrite(part, count, |column, left| write_cut(column, run, left))
}

// MODEL 12.5: joins a run to the intervals of a part, below and above at once. The answer is how many there are then.
pub fn join(part: &mut [u8], count: usize, run: Interval) -> usize
    requires { Joinable run.bottom run.top part.old count }
    ensures { Changed (unite run.bottom run.top) part.old count part.new result }
{
    rewrite(
        part,
        count,
        |column, joined| write_joined(column, run, joined),
    )
}
