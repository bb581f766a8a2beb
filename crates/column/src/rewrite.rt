// MODEL 12.4 and 12.5: a column's part written anew. It is read from its front, and what it becomes is written into a part of zeros that is copied back.
ghost use Rattle.std.specs.Prelude.{[], ◌∷◌, ◌<◌};
ghost use Rattle.runs.specs.Intervals.{interval, piece, subtract, unite};
ghost use Rattle.model.specs.Limits.{max_intervals, words};
ghost use Rattle.column.specs.Part.{Part, listed_in, Holding, Room, Joinable, Short, Wrote, Absorbed};
ghost use Rattle.column.specs.Rewrite.{Writes, Written};

use crate::{Column, Interval};
use model::{COLUMN_SIZE, INTERVAL_SIZE, INTERVAL_TOP_AT};
use words::put16;

// A part that is written from its front, and how many intervals stand there: a count beside the bytes, as the record has it (MODEL 8.3), and not a list,
// since what is copied back is the whole part, zeros too. It borrows its bytes: as an array of its own they are zeroed three times, and the test of a
// full record takes a fifth longer than with the form of before.
#[derive(Drop)]
pub(crate) struct Draft<'a> {
    bytes: &'a mut [u8; COLUMN_SIZE],
    count: usize,
}

impl Draft<'_> {
    // Writes an interval behind those that are there.
    #[tactic(auto, using(crate::specs::Laws::Writing::wrote_one))]
    fn push(&mut self, next: Interval)
        requires room { self.old.count < max_intervals }
        requires short { Short next }
        ensures { Wrote self.old.bytes.now self.old.count (interval next.bottom next.top ∷ []) self.new.bytes.now self.new.count }
    {
        let at = INTERVAL_SIZE * self.count;
        put16(self.bytes, at, next.bottom);
        put16(self.bytes, at + INTERVAL_TOP_AT, next.top);
        self.count += 1;
    }

    // The same, unless the interval is empty.
    #[tactic(auto, using(crate::specs::Laws::Writing::wrote_piece, crate::specs::Laws::Writing::wrote_none))]
    fn keep(&mut self, next: Interval)
        requires room { next.bottom < next.top → self.old.count < max_intervals }
        requires short { next.top < words }
        ensures { Wrote self.old.bytes.now self.old.count (piece next.bottom next.top []) self.new.bytes.now self.new.count }
    {
        if next.bottom < next.top {
            self.push(next);
        }
    }

    // Takes one more interval into a join: writes it if it lies below the one carried on, or that one if it lies below it; else the two become one.
    fn absorb(&mut self, carried: Interval, next: Interval) -> Interval
        requires room { self.old.count < max_intervals }
        requires carried_short { Short carried }
        requires next_short { Short next }
        ensures { Absorbed self.old.bytes.now self.old.count carried next self.new.bytes.now self.new.count result }
    {
        if next.top < carried.bottom {
            self.push(next);
            return carried;
        }
        if carried.top < next.bottom {
            self.push(carried);
            return next;
        }
        Interval {
            bottom: carried.bottom.min(next.bottom),
            top: carried.top.max(next.top),
        }
    }
}

// What is left of a column's intervals when a run is cut out of them. By their numbers, here and below: a part is bytes, of which `interval` reads one.
pub(crate) fn write_cut(column: Column<'_>, run: Interval, left: &mut Draft<'_>)
    requires empty { Holding left.old.bytes.now left.old.count [] }
    requires room { Room (subtract run.bottom run.top) column.part.now column.count }
    ensures { Holding left.new.bytes.now left.new.count (subtract run.bottom run.top (listed_in column.entry.part.now column.entry.count)) }
{
    for i in 0..column.count {
        let next = column.interval(i);
        left.keep(Interval {
            top: next.top.min(run.bottom),
            ..next
        });
        left.keep(Interval {
            bottom: next.bottom.max(run.top),
            ..next
        });
    }
}

// A column's intervals with a run joined to them: it is carried on, and grows where it meets the next.
#[tactic(auto, using(crate::specs::Laws::Writing::join_start, crate::specs::Laws::Writing::join_next))]
pub(crate) fn write_joined(column: Column<'_>, run: Interval, joined: &mut Draft<'_>)
    requires empty { Holding joined.old.bytes.now joined.old.count [] }
    requires joinable { Joinable run.bottom run.top column.part.now column.count }
    ensures { Holding joined.new.bytes.now joined.new.count (unite run.bottom run.top (listed_in column.entry.part.now column.entry.count)) }
{
    let mut carried = run;
    for i in 0..column.count {
        carried = joined.absorb(carried, column.interval(i));
    }
    joined.push(carried);
}

// Writes a part anew: what `write` makes of its intervals stands in a part of zeros, which is copied back. The answer is how many there are then.
pub(crate) fn rewrite<F: FnOnce(Column<'_>, &mut Draft<'_>)>(
    part: &mut [u8],
    count: usize,
    write: F,
) -> usize
    requires is_part { Part part.old count }
    requires writes { Writes F.FnOnce write part.old count }
    ensures { Written F.FnOnce write part.old count part.new result }
{
    let column = Column { part, count };
    let mut scratch = [0; COLUMN_SIZE];
    let mut draft = Draft {
        bytes: &mut scratch,
        count: 0,
    };
    write(column, &mut draft);
    part.copy_from_slice(draft.bytes);
    draft.count
}
