// MODEL 10.4: the ranges of a task in one column. All half rows on the first block's grid are met with one block after the other.
ghost use Rattle.std.specs.Prelude.{◌≡◌, ◌+◌, ◌≤◌, ◌<◌, ◌↔◌, IsTrue, length};
ghost use Rattle.model.specs.Limits.{max_columns};
ghost use Rattle.model.specs.Tasks.{blocks};
ghost use Rattle.model.specs.Record.{device_of, book_of};
ghost use Rattle.listing.specs.Lists.{max_runs};
ghost use Rattle.listing.specs.Columns.{AreEmpty, On, OnEach, FirstStanding, AllStanding, ranges_in};

use crate::LIFT;
use crate::run::{Run, Runs};
use crate::walk::meet_block;
use record::checked::SoundRecord;
use std::mem;
use task::Task;

// Two lists to work in by turns: one is read while the other is written.
#[derive(Drop)]
pub struct Room<'a> {
    now: Runs<'a>,
    next: Runs<'a>,
}

impl<'a> Room<'a> {
    // Both lists are empty, in what is lent.
    pub fn new(now: &'a mut [Run], next: &'a mut [Run]) -> Room<'a>
        requires now { max_runs ≤ length now.old }
        requires next { max_runs ≤ length next.old }
        ensures { AreEmpty result }
    {
        Room {
            now: Runs::new(now),
            next: Runs::new(next),
        }
    }
}

// A task whose columns are moved up by p (MODEL 6.1), on a sound record.
#[derive(Clone, Copy)]
struct InColumn<'a> {
    record: SoundRecord<'a>,
    task: Task<'a>,
    p: usize,
    ghost below: { p < max_columns },
}

impl InColumn<'_> {
    // MODEL 6.2: whether the column of block k is one of the device and has its kind.
    #[tactic(auto, using(record::specs::Laws::Fits::solid_seen))]
    fn is_on(self, k: usize) -> bool
        requires { k < blocks self.task.bytes.now }
        ensures { IsTrue result ↔ On self.entry.record.bytes.now self.entry.task.bytes.now self.entry.p k }
    {
        let b = self.task.block(k);
        self.record.has_kind(self.p + b.extent.column, b.kind)
    }

    // The same of each block.
    fn all_on(self) -> bool
        ensures { IsTrue result ↔ OnEach self.entry.record.bytes.now self.entry.task.bytes.now self.entry.p }
    {
        (0..self.task.count()).all(|k| self.is_on(k))
    }

    // All half rows, lifted, on the grid of the first block, whose height is the step.
    #[tactic(auto, using(model::proofs::Laws::Columns::height_pos, model::proofs::Laws::Tasks::sized_to, crate::specs::Laws::Blocks::listed_start))]
    fn start(self, list: &mut Runs) -> u32
        ensures { FirstStanding self.entry.record.bytes.now self.entry.task.bytes.now self.entry.p 0 result list.new }
    {
        let step = self.task.block(0).height();
        list.start(Run {
            first: LIFT,
            last: LIFT + (2 * model::MAX_ROWS - 1) / step * step,
        });
        step
    }

    // Of a list of lifted bottoms, those at which block k stands free too, and their step.
    #[tactic(auto, using(record::specs::Laws::Checked::columns_few))]
    fn meet_next(self, k: usize, step: u32, list: &[Run], met: &mut Runs) -> u32
        requires next { k < blocks self.task.bytes.now }
        requires on { On self.record.bytes.now self.task.bytes.now self.p k }
        requires listed { FirstStanding self.record.bytes.now self.task.bytes.now self.p k step list.now }
        ensures { FirstStanding self.entry.record.bytes.now self.entry.task.bytes.now self.entry.p (k + 1) result met.new }
    {
        let b = self.task.block(k);
        let column = self.record.column(self.p + b.extent.column);
        meet_block(column, b, step, list, met);
        runs::lcm(step, b.height())
    }

    // The lifted bottoms of the task: all half rows, met with one block after the other.
    fn lifted_bottoms<'r, 'a>(self, room: &'r mut Room<'a>) -> &'r mut Runs<'a>
        requires { OnEach self.record.bytes.now self.task.bytes.now self.p }
        ensures { AllStanding self.entry.record.bytes.now self.entry.task.bytes.now self.entry.p result.now }
    {
        let mut now = &mut room.now;
        let mut next = &mut room.next;
        let mut step = self.start(now);
        // By the block's number, by which it is read. A turn changes the step and both lists, which a fold would have to hand on as one.
        for k in 0..self.task.count() {
            step = self.meet_next(k, step, now.as_slice(), next);
            mem::swap(&mut now, &mut next);
        }
        now
    }

    // MODEL 10.4: the ranges of the task.
    #[tactic(auto, using(crate::specs::Laws::Column::given_of, crate::specs::Laws::Column::ranged, crate::specs::Laws::Column::ranged_none))]
    fn ranges<'r>(self, room: &'r mut Room) -> &'r [Run]
        ensures few { length result.now ≤ max_runs }
        ensures ranges { result.now ≡ ranges_in (device_of self.entry.record.bytes.now) (book_of self.entry.record.bytes.now) self.entry.task.bytes.now self.entry.p }
    {
        if !self.all_on() {
            return &[];
        }
        let ranges = self.lifted_bottoms(room);
        ranges.lower();
        ranges.as_slice()
    }
}

// MODEL 10.4: the ranges of the task in column p.
pub fn column_ranges<'a>(record: SoundRecord, task: Task, p: usize, room: &'a mut Room) -> &'a [Run]
    requires { p < max_columns }
    ensures few { length result.now ≤ max_runs }
    ensures ranges { result.now ≡ ranges_in (device_of «record».entry.bytes.now) (book_of «record».entry.bytes.now) task.entry.bytes.now p }
{
    InColumn { record, task, p }.ranges(room)
}
