// MODEL 10.5 and 12.6: the whole listing, the ranges of all columns, written to the output.
ghost use Rattle.std.specs.Prelude.{◌≡◌, ◌+◌, ◌*◌, ◌≤◌, length};
ghost use Rattle.runs.specs.Runs.{run};
ghost use Rattle.model.specs.Limits.{range_size, list_room};
ghost use Rattle.model.specs.Listing.{range_of};
ghost use Rattle.model.specs.Record.{device_of, book_of};
ghost use Rattle.model.specs.Calls.{range_bytes};
ghost use Rattle.model.specs.Parts.{splice};
ghost use Rattle.listing.specs.Output.{Writable, AllWritable, column_bytes, Answers};

use crate::columns::{Room, column_ranges};
use crate::run::{BLANKS, Run};
use record::checked::SoundRecord;
use task::Task;
use words::put16;

// MODEL 10.6: where ranges are listed: the bytes of their column, and of the step of their bottoms.
#[derive(Clone, Copy)]
struct Place {
    column: u8,
    step: u8,
}

// The output of a listing, and how many ranges stand in it: a slice and a count, since what is lent is longer than what is written, and keeps what it
// had behind that (MODEL 12.6). The clauses `same_output` say that it stays the one that `list` was lent.
#[derive(Drop)]
struct Listing<'a> {
    output: &'a mut [u8],
    count: usize,
}

impl Listing<'_> {
    // MODEL 10.6: writes a range behind those that are there.
    #[tactic(auto, using(crate::specs::Laws::Output::range_written))]
    fn push(&mut self, at: Place, run: Run)
        requires { Writable (length self.old.output.now) self.old.count run }
        ensures bytes { self.new.output.now ≡ splice self.old.output.now (range_size * self.old.count) range_size (range_bytes (range_of at.column at.step run)) }
        ensures count { self.new.count ≡ self.old.count + 1 }
        ensures same_output { self.new.output.ghost_name ≡ self.old.output.ghost_name }
    {
        let start = model::RANGE_SIZE * self.count;
        self.output[start] = at.column;
        self.output[start + model::RANGE_STEP_AT] = at.step;
        put16(self.output, start + model::RANGE_FIRST_AT, run.first);
        put16(self.output, start + model::RANGE_LAST_AT, run.last);
        self.count += 1;
    }

    // Writes the ranges of a column.
    fn extend(&mut self, at: Place, runs: &[Run])
        requires { AllWritable (length self.old.output.now) self.old.count runs.now }
        ensures bytes { self.new.output.now ≡ splice self.old.output.now (range_size * self.old.count) (range_size * length runs.now) (column_bytes at.column at.step runs.now) }
        ensures count { self.new.count ≡ self.old.count + length runs.now }
        ensures same_output { self.new.output.ghost_name ≡ self.old.output.ghost_name }
    {
        for run in runs {
            self.push(at, *run);
        }
    }
}

// MODEL 12.6: writes all ranges of the task, by rising column. The answer (MODEL 12.1 and 13.7) is how many, or none where no position fits.
#[tactic(auto, using(model::proofs::Laws::Steps::step_bounds, model::proofs::Laws::Tasks::sized_to))]
pub fn list(record: SoundRecord, task: Task, output: &mut [u8]) -> Option<u16>
    requires { list_room ≤ length output.old }
    ensures { Answers result (device_of «record».entry.bytes.now) (book_of «record».entry.bytes.now) task.entry.bytes.now output.old output.new }
{
    let mut now = BLANKS;
    let mut next = BLANKS;
    let mut room = Room::new(&mut now, &mut next);
    // A step is at most 10, and a column below 64: each fits its byte.
    let step = task.step() as u8;
    let mut listing = Listing { output, count: 0 };
    // By the column's number, which stands in each of its ranges (MODEL 10.6).
    for column in 0..record.columns() {
        let ranges = column_ranges(record, task, column, &mut room);
        let column = column as u8;
        listing.extend(Place { column, step }, ranges);
    }
    if listing.count == 0 {
        return None;
    }
    // At most 64 ranges in each of at most 64 columns.
    Some(listing.count as u16)
}
