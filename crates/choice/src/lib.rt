// MODEL 11: the choice for a task on a sound record. The score of a position, the way up a range, a column, and all columns.
// Only the lowest and the highest bottom of each stretch in which no block leaves its free interval are scored: between them s stays the same
// and n is no less (model/proofs/Laws/Ends.antt).
#![tactic(auto)]

mod score; // n and s, and the better of two positions
mod tally; // the score of a position, block by block

ghost use Rattle.std.specs.Prelude.{◌≡◌, suc, ◌<◌};
ghost use Rattle.runs.specs.Meet.{Step};
ghost use Rattle.model.specs.Limits.{max_columns, words};
ghost use Rattle.model.specs.Columns.{half_rows};
ghost use Rattle.model.specs.Tasks.{step as step_of};
ghost use Rattle.model.specs.Choice.{judge};
ghost use Rattle.model.specs.Record.{device_of, book_of};
ghost use Rattle.choice.specs.Choosing.{Rises, Climbed, FitsRange, Chooses};

use listing::columns::{Room, column_ranges};
use listing::run::BLANKS;
use record::checked::SoundRecord;
use runs::Range;
pub use score::{Choice, Score};
pub use tally::{Homes, Rating, score_at};
use task::{Position, Task};

// A task whose best position on a record is looked for.
#[derive(Clone, Copy)]
struct Search<'a> {
    record: SoundRecord<'a>,
    task: Task<'a>,
    step: u32,
    ghost step_is: { step ≡ step_of task.bytes.now },
}

// How far up the next bottom to score is: the room, rounded up to whole steps, and one step at least.
#[tactic(auto, using(crate::specs::Laws::Climbs::rise_is))]
fn rise(room: u32, step: u32) -> u32
    requires { (room < words) × Step step }
    ensures { Rises room step result }
{
    room.max(1).next_multiple_of(step)
}

impl Search<'_> {
    // The better of the best so far and the bottoms of a range.
    #[tactic(auto, using(listing::specs::Laws::Column::given_of, model::proofs::Laws::Tasks::sized_to, crate::specs::Laws::Climbs::range_step, crate::specs::Laws::Climbs::rise_pos, crate::specs::Laws::Climbs::bottom_small))]
    fn climb_range(
        self,
        column: usize,
        range: Range,
        homes: &mut Homes,
        mut best: Option<Choice>,
    ) -> Option<Choice>
        requires { FitsRange (device_of self.record.bytes.now) (book_of self.record.bytes.now) self.task.bytes.now column range }
        ensures { Climbed (judge (device_of self.entry.record.bytes.now) (book_of self.entry.record.bytes.now) self.entry.task.bytes.now) column range.first (suc range.last) best result }
    {
        // A `while`: how far up the next bottom is, the score of this one says.
        let mut bottom = range.first;
        while bottom <= range.last {
            let position = Position { column, bottom };
            let rating = score_at(self.record, self.task, position, homes);
            let choice = Choice {
                position,
                score: rating.score,
            };
            best = choice.or_best(best);
            bottom += rise(rating.room, range.step);
        }
        best
    }

    // The better of the best so far and all positions of a column.
    #[tactic(auto, using(model::proofs::Laws::Tasks::sized_to, crate::specs::Laws::Columns::passed_all))]
    fn climb_column(
        self,
        column: usize,
        room: &mut Room,
        homes: &mut Homes,
        mut best: Option<Choice>,
    ) -> Option<Choice>
        requires { column < max_columns }
        ensures { Climbed (judge (device_of self.entry.record.bytes.now) (book_of self.entry.record.bytes.now) self.entry.task.bytes.now) column 0 (half_rows (device_of self.entry.record.bytes.now)) best result }
    {
        let ranges = column_ranges(self.record, self.task, column, room);
        for run in ranges {
            best = self.climb_range(column, run.in_steps(self.step), homes, best);
        }
        best
    }
}

// MODEL 11.5: the choice for a task, or nothing where it fits at no position.
#[tactic(auto, using(crate::specs::Laws::Columns::best_next))]
pub fn best_position(record: SoundRecord, task: Task) -> Option<Choice>
    ensures { Chooses (device_of «record».entry.bytes.now) (book_of «record».entry.bytes.now) task.entry.bytes.now result }
{
    let search = Search {
        record,
        task,
        step: task.step(),
    };
    let mut now = BLANKS;
    let mut next = BLANKS;
    let mut room = Room::new(&mut now, &mut next);
    let mut homes = Homes::new();
    let mut best = None;
    // By the column's number, which is part of a position. A turn writes `room` and `homes` beside `best`, which a fold would hide in what it
    // captures.
    for column in 0..record.columns() {
        best = search.climb_column(column, &mut room, &mut homes, best);
    }
    best
}
