// MODEL 11.1 to 11.3: the score of a position at which a task fits, block by block.
ghost use Rattle.std.specs.Prelude.{◌≡◌, ◌+◌, ◌*◌, ◌<◌, ◌≤◌, true, false, replicate};
ghost use Rattle.choice.specs.Bounds.{max_pieces, max_stretch};
ghost use Rattle.runs.specs.Intervals.{Apart};
ghost use Rattle.model.specs.Limits.{max_rows, max_blocks};
ghost use Rattle.model.specs.Book.{fits};
ghost use Rattle.model.specs.Record.{device_of, book_of};
ghost use Rattle.column.specs.Part.{listed_in, first_reaching};
ghost use Rattle.choice.specs.Choosing.{free_in, moved, OnDevice, home_of, Stands, Housed, shared, Alone, Together, Addable, Added, Scored};

use crate::score::Score;
use column::{Column, Interval};
use model::MAX_BLOCKS;
use record::checked::SoundRecord;
use task::{Extent, Position, Task};

// Half rows of a column: a block where it stands, or the free interval that holds it, its home (MODEL 11.1).
#[derive(Clone, Copy)]
struct Place {
    column: usize,
    rows: Interval,
}

// The score of the blocks of a position, and the least room above one of them in its home.
#[derive(Clone, Copy)]
pub struct Rating {
    pub score: Score,
    pub room: u32,
}

// The rating of the blocks so far, and the home of the last of them.
#[derive(Drop)]
struct Tally {
    rating: Rating,
    last: Place,
}

// For each block of a task, the number of the interval that was its home last, in whichever column: from there the search for its next home goes on
// while the bottoms rise. These are hints: one is tested before it is used, so any numbers will do.
#[derive(Drop)]
pub struct Homes {
    numbers: [usize; MAX_BLOCKS],
}

impl Homes {
    // No block had a home yet, and each search begins at the lowest interval.
    pub fn new() -> Homes
        ensures { result.numbers ≡ replicate max_blocks 0 }
    {
        Homes {
            numbers: [0; MAX_BLOCKS],
        }
    }
}

impl Place {
    // MODEL 6.1: a block of a task that is placed.
    fn new(block: Extent, at: Position) -> Place
        requires { OnDevice block at.column at.bottom }
        ensures { result ≡ moved block at.column at.bottom }
    {
        Place {
            column: at.column + block.column,
            rows: block.rows_at(at.bottom),
        }
    }

    // Where the search for this block's home begins in its column: at interval `near`, if there is one and it begins at the block's bottom or below,
    // since those under it then end below the block; else at the lowest.
    fn search_start(self, column: Column, near: usize) -> usize
        requires full { self.rows.bottom < self.rows.top }
        requires canon { Apart 0 (listed_in column.part.now column.count) }
        ensures { let L = listed_in column.entry.part.now column.entry.count in first_reaching result self.rows.top L ≡ first_reaching 0 self.rows.top L }
    {
        if near < column.count && column.interval(near).bottom <= self.rows.bottom {
            near
        } else {
            0
        }
    }

    // MODEL 11.1: the home of this block, as a search finds it. Its number is where the next search for this block may begin.
    fn home(self, record: SoundRecord, near: &mut usize) -> Place
        requires { Stands (free_in «record».bytes.now) self }
        ensures home { result ≡ home_of (free_in «record».entry.bytes.now) self }
        ensures housed { Housed self.rows result.rows }
    {
        let column = record.column(self.column);
        let number = column.reaching(self.search_start(column, *near), self.rows.top);
        *near = number;
        Place {
            rows: column.interval(number),
            ..self
        }
    }

    // Is this home that of the next block too? The blocks in it are lower, or in another column.
    fn is_shared(self, block: Place) -> bool
        ensures { result ≡ shared self block }
    {
        self.column == block.column && block.rows.top <= self.rows.top
    }
}

impl Rating {
    // One block, the first in its home.
    fn first(block: Interval, home: Interval) -> Rating
        requires { Housed block home }
        ensures is { Alone false block home result }
        ensures few { result.score.pieces ≤ 2 }
        ensures short { result.score.stretch ≤ 2 * max_rows }
    {
        Rating {
            score: Score {
                pieces: u32::from(home.bottom < block.bottom) + u32::from(block.top < home.top),
                stretch: home.top - home.bottom,
            },
            room: home.top - block.top,
        }
    }

    // One block that is joined in its home to the block before it. That one has counted the home's height, and the piece between the two is the one
    // above that block.
    fn joined(block: Interval, home: Interval) -> Rating
        requires { Housed block home }
        ensures is { Alone true block home result }
        ensures few { result.score.pieces ≤ 2 }
        ensures short { result.score.stretch ≤ 2 * max_rows }
    {
        Rating {
            score: Score {
                pieces: u32::from(block.top < home.top),
                stretch: 0,
            },
            room: home.top - block.top,
        }
    }

    // The rating of these blocks and of others: the sums, and the least room.
    fn and(self, other: Rating) -> Rating
        requires few { self.score.pieces + other.score.pieces ≤ max_pieces }
        requires short { self.score.stretch + other.score.stretch ≤ max_stretch }
        ensures { Together self other result }
    {
        Rating {
            score: Score {
                pieces: self.score.pieces + other.score.pieces,
                stretch: self.score.stretch + other.score.stretch,
            },
            room: self.room.min(other.room),
        }
    }
}

impl Tally {
    // The first block, which is joined to none.
    fn new(record: SoundRecord, block: Place, near: &mut usize) -> Tally
        requires { Stands (free_in «record».bytes.now) block }
        ensures rating { Alone false block.rows (home_of (free_in «record».entry.bytes.now) block).rows result.rating }
        ensures last { result.last ≡ home_of (free_in «record».entry.bytes.now) block }
    {
        let home = block.home(record, near);
        Tally {
            rating: Rating::first(block.rows, home.rows),
            last: home,
        }
    }

    // One block more, in the home of the last one or in the one that a search finds.
    #[tactic(auto, using(crate::specs::Laws::Homes::stands_housed))]
    fn add_block(&mut self, record: SoundRecord, block: Place, near: &mut usize)
        requires addable { Addable (free_in «record».bytes.now) self.old.rating block }
        requires home_is { shared self.old.last block ≡ true → self.old.last ≡ home_of (free_in «record».bytes.now) block }
        ensures rating { Added self.old.rating (shared self.old.last block) block.rows (home_of (free_in «record».entry.bytes.now) block).rows self.new.rating }
        ensures last { self.new.last ≡ home_of (free_in «record».entry.bytes.now) block }
    {
        let last = self.last;
        let so_far = self.rating;
        // Each branch adds the block by itself, so that one that is joined costs no second test.
        if last.is_shared(block) {
            self.rating = so_far.and(Rating::joined(block.rows, last.rows));
        } else {
            let home = block.home(record, near);
            self.rating = so_far.and(Rating::first(block.rows, home.rows));
            self.last = home;
        }
    }
}

// MODEL 11.2 and 11.3: the score of a position at which the task fits. What it leaves in `homes` no clause says: hints, and any will do.
#[tactic(auto, using(model::proofs::Laws::Tasks::sized_to))]
pub fn score_at(record: SoundRecord, task: Task, at: Position, homes: &mut Homes) -> Rating
    requires { fits (device_of «record».bytes.now) (book_of «record».bytes.now) task.bytes.now at.column at.bottom ≡ true }
    ensures { Scored (device_of «record».entry.bytes.now) (book_of «record».entry.bytes.now) task.entry.bytes.now at.column at.bottom result }
{
    let mut tally = Tally::new(
        record,
        Place::new(task.extent(0), at),
        &mut homes.numbers[0],
    );
    // By the block's number, by which it is read: block 0 has begun the tally.
    for k in 1..task.count() {
        tally.add_block(
            record,
            Place::new(task.extent(k), at),
            &mut homes.numbers[k],
        );
    }
    tally.rating
}
