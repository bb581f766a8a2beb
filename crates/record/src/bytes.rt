// MODEL 8.2 and 8.4: where a record's parts stand, and what its bytes say of its running tasks, whether it is sound or not.
ghost use Rattle.std.specs.Prelude.{◌≡◌, ◌+◌, ◌*◌, ◌≤◌, ◌<◌, get_or, MatchOption};
ghost use Rattle.std.specs.List.{slice_range};
ghost use Rattle.model.specs.Limits.{max_columns, max_running, max_blocks, block_size, running_at, column_size, blocks_at};
ghost use Rattle.model.specs.Tasks.{word};
ghost use Rattle.model.specs.Record.{column_at, entry_at};
ghost use Rattle.model.specs.Sound.{block_count};
ghost use Rattle.record.specs.Entries.{blocks_of, HasTask, ReadsEntry};

use model::{
    BLOCK_SIZE, BLOCKS_AT, COLUMN_SIZE, ENTRIES_AT, ENTRY_BOTTOM_AT, ENTRY_COLUMN_AT,
    ENTRY_COUNT_AT, ENTRY_SIZE, INTERVALS_AT, MAX_BLOCKS, RECORD_SIZE, RUNNING_AT,
};
use std::ops::Range;
use task::{Position, Task};
use words::get16;

// MODEL 8.2: where the part of column c stands. That c is below the most columns is the bound of an index, here and where a column is asked for:
// a type for it would be made anew from each number.
pub fn part_at(c: usize) -> Range<usize>
    requires { c < max_columns }
    ensures start { result.start ≡ column_at c }
    ensures end { result.end ≡ column_at c + column_size }
{
    let a = INTERVALS_AT + COLUMN_SIZE * c;
    a..a + COLUMN_SIZE
}

// MODEL 8.2: where entry j stands, or where the entries end.
pub fn entry_at(j: usize) -> usize
    requires { j ≤ max_running }
    ensures { result ≡ entry_at j }
{
    ENTRIES_AT + ENTRY_SIZE * j
}

// How many tasks run.
pub fn running(record: &[u8; RECORD_SIZE]) -> usize
    ensures { result ≡ get_or «record».now running_at 0 }
{
    usize::from(record[RUNNING_AT])
}

// MODEL 5.1: a running task: its number, its position, and its bytes.
#[derive(Clone, Copy)]
pub struct Entry<'a> {
    pub number: u32,
    pub at: Position,
    pub task: Task<'a>,
}

// MODEL 8.4: the bytes of entry j of a record.
#[derive(Clone, Copy)]
pub struct EntryBytes<'a> {
    pub bytes: &'a [u8; RECORD_SIZE],
    pub j: usize,
    ghost room: { j < max_running },
}

impl<'a> EntryBytes<'a> {
    // Its number.
    pub fn number(self) -> u32
        ensures { result ≡ word self.entry.bytes.now (entry_at self.entry.j) }
    {
        let bytes = self.bytes;
        get16(bytes, entry_at(self.j))
    }

    // Its position.
    pub fn position(self) -> Position
        ensures column { result.column ≡ get_or self.entry.bytes.now (entry_at self.entry.j + 2) 0 }
        ensures bottom { result.bottom ≡ word self.entry.bytes.now (entry_at self.entry.j + 4) }
    {
        let bytes = self.bytes;
        let at = entry_at(self.j);
        Position {
            column: usize::from(bytes[at + ENTRY_COLUMN_AT]),
            bottom: get16(bytes, at + ENTRY_BOTTOM_AT),
        }
    }

    // How many blocks it says that its task has, be they as many or not.
    pub fn count(self) -> usize
        ensures count { result ≡ block_count self.entry.bytes.now self.entry.j }
        ensures byte { result < 256 }
    {
        let bytes = self.bytes;
        usize::from(bytes[entry_at(self.j) + ENTRY_COUNT_AT])
    }

    // Where its blocks stand, as many as it says; more than an entry has room for reach behind it.
    pub fn blocks_range(self) -> Range<usize>
        ensures start { result.start ≡ entry_at self.entry.j + blocks_at }
        ensures end { result.end ≡ entry_at self.entry.j + blocks_at + block_size * block_count self.entry.bytes.now self.entry.j }
    {
        let a = entry_at(self.j) + BLOCKS_AT;
        a..a + BLOCK_SIZE * self.count()
    }

    // MODEL 21.5: its blocks, left where they stand in the record; none where they are more than an entry has room for.
    fn blocks(self) -> Option<&'a [u8]>
        ensures { let r = self.entry.bytes.now in let n = block_count r self.entry.j in let a = entry_at self.entry.j + blocks_at in MatchOption result (max_blocks < n) (λ b. (n ≤ max_blocks) × (b.now ≡ slice_range r a (a + block_size * n))) }
    {
        let bytes = self.bytes;
        if self.count() > MAX_BLOCKS {
            return None;
        }
        Some(&bytes[self.blocks_range()])
    }

    // Its task.
    pub fn task(self) -> Task<'a>
        requires { HasTask self.bytes.now self.j }
        ensures { result.bytes.now ≡ blocks_of self.entry.bytes.now self.entry.j }
    {
        Task {
            bytes: self.blocks().unwrap(),
        }
    }

    // MODEL 8.4, 9.3 and 9.5: what it says, where its blocks are those of a task.
    pub fn read(self) -> Option<Entry<'a>>
        ensures { ReadsEntry self.entry.bytes.now self.entry.j result }
    {
        let task = Task::read(self.blocks()?).ok()?;
        Some(Entry {
            number: self.number(),
            at: self.position(),
            task,
        })
    }
}
