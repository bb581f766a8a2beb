// MODEL 8.4: the entries of the running tasks, found by number, put in and taken out.
ghost use Rattle.std.specs.Prelude.{◌≡◌, true, ◌+◌, ◌*◌, ◌≤◌, ◌<◌, ◌++◌, length, get_or, take, drop};
ghost use Rattle.model.specs.Limits.{max_running, words, record_size, running_at, entry_size};
ghost use Rattle.model.specs.Tasks.{word, sized};
ghost use Rattle.model.specs.Record.{padded, entry_bytes, entry_at, book_of};
ghost use Rattle.model.specs.Parts.{raised, lowered};
ghost use Rattle.model.specs.InPlace.{place};
ghost use Rattle.record.specs.Entries.{found, Moved, Enterable, Entered, Removed};

use crate::bytes::{EntryBytes, entry_at, running};
use crate::checked::SoundRecord;
use model::{
    BLOCK_SIZE, BLOCKS_AT, ENTRY_BOTTOM_AT, ENTRY_COLUMN_AT, ENTRY_COUNT_AT, ENTRY_SIZE,
    RECORD_SIZE, RUNNING_AT,
};
use task::Position;
use words::put16;

impl<'a> SoundRecord<'a> {
    // The bytes, which are as many as a record has.
    #[tactic(auto, using(model::proofs::Laws::Sound::sound_length))]
    fn array(self) -> &'a [u8; RECORD_SIZE]
        ensures { result.now ≡ self.entry.bytes.now }
    {
        let bytes = self.bytes;
        bytes.as_array().unwrap()
    }

    // How many tasks run.
    #[tactic(auto, using(model::proofs::Laws::Sound::running_said, crate::specs::Laws::Checked::running_small))]
    pub fn running(self) -> usize
        ensures count { result ≡ length (book_of self.entry.bytes.now) }
        ensures few { result ≤ max_running }
    {
        running(self.array())
    }

    // Which entry has that number, if one has.
    #[tactic(auto, using(model::proofs::Laws::Sound::sound_length))]
    pub fn find(self, number: u32) -> Option<usize>
        ensures { result ≡ found number (book_of self.entry.bytes.now) }
    {
        let record = self.array();
        (0..self.running()).find(
            |&j|
                requires { j < max_running }
            { EntryBytes { bytes: record, j }.number() == number },
        )
    }

    // The place that an entry of a number takes: behind all that have no higher number.
    // By a loop: `rev`, `find` and `map_or` in a chain, with what its closure requires, are no plainer.
    #[tactic(auto, using(crate::specs::Laws::Entries::place_behind, crate::specs::Laws::Entries::place_first))]
    pub fn place_of(self, number: u32) -> usize
        ensures { result ≡ place number (book_of self.entry.bytes.now) }
    {
        let record = self.array();
        for j in (0..self.running()).rev() {
            if (EntryBytes { bytes: record, j }).number() <= number {
                return j + 1;
            }
        }
        0
    }
}

// Copies the first of two entries over the second.
fn raise_entry(two: &mut [u8])
    requires { length two.old ≡ 2 * entry_size }
    ensures { two.new ≡ take entry_size two.old ++ take entry_size two.old }
{
    let (lower, upper) = two.split_at_mut(ENTRY_SIZE);
    upper.copy_from_slice(lower);
}

// Copies the second of two entries over the first.
fn lower_entry(two: &mut [u8])
    requires { length two.old ≡ 2 * entry_size }
    ensures { two.new ≡ drop entry_size two.old ++ drop entry_size two.old }
{
    let (lower, upper) = two.split_at_mut(ENTRY_SIZE);
    lower.copy_from_slice(upper);
}

// Moves entries k to n - 1 up by one, the last one first. Entry by entry, and not by `copy_within`: of that the compiler makes `memmove`, and the
// archive needs `memcpy` and `memset` alone.
fn raise_entries(record: &mut [u8; RECORD_SIZE], k: usize, n: usize)
    requires order { k ≤ n }
    requires room { n < max_running }
    ensures { Moved «record».old «record».new (raised k n) }
{
    for j in (k..n).rev() {
        let a = entry_at(j);
        raise_entry(&mut record[a..a + 2 * ENTRY_SIZE]);
    }
}

// Moves entries k + 1 to n down by one, the first one first, and entry by entry as above.
fn lower_entries(record: &mut [u8; RECORD_SIZE], k: usize, n: usize)
    requires order { k ≤ n }
    requires room { n < max_running }
    ensures { Moved «record».old «record».new (lowered k n) }
{
    for j in k..n {
        let a = entry_at(j);
        lower_entry(&mut record[a..a + 2 * ENTRY_SIZE]);
    }
}

// Copies bytes, one by one. Where the compiler can't see that the two stand apart, as with a record and a task that C lends, it makes `memmove` of
// `copy_from_slice` too.
fn copy(to: &mut [u8], from: &[u8])
    requires { length to.old ≡ length from.now }
    ensures { to.new ≡ from.now }
{
    for i in 0..from.len() {
        to[i] = from[i];
    }
}

// Writes a running task's entry.
#[tactic(auto, using(model::proofs::Laws::Tasks::sized_to), unfolding(model::specs::Tasks::blocks))]
fn write_entry(part: &mut [u8], number: u32, at: Position, task: &[u8])
    requires part { length part.old ≡ entry_size }
    requires number { number < words }
    requires column { at.column < 256 }
    requires bottom { at.bottom < words }
    requires sized { sized task.now ≡ true }
    ensures { part.new ≡ padded entry_size (entry_bytes (record { number = number; column = at.column; bottom = at.bottom; task = task.now })) }
{
    part.fill(0);
    put16(part, 0, number);
    part[ENTRY_COLUMN_AT] = at.column as u8; // `as`: the clause `column`
    part[ENTRY_COUNT_AT] = (task.len() / BLOCK_SIZE) as u8; // `as`: the clause `sized`, 32 blocks at most
    put16(part, ENTRY_BOTTOM_AT, at.bottom);
    let e = BLOCKS_AT + task.len();
    copy(&mut part[BLOCKS_AT..e], task);
}

// Puts a running task's entry in at place k: those from k on move up by one. Its bytes need only be as many as a task's, so they are no `Task`.
pub fn insert_entry(
    record: &mut [u8; RECORD_SIZE],
    k: usize,
    number: u32,
    at: Position,
    task: &[u8],
)
    requires enterable { Enterable «record».old k number at.column at.bottom }
    requires sized { sized task.now ≡ true }
    ensures { Entered «record».old «record».new k (record { number = number; column = at.column; bottom = at.bottom; task = task.now }) }
{
    let n = running(record);
    raise_entries(record, k, n);
    let a = entry_at(k);
    let e = a + ENTRY_SIZE;
    write_entry(&mut record[a..e], number, at, task);
    record[RUNNING_AT] = (n + 1) as u8; // `as`: there was room for one more of 64
}

// Takes entry k out: those above it move down by one.
pub fn remove_entry(record: &mut [u8; RECORD_SIZE], k: usize)
    requires entry { k < get_or «record».old running_at 0 }
    requires few { get_or «record».old running_at 0 ≤ max_running }
    ensures { Removed «record».old «record».new k }
{
    let last = running(record) - 1;
    lower_entries(record, k, last);
    let z = entry_at(last);
    let end = z + ENTRY_SIZE;
    record[z..end].fill(0);
    record[RUNNING_AT] = last as u8; // `as`: less than it was, 64 at most
}
