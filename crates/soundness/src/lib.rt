// MODEL 9: whether bytes are a sound record, in one pass over them. The cells that the running tasks hold are marked as bits, no cell twice, and
// the clear bits of each column are compared with its intervals.
#![tactic(auto)]

ghost use Rattle.std.specs.Prelude.{◌≡◌, ◌≢◌, ◌↔◌, ◌+◌, ◌≤◌, ◌<◌, IsTrue, IfOk, IsErrOf, MatchOption, length, get_or, true, false, ltb};
ghost use Rattle.model.specs.Limits.{max_columns, max_running, record_size, columns_at, running_at};
ghost use Rattle.model.specs.Book.{intervals};
ghost use Rattle.model.specs.Record.{device_of, book_of};
ghost use Rattle.model.specs.Sound.{sound};
ghost use Rattle.model.proofs.Laws.Clauses.{Zero};
ghost use Rattle.model.proofs.Laws.WriteBack.{Bytes};
ghost use Rattle.cells.specs.Ends.{bit_intervals};
ghost use Rattle.record.specs.Device.{as_device};
ghost use Rattle.record.specs.Entries.{entry_of};
ghost use Rattle.soundness.specs.Soundness.{prior, TasksHeld, ColumnOk, ColumnsOk, Unused, Judged};

use cells::ColumnBits;
use marks::HeldCells;
use model::{
    BLOCKS_AT, COLUMN_SIZE, COUNTS_AT, ENTRIES_AT, ENTRY_SIZE, INTERVALS_AT, KINDS_AT, Kind,
    MAX_RUNNING, RECORD_SIZE,
};
use record::bytes::{EntryBytes, entry_at, part_at, running};
use record::checked::SoundRecord;
use record::device::Device;
use std::ops::Range;
use words::zeros;

// MODEL 9.1, 9.2, and of 9.3 the number of tasks: bytes that have the length of a record, say a device, and have no more entries than fit.
#[derive(Clone, Copy)]
struct Legible<'a> {
    bytes: &'a [u8; RECORD_SIZE],
    device: Device<'a>,
    ghost octets: { Bytes bytes.now },
    ghost size: { length bytes.now ≡ record_size },
    ghost said: { as_device device ≡ device_of bytes.now },
    ghost narrow: { length device.kinds.now ≤ max_columns },
    ghost counted: { length device.kinds.now ≡ get_or bytes.now columns_at 0 },
    ghost few: { get_or bytes.now running_at 0 ≤ max_running },
}

// The same where the cells of all running tasks are marked.
#[derive(Clone, Copy)]
struct Marked<'a> {
    legible: Legible<'a>,
    held: &'a HeldCells,
    ghost tasks: { TasksHeld legible.bytes.now held.now.words (get_or legible.bytes.now running_at 0) },
}

impl<'a> Legible<'a> {
    // The bytes, where they are legible; else they are no sound record.
    #[tactic(auto, using(crate::specs::Laws::Judged::refused_device, crate::specs::Laws::Judged::refused_running))]
    fn read(bytes: &'a [u8; RECORD_SIZE]) -> Option<Legible<'a>>
        ensures { MatchOption result (sound bytes.now ≡ false) (λ l. l.bytes.now ≡ bytes.now) }
    {
        let device = Device::said(bytes)?;
        if running(bytes) > MAX_RUNNING {
            return None;
        }
        Some(Legible { bytes, device })
    }

    // Whether the bytes of a range are 0.
    #[tactic(auto, using(words::specs::Laws::Zeros::zeros_decided))]
    fn zeros(&self, range: Range<usize>) -> bool
        requires some { range.start ≤ range.end }
        requires within { range.end ≤ record_size }
        ensures { IsTrue result ↔ Zero self.now.bytes.now range.start range.end }
    {
        let bytes = self.bytes;
        zeros(&bytes[range])
    }

    // MODEL 9.8: whether the bytes behind the kinds, the counts, the parts and the entries that are in use are 0.
    fn unused_ok(&self) -> bool
        ensures { IsTrue result ↔ Unused self.now.bytes.now }
    {
        let columns = self.device.kinds.len();
        self.zeros(KINDS_AT + columns..COUNTS_AT)
            && self.zeros(COUNTS_AT + columns..INTERVALS_AT)
            && self.zeros(INTERVALS_AT + COLUMN_SIZE * columns..ENTRIES_AT)
            && self.zeros(entry_at(running(self.bytes))..RECORD_SIZE)
    }

    // MODEL 9.4: whether the number of running entry j is above that of the entry before it, and the first is 1 or more.
    #[tactic(auto, using(crate::specs::Laws::Tested::rises_first, crate::specs::Laws::Tested::rises_next))]
    fn rises(&self, j: usize) -> bool
        requires { j < get_or self.now.bytes.now running_at 0 }
        ensures { result ≡ ltb (prior 0 (book_of self.now.bytes.now) j) (entry_of self.now.bytes.now j).number }
    {
        let bytes = self.bytes;
        let number = EntryBytes { bytes, j }.number();
        if j == 0 {
            return 0 < number;
        }
        EntryBytes { bytes, j: j - 1 }.number() < number
    }

    // MODEL 9.3 to 9.6: marks the cells of running entry j, and says whether it may be one of a sound record: where not, the record is not sound.
    // Its blocks are read where they stand (MODEL 21.5).
    #[tactic(auto, using(crate::specs::Laws::Entries::entry_position))]
    fn mark_entry(&self, held: &mut HeldCells, j: usize) -> bool
        requires runs { j < get_or self.now.bytes.now running_at 0 }
        requires tasks { TasksHeld self.now.bytes.now held.old.words j }
        ensures { Judged self.now.bytes.now (TasksHeld self.now.bytes.now held.new.words (j + 1)) result }
    {
        if !self.rises(j) {
            return false;
        }
        let bytes = self.bytes;
        let Some(entry) = (EntryBytes { bytes, j }).read() else {
            return false;
        };
        let at = entry_at(j);
        let used = at + BLOCKS_AT + entry.task.bytes.len();
        if !self.zeros(used..at + ENTRY_SIZE) {
            return false;
        }
        held.mark_task(self.device, entry.task, entry.at)
    }

    // The same for all running entries, up to the first that is not one of a sound record. By a loop, as `mark_task` is.
    fn mark_entries(&self, held: &mut HeldCells) -> bool
        requires { TasksHeld self.now.bytes.now held.old.words 0 }
        ensures { Judged self.now.bytes.now (TasksHeld self.now.bytes.now held.new.words (get_or self.now.bytes.now running_at 0)) result }
    {
        for j in 0..running(self.bytes) {
            if !self.mark_entry(held, j) {
                return false;
            }
        }
        true
    }
}

impl Marked<'_> {
    // The cells of column c, as bits.
    #[tactic(auto, using(marks::specs::Laws::Marks::few_rows))]
    fn bits(&self, c: usize) -> ColumnBits
        requires { c < length self.now.legible.device.kinds.now }
        ensures { bit_intervals result.words.now result.cells result.height ≡ intervals (device_of self.now.legible.bytes.now) (book_of self.now.legible.bytes.now) c }
    {
        let device = self.legible.device;
        let kind = Kind::try_from(device.kinds[c]).unwrap();
        ColumnBits {
            words: self.held.column(c),
            cells: kind.cells(device.rows),
            height: kind.height(),
        }
    }

    // MODEL 9.7: whether column c lists its free intervals.
    fn column_ok(&self, c: usize) -> bool
        requires { c < length self.now.legible.device.kinds.now }
        ensures { IsTrue result ↔ ColumnOk self.now.legible.bytes.now c }
    {
        let bytes = self.legible.bytes;
        self.bits(c)
            .lists(&bytes[part_at(c)], usize::from(bytes[COUNTS_AT + c]))
    }

    // The same for all columns.
    fn columns_ok(&self) -> bool
        ensures { IsTrue result ↔ ColumnsOk self.now.legible.bytes.now (length self.now.legible.device.kinds.now) }
    {
        (0..self.legible.device.kinds.len()).all(|c| self.column_ok(c))
    }
}

// MODEL 9: whether the bytes are a sound record.
#[tactic(auto, using(crate::specs::Laws::Sound::refused_unused))]
fn is_sound(record: &[u8; RECORD_SIZE]) -> bool
    ensures { result ≡ sound «record».now }
{
    let Some(legible) = Legible::read(record) else {
        return false;
    };
    if !legible.unused_ok() {
        return false;
    }
    let mut held = HeldCells::new();
    if !legible.mark_entries(&mut held) {
        return false;
    }
    let marked = Marked {
        legible,
        held: &held,
    };
    marked.columns_ok()
}

// MODEL 9.1: the same of bytes of any length.
pub fn sound(record: &[u8]) -> bool
    ensures { result ≡ sound «record».now }
{
    record.as_array().is_some_and(is_sound)
}

// Why bytes are no sound record: their length is none of a record's, or they are not sound.
#[derive(Clone, Copy, Debug, PartialEq, Eq)]
pub enum RecordFault {
    Length,
    NotSound,
}

// MODEL 9.1: the bytes as a sound record, where they are one.
pub fn read(record: &[u8]) -> Result<SoundRecord, RecordFault>
    ensures ok { IfOk result (λ r. r.bytes.now ≡ «record».now) }
    ensures length { IsErrOf result RecordFault.Length ↔ (length «record».now ≢ record_size) }
    ensures not_sound { IsErrOf result RecordFault.NotSound ↔ ((length «record».now ≡ record_size) × (sound «record».now ≡ false)) }
{
    if record.len() != RECORD_SIZE {
        return Err(RecordFault::Length);
    }
    if !sound(record) {
        return Err(RecordFault::NotSound);
    }
    Ok(SoundRecord { bytes: record })
}
