// MODEL 12.4: a task entered into a record. Its cells are taken from the free intervals, and its entry is put in.
ghost use Rattle.std.specs.Prelude.{◌≡◌, true, ◌<◌, length};
ghost use Rattle.model.specs.Limits.{max_running};
ghost use Rattle.model.specs.Tasks.{blocks};
ghost use Rattle.model.specs.Book.{fits};
ghost use Rattle.model.specs.Calls.{insert};
ghost use Rattle.model.specs.Record.{record_of, device_of, book_of};
ghost use Rattle.model.specs.Sound.{sound, number_ok};
ghost use Rattle.record.specs.Entries.{seen};
ghost use Rattle.record.specs.Enter.{Placeable, Taken};

use crate::bytes::Entry;
use crate::checked::SoundRecord;
use crate::edit::edit_block;
use crate::entries::insert_entry;
use column::cut;
use model::RECORD_SIZE;
use task::{Position, Task};

// Takes a task's cells. By a loop, here and where they are freed: each block changes the record of the next.
#[tactic(auto, using(crate::specs::Laws::Enter::taken_first, crate::specs::Laws::Enter::seated, crate::specs::Laws::Enter::taken_last))]
fn take_blocks(record: &mut [u8; RECORD_SIZE], task: Task<'_>, at: Position)
    requires { Placeable «record».old task.bytes.now at.column at.bottom }
    ensures { Taken «record».old task.entry.bytes.now at.column at.bottom (blocks task.entry.bytes.now) «record».new }
{
    for k in 0..task.count() {
        edit_block(record, task.block(k), at, cut);
    }
}

// Enters a task that fits where it is to stand.
#[tactic(auto, using(model::proofs::Laws::Sound::sound_length, crate::specs::Laws::Enter::entered_record))]
pub fn enter(record: &mut [u8], new: Entry<'_>)
    requires sound { sound «record».old ≡ true }
    requires fits { fits (device_of «record».old) (book_of «record».old) new.task.bytes.now new.at.column new.at.bottom ≡ true }
    requires numbered { number_ok new.number ≡ true }
    requires room { length (book_of «record».old) < max_running }
    ensures { «record».new ≡ record_of (device_of «record».old) (insert (seen new.entry) (book_of «record».old)) }
{
    let k = SoundRecord { bytes: record }.place_of(new.number);
    let record = record.as_mut_array().unwrap();
    take_blocks(record, new.task, new.at);
    insert_entry(record, k, new.number, new.at, new.task.bytes);
}
