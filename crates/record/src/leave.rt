// MODEL 12.5: a task taken out of a record. Its cells are joined to the free intervals, and its entry is removed.
ghost use Rattle.std.specs.Prelude.{◌≡◌, true};
ghost use Rattle.model.specs.Calls.{without, runs_in};
ghost use Rattle.model.specs.Record.{record_of, device_of, book_of};
ghost use Rattle.model.specs.Sound.{sound};
ghost use Rattle.record.specs.Leave.{Runs, freed_entry};

use crate::bytes::EntryBytes;
use crate::checked::SoundRecord;
use crate::edit::edit_block;
use crate::entries::remove_entry;
use column::join;
use model::RECORD_SIZE;

// Frees the cells of the task of entry j. Its blocks are read where they stand, in the record.
#[tactic(auto, using(crate::proofs::Laws::Leave::has_task, crate::proofs::Laws::Leave::freeing_first))]
fn free_blocks(record: &mut [u8; RECORD_SIZE], j: usize)
    requires { Runs «record».old j }
    ensures { «record».new ≡ freed_entry «record».old j }
{
    let entry = EntryBytes { bytes: record, j };
    let at = entry.position();
    let count = entry.task().count();
    for k in 0..count {
        let block = EntryBytes { bytes: record, j }.task().block(k);
        edit_block(record, block, at, join);
    }
}

// Takes out the task of a number.
#[tactic(auto, using(model::proofs::Laws::Sound::sound_length, crate::specs::Laws::Entries::found_place, crate::specs::Laws::Entries::found_runs, crate::proofs::Laws::Leave::left_record))]
pub fn leave(record: &mut [u8], number: u32)
    requires { (sound «record».old ≡ true) × (runs_in (book_of «record».old) number ≡ true) }
    ensures { «record».new ≡ record_of (device_of «record».old) (without number (book_of «record».old)) }
{
    let j = SoundRecord { bytes: record }.find(number).unwrap();
    let record = record.as_mut_array().unwrap();
    free_blocks(record, j);
    remove_entry(record, j);
}
