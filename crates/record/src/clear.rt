// MODEL 12.3: the record of a new card, on which all cells are free and no task runs.
ghost use Rattle.std.specs.Prelude.{◌≡◌, [], ◌∷◌, ◌+◌, ◌≤◌, ◌<◌, set};
ghost use Rattle.runs.specs.Intervals.{interval, piece};
ghost use Rattle.model.specs.Limits.{max_rows, max_kind, words, kinds_at};
ghost use Rattle.model.specs.Columns.{top_in};
ghost use Rattle.model.specs.Record.{column_part, record_of};
ghost use Rattle.model.specs.InPlace.{put_column};
ghost use Rattle.record.specs.Device.{as_device};
ghost use Rattle.record.specs.Clear.{Closed};

use crate::bytes::part_at;
use crate::device::Device;
use model::{COLUMNS_AT, COUNTS_AT, INTERVAL_TOP_AT, KINDS_AT, Kind, RECORD_SIZE, ROWS_AT};
use words::put16;

// Writes the interval from 0 to top into the part of a column that has none.
#[tactic(auto, using(model::proofs::Laws::Record::length_column, crate::specs::Laws::Clear::part_one))]
fn free_part(part: &mut [u8], top: u32)
    requires { (part.old ≡ column_part []) × (top < words) }
    ensures { part.new ≡ column_part (interval 0 top ∷ []) }
{
    put16(part, 0, 0);
    put16(part, INTERVAL_TOP_AT, top);
}

// Gives column c its kind, and frees all its cells.
// The kind is the byte that was given: it is written as it came, and a Kind only where its height is asked for.
#[tactic(auto, using(model::proofs::Laws::Columns::top_in_le, model::proofs::Laws::Kinds::kind_known, crate::specs::Laws::Checked::known_byte, crate::specs::Laws::Clear::closed_kind, crate::specs::Laws::Clear::open_none, crate::specs::Laws::Clear::lent_closed, crate::specs::Laws::Clear::open_one))]
fn open_column(record: &mut [u8; RECORD_SIZE], c: usize, rows: u32, kind: u8)
    requires { Closed «record».old c × (rows ≤ max_rows) × (kind ≤ max_kind) }
    ensures { «record».new ≡ put_column (set «record».old (kinds_at + c) kind) c (piece 0 (top_in rows kind) []) }
{
    record[KINDS_AT + c] = kind;
    let top = Kind::try_from(kind).unwrap().top(rows);
    if top > 0 {
        free_part(&mut record[part_at(c)], top);
        record[COUNTS_AT + c] = 1;
    }
}

// Writes the record of a new card.
#[tactic(auto, using(crate::specs::Laws::Clear::few_rows, crate::specs::Laws::Clear::few_kinds, crate::specs::Laws::Clear::opened_all), unfolding(model::specs::Columns::columns))]
pub fn clear(record: &mut [u8; RECORD_SIZE], device: Device)
    ensures { «record».new ≡ record_of (as_device device.entry) [] }
{
    record.fill(0);
    put16(record, ROWS_AT, device.rows);
    record[COLUMNS_AT] = device.kinds.len() as u8; // `as`: a device has 64 columns at most
    for (c, kind) in device.kinds.iter().enumerate() {
        open_column(record, c, device.rows, *kind);
    }
}
