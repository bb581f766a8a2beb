// MODEL 3.2 and 3.3: the device of a card: rows and kinds that are one's, as a type.
ghost use Rattle.std.specs.Prelude.{◌≡◌, ◌&&◌, ◌<◌, ◌↔◌, true, false, leb, IsTrue, MatchOption};
ghost use Rattle.std.specs.List.{list_all};
ghost use Rattle.model.specs.Limits.{max_rows, max_columns, max_kind};
ghost use Rattle.model.specs.Columns.{columns, kind as kind_of, device_ok};
ghost use Rattle.model.specs.Kinds.{number_of};
ghost use Rattle.model.specs.Record.{device_of};

use model::{COLUMNS_AT, KINDS_AT, Kind, MAX_COLUMNS, MAX_KIND, MAX_ROWS, RECORD_SIZE, ROWS_AT};
use words::get16;

// MODEL 3.2: how many rows a device has, and the kind byte of each column.
#[derive(Clone, Copy)]
pub struct Device<'a> {
    pub rows: u32,
    pub kinds: &'a [u8],
    ghost whole: { device_ok (record { rows = rows; kinds = kinds.now }) ≡ true },
}

// Whether a device has as many rows. With the bound as a parameter, here and at the columns, nothing but `contains` would be left.
fn rows_ok(rows: u32) -> bool
    ensures { result ≡ (leb 1 rows && leb rows max_rows) }
{
    (1..=MAX_ROWS).contains(&rows)
}

// Whether a device has as many columns.
fn columns_ok(columns: usize) -> bool
    ensures { result ≡ (leb 1 columns && leb columns max_columns) }
{
    (1..=MAX_COLUMNS).contains(&columns)
}

// Whether each is a kind byte. By the bytes: a Kind of each would be made and dropped.
fn kinds_ok(kinds: &[u8]) -> bool
    ensures { result ≡ list_all (λ k. leb k max_kind) kinds.now }
{
    kinds.iter().all(|kind| *kind <= MAX_KIND)
}

// Whether there is a device of these rows and kinds.
#[tactic(auto, using(crate::specs::Laws::Device::all_listed), unfolding(model::specs::Columns::device_ok, model::specs::Columns::columns))]
pub fn device_ok(rows: u32, kinds: &[u8]) -> bool
    ensures { result ≡ device_ok (record { rows = rows; kinds = kinds.now }) }
{
    rows_ok(rows) && columns_ok(kinds.len()) && kinds_ok(kinds)
}

impl<'a> Device<'a> {
    ghost use Rattle.record.specs.Device.{as_device};

    // Rows and kinds as a device's, where they are one's.
    pub fn new(rows: u32, kinds: &'a [u8]) -> Option<Device<'a>>
        ensures { MatchOption result (device_ok (record { rows = rows; kinds = kinds.now }) ≡ false) (λ d. as_device d ≡ record { rows = rows; kinds = kinds.now }) }
    {
        if !device_ok(rows, kinds) {
            return None;
        }
        Some(Device { rows, kinds })
    }

    // MODEL 8.7: the device that the bytes of a record say, where they say one.
    #[tactic(auto, using(crate::specs::Laws::Device::device_said))]
    pub fn said(record: &'a [u8; RECORD_SIZE]) -> Option<Device<'a>>
        ensures { MatchOption result (device_ok (device_of «record».now) ≡ false) (λ d. as_device d ≡ device_of «record».now) }
    {
        let end = KINDS_AT + usize::from(record[COLUMNS_AT]);
        Device::new(get16(record, ROWS_AT), &record[KINDS_AT..end])
    }

    // MODEL 6.2: whether column c is one of the device and has that kind.
    #[tactic(auto, unfolding(model::specs::Columns::columns, model::specs::Columns::kind))]
    pub fn has_kind(self, c: usize, kind: Kind) -> bool
        ensures { IsTrue result ↔ ((c < columns (as_device self.entry)) × (kind_of (as_device self.entry) c ≡ number_of kind)) }
    {
        c < self.kinds.len() && self.kinds[c] == u8::from(kind) // as bytes: any byte is a kind's number or none
    }
}
