// MODEL 9.1: bytes that are a sound record, as a type: who has one need not check it again. Crate `soundness` makes one of bytes that it has checked.
ghost use Rattle.std.specs.Prelude.{◌≡◌, true, ◌≤◌, ◌<◌};
ghost use Rattle.model.specs.Limits.{max_columns};
ghost use Rattle.model.specs.Columns.{columns, kind};
ghost use Rattle.model.specs.Kinds.{number_of};
ghost use Rattle.model.specs.Record.{device_of};
ghost use Rattle.model.specs.Sound.{sound, count_of};
ghost use Rattle.column.specs.Laws.Lent.{lent};

use crate::bytes::part_at;
use crate::device::Device;
use column::Column;
use model::{COLUMNS_AT, COUNTS_AT, KINDS_AT, Kind, ROWS_AT};
use words::get16;

#[derive(Clone, Copy)]
pub struct SoundRecord<'a> {
    pub bytes: &'a [u8],
    ghost sound: { sound bytes.now ≡ true },
}

impl<'a> SoundRecord<'a> {
    ghost use Rattle.record.specs.Device.{as_device};

    // MODEL 3.2: its device.
    #[tactic(auto, using(model::proofs::Laws::Sound::sound_length, crate::specs::Laws::Device::device_said, crate::specs::Laws::Checked::device_whole))]
    pub fn device(self) -> Device<'a>
        ensures { as_device result ≡ device_of self.entry.bytes.now }
    {
        let bytes = self.bytes;
        let end = KINDS_AT + self.columns();
        Device {
            rows: get16(bytes, ROWS_AT),
            kinds: &bytes[KINDS_AT..end],
        }
    }

    // MODEL 3.2: how many columns the device has.
    #[tactic(auto, using(model::proofs::Laws::Sound::sound_length, model::proofs::Laws::Sound::columns_said, crate::specs::Laws::Fits::few_columns))]
    pub fn columns(self) -> usize
        ensures count { result ≡ columns (device_of self.entry.bytes.now) }
        ensures few { result ≤ max_columns }
    {
        usize::from(self.bytes[COLUMNS_AT])
    }

    // MODEL 3.3: the kind of column c.
    #[tactic(auto, using(model::proofs::Laws::Sound::sound_length, crate::specs::Laws::Checked::columns_few, crate::specs::Laws::Checked::kind_byte, crate::specs::Laws::Checked::kind_small, crate::specs::Laws::Checked::known_byte, model::proofs::Laws::Kinds::kind_known))]
    pub fn kind(self, c: usize) -> Kind
        requires { c < columns (device_of self.bytes.now) }
        ensures { number_of result ≡ kind (device_of self.entry.bytes.now) c }
    {
        Kind::try_from(self.bytes[KINDS_AT + c]).unwrap()
    }

    // MODEL 8.3: the part and the count of column c.
    #[tactic(auto, using(model::proofs::Laws::Sound::sound_length, crate::specs::Laws::Checked::column_lent))]
    pub fn column(self, c: usize) -> Column<'a>
        requires { c < max_columns }
        ensures part { result.part.now ≡ lent self.entry.bytes.now c }
        ensures count { result.count ≡ count_of self.entry.bytes.now c }
    {
        Column {
            part: &self.bytes[part_at(c)],
            count: usize::from(self.bytes[COUNTS_AT + c]),
        }
    }
}
