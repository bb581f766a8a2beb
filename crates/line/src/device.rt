// MODEL 17.6: lines 1 to 3 of a sheet, two lines of names and the line of rows and kinds between them.
ghost use Rattle.std.specs.Prelude.{◌≡◌, ◌≤◌, length};
ghost use Rattle.model.specs.Limits.{max_line};
ghost use Rattle.model.specs.Sheet.{first_names, second_names, kinds_field, device_line};
ghost use Rattle.words.specs.Words.{Same};
ghost use Rattle.line.specs.Device.{items_said, Reads};

use crate::MAX_LINE;
use crate::fields::{kind, number};
use arrayvec::ArrayVec;

// MODEL 17.9: the device of a line: its rows, and the numbers of its columns' kinds (MODEL 3.3), as new takes them.
#[derive(Drop)]
pub struct DeviceLine {
    pub rows: u32,
    pub kinds: ArrayVec<u8, MAX_LINE>,
}

// MODEL 17.6: whether a line is line 1's names. This and the next differ in their text alone: with it as a parameter, nothing but `==` is left.
pub fn is_first_names(line: &[u8]) -> bool
    ensures { Same line.now first_names result }
{
    line == b"rows kinds".as_slice()
}

// MODEL 17.6: whether a line is line 3's names.
pub fn is_second_names(line: &[u8]) -> bool
    ensures { Same line.now second_names result }
{
    line == b"call task column kind bottom top".as_slice()
}

// MODEL 17.7: the kinds of a field: one letter or more, each the letter of a kind. A loop and no `collect`, which would need the heap, and of which std
// does not say where it fails.
#[tactic(auto, using(crate::specs::Laws::Device::letters), unfolding(model::specs::Sheet::kind_letters))]
fn kinds(field: &[u8]) -> Option<ArrayVec<u8, MAX_LINE>>
    requires { length field.now ≤ max_line }
    ensures { items_said result ≡ kinds_field field.now }
{
    if field.is_empty() {
        return None;
    }
    let mut kinds = ArrayVec::new();
    for letter in field {
        kinds.push(u8::from(kind(*letter)?));
    }
    Some(kinds)
}

// MODEL 17.7 and 17.9: the device of a line of two fields. A malformed line has none.
#[tactic(auto, using(crate::specs::Laws::Device::with_number, crate::specs::Laws::Device::device_long))]
pub fn device_line(line: &[u8]) -> Option<DeviceLine>
    ensures { Reads (device_line line.now) result }
{
    if MAX_LINE < line.len() {
        return None;
    }
    let mut fields = line.split(|byte| *byte == b' ');
    let Some(rows) = fields.next().and_then(number::<u16>) else {
        return None;
    };
    let Some(kinds) = fields.next().and_then(kinds) else {
        return None;
    };
    fields.next().is_none().then_some(DeviceLine {
        rows: u32::from(rows),
        kinds,
    })
}
