// MODEL 17.3 to 17.7: what a field of a line says. A line is parted into its fields by `split`.
ghost use Rattle.std.specs.Prelude.{◌≡◌};
ghost use Rattle.model.specs.Sheet.{kind_letter};
ghost use Rattle.line.specs.Fields.{one_byte, number_said, Narrowed, kind_said};

use itoa::Buffer;
use model::Kind;
use std::str;

// The byte of a field that is one.
pub fn byte(field: &[u8]) -> Option<u8>
    ensures { result ≡ one_byte field.now }
{
    match field {
        [byte] => Some(*byte),
        _ => None,
    }
}

// MODEL 17.5: the number that a field says, if its type has it. A number has one form, that in which it is printed: `parse` alone would
// take a plus sign and zeros in front too.
#[tactic(auto, using(crate::specs::Laws::Reading::no_text, crate::specs::Laws::Reading::no_number))]
pub fn number<T: TryFrom<i32>>(field: &[u8]) -> Option<T>
where
    T::Error: Drop,
    ensures { Narrowed T.try_from_gives (number_said field.now) result }
{
    let number: i32 = str::from_utf8(field).ok()?.parse().ok()?;
    if Buffer::new().format(number).as_bytes() != field {
        return None;
    }
    T::try_from(number).ok()
}

// MODEL 17.7: the kind of a letter. A function and no `TryFrom<u8>`: that of `Kind` takes a kind's number (MODEL 3.3).
#[tactic(auto, unfolding(model::specs::Sheet::kind_letter))]
pub fn kind(letter: u8) -> Option<Kind>
    ensures { kind_said result ≡ kind_letter letter }
{
    match letter {
        b'C' => Some(Kind::C),
        b'B' => Some(Kind::B),
        b'D' => Some(Kind::D),
        _ => None,
    }
}
