// MODEL 18.1, 18.3 and 18.4: the names and the lines of output, as text.
ghost use Rattle.std.specs.Prelude.{◌≡◌, ◌∷◌, [], ◌++◌, ◌+◌, ◌≤◌, ◌<◌};
ghost use Rattle.arrayvec.specs.ArrayString.{array_string_len};
ghost use Rattle.model.specs.Sheet.{output_line};
ghost use Rattle.line.specs.Print.{line_room, names_line};

use crate::LINE_ROOM;
use arrayvec::ArrayString;
use itoa::{Buffer, Integer};

// MODEL 18.3: a line of output, by its six numbers.
#[derive(Clone, Copy, Debug, PartialEq, Eq)]
pub struct OutputLine {
    pub line: u32,
    pub answer: i32,
    pub column: u32,
    pub first: u32,
    pub step: u32,
    pub last: u32,
}

// A number, and the byte after it. Not by `write!`: a line cannot fail, and no clause says when a `write!` succeeds.
fn push_number<I: Integer>(text: &mut ArrayString<LINE_ROOM>, number: I, after: char)
    requires ascii { after < 128 }
    requires room { array_string_len text.old + I.MAX_STR_LEN + 1 ≤ line_room }
    ensures bytes { text.new.bytes ≡ text.old.bytes ++ I.text number ++ after ∷ [] }
    ensures grows { array_string_len text.new ≤ array_string_len text.old + I.MAX_STR_LEN + 1 }
{
    text.push_str(Buffer::new().format(number));
    text.push(after);
}

impl OutputLine {
    // The line as text, with its newline.
    #[tactic(auto, using(crate::specs::Laws::Print::line_decimal))]
    pub fn text(self) -> ArrayString<LINE_ROOM>
        ensures text { result.bytes ≡ output_line self.line self.answer self.column self.first self.step self.last }
        ensures fits { array_string_len result ≤ line_room }
    {
        let mut text = ArrayString::new();
        push_number(&mut text, self.line, ' ');
        push_number(&mut text, self.answer, ' ');
        push_number(&mut text, self.column, ' ');
        push_number(&mut text, self.first, ' ');
        push_number(&mut text, self.step, ' ');
        push_number(&mut text, self.last, '\n');
        text
    }
}

// MODEL 18.1: the names of the output, with their newline. A function and no `const`, so that a contract says what they are.
pub fn names() -> &'static str
    ensures { result.now ≡ names_line }
{
    "line answer column first step last\n"
}
