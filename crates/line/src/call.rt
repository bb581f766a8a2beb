// MODEL 17: a sheet line as one of six calls.
ghost use Rattle.std.specs.Prelude.{◌≡◌};
ghost use Rattle.model.specs.Sheet.{sheet_line};
ghost use Rattle.line.specs.Calls.{said, Says, say, read_said, six_fields, kind_unused, only_task, none_used, block_said};

use crate::MAX_LINE;
use crate::fields::{byte, kind, number};
use model::Kind;

// MODEL 17.8 and 21.5: a block of the draft, as a line gives it.
#[derive(Clone, Copy, Debug, PartialEq, Eq)]
pub struct BlockCall {
    pub column: u8,
    pub kind: Kind,
    pub bottom: i16,
    pub top: i16,
}

// MODEL 17.8: what a sheet line asks for.
#[derive(Clone, Copy, Debug, PartialEq, Eq)]
pub enum Call {
    Block(BlockCall),
    Empty,
    List,
    Choose,
    Place { task: u16, column: u8, bottom: i16 },
    Release { task: u16 },
}

// MODEL 17.7: the six fields of a sheet line. Their types have the limits of the fields.
#[derive(Clone, Copy)]
struct Fields {
    letter: u8,
    task: u16,
    column: u8,
    kind: u8,
    bottom: i16,
    top: i16,
}

impl Fields {
    // A field that is missing or at fault ends the reading (MODEL 21.5), and so does a seventh.
    fn read(line: &[u8]) -> Option<Fields>
        ensures { read_said result ≡ six_fields line.now }
    {
        let mut fields = line.split(|byte| *byte == b' ');
        let Some(letter) = fields.next().and_then(byte) else {
            return None;
        };
        let Some(task) = fields.next().and_then(number) else {
            return None;
        };
        let Some(column) = fields.next().and_then(number) else {
            return None;
        };
        let Some(kind) = fields.next().and_then(byte) else {
            return None;
        };
        let Some(bottom) = fields.next().and_then(number) else {
            return None;
        };
        let Some(top) = fields.next().and_then(number) else {
            return None;
        };
        let read = Fields {
            letter,
            task,
            column,
            kind,
            bottom,
            top,
        };
        fields.next().is_none().then_some(read)
    }

    // Whether kind and top are unused.
    #[tactic(auto, using(crate::specs::Laws::Calls::nought_bits), unfolding(model::specs::Sheet::is))]
    fn no_kind(self) -> bool
        ensures { result ≡ kind_unused self }
    {
        self.kind == b'-' && self.top == 0
    }

    // Whether all fields but the task are unused.
    #[tactic(auto, using(crate::specs::Laws::Calls::nought_bits), unfolding(model::specs::Sheet::is))]
    fn only_task(self) -> bool
        ensures { result ≡ only_task self }
    {
        self.column == 0 && self.kind == b'-' && self.bottom == 0 && self.top == 0
    }

    // Whether all fields are unused.
    fn no_field(self) -> bool
        ensures { result ≡ none_used self }
    {
        self.task == 0 && self.only_task()
    }

    // The block call: it has a kind, and no task.
    #[tactic(auto, using(crate::specs::Laws::Calls::said_provided), unfolding(crate::specs::Calls::block_said))]
    fn block(self) -> Option<Call>
        ensures { said result ≡ block_said self }
    {
        let kind = kind(self.kind)?;
        (self.task == 0).then_some(Call::Block(BlockCall {
            column: self.column,
            kind,
            bottom: self.bottom,
            top: self.top,
        }))
    }

    // MODEL 17.8: the call of the letter, if the fields that it leaves unused are unused.
    #[tactic(auto, using(crate::specs::Laws::Calls::said_provided), unfolding(model::specs::Sheet::call_of, model::specs::Sheet::is, model::specs::Sheet::kind_field, crate::specs::Calls::block_said))]
    fn call(self) -> Option<Call>
        ensures { said result ≡ say self }
    {
        match self.letter {
            b'B' => self.block(),
            b'N' => self.no_field().then_some(Call::Empty),
            b'L' => self.no_field().then_some(Call::List),
            b'C' => self.no_field().then_some(Call::Choose),
            b'P' => self.no_kind().then_some(Call::Place {
                task: self.task,
                column: self.column,
                bottom: self.bottom,
            }),
            b'R' => self
                .only_task()
                .then_some(Call::Release { task: self.task }),
            _ => None,
        }
    }
}

// MODEL 17.9: the call of a sheet line, without its newline. A malformed line has none.
#[tactic(auto, using(crate::specs::Laws::Calls::with_number, crate::specs::Laws::Calls::line_long, crate::specs::Laws::Calls::line_short))]
pub fn read(line: &[u8]) -> Option<Call>
    ensures { Says result (sheet_line line.now) }
{
    if MAX_LINE < line.len() {
        return None;
    }
    Fields::read(line)?.call()
}
