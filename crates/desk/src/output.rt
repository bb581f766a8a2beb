// What is printed without a range: a line that has only an answer.
ghost use Rattle.std.specs.Prelude.{◌≡◌, ◌+◌, ◌≤◌, ◌++◌};
ghost use Rattle.model.specs.Program.{says};
ghost use Rattle.line.specs.Print.{line_room};
ghost use Rattle.desk.specs.Buffer.{filled, room, IsText, SameLent};
ghost use Rattle.desk.specs.Fault.{shown_fault};

use crate::buffer::Buffer;
use crate::fault::Fault;
use line::print::OutputLine;

// A line that has an answer and no range. The answer is a number here, since that is what a line of output has (MODEL 18.3).
pub(crate) fn say(out: &mut Buffer, number: u32, answer: i32)
    requires { out.old.len + line_room ≤ room out.old }
    ensures printed { filled out.new ≡ filled out.old ++ says number answer }
    ensures text { IsText out.old → IsText out.new }
    ensures same_lent { SameLent out.old out.new }
{
    let line = OutputLine {
        line: number,
        answer,
        column: 0,
        first: 0,
        step: 0,
        last: 0,
    };
    out.push(line.text().as_str().as_bytes());
}

// A line that is at fault.
pub(crate) fn say_fault(out: &mut Buffer, fault: Fault)
    requires { out.old.len + line_room ≤ room out.old }
    ensures printed { filled out.new ≡ filled out.old ++ shown_fault fault }
    ensures text { IsText out.old → IsText out.new }
    ensures same_lent { SameLent out.old out.new }
{
    say(out, fault.line(), i32::from(fault));
}
