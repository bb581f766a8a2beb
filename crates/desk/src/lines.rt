// A line from the fourth on.
ghost use Rattle.std.specs.Prelude.{◌≡◌, ◌≤◌, pos, length};
ghost use Rattle.model.specs.Limits.{list_room};
ghost use Rattle.model.specs.Calls.{choose, place, release};
ghost use Rattle.model.specs.OnRecord.{on_record};
ghost use Rattle.model.specs.Program.{on_call, on_line};
ghost use Rattle.card.specs.Answers.{answer_by, position_of};
ghost use Rattle.card.specs.Leaves.{Changes};
ghost use Rattle.line.specs.Calls.{call_said};
ghost use Rattle.desk.specs.Buffer.{filled, room, IsText, SameLent};
ghost use Rattle.desk.specs.Desk.{output_room, Leaves};
ghost use Rattle.desk.specs.Held.{desk_in, SameHeld};

use crate::LentDesk;
use crate::buffer::Buffer;
use crate::fault::Fault;
use crate::output::{say, say_fault};
use card::{Chosen, Refusal, answer};
use line::call::Call;

impl LentDesk<'_> {
    // C: the best position of the draft.
    fn choose(&self) -> Result<Chosen, Refusal>
        ensures { Changes (on_record self.now.card.now (choose (filled self.now.draft.bytes))) (answer_by position_of result) self.now.card.now }
    {
        card::choose(self.card, self.draft.as_slice())
    }

    // P: the draft is placed. Column and bottom stand apart in the call, and go apart to card, as C gives them: a position here would be made to be parted.
    fn place(&mut self, task: u16, column: u8, bottom: i16) -> Result<(), Refusal>
        ensures answers { Changes (on_record self.old.card.now (place (filled self.old.draft.bytes) task column bottom)) (answer_by (λ _. pos 0) result) self.new.card.now }
        ensures same_draft { filled self.new.draft.bytes ≡ filled self.old.draft.bytes }
        ensures same_held { SameHeld self.old self.new }
    {
        let draft = &self.draft;
        card::place(
            self.card,
            draft.as_slice(),
            u32::from(task),
            u32::from(column),
            i32::from(bottom),
        )
    }

    // R: a task is released.
    fn release(&mut self, task: u16) -> Result<(), Refusal>
        ensures answers { Changes (on_record self.old.card.now (release task)) (answer_by (λ _. pos 0) result) self.new.card.now }
        ensures same_draft { filled self.new.draft.bytes ≡ filled self.old.draft.bytes }
        ensures same_held { SameHeld self.old self.new }
    {
        card::release(self.card, u32::from(task))
    }

    // What a call does to the desk, and prints. `number` and `out` go together to all that prints; a struct of both would be made anew for each line.
    // A call that answers no value prints 0: `()` has no `Into<i32>`.
    fn on_call(&mut self, number: u32, call: Call, listing: &mut [u8], out: &mut Buffer)
        requires lists { length listing.old ≡ list_room }
        requires has_room { output_room ≤ room out.old }
        requires empty { out.old.len ≡ 0 }
        ensures leaves { Leaves (on_call number (desk_in self.old) (call_said call)) self.new.card.now (filled self.new.draft.bytes) (filled out.new) }
        ensures text { IsText out.old → IsText out.new }
        ensures same_lent { SameLent out.old out.new }
        ensures same_held { SameHeld self.old self.new }
    {
        match call {
            Call::Block(block) => {
                if let Err(refusal) = self.draft.add(block) {
                    say(out, number, i32::from(refusal));
                }
            }
            Call::Empty => self.draft.clear(),
            Call::List => self.list(number, listing, out),
            Call::Choose => say(out, number, answer(self.choose())),
            Call::Place {
                task,
                column,
                bottom,
            } => say(
                out,
                number,
                answer(self.place(task, column, bottom).map(|()| 0)),
            ),
            Call::Release { task } => say(out, number, answer(self.release(task).map(|()| 0))),
        }
    }

    // One line, without its newline.
    pub(crate) fn on_line(&mut self, number: u32, line: &[u8], listing: &mut [u8], out: &mut Buffer)
        requires lists { length listing.old ≡ list_room }
        requires has_room { output_room ≤ room out.old }
        ensures leaves { Leaves (on_line number (desk_in self.old) line.now) self.new.card.now (filled self.new.draft.bytes) (filled out.new) }
        ensures text { IsText out.new }
        ensures same_lent { SameLent out.old out.new }
        ensures same_held { SameHeld self.old self.new }
    {
        out.clear();
        match line::call::read(line) {
            Some(call) => self.on_call(number, call, listing, out),
            None => say_fault(out, Fault::Malformed(number)),
        }
    }
}
