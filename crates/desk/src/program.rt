// The program, turn by turn: its start, and one turn.
// That a start and the turns after it print the model's program is `program_done` (specs/Laws/Program.antt).
ghost use Rattle.std.specs.Prelude.{◌≡◌, ◌*◌, ◌≤◌, [], None, Some, length, IfSome, MatchOption};
ghost use Rattle.model.specs.Limits.{record_size, list_room};
ghost use Rattle.model.specs.Program.{Desk as ModelDesk};
ghost use Rattle.line.specs.Print.{line_room};
ghost use Rattle.desk.specs.Buffer.{filled, room, IsText, SameLent};
ghost use Rattle.desk.specs.Desk.{output_room, desk_of, Card};
ghost use Rattle.desk.specs.Held.{desk_in, SameHeld};
ghost use Rattle.desk.specs.Run.{state, Starts, Turned};

use crate::output::say_fault;
use crate::{Buffer, DRAFT_ROOM, Desk, Draft, LentDesk, OUTPUT_ROOM, Stand, input, text};
use arrayvec::ArrayString;
use line::LINE_ROOM;
use model::{LIST_ROOM, RECORD_SIZE};

// The start: the names line, and the first three lines of an input that is not too long. The card is that of the second line, and the draft is empty.
// Where a line is at fault nothing follows.
pub fn start_in<'a>(input: &'a [u8], card: &mut [u8], out: &mut Buffer) -> Option<Stand<'a>>
    requires card { length card.old ≡ record_size }
    requires has_room { 2 * line_room ≤ room out.old }
    ensures starts { MatchOption result ((k : ModelDesk) → Starts input.now (state k None (filled out.new)))
        (λ s. Card card.new × Starts input.now (state (desk_of card.new []) (Some s) (filled out.new))) }
    ensures text { IsText out.new }
    ensures same_lent { SameLent out.old out.new }
{
    out.clear();
    out.push(line::print::names().as_bytes());
    match input::begin(input, card) {
        Ok(rest) => Stand::at(rest, 4),
        Err(fault) => {
            say_fault(out, fault);
            None
        }
    }
}

impl LentDesk<'_> {
    // One turn: the line at which the program stands.
    // A function of its own in the machine code too: else the program's frame has room for each call of a line, from its start on.
    #[inline(never)]
    pub fn turn<'a>(
        &mut self,
        stand: Stand<'a>,
        listing: &mut [u8],
        out: &mut Buffer,
    ) -> Option<Stand<'a>>
        requires lists { length listing.old ≡ list_room }
        requires has_room { output_room ≤ room out.old }
        ensures turned { Turned (desk_in self.old) stand.entry (state (desk_in self.new) result (filled out.new)) }
        ensures text { IsText out.new }
        ensures same_lent { SameLent out.old out.new }
        ensures same_held { SameHeld self.old self.new }
    {
        self.on_line(stand.number, stand.line, listing, out);
        Stand::at(stand.rest, stand.number + 1)
    }
}

// The start for a caller that hands the desk on: the desk owns its card and its draft, and what is printed is text.
pub fn start<'a, const N: usize>(
    input: &'a [u8],
    out: &mut ArrayString<N>,
) -> Option<(Desk, Stand<'a>)>
    requires { 2 * line_room ≤ N }
    ensures starts { MatchOption result ((k : ModelDesk) → Starts input.now (state k None out.new.bytes)) (λ r. Starts input.now (state (desk_of r.0.card r.0.draft.bytes.items) (Some r.1) out.new.bytes)) }
    ensures no_block { IfSome result (λ r. r.0.draft.bytes.items ≡ []) }
{
    let mut card = [0u8; RECORD_SIZE];
    let mut printed = [0u8; 2 * LINE_ROOM];
    let mut lent = Buffer::new(&mut printed);
    let begun = start_in(input, &mut card, &mut lent);
    text::put(out, lent.as_slice());
    let Some(stand) = begun else {
        return None;
    };
    let draft = Draft::new();
    Some((Desk { card, draft }, stand))
}

impl Desk {
    // Takes over the card and the draft of a lent desk.
    #[tactic(auto, using(crate::specs::Laws::Card::card_length))]
    fn keep(&mut self, lent: &LentDesk)
        ensures card { self.new.card ≡ lent.now.card.now }
        ensures draft { self.new.draft.bytes.items ≡ filled lent.now.draft.bytes }
    {
        self.card.copy_from_slice(lent.card);
        self.draft.keep(&lent.draft);
    }

    // One turn: the line at which the program stands. It is a turn of a `LentDesk` on copies: a `LentDesk` holds another struct that borrows, and of such
    // a one the checker does not say what the lender is left with. So it has room of its own for a card, a draft, a listing and the longest output.
    pub fn turn<'a, const N: usize>(
        &mut self,
        stand: Stand<'a>,
        out: &mut ArrayString<N>,
    ) -> Option<Stand<'a>>
        requires { output_room ≤ N }
        ensures { Turned (desk_of self.old.card self.old.draft.bytes.items) stand.entry (state (desk_of self.new.card self.new.draft.bytes.items) result out.new.bytes) }
    {
        let mut card = self.card;
        let mut bytes = [0u8; DRAFT_ROOM];
        let mut listing = [0u8; LIST_ROOM];
        let mut printed = [0u8; OUTPUT_ROOM];
        let mut lent = Buffer::new(&mut printed);
        let draft = self.draft.lend(&mut bytes);
        let mut desk = LentDesk {
            card: &mut card,
            draft,
        };
        let next = desk.turn(stand, &mut listing, &mut lent);
        self.keep(&desk);
        text::put(out, lent.as_slice());
        next
    }
}
