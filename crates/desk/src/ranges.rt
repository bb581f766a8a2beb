// L: a line of output for each range of the draft.
ghost use Rattle.std.specs.Prelude.{◌≡◌, pos, ◌+◌, ◌*◌, ◌≤◌, ◌++◌, length};
ghost use Rattle.model.specs.Limits.{range_size, list_room};
ghost use Rattle.model.specs.Calls.{ranges_in};
ghost use Rattle.model.specs.Sheet.{list_draft};
ghost use Rattle.model.specs.Program.{shows, on_call};
ghost use Rattle.line.specs.Print.{line_room};
ghost use Rattle.desk.specs.Buffer.{filled, room, IsText, SameLent};
ghost use Rattle.desk.specs.Desk.{output_room};
ghost use Rattle.desk.specs.Held.{desk_in};

use crate::LentDesk;
use crate::buffer::Buffer;
use crate::output::say;
use line::print::OutputLine;
use model::{RANGE_FIRST_AT, RANGE_LAST_AT, RANGE_SIZE, RANGE_STEP_AT};
use words::get16;

// The lines of output of the first `count` ranges of a listing.
fn print_ranges(listing: &[u8], count: u16, number: u32, out: &mut Buffer)
    requires listed { range_size * count ≤ length listing.now }
    requires has_room { out.old.len + line_room * count ≤ room out.old }
    ensures printed { filled out.new ≡ filled out.old ++ shows number (pos count) (ranges_in count listing.now) }
    ensures text { IsText out.old → IsText out.new }
    ensures same_lent { SameLent out.old out.new }
{
    let (ranges, _) = listing.as_chunks::<RANGE_SIZE>();
    for range in &ranges[..usize::from(count)] {
        let line = OutputLine {
            line: number,
            answer: i32::from(count),
            column: u32::from(range[0]),
            first: get16(range, RANGE_FIRST_AT),
            step: u32::from(range[RANGE_STEP_AT]),
            last: get16(range, RANGE_LAST_AT),
        };
        out.push(line.text().as_str().as_bytes());
    }
}

impl LentDesk<'_> {
    // The draft's ranges, or the refusal.
    pub(crate) fn list(&self, number: u32, listing: &mut [u8], out: &mut Buffer)
        requires lists { length listing.old ≡ list_room }
        requires has_room { output_room ≤ room out.old }
        requires empty { out.old.len ≡ 0 }
        ensures printed { filled out.new ≡ (on_call number (desk_in self.now) list_draft).printed }
        ensures text { IsText out.old → IsText out.new }
        ensures same_lent { SameLent out.old out.new }
    {
        match card::list(self.card, self.draft.as_slice(), listing) {
            Ok(count) => print_ranges(listing, count, number, out),
            Err(refusal) => say(out, number, i32::from(refusal)),
        }
    }
}
