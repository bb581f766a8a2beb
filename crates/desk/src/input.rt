// The input: where its lines end, and its first three lines.
ghost use Rattle.std.specs.Prelude.{◌≡◌, ◌≤◌, ◌++◌, length, MatchOption, MatchResult};
ghost use Rattle.std.specs.Fn.{FnOnceReturnsAt};
ghost use Rattle.model.specs.Limits.{max_sheet, record_size};
ghost use Rattle.model.specs.Sheet.{device_line};
ghost use Rattle.model.specs.Program.{first, second, lines, program};
ghost use Rattle.line.specs.Print.{names_line};
ghost use Rattle.desk.specs.Fault.{shown_fault};
ghost use Rattle.desk.specs.Input.{Parts, Opened, Refuses, Names, Begun, Leads};

use crate::MAX_SHEET;
use crate::fault::Fault;

// MODEL 17.1: the first line of some bytes, without its newline, and the bytes after it; nothing where there are no bytes.
pub(crate) fn next_line(input: &[u8]) -> Option<(&[u8], &[u8])>
    ensures { MatchOption result (length input.now ≡ 0) (λ p. Parts input.now p.0.now p.1.now) }
{
    if input.is_empty() {
        return None;
    }
    let end = input
        .iter()
        .position(|byte| *byte == b'\n')
        .unwrap_or(input.len());
    let next = input.len().min(end + 1);
    Some((&input[..end], &input[next..]))
}

// The line of a number, and the bytes after it.
fn line(input: &[u8], number: u32) -> Result<(&[u8], &[u8]), Fault>
    ensures { MatchResult result (λ p. Parts input.now p.0.now p.1.now) (λ f. (f ≡ Fault.Malformed number) × (length input.now ≡ 0)) }
{
    next_line(input).ok_or(Fault::Malformed(number))
}

// The card of the second line: new judges its device. The card is lent down to here: handed back, its 29,188 bytes would be moved at each return.
#[tactic(auto, using(crate::specs::Laws::Input::refuses_none))]
fn new_card(line: &[u8], card: &mut [u8]) -> Result<(), Fault>
    requires { length card.old ≡ record_size }
    ensures { MatchResult result (λ _. Opened (device_line line.now) card.new) (Refuses (device_line line.now)) }
{
    let device = line::device::device_line(line).ok_or(Fault::Malformed(2))?;
    card::new(card, device.rows, device.kinds.as_slice())?;
    Ok(())
}

// A line of names, by its number and by what tells them. The answer is the input after it.
#[tactic(auto, unfolding(crate::specs::Input::Names))]
fn names<F: FnOnce(&[u8]) -> bool>(input: &[u8], number: u32, are_names: F) -> Result<&[u8], Fault>
    requires { F.IsAlwaysCallable are_names }
    ensures { Names (FnOnceReturnsAt F.FnOnce are_names) number input.now result }
{
    let (names, rest) = line(input, number)?;
    if !are_names(names) {
        return Err(Fault::Malformed(number));
    }
    Ok(rest)
}

// The second line, and the third. The card is that of the second line.
#[tactic(auto, using(crate::specs::Laws::Input::second_none))]
fn second<'a>(input: &'a [u8], card: &mut [u8]) -> Result<&'a [u8], Fault>
    requires { length card.old ≡ record_size }
    ensures { Leads input.now card.new (second (lines input.now)) result }
{
    let (device, rest) = line(input, 2)?;
    new_card(device, card)?;
    names(rest, 3, line::device::is_second_names)
}

// The first line, and the second and the third.
fn first<'a>(input: &'a [u8], card: &mut [u8]) -> Result<&'a [u8], Fault>
    requires { length card.old ≡ record_size }
    ensures { Leads input.now card.new (first (lines input.now)) result }
{
    second(names(input, 1, line::device::is_first_names)?, card)
}

// MODEL 18.2: the first three lines of an input that is not too long.
#[tactic(auto, using(crate::specs::Laws::Program::program_long, crate::specs::Laws::Program::program_short))]
pub(crate) fn begin<'a>(input: &'a [u8], card: &mut [u8]) -> Result<&'a [u8], Fault>
    requires { length card.old ≡ record_size }
    ensures { MatchResult result (λ r. Begun card.new (first (lines input.now)) r.now × (length r.now ≤ length input.now) × (length input.now ≤ max_sheet)) (λ f. program input.now ≡ names_line ++ shown_fault f) }
{
    if MAX_SHEET < input.len() {
        return Err(Fault::TooLong);
    }
    first(input, card)
}
