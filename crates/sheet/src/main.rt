// The sheet: reads standard input, has `desk` make one turn after the other, and writes what each prints to standard output.
// A read or a write that fails is told on standard error; then `./sheet` ends with status 1.
#![tactic(auto)]

ghost use Rattle.std.specs.Prelude.{length, ◌≤◌, IfOk};

use desk::{Buffer, LentDesk, LentDraft};
use std::io;
use std::io::{Eprint, Print, Read};

// One read. At the end of the input no byte comes, and that is well; a read that fails or is interrupted is an error.
fn read_some<R: Read>(from: &mut R, room: &mut [u8]) -> io::Result<usize>
    ensures { IfOk result (λ n. n ≤ length room.new) }
{
    from.read(room)
}

// Reads until the input ends or the room is full. A read that fails is an error: an input that is cut short is not the input.
// The count is by hand, as std's `read_to_end` wants a Vec, and the sheet has fixed memory.
fn read<R: Read>(from: &mut R, input: &mut [u8]) -> io::Result<usize>
    ensures { IfOk result (λ n. n ≤ length input.new) }
{
    let mut n = 0;
    while n < input.len() {
        let count = read_some(from, &mut input[n..])?;
        if count == 0 {
            return Ok(n);
        }
        n += count;
    }
    Ok(n)
}

// Writes what was printed, all of it or with an error. In its caller's frame, since it is called where the stack is largest.
#[inline]
fn write<P: Print>(to: &P, out: &Buffer) -> io::Result<()> {
    to.write_all(out.as_slice())
}

// The program on an input: its start, and its turns. It ends where what they printed could not be written.
// What they are lent stands here once, on the stack.
fn run<P: Print>(to: &P, input: &[u8]) -> io::Result<()> {
    let mut card = [0u8; model::RECORD_SIZE];
    let mut draft = [0u8; desk::DRAFT_ROOM];
    let mut listing = [0u8; model::LIST_ROOM];
    let mut printed = [0u8; desk::OUTPUT_ROOM];
    let mut out = Buffer::new(&mut printed);
    let begun = desk::program::start_in(input, &mut card, &mut out);
    write(to, &out)?;
    let Some(first) = begun else {
        return Ok(());
    };
    let mut desk = LentDesk {
        card: &mut card,
        draft: LentDraft::new(&mut draft),
    };
    let mut stand = Some(first);
    while let Some(at) = stand {
        stand = desk.turn(at, &mut listing, &mut out);
        write(to, &out)?;
    }
    Ok(())
}

// The system's text of a fault, without the number behind it.
fn reason(text: &str) -> &str {
    text.split_once(" (os error ")
        .map_or(text, |(before, _)| before)
}

// Tells which end failed and why, as `sheet: standard input: Is a directory`.
fn tell<R: Eprint + AllocGlobal>(rt: &R, end: &str, fault: io::Error) -> io::Result<()> {
    let text = format!(in rt.alloc(); "{fault}")?;
    eprintln!(rt; "sheet: {end}: {}", reason(text.as_str()))
}

fn main(rt: HostRuntime) -> io::Result<()> {
    let mut input = [0u8; desk::INPUT_ROOM];
    match read(&mut rt.stdin(), &mut input) {
        Err(fault) => tell(&rt, "standard input", fault),
        Ok(n) => match run(&rt, &input[..n]) {
            Err(fault) => tell(&rt, "standard output", fault),
            Ok(()) => Ok(()),
        },
    }
}
