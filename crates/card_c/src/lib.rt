// MODEL 16.4: the calls of `card` in the C calling form, for the match server: an answer crosses as its number (MODEL 12.1 and 13.1).
// A call that answers no value answers 0: `()` has no `Into<i32>`.
// A slice crosses as a pointer and a length. What is linked is target/staticlib/libcard.a; host/card.h declares these functions.
#![tactic(auto)]

ghost use Rattle.std.specs.Prelude.{[]};
ghost use Rattle.model.specs.Calls.{list, choose, place, release};
ghost use Rattle.model.specs.OnRecord.{on_record, new, interval_count, fragmentation};
ghost use Rattle.card.specs.Leaves.{Leaves, Changes, Tells};

use card::answer;

// MODEL 12.3: writes the record of a device with all cells free.
#[unsafe(no_mangle)]
pub extern "C" fn card_new(record: &mut [u8], rows: u32, kinds: &[u8]) -> i32
    ensures { Changes (new «record».old rows kinds.now) result «record».new }
{
    answer(card::new(record, rows, kinds).map(|()| 0))
}

// MODEL 12.4: enters a task as running and takes its cells.
#[unsafe(no_mangle)]
pub extern "C" fn card_place(
    record: &mut [u8],
    task: &[u8],
    number: u32,
    column: u32,
    bottom: i32,
) -> i32
    ensures { Changes (on_record «record».old (place task.now number column bottom)) result «record».new }
{
    answer(card::place(record, task, number, column, bottom).map(|()| 0))
}

// MODEL 12.5: frees the cells of a running task and removes its entry.
#[unsafe(no_mangle)]
pub extern "C" fn card_release(record: &mut [u8], number: u32) -> i32
    ensures { Changes (on_record «record».old (release number)) result «record».new }
{
    answer(card::release(record, number).map(|()| 0))
}

// MODEL 12.6: writes the ranges of the positions at which a task fits.
#[unsafe(no_mangle)]
pub extern "C" fn card_list(record: &[u8], task: &[u8], output: &mut [u8]) -> i32
    ensures { Leaves (on_record «record».now (list task.now output.old)) result «record».now output.new }
{
    answer(card::list(record, task, output))
}

// MODEL 11.6: the choice for a task, as 1,024 × column + bottom.
#[unsafe(no_mangle)]
pub extern "C" fn card_choose(record: &[u8], task: &[u8]) -> i32
    ensures { Leaves (on_record «record».now (choose task.now)) result «record».now [] }
{
    answer(card::choose(record, task))
}

// MODEL 16.1: the number of free intervals of a column.
#[unsafe(no_mangle)]
pub extern "C" fn card_interval_count(record: &[u8], column: u32) -> i32
    ensures { Leaves (interval_count «record».now column) result «record».now [] }
{
    answer(card::interval_count(record, column))
}

// MODEL 22.5: how broken up a card is. The answer is the number of connected sets; the free cells and the degree are written, as zeros if refused.
#[unsafe(no_mangle)]
pub extern "C" fn card_fragmentation(record: &[u8], free: &mut i32, degree: &mut i32) -> i32
    ensures { Tells (fragmentation «record».now) result free.new degree.new «record».now }
{
    let broken = card::fragmentation(record);
    let numbers = broken.unwrap_or_default();
    *free = numbers.free.cast_signed();
    *degree = numbers.degree.cast_signed();
    answer(broken.map(|numbers| numbers.sets.cast_signed()))
}
