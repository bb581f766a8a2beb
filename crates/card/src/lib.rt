// MODEL 12, 13, 16 and 22: the calls on one card's record, for the match server. `card_c` gives all but the view the C calling form (MODEL 16.4).
// Each contract fixes the answer, by its number, and every lent byte by the model's call on these bytes (model/specs/OnRecord.antt), refused or not (MODEL 21.1).
// In a contract `.old` is what lies behind a `&mut` as the call starts, and `.new` as it returns. What is lent as `&` is kept by its type.
// `on_record` is also the step of the theorem about whole histories (model/proofs/Laws/History.antt).
#![tactic(auto)]

ghost use Rattle.std.specs.Prelude.{◌≡◌, ◌<◌, not, ◌||◌, ◌^◌, [], pos, IfOk, MatchResult};
ghost use Rattle.model.specs.Limits.{column_weight};
ghost use Rattle.model.specs.Record.{device_of, book_of};
ghost use Rattle.model.specs.Sound.{number_ok};
ghost use Rattle.model.specs.Calls.{list, choose, place, release, runs_in};
ghost use Rattle.model.specs.OnRecord.{on_record, new, interval_count, view, fragmentation};
ghost use Rattle.card.specs.Refusals.{of_record, of_task};
ghost use Rattle.card.specs.Leaves.{Leaves, Changes, Tells};
ghost use Rattle.card.specs.Checks.{RefusesRecord, RefusesTask, Refused, Uncounted, Lists, FindsFit, Placing, Releasing};
ghost use Rattle.card.specs.Answers.{answer_by, number_by, position_of};

mod refusal; // the table of refusals
mod answers; // what calls answer, and an answer as its number

pub use answers::{Chosen, Fragmentation, answer};
use column::Column;
use record::bytes::Entry;
use record::checked::SoundRecord;
use record::device::Device;
pub use refusal::Refusal;
use soundness::RecordFault;
use task::{Position, Task, TaskFault};

// MODEL 13.1, −1 and −2: bytes that are no sound record.
impl From<RecordFault> for Refusal {
    ghost from_gives = { λ fault refusal. refusal ≡ of_record fault };

    fn from(fault: RecordFault) -> Refusal {
        match fault {
            RecordFault::Length => Refusal::RecordLength,
            RecordFault::NotSound => Refusal::RecordNotSound,
        }
    }
}

// MODEL 13.1: the refusals of all calls but new, −1 and −2.
fn check_record(record: &[u8]) -> Result<SoundRecord, Refusal>
    ensures { MatchResult result (λ r. r.bytes.now ≡ «record».now) (RefusesRecord «record».now) }
{
    Ok(soundness::read(record)?)
}

// MODEL 13.1, −4 and −5: bytes that are no task.
impl From<TaskFault> for Refusal {
    ghost from_gives = { λ fault refusal. refusal ≡ of_task fault };

    fn from(fault: TaskFault) -> Refusal {
        match fault {
            TaskFault::Length => Refusal::TaskLength,
            TaskFault::Form => Refusal::TaskNotWellFormed,
        }
    }
}

// Record and task come apart from C, and each search adds to them what it goes on with: a struct of the two alone would be taken apart by each.
// MODEL 13.1: the refusals that list, choose and place share, −1, −2, −4 and −5.
fn check_task<'a, 'b>(
    record: &'a [u8],
    task: &'b [u8],
) -> Result<(SoundRecord<'a>, Task<'b>), Refusal>
    ensures { MatchResult result (λ p. (p.0.bytes.now ≡ «record».now) × (p.1.bytes.now ≡ task.now)) (RefusesTask «record».now task.now) }
{
    Ok((check_record(record)?, Task::read(task)?))
}

// MODEL 5.1: whether a number is one of a task.
fn number_ok(number: u32) -> bool
    ensures { result ≡ number_ok number }
{
    1 <= number && number <= model::MAX_NUMBER
}

// MODEL 13.1, −7: whether a number is none of a task, or runs already.
fn bad_number(record: SoundRecord, number: u32) -> bool
    ensures { result ≡ (not (number_ok number) || runs_in (book_of «record».entry.bytes.now) number) }
{
    !number_ok(number) || record.find(number).is_some()
}

// MODEL 12.3: writes the record of a device with all cells free.
pub fn new(record: &mut [u8], rows: u32, kinds: &[u8]) -> Result<(), Refusal>
    ensures { Changes (new «record».old rows kinds.now) (answer_by (λ _. pos 0) result) «record».new }
{
    let Some(record) = record.as_mut_array() else {
        return Err(Refusal::RecordLength);
    };
    let Some(device) = Device::new(rows, kinds) else {
        return Err(Refusal::DeviceOrColumn);
    };
    record::clear::clear(record, device);
    Ok(())
}

// MODEL 6.6: the position of a column and a bottom, where a task fits there. They may be any numbers, and lie off the device.
fn fitting(record: SoundRecord, task: Task, column: u32, bottom: i32) -> Option<Position>
    ensures { FindsFit (device_of «record».entry.bytes.now) (book_of «record».entry.bytes.now) task.entry.bytes.now column bottom result }
{
    let at = Position {
        column: column as usize, // `as`: a usize is wider, and std has no From for it
        bottom: u32::try_from(bottom).ok()?,
    };
    record.fits(task, at).then_some(at)
}

// All refusals of place, and what enters the record where there is none.
fn check_place<'a>(
    record: &[u8],
    task: &'a [u8],
    number: u32,
    column: u32,
    bottom: i32,
) -> Result<Entry<'a>, Refusal>
    ensures { MatchResult result (Placing «record».now task.now number column bottom) (Refused «record».now (place task.now number column bottom)) }
{
    let (record, task) = check_task(record, task)?;
    if bad_number(record, number) {
        return Err(Refusal::BadNumber);
    }
    if model::MAX_RUNNING <= record.running() {
        return Err(Refusal::Full);
    }
    match fitting(record, task, column, bottom) {
        Some(at) => Ok(Entry { number, at, task }),
        None => Err(Refusal::Misfit),
    }
}

// MODEL 12.4: enters a task as running at a position, and takes its cells.
pub fn place(
    record: &mut [u8],
    task: &[u8],
    number: u32,
    column: u32,
    bottom: i32,
) -> Result<(), Refusal>
    ensures { Changes (on_record «record».old (place task.now number column bottom)) (answer_by (λ _. pos 0) result) «record».new }
{
    let new = check_place(record, task, number, column, bottom)?;
    record::enter::enter(record, new);
    Ok(())
}

// All refusals of release.
fn check_release(record: &[u8], number: u32) -> Result<(), Refusal>
    ensures { MatchResult result (λ _. Releasing «record».now number) (Refused «record».now (release number)) }
{
    if check_record(record)?.find(number).is_none() {
        return Err(Refusal::NotRunning);
    }
    Ok(())
}

// MODEL 12.5: frees the cells of a running task and removes its entry.
pub fn release(record: &mut [u8], number: u32) -> Result<(), Refusal>
    ensures { Changes (on_record «record».old (release number)) (answer_by (λ _. pos 0) result) «record».new }
{
    check_release(record, number)?;
    record::leave::leave(record, number);
    Ok(())
}

// MODEL 12.6: writes the ranges of the positions at which a task fits, and answers how many they are.
pub fn list(record: &[u8], task: &[u8], output: &mut [u8]) -> Result<u16, Refusal>
    ensures { Leaves (on_record «record».now (list task.now output.old)) (answer_by pos result) «record».now output.new }
{
    let (record, task) = check_task(record, task)?;
    if output.len() < model::LIST_ROOM {
        return Err(Refusal::OutputShort);
    }
    listing::output::list(record, task, output).ok_or(Refusal::NoPosition)
}

// MODEL 11.6: the choice for a task. Its bottom is below 1,024, so that its number fixes the column and the bottom.
pub fn choose(record: &[u8], task: &[u8]) -> Result<Chosen, Refusal>
    ensures chosen { Leaves (on_record «record».now (choose task.now)) (answer_by position_of result) «record».now [] }
    ensures below { IfOk result (λ at. at.bottom < column_weight) }
{
    let (record, task) = check_task(record, task)?;
    let Some(best) = choice::best_position(record, task) else {
        return Err(Refusal::NoPosition);
    };
    // `as`: a position where a task fits is on the device, which has 64 columns at most and 256 half rows
    Ok(Chosen {
        column: best.position.column as u8,
        bottom: best.position.bottom as u16,
    })
}

// All refusals of the interval count, and the column where there is none.
fn check_column(record: &[u8], column: u32) -> Result<Column, Refusal>
    ensures { MatchResult result (Lists «record».now column) (Uncounted «record».now column) }
{
    let record = check_record(record)?;
    let column = column as usize; // `as`: a usize is wider, and std has no From for it
    if column < record.columns() {
        Ok(record.column(column))
    } else {
        Err(Refusal::DeviceOrColumn)
    }
}

// MODEL 16.1: the number of free intervals of a column.
pub fn interval_count(record: &[u8], column: u32) -> Result<u8, Refusal>
    ensures { Leaves (interval_count «record».now column) (answer_by pos result) «record».now [] }
{
    let listed = check_column(record, column)?;
    Ok(listed.count as u8) // `as`: a column has 64 intervals at most
}

// MODEL 22.5: how broken up a card is.
pub fn fragmentation(record: &[u8]) -> Result<Fragmentation, Refusal>
    ensures tells { Tells (fragmentation «record».now) (answer_by (λ f. pos f.sets) result) (number_by (λ f. f.free) result) (number_by (λ f. f.degree) result) «record».now }
    ensures small { IfOk result (λ f. (f.sets < 2 ^ 31) × (f.free < 2 ^ 31) × (f.degree < 2 ^ 31)) }
{
    let record = check_record(record)?;
    let sets = fragments::connected::count_sets(record);
    let free = fragments::free::count_free(record);
    Ok(Fragmentation {
        sets,
        free,
        degree: fragments::free::degree_of(sets, free),
    })
}

// MODEL 16.2 and 16.3: a column's free intervals, as a piece of the record; empty where the interval count is a refusal.
pub fn view(record: &[u8], column: u32) -> &[u8]
    ensures { result.now ≡ view «record».now column }
{
    let Ok(listed) = check_column(record, column) else {
        return &record[..0];
    };
    &listed.part[..model::INTERVAL_SIZE * listed.count]
}
