// The blocks of a task, marked in the bits of a card's columns.
#![tactic(auto)]

ghost use Rattle.std.specs.Prelude.{◌≡◌, ◌+◌, ◌*◌, ◌<◌, true, length, replicate, MatchOption};
ghost use Rattle.model.specs.Limits.{max_columns};
ghost use Rattle.model.specs.Blocks.{Solid};
ghost use Rattle.task.specs.Blocks.{seen};
ghost use Rattle.record.specs.Device.{as_device};
ghost use Rattle.marks.specs.Marks.{column_words, all_words, words_of, OnCells, FitsNowhere, EntryPosition, BlockMarked, TaskMarked};

use cells::mark;
use model::{MAX_COLUMNS, MAX_ROWS};
use record::device::Device;
use std::ops::Range;
use task::{Block, Position, Task};

// The words of a column: a bit for each cell that it may have. And those of all columns.
pub const COLUMN_WORDS: usize = (MAX_ROWS / u64::BITS) as usize; // `as`: in a constant std has no other form

pub const ALL_WORDS: usize = COLUMN_WORDS * MAX_COLUMNS;

// The cells that are held, as the bits of all columns: one array, and a column is a part of it, as a column of a record is of its bytes.
#[derive(Drop)]
pub struct HeldCells {
    pub words: [u64; ALL_WORDS],
}

// Where the words of column c stand.
fn words_at(c: usize) -> Range<usize>
    requires { c < max_columns }
    ensures start { result.start ≡ column_words * c }
    ensures end { result.end ≡ column_words * c + column_words }
{
    let a = COLUMN_WORDS * c;
    a..a + COLUMN_WORDS
}

// MODEL 6.2 to 6.4: the cells of a block that is moved to a position, where it stands on the grid of a column of its kind. That the position can be one
// of an entry is asked three times: a type for it would be a second `Position`, of which only this crate has need.
#[tactic(auto, using(crate::specs::Laws::Marks::few_rows, crate::specs::Laws::Marks::off_kind, crate::specs::Laws::Marks::off_grid, crate::specs::Laws::Marks::too_high, crate::specs::Laws::Marks::on_cells))]
fn cells_of(device: Device, block: Block, at: Position) -> Option<Range<u32>>
    requires solid { Solid (seen block) }
    requires position { EntryPosition at.column at.bottom }
    ensures { MatchOption result (FitsNowhere (as_device device.entry) (seen block) at.column at.bottom) (λ run. OnCells (as_device device.entry) (seen block) at.column at.bottom run.start run.end) }
{
    let c = at.column + block.extent.column;
    if !device.has_kind(c, block.kind) || !block.on_grid(at.bottom) {
        return None;
    }
    let rows = block.extent.rows_at(at.bottom);
    if rows.top > 2 * device.rows {
        return None;
    }
    Some(block.kind.cell(rows.bottom)..block.kind.cell(rows.top))
}

// Marks a block that is moved to a position, and says whether it fits.
#[tactic(auto, using(crate::specs::Laws::Marks::refused))]
fn mark_block(held: &mut [u64], device: Device, block: Block, at: Position) -> bool
    requires len { length held.old ≡ all_words }
    requires solid { Solid (seen block) }
    requires position { EntryPosition at.column at.bottom }
    ensures { BlockMarked (as_device device.entry) held.old (seen block) at.column at.bottom held.new result }
{
    let Some(run) = cells_of(device, block, at) else {
        return false;
    };
    let c = at.column + block.extent.column;
    mark(&mut held[words_at(c)], run)
}

// Marks the blocks of a task that is moved to a position, up to the first that does not fit, and says whether all fit. The words are lent: they may be
// a part of a greater array. By a loop: each block is marked in the words that the next is tested against, which an `all` would hide in its closure.
#[tactic(auto, using(crate::specs::Laws::Marks::blocks_start, crate::specs::Laws::Marks::blocks_refused, crate::specs::Laws::Marks::blocks_next, crate::specs::Laws::Marks::blocks_end, task::specs::Laws::Blocks::same_seen, model::proofs::Laws::Tasks::solid_block))]
pub fn mark_task(held: &mut [u64], device: Device, task: Task, at: Position) -> bool
    requires len { length held.old ≡ all_words }
    requires position { EntryPosition at.column at.bottom }
    ensures { TaskMarked (as_device device.entry) held.old task.entry.bytes.now at.column at.bottom held.new result }
{
    for k in 0..task.count() {
        if !mark_block(held, device, task.block(k), at) {
            return false;
        }
    }
    true
}

impl HeldCells {
    // No cell is held.
    pub fn new() -> HeldCells
        ensures { result.words ≡ replicate all_words 0 }
    {
        HeldCells {
            words: [0; ALL_WORDS],
        }
    }

    // The words of column c.
    #[tactic(auto, unfolding(model::specs::Record::part))]
    pub fn column(&self, c: usize) -> &[u64]
        requires { c < max_columns }
        ensures words { result.now ≡ words_of self.now.words c }
        ensures len { length result.now ≡ column_words }
    {
        &self.words[words_at(c)]
    }

    // Marks the blocks of a task that is moved to a position, as `mark_task` does.
    pub fn mark_task(&mut self, device: Device, task: Task, at: Position) -> bool
        requires { EntryPosition at.column at.bottom }
        ensures { TaskMarked (as_device device.entry) self.old.words task.entry.bytes.now at.column at.bottom self.new.words result }
    {
        mark_task(&mut self.words, device, task, at)
    }
}
