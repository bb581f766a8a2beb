// MODEL 6: whether a task fits at a position, each block in a column of its kind, on the grid, and in one free interval.
ghost use Rattle.std.specs.Prelude.{◌≡◌, ◌*◌, ◌<◌, ◌↔◌, IsTrue};
ghost use Rattle.model.specs.Limits.{max_rows, max_columns};
ghost use Rattle.model.specs.Columns.{columns, kind as kind_of};
ghost use Rattle.model.specs.Kinds.{number_of};
ghost use Rattle.model.specs.Tasks.{block, blocks};
ghost use Rattle.model.specs.Book.{block_fits, fits};
ghost use Rattle.model.specs.Record.{device_of, book_of};
ghost use Rattle.record.specs.Fits.{SaysHeld};

use crate::checked::SoundRecord;
use column::Interval;
use model::{Kind, MAX_ROWS};
use task::{Position, Task};

impl SoundRecord<'_> {
    // MODEL 6.4 and 6.5: whether one free interval of column c holds all half rows of a run.
    #[tactic(auto, using(crate::specs::Laws::Fits::listed_sound, crate::specs::Laws::Fits::held_test))]
    fn holds(self, c: usize, run: Interval) -> bool
        requires { c < max_columns }
        ensures { SaysHeld self.entry.bytes.now c run result }
    {
        self.column(c).holder(run).is_some()
    }

    // MODEL 6.2: whether column c is one of the device and has that kind.
    pub fn has_kind(self, c: usize, kind: Kind) -> bool
        ensures { IsTrue result ↔ ((c < columns (device_of self.entry.bytes.now)) × (kind_of (device_of self.entry.bytes.now) c ≡ number_of kind)) }
    {
        self.device().has_kind(c, kind)
    }

    // MODEL 6.2 to 6.5: whether block k of a task fits that stands at a position.
    #[tactic(auto, using(crate::specs::Laws::Fits::solid_seen, crate::specs::Laws::Checked::columns_few, task::specs::Laws::Blocks::same_seen, crate::specs::Laws::Fits::no_fit, crate::specs::Laws::Fits::held_seen))]
    fn block_fits(self, task: Task<'_>, k: usize, at: Position) -> bool
        requires block { k < blocks task.bytes.now }
        requires column { at.column < max_columns }
        requires bottom { at.bottom < 2 * max_rows }
        ensures { result ≡ block_fits (device_of self.entry.bytes.now) (book_of self.entry.bytes.now) (block task.entry.bytes.now k) at.column at.bottom }
    {
        let block = task.block(k);
        let c = at.column + block.extent.column;
        self.has_kind(c, block.kind)
            && block.on_grid(at.bottom)
            && self.holds(c, block.extent.rows_at(at.bottom))
    }

    // MODEL 6.1 and 6.6: whether a task fits at a position, which may lie off the device.
    #[tactic(auto, using(crate::specs::Laws::Fits::off))]
    pub fn fits(self, task: Task<'_>, at: Position) -> bool
        ensures { result ≡ fits (device_of self.entry.bytes.now) (book_of self.entry.bytes.now) task.entry.bytes.now at.column at.bottom }
    {
        at.column < self.columns()
            && at.bottom < 2 * MAX_ROWS
            && (0..task.count()).all(|k| self.block_fits(task, k, at))
    }
}
