// MODEL 12.4 and 12.5: one column's intervals changed where they stand, in the middle of the record.
ghost use Rattle.std.specs.Prelude.{◌≡◌, ◌+◌, ◌-◌, ◌≤◌, ◌<◌, ℕ, List};
ghost use Rattle.model.specs.Limits.{max_intervals, column_size, reach, words};
ghost use Rattle.model.specs.Record.{part, column_at};
ghost use Rattle.model.specs.Sound.{count_of};
ghost use Rattle.task.specs.Blocks.{rows_of};
ghost use Rattle.record.specs.Columns.{put_part};
ghost use Rattle.record.specs.Edit.{Edits, Edited, Seated};

use crate::bytes::part_at;
use column::Interval;
use model::{COUNTS_AT, RECORD_SIZE};
use task::{Block, Position};

// Edits the column in which a block stands: `edit` is lent its part (MODEL 21.5), with its count, for the block's run, and answers the new count.
pub(crate) fn edit_block<F: FnOnce(&mut [u8], usize, Interval) -> usize>(
    record: &mut [u8; RECORD_SIZE],
    block: Block,
    at: Position,
    edit: F,
)
    requires seated { Seated at.column at.bottom block }
    requires edits { let c = at.column + block.extent.column in Edits F.FnOnce edit (part «record».old (column_at c) column_size) (count_of «record».old c) (rows_of block.extent at.bottom) }
    requires few { let c = at.column + block.extent.column in (q : List ℕ) (n : ℕ) → Edited F.FnOnce edit (part «record».old (column_at c) column_size) (count_of «record».old c) (rows_of block.extent at.bottom) q n → n ≤ max_intervals }
    ensures { let c = at.column + block.extent.column in (q : List ℕ) × (n : ℕ) × Edited F.FnOnce edit (part «record».old (column_at c) column_size) (count_of «record».old c) (rows_of block.extent at.bottom) q n × («record».new ≡ put_part «record».old c q n) }
{
    let c = at.column + block.extent.column;
    let count = usize::from(record[COUNTS_AT + c]);
    let left = edit(
        &mut record[part_at(c)],
        count,
        block.extent.rows_at(at.bottom),
    );
    record[COUNTS_AT + c] = left as u8; // `as`: the clause `few`, 64 intervals at most
}
