// MODEL 22.2 and 22.4: the free cells of a sound record, and the degree. The half rows of a column's intervals are whole cells.
ghost use Rattle.std.specs.Prelude.{◌≡◌, ◌*◌, ◌≤◌, ◌<◌, length};
ghost use Rattle.runs.specs.Intervals.{Apart};
ghost use Rattle.model.specs.Limits.{max_columns, max_intervals, whole_degree};
ghost use Rattle.model.specs.Columns.{columns as columns_of};
ghost use Rattle.model.specs.Fragments.{free_cells, degree as degree_from};
ghost use Rattle.model.specs.Record.{device_of, book_of};
ghost use Rattle.column.specs.Part.{listed_in};
ghost use Rattle.fragments.specs.Free.{spans, max_spans, max_free};
ghost use Rattle.fragments.specs.OnBytes.{runs_of};

use column::Column;
use record::checked::SoundRecord;

// The half rows of all intervals of a column.
fn free_in(column: Column) -> u32
    requires apart { Apart 0 (listed_in column.part.now column.count) }
    requires few { spans (listed_in column.part.now column.count) ≤ max_spans }
    ensures { result ≡ spans (listed_in column.entry.part.now column.entry.count) }
{
    (0..column.count)
        .map(|i| {
            let free = column.interval(i);
            free.top - free.bottom
        })
        .sum()
}

// The free cells of column c.
#[tactic(auto, using(crate::specs::Laws::Free::listed_few, crate::specs::Laws::Free::column_spans))]
fn column_free(record: SoundRecord, c: usize) -> u32
    requires { c < columns_of (device_of «record».bytes.now) }
    ensures { result ≡ spans (runs_of «record».entry.bytes.now c) }
{
    free_in(record.column(c)) / record.kind(c).height()
}

// How many free cells a record has.
pub fn count_free(record: SoundRecord) -> u32
    ensures cells { result ≡ length (free_cells (device_of «record».entry.bytes.now) (book_of «record».entry.bytes.now)) }
    ensures few { result ≤ max_free }
{
    (0..record.columns()).map(|c| column_free(record, c)).sum()
}

// MODEL 22.4: the degree. The bounds only keep it within 32 bits.
#[tactic(auto, unfolding(model::specs::Fragments::degree))]
pub fn degree_of(sets: u32, free: u32) -> u32
    requires { sets ≤ max_columns * max_intervals }
    ensures degree { result ≡ degree_from sets free }
    ensures small { result ≤ whole_degree * (max_columns * max_intervals) }
{
    if free <= 1 {
        return 0;
    }
    model::WHOLE_DEGREE * sets.saturating_sub(1) / (free - 1)
}
