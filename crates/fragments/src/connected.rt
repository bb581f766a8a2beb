// MODEL 22.3: the connected sets of a sound record. Each interval begins as a set of its own, and each join of two sets leaves one less.
ghost use Rattle.std.specs.Prelude.{◌≡◌, ◌*◌, ◌≤◌, length};
ghost use Rattle.model.specs.Limits.{max_columns, max_intervals};
ghost use Rattle.model.specs.Columns.{columns as columns_of};
ghost use Rattle.model.specs.Fragments.{heights, connected_sets};
ghost use Rattle.model.specs.Record.{device_of, book_of};
ghost use Rattle.sets.specs.Forest.{Joins};
ghost use Rattle.fragments.specs.Nodes.{base as base_of, card_edges};
ghost use Rattle.fragments.specs.OnBytes.{runs_of};

use crate::NODES;
use crate::sweep::sweep;
use record::checked::SoundRecord;
use sets::Forest;

// How many intervals a record has.
fn total(record: SoundRecord) -> usize
    ensures total { result ≡ base_of (runs_of «record».entry.bytes.now) (columns_of (device_of «record».entry.bytes.now)) }
    ensures few { result ≤ max_columns * max_intervals }
{
    (0..record.columns()).map(|c| record.column(c).count).sum()
}

// Joins what touches in all neighbouring columns. The nodes of a column follow those of the column on its left.
#[tactic(auto, using(crate::specs::Laws::OnBytes::some_column, crate::specs::Laws::OnBytes::base_few))]
fn join_all(forest: &mut Forest<'_>, record: SoundRecord) -> u32
    requires { base_of (runs_of «record».bytes.now) (columns_of (device_of «record».bytes.now)) ≤ length forest.old.parents.now }
    ensures { Joins (card_edges (heights (device_of «record».entry.bytes.now)) (runs_of «record».entry.bytes.now) (columns_of (device_of «record».entry.bytes.now))) forest.old.parents.now forest.new.parents.now result }
{
    let last = record.columns() - 1;
    let mut joins = 0;
    let mut base = 0;
    // over an index: neighbours are two columns, of which one has the next number
    for c in 0..last {
        let left = record.column(c);
        joins += sweep(forest, left, record.column(c + 1), base);
        base += left.count;
    }
    joins
}

// How many connected sets the free cells of a record have.
pub fn count_sets(record: SoundRecord) -> u32
    ensures sets { result ≡ connected_sets (device_of «record».entry.bytes.now) (book_of «record».entry.bytes.now) }
    ensures few { result ≤ max_columns * max_intervals }
{
    let mut parents = [0u16; NODES];
    let mut forest = Forest::new(&mut parents);
    let n = total(record);
    forest.set_apart(n);
    // as: no more than max_columns * max_intervals, by the clause of `total`
    n as u32 - join_all(&mut forest, record)
}
