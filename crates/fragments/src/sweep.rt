// MODEL 22.1: two neighbouring columns. One pointer goes along the intervals of each, and those that share a half row become one set.
ghost use Rattle.std.specs.Prelude.{◌≡◌, ◌+◌, ◌≤◌, ◌<◌, length};
ghost use Rattle.std.specs.Int.{from_bool};
ghost use Rattle.runs.specs.Intervals.{interval};
ghost use Rattle.sets.specs.Forest.{Joins};
ghost use Rattle.fragments.specs.Sweep.{shares as sharing, edge_if, edges, sides};

use column::{Column, Interval};
use sets::Forest;

// An interval, and its node.
#[derive(Clone, Copy)]
struct Node {
    number: usize,
    rows: Interval,
}

impl Node {
    // Do the two intervals share a half row?
    #[tactic(auto, unfolding(crate::specs::Sweep::shares))]
    fn shares(self, other: Node) -> bool
        ensures { result ≡ sharing (interval self.rows.bottom self.rows.top) (interval other.rows.bottom other.rows.top) }
    {
        self.rows.bottom < other.rows.top && other.rows.bottom < self.rows.top
    }
}

// Makes one set of the sets of two intervals if these share a half row. The answer is whether they were two sets.
fn meet(forest: &mut Forest<'_>, x: Node, y: Node) -> bool
    requires { (x.number < length forest.old.parents.now) × (y.number < length forest.old.parents.now) }
    ensures same_reference { forest.new.parents.ghost_name ≡ forest.old.parents.ghost_name }
    ensures joins { Joins (edge_if (sharing (interval x.rows.bottom x.rows.top) (interval y.rows.bottom y.rows.top)) (x.number, y.number)) forest.old.parents.now forest.new.parents.now (from_bool result) }
{
    x.shares(y) && forest.unite(x.number, y.number)
}

// Makes one set of the sets of every two intervals that share a half row. `base` is the node of the first interval on the left; those on the right
// follow. The answer is how often two sets became one.
pub fn sweep(forest: &mut Forest<'_>, left: Column, right: Column, base: usize) -> u32
    requires { base + left.count + right.count ≤ length forest.old.parents.now }
    ensures same_length { length forest.new.parents.now ≡ length forest.old.parents.now }
    ensures same_reference { forest.new.parents.ghost_name ≡ forest.old.parents.ghost_name }
    ensures joins { Joins (edges (sides left.entry.part.now right.entry.part.now left.entry.count right.entry.count base)) forest.old.parents.now forest.new.parents.now result }
    ensures few { result ≤ left.entry.count + right.entry.count }
{
    let mut joins = 0;
    let mut i = 0;
    let mut j = 0;
    // a `while`: each turn moves one of two pointers on
    while i < left.count && j < right.count {
        let x = Node {
            number: base + i,
            rows: left.interval(i),
        };
        let y = Node {
            number: base + left.count + j,
            rows: right.interval(j),
        };
        joins += u32::from(meet(forest, x, y));
        if x.rows.top <= y.rows.top {
            i += 1;
        } else {
            j += 1;
        }
    }
    joins
}
