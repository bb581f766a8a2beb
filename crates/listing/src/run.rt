// MODEL 10.3: a run of bottoms, and a column's list of them: brought down, and written to at its end.
ghost use Rattle.std.specs.Prelude.{◌≡◌, ◌+◌, ◌-◌, ◌≤◌, ◌<◌, ◌↔◌, [], ◌∷◌, ◌++◌, length, take, drop, map, slice_get, IsTrue, IsSomeAnd, All};
ghost use Rattle.runs.specs.Runs.{run, push};
ghost use Rattle.listing.specs.Bottoms.{lowered};
ghost use Rattle.listing.specs.Lists.{max_runs, range, IsLifted, Pushable, Puttable, Joined};

use crate::{LIFT, MAX_RUNS};
use runs::Range;
use std::marker::Model;

// MODEL 10.3: the bottoms from first on, up to last, in the steps of their list. In a contract it is the model's run.
#[derive(Clone, Copy)]
pub struct Run {
    pub first: u32,
    pub last: u32,
}

impl Model for Run {
    ghost use Rattle.runs.specs.Runs.{Run as ModelRun, run};

    ghost Value = { ModelRun };

    ghost view = { λ r. run r.first r.last };

    ghost inverse = { λ r. record { first = r.first; last = r.last } };
}

// The run of a range, whose step is its list's.
impl From<Range> for Run {
    ghost from_gives = { λ r q. q ≡ run r.first r.last };

    fn from(r: Range) -> Run {
        Run {
            first: r.first,
            last: r.last,
        }
    }
}

impl Run {
    // The run in the steps of its list.
    pub fn in_steps(self, step: u32) -> Range
        ensures { result ≡ range step self }
    {
        Range {
            first: self.first,
            last: self.last,
            step,
        }
    }
}

// Room for the runs of a column, for a caller to lend.
pub const BLANKS: [Run; MAX_RUNS] = [Run { first: 0, last: 0 }; MAX_RUNS];

// The runs of a column, in lent memory. The kit's ArrayVec writes blanks over what it drops: with it here the search of a listing took 30 to 45 % longer
// than the same code with a count of its own, which was the bar when the form was chosen (docs/DECISIONS.md, 91).
#[derive(Drop)]
pub struct Runs<'a> {
    pub(crate) runs: &'a mut [Run],
    pub(crate) count: usize,
}

impl<'a> Model for Runs<'a> {
    ghost use Rattle.std.specs.Prelude.{◌≤◌, List, take, length};
    ghost use Rattle.runs.specs.Runs.{Run as ModelRun};
    ghost use Rattle.listing.specs.Lists.{max_runs};

    ghost Value = { List ModelRun };

    ghost view = { λ l. take l.count l.runs.now };

    ghost invariant = { λ l. (l.count ≤ max_runs) × (max_runs ≤ length l.runs.now) };
}

impl<'a> Runs<'a> {
    // No runs.
    pub fn new(runs: &'a mut [Run]) -> Runs<'a>
        requires { max_runs ≤ length runs.old }
        ensures { result ≡ [] }
    {
        Runs::of(runs, 0)
    }

    // The first runs of what is lent.
    pub fn of(runs: &'a mut [Run], count: usize) -> Runs<'a>
        requires room { max_runs ≤ length runs.old }
        requires few { count ≤ max_runs }
        ensures { result ≡ take count runs.old }
    {
        Runs { runs, count }
    }

    // The runs.
    pub fn as_slice(&self) -> &[Run]
        ensures runs { result.now ≡ self.now }
        ensures few { length result.now ≤ max_runs }
    {
        &self.runs[..self.count]
    }

    // Drops all runs.
    pub fn clear(&mut self)
        ensures { self.new ≡ [] }
    {
        self.count = 0;
    }

    // Becomes a list of one run.
    pub fn start(&mut self, run: Run)
        ensures { self.new ≡ run ∷ [] }
    {
        self.runs[0] = run;
        self.count = 1;
    }

    // Brings the bottoms of the runs down to their value.
    pub fn lower(&mut self)
        requires { All IsLifted self.old }
        ensures { self.new ≡ map lowered self.old }
    {
        lower_runs(&mut self.runs[..self.count]);
    }

    // Puts a range at the end: as one run with the last of them, where it goes on one step above its end.
    pub fn push(&mut self, r: Range)
        requires { Pushable self.old r }
        ensures { self.new ≡ push r.step (run r.first r.last) self.old }
    {
        self.count = push(self.runs, self.count, r);
    }
}

// Puts a range behind the first n runs, as `Runs::push` does, and says how many there are then. A walk keeps the count in a number of its own: through
// a `Runs` that it is lent, a search takes a tenth longer.
#[tactic(auto, using(crate::specs::Laws::Lists::apart, crate::specs::Laws::Lists::room_behind))]
pub fn push(runs: &mut [Run], n: usize, r: Range) -> usize
    requires room { max_runs ≤ length runs.old }
    requires few { n ≤ max_runs }
    requires pushable { Pushable (take n runs.old) r }
    ensures runs { take result runs.new ≡ push r.step (run r.first r.last) (take n runs.old) }
    ensures few { result ≤ max_runs }
{
    if goes_on(&runs[..n], r) {
        let last = n - 1;
        let end = runs[last];
        runs[last] = Run {
            last: r.last,
            ..end
        };
        return n;
    }
    append(runs, n, Run::from(r));
    n + 1
}

// Whether a range begins one step above the end of the last run.
fn goes_on(runs: &[Run], r: Range) -> bool
    requires { Pushable runs.now r }
    ensures { IsTrue result ↔ IsSomeAnd (slice_get runs.now (length runs.now - 1)) (λ q. q.last + r.step ≡ r.first) }
{
    runs.last().is_some_and(|end| end.last + r.step == r.first)
}

// Puts a run behind the first n, by itself.
fn append(runs: &mut [Run], n: usize, run: Run)
    requires { n < length runs.old }
    ensures { take (n + 1) runs.new ≡ take n runs.old ++ run ∷ [] }
{
    runs[n] = run;
}

// Brings the bottoms of runs down to their value.
pub fn lower_runs(runs: &mut [Run])
    requires { All IsLifted runs.old }
    ensures { runs.new ≡ map lowered runs.old }
{
    for run in runs.iter_mut() {
        run.first -= LIFT;
        run.last -= LIFT;
    }
}

// Copies the first n runs of a list.
pub fn copy_runs(from: &[Run], n: usize, to: &mut [Run])
    requires from { n ≤ length from.now }
    requires to { n ≤ length to.old }
    ensures { to.new ≡ take n from.now ++ drop n to.old }
{
    to[..n].copy_from_slice(&from[..n]);
}

// Puts what two ranges both name at the end of a list.
pub fn put(a: Range, b: Range, list: &mut Runs)
    requires { Puttable list.old a b }
    ensures { Joined a b list.old list.new }
{
    list.count = put_in(a, b, list.runs, list.count);
}

// Puts it behind the first n runs, and says how many there are then.
pub fn put_in(a: Range, b: Range, runs: &mut [Run], n: usize) -> usize
    requires room { max_runs ≤ length runs.old }
    requires few { n ≤ max_runs }
    requires puttable { Puttable (take n runs.old) a b }
    ensures joined { Joined a b (take n runs.old) (take result runs.new) }
    ensures few { result ≤ max_runs }
{
    if let Some(r) = a.meet(b) {
        return push(runs, n, r);
    }
    n
}
