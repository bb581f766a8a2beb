// MODEL 4 and 10.1: a task's bytes, its blocks as values, whether it is well-formed, and its step.
// The model's definitions are those of model/specs/Tasks.antt; specs/ here ties the code's blocks to the model's.
#![tactic(auto)]

ghost use Rattle.std.specs.Prelude.{◌≡◌, true, false, ◌+◌, ◌-◌, ◌*◌, ◌%◌, ◌^◌, ◌≤◌, ◌<◌, ◌↔◌, length, get_or, IsTrue, IfOk, IsErrOf};
ghost use Rattle.model.specs.Limits.{block_size, max_blocks, max_kind, reach, words};
ghost use Rattle.model.specs.Columns.{height};
ghost use Rattle.model.specs.Tasks.{lifted, block, blocks, sized, block_ok, follows, well_formed, step};
ghost use Rattle.task.specs.Blocks.{seen, rows_of, Same, SameExtent, Reads, starts};

use column::Interval;
use model::Kind;
use words::get16;

// MODEL 4.2 and 4.9: where a block is. Low and high are its bottom and top plus REACH, so that neither is negative.
#[derive(Clone, Copy)]
pub struct Extent {
    pub column: usize,
    pub low: u32,
    pub high: u32,
}

// MODEL 4.2: a block.
#[derive(Clone, Copy)]
pub struct Block {
    pub kind: Kind,
    pub extent: Extent,
}

// MODEL 4.1 and 4.4: the bytes of a task that has the length of one and is well-formed.
#[derive(Clone, Copy)]
pub struct Task<'a> {
    pub bytes: &'a [u8],
    ghost sized: { sized bytes.now ≡ true },
    ghost well_formed: { well_formed bytes.now ≡ true },
}

// Why bytes are no task: their length is none of a task's, or they are not well-formed.
#[derive(Clone, Copy, Debug, PartialEq, Eq)]
pub enum TaskFault {
    Length,
    Form,
}

// MODEL 6.1: where a task is placed: its first block's column, and what its blocks are moved up by.
// It stands beside its task in what tries one: a task that runs has a number too (an entry of a record), and one that is tried has none.
#[derive(Clone, Copy)]
pub struct Position {
    pub column: usize,
    pub bottom: u32,
}

impl Extent {
    // MODEL 6.1: its half rows, where its task stands at a bottom.
    pub fn rows_at(self, bottom: u32) -> Interval
        requires low { reach ≤ bottom + self.low }
        requires full { self.low ≤ self.high }
        requires high { bottom + self.high < 2 ^ 32 }
        ensures { result ≡ rows_of self bottom }
    {
        Interval {
            bottom: bottom + self.low - model::REACH,
            top: bottom + self.high - model::REACH,
        }
    }
}

impl Block {
    // The height of its cells in half rows.
    pub fn height(self) -> u32
        ensures { result ≡ height (seen self).kind }
    {
        self.kind.height()
    }

    // MODEL 4.6, 4.9 and 4.10: whether it is by itself one of a well-formed task.
    #[tactic(auto, using(model::proofs::Laws::Columns::height_pos, model::proofs::Laws::Kinds::known), unfolding(model::specs::Tasks::block_ok))]
    fn is_solid(self) -> bool
        ensures { result ≡ block_ok (seen self) }
    {
        let Extent { column, low, high } = self.extent;
        column < model::MAX_COLUMNS
            && low < high
            && high <= 2 * model::REACH
            && self.kind.whole(high - low)
    }

    // MODEL 4.6 and 4.7: whether it may come right after `last`.
    #[tactic(auto, unfolding(model::specs::Tasks::follows))]
    fn follows(self, last: Block) -> bool
        ensures { result ≡ follows (seen last) (seen self) }
    {
        let below = last.extent;
        let above = self.extent;
        below.column < above.column
            || (below.column == above.column && last.kind == self.kind && below.high < above.low)
    }

    // MODEL 6.3: whether it is on the grid of its kind, and not below the device, where its task stands at a bottom.
    pub fn on_grid(self, bottom: u32) -> bool
        requires { bottom + self.extent.low < 2 ^ 32 }
        ensures { IsTrue result ↔ ((reach ≤ bottom + self.extent.low) × ((bottom + self.extent.low - reach) % height (seen self).kind ≡ 0)) }
    {
        let low = bottom + self.extent.low;
        model::REACH <= low && self.kind.whole(low - model::REACH)
    }
}

impl<'a> Task<'a> {
    // MODEL 4.1 and 4.4: the bytes as a task's, where they are one's.
    pub fn read(bytes: &'a [u8]) -> Result<Task<'a>, TaskFault>
        ensures ok { IfOk result (λ t. t.bytes.now ≡ bytes.now) }
        ensures length { IsErrOf result TaskFault.Length ↔ (sized bytes.now ≡ false) }
        ensures form { IsErrOf result TaskFault.Form ↔ ((sized bytes.now ≡ true) × (well_formed bytes.now ≡ false)) }
    {
        if !sized(bytes) {
            return Err(TaskFault::Length);
        }
        if !well_formed(bytes) {
            return Err(TaskFault::Form);
        }
        Ok(Task { bytes })
    }

    // MODEL 4.1: how many blocks it has.
    #[tactic(auto, using(model::proofs::Laws::Tasks::sized_to), unfolding(model::specs::Tasks::blocks))]
    pub fn count(self) -> usize
        ensures count { result ≡ blocks self.entry.bytes.now }
        ensures some { 0 < result }
        ensures few { result ≤ max_blocks }
    {
        self.bytes.len() / model::BLOCK_SIZE
    }

    // MODEL 4.2: its block k.
    #[tactic(auto, using(model::proofs::Laws::Tasks::solid_block), unfolding(model::specs::Tasks::blocks))]
    pub fn block(self, k: usize) -> Block
        requires { k < blocks self.bytes.now }
        ensures { Same result (block self.entry.bytes.now k) }
    {
        block_at(self.bytes, k)
    }

    // MODEL 4.2: where its block k is.
    #[tactic(auto, unfolding(model::specs::Tasks::blocks))]
    pub fn extent(self, k: usize) -> Extent
        requires { k < blocks self.bytes.now }
        ensures { SameExtent result (block self.entry.bytes.now k) }
    {
        extent_at(self.bytes, k)
    }

    // MODEL 10.1: its step.
    pub fn step(self) -> u32
        ensures { result ≡ step self.entry.bytes.now }
    {
        step(self.bytes)
    }
}

// MODEL 4.9: a signed bottom or top plus REACH.
// In two bytes without a sign: the sum is never negative, and through an i16 it would be converted twice more.
#[tactic(auto, unfolding(model::specs::Tasks::lifted))]
fn lift(v: u32) -> u32
    requires { v < words }
    ensures { result ≡ lifted v }
{
    (v + model::REACH) % model::WORDS
}

// MODEL 4.2: where block i of a task is. The kind is not looked at. That the block is there is the bound of an index, here and where a block is read.
#[tactic(auto, unfolding(model::specs::Tasks::block))]
pub fn extent_at(task: &[u8], i: usize) -> Extent
    requires { block_size * i + block_size ≤ length task.now }
    ensures { SameExtent result (block task.now i) }
{
    let at = model::BLOCK_SIZE * i;
    Extent {
        column: usize::from(task[at]),
        low: lift(get16(task, at + model::BLOCK_BOTTOM_AT)),
        high: lift(get16(task, at + model::BLOCK_TOP_AT)),
    }
}

// MODEL 4.2 and 4.8: block i of a task, where its kind byte is a kind's.
#[tactic(auto, using(model::proofs::Laws::Kinds::kind_known, model::proofs::Laws::Kinds::kind_unknown), unfolding(model::specs::Tasks::block))]
pub fn read_block(task: &[u8], i: usize) -> Option<Block>
    requires { block_size * i + block_size ≤ length task.now }
    ensures { Reads result (block task.now i) }
{
    let at = model::BLOCK_SIZE * i;
    let kind = Kind::try_from(task[at + model::BLOCK_KIND_AT]).ok()?;
    Some(Block {
        kind,
        extent: extent_at(task, i),
    })
}

// MODEL 4.2: block i of a task, whose kind byte is known to be a kind's.
#[tactic(auto, using(model::proofs::Laws::Kinds::kind_known, model::proofs::Laws::Kinds::kind_unknown))]
pub fn block_at(task: &[u8], i: usize) -> Block
    requires whole { block_size * i + block_size ≤ length task.now }
    requires known { (block task.now i).kind ≤ max_kind }
    ensures { Same result (block task.now i) }
{
    read_block(task, i).unwrap()
}

// MODEL 4.1: whether the bytes are those of 1 to 32 whole blocks.
#[tactic(auto, unfolding(model::specs::Tasks::sized))]
pub fn sized(task: &[u8]) -> bool
    ensures { result ≡ sized task.now }
{
    let n = task.len();
    n != 0 && n <= model::BLOCK_SIZE * model::MAX_BLOCKS && n % model::BLOCK_SIZE == 0
}

// Byte i, or 0 past the end.
fn byte_or_zero(task: &[u8], i: usize) -> u8
    ensures { result ≡ get_or task.now i 0 }
{
    task.get(i).copied().unwrap_or(0)
}

// MODEL 4.5: whether column and bottom of the first block are 0. Bytes that are missing count as 0.
#[tactic(auto, unfolding(crate::specs::Blocks::starts, model::specs::Tasks::block, model::specs::Tasks::word, model::specs::Tasks::lifted))]
fn starts_at_zero(task: &[u8]) -> bool
    ensures { result ≡ starts task.now }
{
    byte_or_zero(task, 0) == 0
        && byte_or_zero(task, model::BLOCK_BOTTOM_AT) == 0
        && byte_or_zero(task, model::BLOCK_BOTTOM_AT + 1) == 0
}

// MODEL 4.4: whether a task is well-formed.
// By the blocks' numbers: what stands at one may be no block, and of neighbours taken in pairs each would be read twice.
#[tactic(auto, using(crate::specs::Laws::Tasks::ill_start, crate::specs::Laws::Tasks::all_tested), unfolding(model::specs::Tasks::blocks))]
pub fn well_formed(task: &[u8]) -> bool
    ensures { result ≡ well_formed task.now }
{
    if !starts_at_zero(task) {
        return false;
    }
    let mut last: Option<Block> = None;
    for i in 0..task.len() / model::BLOCK_SIZE {
        let Some(next) = read_block(task, i) else {
            return false;
        };
        if !next.is_solid() {
            return false;
        }
        if last.is_some_and(|last| !next.follows(last)) {
            return false;
        }
        last = Some(next);
    }
    true
}

// MODEL 10.1: the step of a task.
// Two flags of one loop over the blocks' kind bytes: bytes of any value have a step, so they are not read as blocks, and an `any` for each flag would
// count the blocks twice.
#[tactic(auto, unfolding(model::specs::Tasks::blocks, model::specs::Tasks::block, model::specs::Tasks::step, model::specs::Bounded::any_below))]
pub fn step(task: &[u8]) -> u32
    ensures { result ≡ step task.now }
{
    let count = task.len() / model::BLOCK_SIZE;
    let mut logic = false;
    let mut other = false;
    for i in 0..count {
        if task[model::BLOCK_SIZE * i + model::BLOCK_KIND_AT] == u8::from(Kind::C) {
            logic = true;
        } else {
            other = true;
        }
    }
    match (logic, other) {
        (false, _) => Kind::B_HEIGHT,
        (true, false) => Kind::C_HEIGHT,
        (true, true) => Kind::C_HEIGHT * Kind::B_HEIGHT,
    }
}
