// The cells of a column as bits: bit k of the column's words is set where cell k is held.
#![tactic(auto)]

ghost use Rattle.std.specs.Prelude.{◌≡◌, ◌↔◌, Bool, IsTrue, cond, [], ℕ, ◌+◌, ◌-◌, ◌*◌, ◌≤◌, ◌<◌, length, ltb};
ghost use Rattle.model.specs.Limits.{max_intervals, column_size, words as two_bytes};
ghost use Rattle.model.specs.Bounded.{sum_below};
ghost use Rattle.model.specs.Record.{column_part};
ghost use Rattle.cells.specs.Bits.{most_words, word_bits, is_set, cell_bit, between, Shows, RunIn, Marked};
ghost use Rattle.cells.specs.Ends.{Listable, one_below, change, spots, free_below, bit_intervals, HasRoom, Compared, EndsWritten, PartIs};

use std::ops::Range;
use words::{get16, put16, zeros};

// A column's cells: their bits, how many they are, and their height in half rows. The ends of its free intervals are numbers of two bytes.
#[derive(Clone, Copy)]
pub struct ColumnBits<'a> {
    pub words: &'a [u64],
    pub cells: u32,
    pub height: u32,
    ghost listable: { Listable words.now cells height },
}

// The lowest n bits.
#[tactic(auto, using(crate::specs::Laws::Marks::low_all, crate::specs::Laws::Marks::low_power, crate::specs::Laws::Marks::low_some))]
fn low(n: u32) -> u64
    ensures { Shows result (λ k. ltb k n) 0 }
{
    if u64::BITS <= n {
        return u64::MAX;
    }
    (1u64 << n) - 1
}

// The bits of the cells of a run, in the word whose first bit is cell `base`.
#[tactic(auto, using(crate::specs::Laws::Marks::span_shows))]
fn span(base: u32, run: &Range<u32>) -> u64
    ensures { Shows result (between run.now.start run.now.end) base }
{
    low(run.end.saturating_sub(base)) & !low(run.start.saturating_sub(base))
}

// Marks the cells of a run, word by word, and says whether none of them was held. By the word's number, which says what its first cell is.
#[tactic(auto, using(crate::specs::Laws::Marks::marking_start, crate::specs::Laws::Marks::marking_next, crate::specs::Laws::Marks::marking_end))]
fn mark_words(words: &mut [u64], run: Range<u32>) -> bool
    requires { RunIn words.old run.start run.end }
    ensures { Marked words.old run.start run.end words.new result }
{
    let mut hit = 0;
    for q in run.start / u64::BITS..run.end.div_ceil(u64::BITS) {
        let here = span(u64::BITS * q, &run);
        // as: std has no From<u32> for usize
        let i = q as usize;
        hit |= words[i] & here;
        words[i] |= here;
    }
    hit == 0
}

// The same, faster: most runs lie in one word and need no loop.
#[tactic(auto, using(crate::specs::Laws::Marks::run_shows, crate::specs::Laws::Marks::mark_one))]
pub fn mark(words: &mut [u64], run: Range<u32>) -> bool
    requires { RunIn words.old run.start run.end }
    ensures { Marked words.old run.start run.end words.new result }
{
    let first = run.start / u64::BITS;
    let base = u64::BITS * first;
    if u64::BITS < run.end - base {
        return mark_words(words, run);
    }
    // as: std has no From<u32> for usize
    let q = first as usize;
    let here = u64::MAX >> (u64::BITS - (run.end - run.start)) << (run.start - base);
    let word = words[q];
    words[q] = word | here;
    word & here == 0
}

// The bits at which free and not free change; the carry is the bit below the word.
#[tactic(auto, using(crate::specs::Laws::Marks::change_shows))]
fn change_word(free: u64, carry: u64) -> u64
    requires { carry < 2 }
    ensures { (f : ℕ → Bool) (a : ℕ) → Shows free f a → is_set carry ≡ one_below f a → Shows result (change f) a }
{
    free ^ ((free << 1) | carry)
}

// The highest bit of a word, which is the bit below the next: a number and no bool, since it is or-ed into that.
#[tactic(auto, using(crate::specs::Laws::Marks::carry_small, crate::specs::Laws::Marks::carry_shows))]
fn top_bit(word: u64) -> u64
    ensures { (result < 2) × ((f : ℕ → Bool) (a : ℕ) → Shows word f a → is_set result ≡ one_below f (a + word_bits)) }
{
    word >> 63
}

// Writes the set bits of a word, each times the height, into a part from number `from` on, and answers the number of the next.
#[tactic(auto, using(crate::specs::Laws::Writes::writing_start, crate::specs::Laws::Walks::left_room, crate::specs::Laws::Spots::cleared_less))]
fn write_ends(part: &mut [u8], from: usize, word: u64, base: u32, height: u32) -> usize
    requires { HasRoom height part.old from (spots base word_bits word) × (base ≤ word_bits * most_words) }
    ensures { EndsWritten height part.old from (spots base word_bits word) part.new result }
{
    let mut rest = word;
    let mut i = from;
    // a `while`: std has no iterator over the set bits of a word
    while rest != 0 {
        put16(part, 2 * i, height * (base + rest.trailing_zeros()));
        rest &= rest - 1;
        i += 1;
    }
    i
}

// Compares numbers of a part, from number `from` on, with the set bits of a word, each times the height, and answers the number of the next if all are
// the same.
#[tactic(auto, using(crate::specs::Laws::Compares::comparing_start, crate::specs::Laws::Walks::left_room, crate::specs::Laws::Spots::cleared_less))]
fn same_ends(part: &[u8], from: usize, word: u64, base: u32, height: u32) -> Option<usize>
    requires { HasRoom height part.now from (spots base word_bits word) × (base ≤ word_bits * most_words) }
    ensures { Compared height part.now from (spots base word_bits word) result }
{
    let mut rest = word;
    let mut i = from;
    // a `while`, as above
    while rest != 0 {
        if get16(part, 2 * i) != height * (base + rest.trailing_zeros()) {
            return None;
        }
        rest &= rest - 1;
        i += 1;
    }
    Some(i)
}

// The first cell of word q.
fn first_cell(q: usize) -> u32
    requires { q ≤ most_words }
    ensures { result ≡ word_bits * q }
{
    // as: below 2^32, by the clause
    u64::BITS * q as u32
}

impl ColumnBits<'_> {
    // The bits of the free cells in word q. There is none behind the last word.
    #[tactic(auto, using(crate::specs::Laws::Marks::free_shows, crate::specs::Laws::Marks::free_none))]
    fn free(self, q: usize) -> u64
        requires { q ≤ length self.words.now }
        ensures { Shows result (free_below self.entry.words.now self.entry.cells) (word_bits * q) }
    {
        let Some(word) = self.words.get(q) else {
            return 0;
        };
        !word & low(self.cells.saturating_sub(first_cell(q)))
    }

    // The free bit below word q: the highest of the word before it.
    fn carry(self, q: usize) -> u64
        requires { q ≤ length self.words.now }
        ensures { (result < 2) × (is_set result ≡ one_below (free_below self.entry.words.now self.entry.cells) (word_bits * q)) }
    {
        if q == 0 {
            return 0;
        }
        top_bit(self.free(q - 1))
    }

    // The bits of word q at which free and not free change. Behind the last word there is one more, of zeros, in which the last interval ends.
    fn changes(self, q: usize) -> u64
        requires { q ≤ length self.words.now }
        ensures { Shows result (change (free_below self.entry.words.now self.entry.cells)) (word_bits * q) }
    {
        change_word(self.free(q), self.carry(q))
    }

    // Writes the free intervals of the column into its part, which is all zeros, and answers how many they are. By the word's number, which says what its
    // first cell is.
    pub fn fill(self, part: &mut [u8]) -> usize
        requires { part.old ≡ column_part [] }
        ensures { PartIs part.new result (bit_intervals self.entry.words.now self.entry.cells self.entry.height) }
    {
        let mut written = 0;
        for q in 0..self.words.len() + 1 {
            written = write_ends(part, written, self.changes(q), first_cell(q), self.height);
        }
        written / 2
    }

    // Whether a part and a count are those of the free intervals of the column: their ends, and zeros behind them. By the word's number too.
    pub fn lists(self, part: &[u8], count: usize) -> bool
        requires { length part.now ≡ column_size }
        ensures { IsTrue result ↔ PartIs part.now count (bit_intervals self.entry.words.now self.entry.cells self.entry.height) }
    {
        let mut met = 0;
        for q in 0..self.words.len() + 1 {
            let Some(next) = same_ends(part, met, self.changes(q), first_cell(q), self.height)
            else {
                return false;
            };
            met = next;
        }
        met / 2 == count && zeros(&part[2 * met..])
    }
}

// How many bits are set.
pub fn count(words: &[u64]) -> u32
    requires { length words.now ≤ most_words }
    ensures { result ≡ sum_below (word_bits * length words.now) (λ k. cond (cell_bit words.now k) 1 0) }
{
    words.iter().map(|word| word.count_ones()).sum()
}
