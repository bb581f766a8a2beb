// Numbers and bytes in a slice: numbers of two bytes (MODEL 4.3) read and written, and a slice tested for zeros.
#![tactic(auto)]

ghost use Rattle.std.specs.Prelude.{◌≡◌, ◌+◌, ◌<◌, length};
ghost use Rattle.model.specs.Limits.{words};
ghost use Rattle.model.specs.Record.{bytes16};
ghost use Rattle.model.specs.Parts.{splice};
ghost use Rattle.words.specs.Words.{Read16, AllZero};

// The bytes that are tested for zeros together.
const ZEROS_BLOCK: usize = 32;

// The number in the two bytes at `at`.
#[tactic(auto, unfolding(model::specs::Tasks::word))]
pub fn get16(s: &[u8], at: usize) -> u32
    requires { at + 1 < length s.now }
    ensures { Read16 s.now at result }
{
    u32::from(u16::from_le_bytes([s[at], s[at + 1]]))
}

// Puts a number into the two bytes at `at`. A u16 would carry the bound, and ask more of callers.
#[tactic(auto, using(model::proofs::Laws::Parts::set_two), unfolding(model::specs::Record::bytes16))]
pub fn put16(s: &mut [u8], at: usize, v: u32)
    requires { (at + 1 < length s.old) × (v < words) }
    ensures { s.new ≡ splice s.old at 2 (bytes16 v) }
{
    // as: below 2^16, by the clause
    let [low, high] = (v as u16).to_le_bytes();
    s[at] = low;
    s[at + 1] = high;
}

// Are all bytes 0? The chain has no exit but its end, as `all` has, so that it vectorises.
fn all_zeros(s: &[u8]) -> bool
    ensures { AllZero s.now result }
{
    s.iter().fold(0, |all, byte| all | *byte) == 0
}

// The same, faster: whole blocks, and then the last block once more, so that no bytes are left over to be looked at one by one.
#[tactic(auto, using(std::proofs::lemmas::List::take_rest, crate::specs::Laws::Zeros::back_tells))]
pub fn zeros(s: &[u8]) -> bool
    ensures { AllZero s.now result }
{
    if s.len() < ZEROS_BLOCK {
        return all_zeros(s);
    }
    let whole = s.len() / ZEROS_BLOCK * ZEROS_BLOCK;
    let last = s.len() - ZEROS_BLOCK;
    all_zeros(&s[..whole]) && all_zeros(&s[last..])
}
