// MODEL 18.10 and 18.11: the draft task.
ghost use Rattle.std.specs.Prelude.{◌≡◌, [], ◌+◌, ◌%◌, ◌≤◌, ◌++◌, ◌↔◌, length, IsOk, OnOk, OnErr, IfErr};
ghost use Rattle.model.specs.Limits.{block_size};
ghost use Rattle.card.specs.declared.refusal.Refusal.TheVariants.{TaskLength};
ghost use Rattle.line.specs.Block.{call_bytes};
ghost use Rattle.desk.specs.Desk.{draft_room};
ghost use Rattle.desk.specs.Buffer.{room};

use crate::DRAFT_ROOM;
use crate::buffer::Buffer;
use arrayvec::ArrayVec;
use card::Refusal;
use line::call::BlockCall;
use model::BLOCK_SIZE;

// The bytes of whole blocks, 32 of them at most, which it owns.
#[derive(Drop)]
pub struct Draft {
    pub bytes: ArrayVec<u8, DRAFT_ROOM>,
    ghost whole: { length bytes.items % block_size ≡ 0 },
}

impl Draft {
    ghost use Rattle.desk.specs.Buffer.{filled};

    // N: no block.
    pub(crate) fn new() -> Draft
        ensures { result.bytes.items ≡ [] }
    {
        Draft {
            bytes: ArrayVec::new(),
        }
    }

    // Its blocks, in what is lent.
    pub(crate) fn lend<'a>(&self, bytes: &'a mut [u8]) -> LentDraft<'a>
        requires { draft_room ≤ length bytes.old }
        ensures { filled result.bytes ≡ self.now.bytes.items }
    {
        let mut bytes = Buffer::new(bytes);
        bytes.push(self.bytes.as_slice());
        LentDraft { bytes }
    }

    // Takes over the blocks of a lent draft.
    pub(crate) fn keep(&mut self, lent: &LentDraft)
        ensures { self.new.bytes.items ≡ filled lent.now.bytes }
    {
        let mut bytes = ArrayVec::new();
        bytes.try_extend_from_slice(lent.as_slice()).unwrap();
        self.bytes = bytes;
    }
}

// The bytes of whole blocks, 32 of them at most, in what is lent.
#[derive(Drop)]
pub struct LentDraft<'a> {
    pub bytes: Buffer<'a>,
    ghost room: { draft_room ≤ room bytes },
    ghost most: { bytes.len ≤ draft_room },
    ghost whole: { bytes.len % block_size ≡ 0 },
}

impl<'a> LentDraft<'a> {
    ghost use Rattle.desk.specs.Buffer.{filled, SameLent};

    // No block, in what is lent.
    pub fn new(bytes: &'a mut [u8]) -> LentDraft<'a>
        requires { draft_room ≤ length bytes.old }
        ensures empty { result.bytes.len ≡ 0 }
        ensures same_reference { result.bytes.bytes.ghost_name ≡ bytes.entry.ghost_name }
    {
        LentDraft {
            bytes: Buffer::new(bytes),
        }
    }

    // The blocks' bytes.
    pub(crate) fn as_slice(&self) -> &[u8]
        ensures { result.now ≡ filled self.now.bytes }
    {
        self.bytes.as_slice()
    }

    // N: no block any more.
    pub(crate) fn clear(&mut self)
        ensures empty { self.new.bytes.len ≡ 0 }
        ensures same_lent { SameLent self.old.bytes self.new.bytes }
    {
        self.bytes.clear();
    }

    // B: a block more, while there is room.
    pub(crate) fn add(&mut self, block: BlockCall) -> Result<(), Refusal>
        ensures variant { IsOk result ↔ (length (filled self.old.bytes) + block_size ≤ draft_room) }
        ensures added { OnOk result (filled self.new.bytes ≡ filled self.old.bytes ++ call_bytes block) }
        ensures refused { IfErr result (λ e. e ≡ TaskLength) }
        ensures kept { OnErr result (filled self.new.bytes ≡ filled self.old.bytes) }
        ensures same_lent { SameLent self.old.bytes self.new.bytes }
    {
        if DRAFT_ROOM < self.bytes.len + BLOCK_SIZE {
            return Err(Refusal::TaskLength);
        }
        self.bytes.push(&block.bytes());
        Ok(())
    }
}
