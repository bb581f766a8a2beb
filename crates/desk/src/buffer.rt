// Lent bytes that are filled from the first one on: the draft, and what a turn prints.
ghost use Rattle.std.specs.Prelude.{◌≡◌, ◌+◌, ◌≤◌, ◌++◌, length, IsUtf8};

// A slice and a count, since what is lent may be longer than what is filled. The bytes behind that say nothing.
// The clauses `same_lent` say that it stays the slice that `new` was lent.
#[derive(Drop)]
pub struct Buffer<'a> {
    pub(crate) bytes: &'a mut [u8],
    pub(crate) len: usize,
    ghost fits: { len ≤ length bytes.now },
}

impl<'a> Buffer<'a> {
    ghost use Rattle.desk.specs.Buffer.{filled, room, IsText, SameLent};

    // In what is lent, with nothing filled.
    pub fn new(bytes: &'a mut [u8]) -> Buffer<'a>
        ensures empty { result.len ≡ 0 }
        ensures same_room { room result ≡ length bytes.old }
        ensures same_reference { result.bytes.ghost_name ≡ bytes.entry.ghost_name }
    {
        Buffer { bytes, len: 0 }
    }

    // What is filled.
    pub fn as_slice(&self) -> &[u8]
        ensures { result.now ≡ filled self.now }
    {
        &self.bytes[..self.len]
    }

    #[tactic(auto, using(crate::specs::Laws::Buffer::text_none))]
    pub(crate) fn clear(&mut self)
        ensures empty { self.new.len ≡ 0 }
        ensures text { IsText self.new }
        ensures same_lent { SameLent self.old self.new }
    {
        self.len = 0;
    }

    // Fills some more.
    pub(crate) fn push(&mut self, more: &[u8])
        requires { self.old.len + length more.now ≤ room self.old }
        ensures bytes { filled self.new ≡ filled self.old ++ more.now }
        ensures len { self.new.len ≡ self.old.len + length more.now }
        ensures text { IsText self.old → IsUtf8 more.now → IsText self.new }
        ensures same_lent { SameLent self.old self.new }
    {
        let end = self.len + more.len();
        self.bytes[self.len..end].copy_from_slice(more);
        self.len = end;
    }
}
