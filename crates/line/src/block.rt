// MODEL 18.10: a block call as the six bytes of a block of a task (MODEL 4.2).
ghost use Rattle.std.specs.Prelude.{◌≡◌};
ghost use Rattle.line.specs.Block.{call_bytes};

use crate::call::BlockCall;

impl BlockCall {
    // The block's bytes, with bottom and top in two's complement (MODEL 4.3). A method, as `to_le_bytes` is one, and no `From`: a block has other bytes in
    // a line.
    #[tactic(auto, unfolding(model::specs::Program::block_bytes, model::specs::Record::bytes16))]
    pub fn bytes(self) -> [u8; model::BLOCK_SIZE]
        ensures { result ≡ call_bytes self }
    {
        let [bottom_low, bottom_high] = self.bottom.to_le_bytes();
        let [top_low, top_high] = self.top.to_le_bytes();
        [
            self.column,
            u8::from(self.kind),
            bottom_low,
            bottom_high,
            top_low,
            top_high,
        ]
    }
}
