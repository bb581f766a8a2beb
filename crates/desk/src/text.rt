// What is printed, as text: for a caller that owns its output.
ghost use Rattle.std.specs.Prelude.{◌≡◌, ◌≤◌, length, IsUtf8};

use arrayvec::ArrayString;
use std::str;

// A text becomes what was printed, which is text.
pub(crate) fn put<const N: usize>(text: &mut ArrayString<N>, printed: &[u8])
    requires text { IsUtf8 printed.now }
    requires room { length printed.now ≤ N }
    ensures { text.new.bytes ≡ printed.now }
{
    text.clear();
    text.push_str(str::from_utf8(printed).unwrap());
}
