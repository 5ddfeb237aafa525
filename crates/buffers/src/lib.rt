// Text in a lent buffer.
#![tactic(auto)]

ghost use Rattle.std.specs.Prelude.{◌+◌, ◌≤◌, length};
ghost use Rattle.buffers.specs.Text.{Wrote};

// Puts the piece at a place, and returns the place after it.
#[tactic(auto, unfolding(crate::specs::Text::put))]
pub fn write(buffer: &mut [u8], at: usize, piece: &[u8]) -> usize
    requires { at + length piece.now ≤ length buffer.old }
    ensures { Wrote buffer.old at piece.now buffer.new result }
{
    let end = at + piece.len();
    buffer[at..end].copy_from_slice(piece);
    end
}
