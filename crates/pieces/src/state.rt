// A state's name.
ghost use Rattle.std.specs.Prelude.{◌≡◌, ◌+◌, ◌≤◌, length};
ghost use Rattle.rules.specs.Listing.{state_text};
ghost use Rattle.buffers.specs.Text.{Wrote};

use rules::ProcState;

#[tactic(auto, unfolding(rules::specs::Listing::state_text, rules::specs::Listing::bytes))]
pub fn name(s: ProcState) -> &'static [u8]
    ensures { result.now ≡ state_text s }
{
    match s {
        ProcState::UNUSED => b"UNUSED",
        ProcState::ALLOCATED => b"ALLOCATED",
        ProcState::RUNNABLE => b"RUNNABLE",
        ProcState::RUNNING => b"RUNNING",
        ProcState::SLEEPING => b"SLEEPING",
        ProcState::ZOMBIE => b"ZOMBIE",
    }
}

pub fn write(buffer: &mut [u8], at: usize, s: ProcState) -> usize
    requires { at + length (state_text s) ≤ length buffer.old }
    ensures { Wrote buffer.old at (state_text s) buffer.new result }
{
    buffers::write(buffer, at, name(s))
}
