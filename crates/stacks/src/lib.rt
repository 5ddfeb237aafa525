// The addresses that go with a slot.
#![tactic(auto)]

ghost use Rattle.std.specs.Prelude.{◌≡◌, ◌-◌, ◌<◌};
ghost use Rattle.rules.specs.Sizes.{slot_count, trampoline, trapframe, kernel_stack, user_sp, system_sp, thread_trapframe};

pub const PAGE: u64 = 4096;

// The last page below 2^38, and the page below it.
const TRAMPOLINE: u64 = (1 << 38) - PAGE;

pub const TRAPFRAME: u64 = TRAMPOLINE - PAGE;

// Four pages and a guard page.
fn kernel_stack(s: usize) -> u64
    requires { s < slot_count }
    ensures { (result ≡ kernel_stack s) × (result < trampoline) }
{
    TRAMPOLINE - ((s as u64) + 1) * 5 * PAGE
}

pub fn user_sp(s: usize) -> u64
    requires { s < slot_count }
    ensures { result ≡ user_sp s }
{
    kernel_stack(s) + PAGE
}

pub fn system_sp(s: usize) -> u64
    requires { s < slot_count }
    ensures { result ≡ system_sp s }
{
    kernel_stack(s) + 4 * PAGE
}

// How far below TRAPFRAME the trapframe of a thread lies.
pub fn below(s: usize) -> u64
    requires { s < slot_count }
    ensures { trapframe - result ≡ thread_trapframe s }
{
    ((s as u64) + 1) * PAGE
}
