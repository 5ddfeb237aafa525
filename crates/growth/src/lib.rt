// Grow: a group's size plus a signed count.
#![tactic(auto, using(crate::proofs::GrowLaws::refusals))]

ghost use Rattle.std.specs.Prelude.{◌≡◌, pos, ◌+ℤ◌};
ghost use Rattle.rules.specs.Calls.{within};
ghost use Rattle.rules.specs.Runs.{grow};
ghost use Rattle.promises.specs.Order.Sound.{Sound};
ghost use Rattle.promises.specs.Did.{Did};
ghost use Rattle.words.specs.Reading.{table_of};

use rules::{Answer, Grant, Refusal};
use words::{Table, book, slot};

// Below TRAPFRAME lies a page for each thread's trapframe.
const SIZE_TOP: u64 = stacks::TRAPFRAME - (Table::SLOTS as u64) * stacks::PAGE;

fn new_size(size: u64, count: i64) -> Option<u64>
    ensures { result ≡ within (pos size +ℤ count) }
{
    let sum = i128::from(size) + i128::from(count);
    u64::try_from(sum).ok().filter(|&n| n <= SIZE_TOP)
}

// The host's answer counts only if the count is positive.
pub fn grow_proc(t: &mut [u64; Table::WORDS], hart: usize, count: i64, memory: bool) -> Answer
    requires { Sound (table_of t.old) }
    ensures { Did (grow hart count memory) (table_of t.old) result (table_of t.new) }
{
    let caller = taking::caller_on(t, hart)?;
    let g = slot::kin_at(t, caller).group.ok_or(Refusal::NoGroup)?;
    let size = new_size(book::group_at(t, g).size, count).ok_or(Refusal::SizeOutOfLimits)?;
    if count > 0 && !memory {
        return Err(Refusal::NoMemory);
    }
    book::set_size(t, g, size);
    Ok(Grant::Done)
}
