// Wait and join: a ZOMBIE is reaped, or the caller sleeps until there is one.
#![tactic(auto)]

ghost use Rattle.std.specs.Prelude.{◌≡◌, ◌<◌, Some, None};
ghost use Rattle.rules.specs.Sizes.{slot_count, hart_count};
ghost use Rattle.rules.specs.Calls.{unwritable, signed, waited_for, joined_to, joined_by};
ghost use Rattle.rules.specs.Runs.{wait, join};
ghost use Rattle.promises.specs.Order.Sound.{Sound};
ghost use Rattle.promises.specs.Did.{Makes, Did};
ghost use Rattle.words.specs.Reading.{table_of};

use rules::{Answer, Grant, Pid, ProcState, Refusal, Wish};
use words::{Table, slot};

fn unwritable(wish: Wish) -> bool
    ensures { result ≡ unwritable wish }
{
    matches!(wish, Wish::Unwritable)
}

// The low 32 bits, read as a two's complement number.
fn signed(status: u64) -> i32
    ensures { result ≡ signed status }
{
    ((status & 0xffff_ffff) as u32).cast_signed()
}

// ---- wait
fn reap_child(
    t: &mut [u64; Table::WORDS],
    hart: usize,
    wish: Wish,
    caller: usize,
    i: usize,
) -> Answer
    requires { i < slot_count }
    ensures { Makes (waited_for (table_of t.old) hart wish caller (Some i)) result (table_of t.new) }
{
    if unwritable(wish) {
        return Err(Refusal::StatusUnwritable);
    }
    let m = slot::meta_at(t, i);
    taking::free_proc(t, i);
    Ok(Grant::Reaped(m.pid, m.xstate))
}

fn await_child(t: &mut [u64; Table::WORDS], hart: usize, wish: Wish, caller: usize) -> Answer
    requires { (hart < hart_count) × (caller < slot_count) }
    ensures { Makes (waited_for (table_of t.old) hart wish caller None) result (table_of t.new) }
{
    if slot::meta_at(t, caller).killed || scans::child_of(t, caller).is_none() {
        return Err(Refusal::NoneSuch);
    }
    moves::sleep_on(t, hart, caller, moves::own_channel(caller));
    Ok(Grant::Blocked)
}

// `killed` is looked at only after the scan.
pub fn wait(t: &mut [u64; Table::WORDS], hart: usize, wish: Wish) -> Answer
    requires { Sound (table_of t.old) }
    ensures { Did (wait hart wish) (table_of t.old) result (table_of t.new) }
{
    let caller = taking::caller_on(t, hart)?;
    match scans::zombie_child_of(t, caller) {
        Some(i) => reap_child(t, hart, wish, caller, i),
        None => await_child(t, hart, wish, caller),
    }
}

// ---- join
fn join_to(t: &mut [u64; Table::WORDS], hart: usize, wish: Wish, caller: usize, i: usize) -> Answer
    requires { (hart < hart_count) × (caller < slot_count) × (i < slot_count) }
    ensures { Makes (joined_to (table_of t.old) hart wish caller i) result (table_of t.new) }
{
    if scans::is(t, i, ProcState::ZOMBIE) {
        if unwritable(wish) {
            return Err(Refusal::StatusUnwritable);
        }
        let m = slot::meta_at(t, i);
        taking::free_proc(t, i);
        return Ok(Grant::Joined(signed(m.xstate)));
    }
    moves::sleep_on(t, hart, caller, moves::own_channel(i));
    Ok(Grant::Blocked)
}

fn join_by(t: &mut [u64; Table::WORDS], hart: usize, pid: Pid, wish: Wish, caller: usize) -> Answer
    requires { (hart < hart_count) × (caller < slot_count) }
    ensures { Makes (joined_by (table_of t.old) hart pid wish caller) result (table_of t.new) }
{
    let g = slot::kin_at(t, caller).group.ok_or(Refusal::NoGroup)?;
    if slot::meta_at(t, caller).pid == pid {
        return Err(Refusal::NoneSuch);
    }
    let i = scans::thread_named(t, pid, Some(g)).ok_or(Refusal::NoneSuch)?;
    join_to(t, hart, wish, caller, i)
}

pub fn join_user_thread(t: &mut [u64; Table::WORDS], hart: usize, pid: Pid, wish: Wish) -> Answer
    requires { Sound (table_of t.old) }
    ensures { Did (join hart pid wish) (table_of t.old) result (table_of t.new) }
{
    let caller = taking::caller_on(t, hart)?;
    join_by(t, hart, pid, wish, caller)
}
