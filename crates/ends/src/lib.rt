// Exit and thread exit.
#![tactic(auto)]

ghost use Rattle.std.specs.Prelude.{◌≡◌, ◌<◌, Some, None};
ghost use Rattle.rules.specs.Sizes.{slot_count, hart_count};
ghost use Rattle.rules.specs.Calls.{reap_first, reap_threads, exited_past, leader_exited, thread_ended, exited_by, thread_exited_by, stays};
ghost use Rattle.rules.specs.Runs.{exit, thread_exit};
ghost use Rattle.promises.specs.Order.Sound.{Queued, Sound};
ghost use Rattle.promises.specs.Did.{Makes, Did};
ghost use Rattle.words.specs.Reading.{table_of};
ghost use Rattle.ends.specs.Looks.{first_is_zombie};

use rules::{Answer, Grant, ProcState, Refusal, Slot};
use words::{Table, book, slot};

// ---- the threads of a process
// The lowest thread slot of the group, if ZOMBIE, is reaped; was one?
fn reap_first(t: &mut [u64; Table::WORDS], m: Option<usize>) -> bool
    ensures { (table_of t.new ≡ reap_first m (table_of t.old)) × (result ≡ first_is_zombie m (table_of t.old)) }
{
    let Some(i) = scans::thread_of(t, m) else {
        return false;
    };
    if scans::is(t, i, ProcState::ZOMBIE) {
        taking::free_proc(t, i);
        return true;
    }
    false
}

fn reap_threads(t: &mut [u64; Table::WORDS], m: Option<usize>)
    ensures { table_of t.new ≡ reap_threads m (table_of t.old) }
{
    for _ in 0..Table::SLOTS {
        if !reap_first(t, m) {
            return;
        }
    }
}

// ---- the end of the caller s
fn await_thread(
    t: &mut [u64; Table::WORDS],
    hart: usize,
    status: u64,
    caller: usize,
    i: usize,
) -> Answer
    requires { (hart < hart_count) × (caller < slot_count) × (i < slot_count) × Queued (table_of t.old).core }
    ensures { Makes (exited_past (table_of t.old) hart status caller (Some i)) result (table_of t.new) }
{
    wakes::slay(t, i);
    moves::sleep_on(t, hart, caller, moves::own_channel(i));
    Ok(Grant::Blocked)
}

fn depart(t: &mut [u64; Table::WORDS], hart: usize, status: u64, caller: usize) -> Answer
    requires { (hart < hart_count) × (caller < slot_count) × Queued (table_of t.old).core }
    ensures { Makes (exited_past (table_of t.old) hart status caller None) result (table_of t.new) }
{
    wakes::reparent(t, caller);
    wakes::wake_of(t, slot::kin_at(t, caller).parent);
    moves::zombie_on(t, hart, caller, status);
    Ok(Grant::Done)
}

fn exit_leader(t: &mut [u64; Table::WORDS], hart: usize, status: u64, caller: usize) -> Answer
    requires { (hart < hart_count) × (caller < slot_count) × Sound (table_of t.old) }
    ensures { Makes (leader_exited (table_of t.old) hart status caller) result (table_of t.new) }
{
    let group = slot::kin_at(t, caller).group;
    reap_threads(t, group);
    match scans::thread_of(t, group) {
        Some(i) => await_thread(t, hart, status, caller, i),
        None => depart(t, hart, status, caller),
    }
}

fn exit_thread(t: &mut [u64; Table::WORDS], hart: usize, status: u64, caller: usize) -> Answer
    requires { (hart < hart_count) × (caller < slot_count) × Queued (table_of t.old).core }
    ensures { Makes (thread_ended (table_of t.old) hart status caller) result (table_of t.new) }
{
    wakes::reparent(t, caller);
    wakes::wake_up(t, moves::own_channel(caller));
    moves::zombie_on(t, hart, caller, status);
    Ok(Grant::Done)
}

// ---- the calls
// Init and system threads leave in neither way.
fn stays(t: &[u64; Table::WORDS], caller: usize) -> bool
    requires { caller < slot_count }
    ensures { result ≡ stays (table_of t.now) caller }
{
    book::init(t) == Some(Slot(caller)) || slot::kin_at(t, caller).system
}

fn thread_exit_by(t: &mut [u64; Table::WORDS], hart: usize, status: u64, caller: usize) -> Answer
    requires { (hart < hart_count) × (caller < slot_count) × Sound (table_of t.old) }
    ensures { Makes (thread_exited_by (table_of t.old) hart status caller) result (table_of t.new) }
{
    if stays(t, caller) {
        return Err(Refusal::WrongWayOut);
    }
    if slot::kin_at(t, caller).thread {
        return exit_thread(t, hart, status, caller);
    }
    exit_leader(t, hart, status, caller)
}

// Whoever is no thread exits as by thread exit.
fn exit_by(t: &mut [u64; Table::WORDS], hart: usize, status: u64, caller: usize) -> Answer
    requires { (hart < hart_count) × (caller < slot_count) × Sound (table_of t.old) }
    ensures { Makes (exited_by (table_of t.old) hart status caller) result (table_of t.new) }
{
    if slot::kin_at(t, caller).thread {
        return Err(Refusal::WrongWayOut);
    }
    thread_exit_by(t, hart, status, caller)
}

pub fn exit(t: &mut [u64; Table::WORDS], hart: usize, status: u64) -> Answer
    requires { Sound (table_of t.old) }
    ensures { Did (exit hart status) (table_of t.old) result (table_of t.new) }
{
    let caller = taking::caller_on(t, hart)?;
    exit_by(t, hart, status, caller)
}

pub fn thread_exit(t: &mut [u64; Table::WORDS], hart: usize, status: u64) -> Answer
    requires { Sound (table_of t.old) }
    ensures { Did (thread_exit hart status) (table_of t.old) result (table_of t.new) }
{
    let caller = taking::caller_on(t, hart)?;
    thread_exit_by(t, hart, status, caller)
}
