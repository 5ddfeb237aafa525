// Boot, start, and system threads.
#![tactic(auto, using(crate::proofs::BirthLaws::refusals), unfolding(rules::specs::Sizes::name_size))]

ghost use Rattle.std.specs.Prelude.{◌<◌, length};
ghost use Rattle.rules.specs.Sizes.{slot_count};
ghost use Rattle.rules.specs.Calls.{booted_in, spawned_in};
ghost use Rattle.rules.specs.Runs.{boot, start, spawn, system_return};
ghost use Rattle.promises.specs.Order.Sound.{Sound};
ghost use Rattle.promises.specs.Did.{Makes, Did};
ghost use Rattle.words.specs.Reading.{table_of};

use rules::{Answer, Grant, Group, Kin, Pid, ProcState, Refusal, Slot};
use words::slot::StartWords;
use words::{Table, book, slot};

const NAME_SIZE: usize = 16;

fn boot_in(t: &mut [u64; Table::WORDS], i: usize) -> Answer
    requires { i < slot_count }
    ensures { Makes (booted_in i (table_of t.old)) result (table_of t.new) }
{
    let n = book::pids(t);
    let g = scans::new_group(t);
    let name = names::pack(b"initname");
    taking::fill(
        t,
        i,
        n,
        Kin {
            group: Some(g),
            parent: None,
            thread: false,
            system: false,
        },
        StartWords {
            below: 0,
            sp: stacks::user_sp(i),
            entry: 0,
            top: 4 * stacks::PAGE,
            arg: 0,
            ret: 0,
            name0: name.low,
            name1: name.high,
        },
    );
    book::set_group(
        t,
        g,
        Group {
            size: stacks::PAGE,
            count: 1,
        },
    );
    book::set_init(t, Some(Slot(i)));
    Ok(Grant::Made(Pid(n)))
}

pub fn user_init(t: &mut [u64; Table::WORDS]) -> Answer
    requires { Sound (table_of t.old) }
    ensures { Did boot (table_of t.old) result (table_of t.new) }
{
    if book::init(t).is_some() {
        return Err(Refusal::InitOutOfTurn);
    }
    let i = taking::alloc_proc(t)?;
    boot_in(t, i)
}

pub fn start_init_process(t: &mut [u64; Table::WORDS]) -> Answer
    requires { Sound (table_of t.old) }
    ensures { Did start (table_of t.old) result (table_of t.new) }
{
    let init = book::init(t).ok_or(Refusal::InitOutOfTurn)?;
    if scans::is(t, init.0, ProcState::ALLOCATED) {
        moves::make_runnable(t, init.0);
        Ok(Grant::Done)
    } else {
        Err(Refusal::InitOutOfTurn)
    }
}

fn spawn_in(t: &mut [u64; Table::WORDS], name: &[u8], entry: u64, i: usize) -> Answer
    requires { (i < slot_count) × (length (table_of t.old).core.queue < slot_count) }
    ensures { Makes (spawned_in name.now entry i (table_of t.old)) result (table_of t.new) }
{
    let n = book::pids(t);
    let w = names::pack(name);
    taking::fill(
        t,
        i,
        n,
        Kin {
            group: None,
            parent: None,
            thread: false,
            system: true,
        },
        StartWords {
            below: 0,
            sp: stacks::system_sp(i),
            entry,
            top: 0,
            arg: 0,
            ret: 0,
            name0: w.low,
            name1: w.high,
        },
    );
    moves::make_runnable(t, i);
    Ok(Grant::Made(Pid(n)))
}

pub fn spawn_system_thread(t: &mut [u64; Table::WORDS], name: &[u8], entry: u64) -> Answer
    requires { Sound (table_of t.old) }
    ensures { Did (spawn name.now entry) (table_of t.old) result (table_of t.new) }
{
    if name.len() > NAME_SIZE {
        return Err(Refusal::NameTooLong);
    }
    let i = taking::alloc_proc(t)?;
    spawn_in(t, name, entry, i)
}

// A system thread's return frees its slot at once.
pub fn free_system_thread(t: &mut [u64; Table::WORDS], hart: usize) -> Answer
    requires { Sound (table_of t.old) }
    ensures { Did (system_return hart) (table_of t.old) result (table_of t.new) }
{
    let caller = taking::caller_on(t, hart)?;
    if !slot::kin_at(t, caller).system {
        return Err(Refusal::WrongWayOut);
    }
    moves::idle(t, hart);
    taking::free_proc(t, caller);
    Ok(Grant::Done)
}
