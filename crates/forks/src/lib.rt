// Fork and thread creation.
#![tactic(auto)]

ghost use Rattle.std.specs.Prelude.{◌≡◌, true, cond, ◌+◌, ◌≤◌, ◌<◌, length, Some};
ghost use Rattle.rules.specs.Sizes.{slot_count, group_count, address_top, page_size};
ghost use Rattle.rules.specs.Model.{group_at, slot};
ghost use Rattle.rules.specs.Calls.{forked_in, forked_by, wrong_ask, unmapped, threaded_in, threaded_by};
ghost use Rattle.rules.specs.Runs.{fork, thread};
ghost use Rattle.promises.specs.Order.Sound.{Sound};
ghost use Rattle.promises.specs.Did.{Makes, Did};
ghost use Rattle.words.specs.Reading.{table_of, InTable};

use rules::{Answer, Grant, Group, Kin, Mapped, Pid, Refusal, Slot, ThreadAsk};
use words::slot::StartWords;
use words::{Table, book, slot};

// ---- fork
fn fork_in(t: &mut [u64; Table::WORDS], caller: usize, g: usize, child: usize) -> Answer
    requires { (caller < slot_count) × (g < group_count) × (child < slot_count) × (length (table_of t.old).core.queue < slot_count) }
    ensures { Makes (forked_in true caller g child (table_of t.old)) result (table_of t.new) }
{
    let n = book::pids(t);
    let space = book::group_at(t, g);
    let new = scans::new_group(t);
    let kin = Kin {
        group: Some(new),
        parent: Some(Slot(caller)),
        thread: false,
        system: false,
    };
    let start = StartWords {
        below: 0,
        sp: stacks::user_sp(child),
        entry: 0,
        top: 0,
        arg: 0,
        ret: 0,
        ..slot::start_at(t, caller)
    };
    taking::fill(t, child, n, kin, start);
    book::set_group(t, new, Group { count: 1, ..space });
    moves::make_runnable(t, child);
    Ok(Grant::Made(Pid(n)))
}

fn fork_by(t: &mut [u64; Table::WORDS], memory: bool, caller: usize) -> Answer
    requires { (caller < slot_count) × Sound (table_of t.old) }
    ensures { Makes (forked_by (table_of t.old) memory caller) result (table_of t.new) }
{
    let g = slot::kin_at(t, caller).group.ok_or(Refusal::NoGroup)?;
    let child = taking::alloc_proc(t)?;
    if !memory {
        return Err(Refusal::NoMemory);
    }
    fork_in(t, caller, g, child)
}

pub fn fork(t: &mut [u64; Table::WORDS], hart: usize, memory: bool) -> Answer
    requires { Sound (table_of t.old) }
    ensures { Did (fork hart memory) (table_of t.old) result (table_of t.new) }
{
    let caller = taking::caller_on(t, hart)?;
    fork_by(t, memory, caller)
}

// ---- threads
#[tactic(auto, unfolding(rules::specs::Calls::wrong_ask, rules::specs::Sizes::address_top, rules::specs::Sizes::page_size))]
fn wrong_ask(ask: ThreadAsk, size: u64) -> bool
    ensures { result ≡ wrong_ask ask size }
{
    let top = ask.stack.checked_add(stacks::PAGE);
    ask.stack % stacks::PAGE != 0
        || top.is_none_or(|top| size < top)
        || ask.entry >= size
        || ask.ret >= size
}

#[tactic(auto, unfolding(rules::specs::Calls::unmapped))]
fn unmapped(mapped: Mapped) -> bool
    ensures { result ≡ unmapped mapped }
{
    !(mapped.entry && mapped.ret && mapped.stack && mapped.top)
}

// Whose child a thread of s is: a thread's is its leader's.
fn leader_of(k: Kin, caller: usize) -> Option<Slot>
    requires { (caller < slot_count) × InTable k.parent }
    ensures { (result ≡ cond k.thread k.parent (Some (slot caller))) × InTable result }
{
    if k.thread {
        k.parent
    } else {
        Some(Slot(caller))
    }
}

fn thread_in(
    t: &mut [u64; Table::WORDS],
    ask: ThreadAsk,
    caller: usize,
    g: usize,
    i: usize,
) -> Answer
    requires { (caller < slot_count) × (g < group_count) × (i < slot_count) × (length (table_of t.old).core.queue < slot_count) × ((group_at (table_of t.old).books g).count < slot_count) × (ask.stack + page_size ≤ address_top) }
    ensures { Makes (threaded_in ask caller g i (table_of t.old)) result (table_of t.new) }
{
    let n = book::pids(t);
    let kin = Kin {
        group: Some(g),
        parent: leader_of(slot::kin_at(t, caller), caller),
        thread: true,
        system: false,
    };
    let start = StartWords {
        below: stacks::below(i),
        sp: stacks::user_sp(i),
        entry: ask.entry,
        top: ask.stack + stacks::PAGE,
        arg: ask.arg,
        ret: ask.ret,
        ..slot::start_at(t, caller)
    };
    taking::fill(t, i, n, kin, start);
    taking::join_group(t, g);
    moves::make_runnable(t, i);
    Ok(Grant::Made(Pid(n)))
}

fn thread_by(t: &mut [u64; Table::WORDS], ask: ThreadAsk, mapped: Mapped, caller: usize) -> Answer
    requires { (caller < slot_count) × Sound (table_of t.old) }
    ensures { Makes (threaded_by (table_of t.old) ask mapped caller) result (table_of t.new) }
{
    let g = slot::kin_at(t, caller).group.ok_or(Refusal::NoGroup)?;
    if wrong_ask(ask, book::group_at(t, g).size) {
        return Err(Refusal::BadAddress);
    }
    if unmapped(mapped) {
        return Err(Refusal::Unmapped);
    }
    let i = taking::alloc_proc(t)?;
    thread_in(t, ask, caller, g, i)
}

pub fn create_user_thread(
    t: &mut [u64; Table::WORDS],
    hart: usize,
    ask: ThreadAsk,
    mapped: Mapped,
) -> Answer
    requires { Sound (table_of t.old) }
    ensures { Did (thread hart ask mapped) (table_of t.old) result (table_of t.new) }
{
    let caller = taking::caller_on(t, hart)?;
    thread_by(t, ask, mapped, caller)
}
