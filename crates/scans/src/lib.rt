// The scans: the lowest slot that passes a test, and the lowest group with nobody in it.
#![tactic(auto)]

ghost use Rattle.std.specs.Prelude.{◌≡◌, ◌<◌, ℕ};
ghost use Rattle.rules.specs.declared.ProcState.TheVariants.{UNUSED};
ghost use Rattle.rules.specs.Sizes.{slot_count, group_count};
ghost use Rattle.rules.specs.Model.{at, is};
ghost use Rattle.rules.specs.Moves.{lowest, new_group};
ghost use Rattle.rules.specs.Calls.{has_pid, child_of, zombie_child_of, thread_of, thread_named};
ghost use Rattle.words.specs.Reading.{table_of};
ghost use Rattle.scans.specs.Tests.{InRange, IsLeast};

use rules::{Pid, ProcState, Slot};
use words::{Table, book, slot};

pub fn is(t: &[u64; Table::WORDS], i: usize, a: ProcState) -> bool
    requires { i < slot_count }
    ensures { result ≡ is a (at (table_of t.now).core i) }
{
    slot::state_at(t, i) == a
}

// A test on what differs most comes first: a scan then reads one word of most slots.
#[tactic(auto, unfolding(rules::specs::Calls::has_pid))]
fn has_pid(t: &[u64; Table::WORDS], p: Pid, i: usize) -> bool
    requires { i < slot_count }
    ensures { result ≡ has_pid p (at (table_of t.now).core i) }
{
    slot::pid_at(t, i) == p && !is(t, i, ProcState::UNUSED)
}

#[tactic(auto, unfolding(rules::specs::Calls::child_of))]
fn is_child_of(t: &[u64; Table::WORDS], s: usize, i: usize) -> bool
    requires { i < slot_count }
    ensures { result ≡ child_of s (at (table_of t.now).core i) }
{
    slot::parent_at(t, i) == Some(Slot(s)) && !slot::kin_at(t, i).thread
}

#[tactic(auto, unfolding(rules::specs::Calls::zombie_child_of))]
fn is_zombie_child_of(t: &[u64; Table::WORDS], s: usize, i: usize) -> bool
    requires { i < slot_count }
    ensures { result ≡ zombie_child_of s (at (table_of t.now).core i) }
{
    is(t, i, ProcState::ZOMBIE) && is_child_of(t, s, i)
}

#[tactic(auto, unfolding(rules::specs::Calls::thread_of))]
fn is_thread_of(t: &[u64; Table::WORDS], m: Option<usize>, i: usize) -> bool
    requires { i < slot_count }
    ensures { result ≡ thread_of m (at (table_of t.now).core i) }
{
    let kin = slot::kin_at(t, i);
    kin.thread && m.is_some() && kin.group == m
}

#[tactic(auto, unfolding(rules::specs::Calls::thread_named))]
fn is_thread_named(t: &[u64; Table::WORDS], p: Pid, m: Option<usize>, i: usize) -> bool
    requires { i < slot_count }
    ensures { result ≡ thread_named p m (at (table_of t.now).core i) }
{
    slot::pid_at(t, i) == p && is_thread_of(t, m, i)
}

fn lowest<F: Fn(usize) -> bool>(test: F) -> Option<usize>
    requires { (i : ℕ) → i < slot_count → F.pre test i }
    ensures { IsLeast (F.post test) result }
{
    (0..Table::SLOTS).find(
        |&i|
            requires { F.pre test i }
        { test(i) },
    )
}

pub fn unused(t: &[u64; Table::WORDS]) -> Option<usize>
    ensures { (result ≡ lowest (is UNUSED) (table_of t.now).core.slots) × InRange result }
{
    lowest(|i| is(t, i, ProcState::UNUSED))
}

pub fn with_pid(t: &[u64; Table::WORDS], p: Pid) -> Option<usize>
    ensures { (result ≡ lowest (has_pid p) (table_of t.now).core.slots) × InRange result }
{
    lowest(|i| has_pid(t, p, i))
}

pub fn child_of(t: &[u64; Table::WORDS], s: usize) -> Option<usize>
    ensures { (result ≡ lowest (child_of s) (table_of t.now).core.slots) × InRange result }
{
    lowest(|i| is_child_of(t, s, i))
}

pub fn zombie_child_of(t: &[u64; Table::WORDS], s: usize) -> Option<usize>
    ensures { (result ≡ lowest (zombie_child_of s) (table_of t.now).core.slots) × InRange result }
{
    lowest(|i| is_zombie_child_of(t, s, i))
}

pub fn thread_of(t: &[u64; Table::WORDS], m: Option<usize>) -> Option<usize>
    ensures { (result ≡ lowest (thread_of m) (table_of t.now).core.slots) × InRange result }
{
    lowest(|i| is_thread_of(t, m, i))
}

pub fn thread_named(t: &[u64; Table::WORDS], p: Pid, m: Option<usize>) -> Option<usize>
    ensures { (result ≡ lowest (thread_named p m) (table_of t.now).core.slots) × InRange result }
{
    lowest(|i| is_thread_named(t, p, m, i))
}

pub fn new_group(t: &[u64; Table::WORDS]) -> usize
    ensures { (result ≡ new_group (table_of t.now).books) × (result < group_count) }
{
    lowest(|g| book::group_at(t, g).count == 0).unwrap_or(0)
}
