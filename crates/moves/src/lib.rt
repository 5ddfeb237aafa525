// The scheduler's moves that calls are made of. Each is a move of the rules, by its contract, and asks only for what it needs.
#![tactic(auto)]

ghost use Rattle.std.specs.Prelude.{◌≡◌, ◌<◌, length};
ghost use Rattle.rules.specs.Sizes.{slot_count, hart_count, own_channel};
ghost use Rattle.rules.specs.Moves.{publish, idle, hand, yield_on, sleep_on, zombie_on};
ghost use Rattle.promises.specs.Order.Chains.{on_core};
ghost use Rattle.words.specs.Reading.{table_of};

use rules::{ProcState, Slot};
use words::{Table, book, queue, slot};

// The channel that those who wait for slot s sleep on.
#[tactic(auto, unfolding(rules::specs::Sizes::slot_count))]
pub fn own_channel(i: usize) -> u64
    requires { i < slot_count }
    ensures { result ≡ own_channel i }
{
    i as u64 + 1
}

// Publish: RUNNABLE, queued, appended to the tail.
#[tactic(auto, unfolding(rules::specs::Moves::change, promises::specs::Order::Chains::on_core))]
pub fn make_runnable(t: &mut [u64; Table::WORDS], i: usize)
    requires { (i < slot_count) × (length (table_of t.old).core.queue < slot_count) }
    ensures { table_of t.new ≡ on_core (publish i) (table_of t.old) }
{
    slot::set_state(t, i, ProcState::RUNNABLE);
    slot::set_queued(t, i, true);
    queue::push(t, i);
}

// Slot i, which just left the queue's head, runs on the hart.
pub fn run_on(t: &mut [u64; Table::WORDS], hart: usize, i: usize)
    requires { (hart < hart_count) × (i < slot_count) }
    ensures { table_of t.new ≡ on_core (λ c. hand hart i c.queue c) (table_of t.old) }
{
    slot::set_state(t, i, ProcState::RUNNING);
    slot::set_channel(t, i, 0);
    slot::set_queued(t, i, false);
    book::set_hart(t, hart, Some(Slot(i)));
}

#[tactic(auto, unfolding(rules::specs::Moves::idle, words::specs::Effects::with_hart, promises::specs::Order::Chains::on_core))]
pub fn idle(t: &mut [u64; Table::WORDS], hart: usize)
    requires { hart < hart_count }
    ensures { table_of t.new ≡ on_core (idle hart) (table_of t.old) }
{
    book::set_hart(t, hart, None);
}

#[tactic(auto, unfolding(rules::specs::Moves::yield_on, rules::specs::Moves::idle, promises::specs::Order::Chains::on_core))]
pub fn yield_on(t: &mut [u64; Table::WORDS], hart: usize, caller: usize)
    requires { (hart < hart_count) × (caller < slot_count) × (length (table_of t.old).core.queue < slot_count) }
    ensures { table_of t.new ≡ on_core (yield_on hart caller) (table_of t.old) }
{
    idle(t, hart);
    make_runnable(t, caller);
}

pub fn sleep_on(t: &mut [u64; Table::WORDS], hart: usize, caller: usize, channel: u64)
    requires { (hart < hart_count) × (caller < slot_count) }
    ensures { table_of t.new ≡ on_core (sleep_on hart caller channel) (table_of t.old) }
{
    idle(t, hart);
    slot::set_channel(t, caller, channel);
    slot::set_state(t, caller, ProcState::SLEEPING);
}

pub fn zombie_on(t: &mut [u64; Table::WORDS], hart: usize, caller: usize, status: u64)
    requires { (hart < hart_count) × (caller < slot_count) }
    ensures { table_of t.new ≡ on_core (zombie_on hart caller status) (table_of t.old) }
{
    idle(t, hart);
    slot::set_xstate(t, caller, status);
    slot::set_state(t, caller, ProcState::ZOMBIE);
}
