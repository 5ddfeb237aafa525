// Wake, kill and reparent: scans that publish.
#![tactic(auto)]

ghost use Rattle.std.specs.Prelude.{◌≡◌, ◌<◌};
ghost use Rattle.rules.specs.Sizes.{slot_count};
ghost use Rattle.rules.specs.Model.{with_parent};
ghost use Rattle.rules.specs.Moves.{change, wake_one, wake, wake_of, slay, hand_over, reparent};
ghost use Rattle.promises.specs.Order.Sound.{Queued};
ghost use Rattle.promises.specs.Order.Chains.{on_core};
ghost use Rattle.words.specs.Reading.{table_of, InTable};

use rules::{ProcState, Slot};
use words::{Table, book, slot};

#[tactic(auto, using(crate::proofs::WakeLaws::room_asleep), unfolding(rules::specs::Moves::wake_one, rules::specs::Moves::publish_if, promises::specs::Order::Chains::on_core))]
fn wake_one(t: &mut [u64; Table::WORDS], i: usize, channel: u64)
    requires { (i < slot_count) × Queued (table_of t.old).core }
    ensures { table_of t.new ≡ on_core (wake_one channel i) (table_of t.old) }
{
    if scans::is(t, i, ProcState::SLEEPING) && slot::channel_at(t, i) == channel {
        moves::make_runnable(t, i);
    }
}

// Four slots a turn, here and in `reparent`: see docs/SPEED.md.
#[tactic(auto, unfolding(rules::specs::Sizes::slot_count))]
pub fn wake_up(t: &mut [u64; Table::WORDS], channel: u64)
    requires { Queued (table_of t.old).core }
    ensures { table_of t.new ≡ on_core (wake channel) (table_of t.old) }
{
    for b in 0..Table::SLOTS / 4 {
        let i = 4 * b;
        wake_one(t, i, channel);
        wake_one(t, i + 1, channel);
        wake_one(t, i + 2, channel);
        wake_one(t, i + 3, channel);
    }
}

// The own channel of the slot is woken, where there is a slot.
#[tactic(auto, unfolding(rules::specs::Moves::wake_of, promises::specs::Order::Chains::on_core))]
pub fn wake_of(t: &mut [u64; Table::WORDS], p: Option<Slot>)
    requires { InTable p × Queued (table_of t.old).core }
    ensures { table_of t.new ≡ on_core (wake_of p) (table_of t.old) }
{
    if let Some(i) = p {
        wake_up(t, moves::own_channel(i.0));
    }
}

// Killed, and published if SLEEPING.
#[tactic(auto, unfolding(rules::specs::Moves::slay, rules::specs::Moves::publish_if, promises::specs::Order::Chains::on_core))]
pub fn slay(t: &mut [u64; Table::WORDS], i: usize)
    requires { (i < slot_count) × Queued (table_of t.old).core }
    ensures { table_of t.new ≡ on_core (slay i) (table_of t.old) }
{
    let asleep = scans::is(t, i, ProcState::SLEEPING);
    slot::set_killed(t, i, true);
    if asleep {
        moves::make_runnable(t, i);
    }
}

#[tactic(auto, unfolding(promises::specs::Order::Chains::on_core))]
fn adopt(t: &mut [u64; Table::WORDS], init: Option<Slot>, i: usize)
    requires { (i < slot_count) × InTable init × Queued (table_of t.old).core }
    ensures { table_of t.new ≡ on_core (λ c. wake_of init (change (with_parent init) i c)) (table_of t.old) }
{
    slot::set_parent(t, i, init);
    wake_of(t, init);
}

#[tactic(auto, unfolding(rules::specs::Moves::hand_over, promises::specs::Order::Chains::on_core))]
fn hand_over(t: &mut [u64; Table::WORDS], init: Option<Slot>, caller: usize, i: usize)
    requires { (i < slot_count) × InTable init × Queued (table_of t.old).core }
    ensures { table_of t.new ≡ on_core (hand_over init caller i) (table_of t.old) }
{
    // Not compared: `let .. else` is the form that document 01 names for this place.
    let Some(parent) = slot::parent_at(t, i) else {
        return;
    };
    if parent == Slot(caller) {
        adopt(t, init, i);
    }
}

// Each slot whose parent is the caller, ZOMBIE or not, gets init, and for each init's channel is woken.
#[tactic(auto, unfolding(rules::specs::Sizes::slot_count))]
pub fn reparent(t: &mut [u64; Table::WORDS], caller: usize)
    requires { Queued (table_of t.old).core }
    ensures { table_of t.new ≡ on_core (reparent (table_of t.old).books.init caller) (table_of t.old) }
{
    let init = book::init(t);
    for b in 0..Table::SLOTS / 4 {
        let i = 4 * b;
        hand_over(t, init, caller, i);
        hand_over(t, init, caller, i + 1);
        hand_over(t, init, caller, i + 2);
        hand_over(t, init, caller, i + 3);
    }
}
