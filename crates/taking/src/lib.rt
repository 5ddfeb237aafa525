// The caller, a slot taken and filled, groups, a slot freed.
#![tactic(auto)]

ghost use Rattle.std.specs.Prelude.{◌≡◌, ◌<◌};
ghost use Rattle.rules.specs.Sizes.{slot_count, group_count};
ghost use Rattle.rules.specs.Model.{taken, group_at};
ghost use Rattle.rules.specs.Moves.{change, to_free, join_group, leave_group, set_group, less, reap};
ghost use Rattle.rules.specs.Calls.{fill};
ghost use Rattle.promises.specs.Order.Chains.{on_core};
ghost use Rattle.words.specs.Reading.{table_of, start_of, InTable, InGroups};
ghost use Rattle.words.specs.Effects.{on_books};
ghost use Rattle.taking.specs.Parts.{caller_of, InHart, taken_of, after_take, InSlots, slot_of};

use rules::{Group, Kin, Pid, ProcMeta, ProcState, Refusal};
use words::slot::{FREE_KIN, FREE_META, FREE_START, StartWords};
use words::{Table, book, slot};

// The slot that the hart runs.
#[tactic(auto, unfolding(crate::specs::Parts::caller_of, rules::specs::Sizes::hart_count))]
pub fn caller_on(t: &[u64; Table::WORDS], hart: usize) -> Result<usize, Refusal>
    ensures { (result ≡ caller_of (table_of t.now).core hart) × InHart hart result }
{
    if hart >= Table::HARTS {
        return Err(Refusal::NoSuchHart);
    }
    let caller = book::hart_at(t, hart).ok_or(Refusal::HartIdle)?;
    Ok(caller.0)
}

// The pid counter goes up first, even if no slot is UNUSED; the lowest UNUSED slot wins.
#[tactic(auto, unfolding(crate::specs::Parts::taken_of, crate::specs::Parts::after_take, rules::specs::Calls::spent, rules::specs::Moves::spend, words::specs::Effects::on_books, words::specs::Effects::with_pids, rules::specs::Sizes::pid_top))]
pub fn alloc_proc(t: &mut [u64; Table::WORDS]) -> Result<usize, Refusal>
    ensures { (result ≡ taken_of (table_of t.old)) × (table_of t.new ≡ after_take (table_of t.old)) × InSlots result }
{
    let next = book::pids(t).checked_add(1).ok_or(Refusal::PidsSpent)?;
    book::set_pids(t, next);
    scans::unused(t).ok_or(Refusal::TableFull)
}

// A slot's parts, all set.
fn set_slot(t: &mut [u64; Table::WORDS], i: usize, m: ProcMeta, k: Kin, b: StartWords)
    requires { (i < slot_count) × InGroups k.group × InTable k.parent }
    ensures { table_of t.new ≡ on_core (fill i (slot_of m k (start_of b))) (table_of t.old) }
{
    slot::set_meta(t, i, m);
    slot::set_kin(t, i, k);
    slot::set_start(t, i, b);
}

#[tactic(auto, unfolding(rules::specs::Model::taken))]
pub fn fill(t: &mut [u64; Table::WORDS], i: usize, n: u64, k: Kin, b: StartWords)
    requires { (i < slot_count) × InGroups k.group × InTable k.parent }
    ensures { table_of t.new ≡ on_core (fill i (taken n k (start_of b))) (table_of t.old) }
{
    let meta = ProcMeta {
        state: ProcState::ALLOCATED,
        pid: Pid(n),
        ..FREE_META
    };
    set_slot(t, i, meta, k, b);
}

#[tactic(auto, unfolding(rules::specs::Moves::join_group, words::specs::Effects::recount, words::specs::Effects::on_books, rules::specs::Sizes::slot_count))]
pub fn join_group(t: &mut [u64; Table::WORDS], g: usize)
    requires { (g < group_count) × ((group_at (table_of t.old).books g).count < slot_count) }
    ensures { table_of t.new ≡ on_books (join_group g) (table_of t.old) }
{
    let space = book::group_at(t, g);
    book::set_count(t, g, space.count + 1);
}

#[tactic(auto, unfolding(words::specs::Effects::recount, words::specs::Effects::on_books))]
fn leave(t: &mut [u64; Table::WORDS], g: usize)
    requires { g < group_count }
    ensures { table_of t.new ≡ on_books (set_group g (less (group_at (table_of t.old).books g))) (table_of t.old) }
{
    let space = book::group_at(t, g);
    if space.count <= 1 {
        book::set_group(t, g, Group { size: 0, count: 0 });
    } else {
        book::set_count(t, g, space.count - 1);
    }
}

#[tactic(auto, unfolding(rules::specs::Moves::leave_group, words::specs::Effects::on_books))]
fn leave_group(t: &mut [u64; Table::WORDS], m: Option<usize>)
    requires { InGroups m }
    ensures { table_of t.new ≡ on_books (leave_group m) (table_of t.old) }
{
    if let Some(g) = m {
        leave(t, g);
    }
}

fn clear(t: &mut [u64; Table::WORDS], i: usize)
    requires { i < slot_count }
    ensures { table_of t.new ≡ on_core (change to_free i) (table_of t.old) }
{
    set_slot(t, i, FREE_META, FREE_KIN, FREE_START);
}

// Freed: the slot, and its place in its group.
#[tactic(auto, unfolding(rules::specs::Moves::reap, words::specs::Effects::on_books, promises::specs::Order::Chains::on_core))]
pub fn free_proc(t: &mut [u64; Table::WORDS], i: usize)
    requires { i < slot_count }
    ensures { table_of t.new ≡ reap i (table_of t.old) }
{
    let group = slot::kin_at(t, i).group;
    leave_group(t, group);
    clear(t, i);
}
