// What a user of the table may ask without changing it. A slot, group or hart that the table does not have is as a free one.
#![tactic(auto, using(crate::proofs::PastLaws::past_laws), unfolding(rules::specs::Sizes::slot_count, rules::specs::Sizes::group_count, rules::specs::Sizes::hart_count))]

ghost use Rattle.std.specs.Prelude.{◌≡◌, cond, ◌≤◌, length, get_or, ltb, Some, None};
ghost use Rattle.rules.specs.Sizes.{slot_count};
ghost use Rattle.rules.specs.Model.{at, hart_at, group_at, slot};
ghost use Rattle.words.specs.Reading.{table_of};

use rules::{Kin, Pid, ProcMeta, ProcState, Slot};
use words::{Table, book, queue, slot};

fn meta_of(t: &[u64; Table::WORDS], s: usize) -> ProcMeta
    ensures { result ≡ (at (table_of t.now).core s).meta }
{
    if s >= Table::SLOTS {
        return slot::FREE_META;
    }
    slot::meta_at(t, s)
}

fn kin_of(t: &[u64; Table::WORDS], s: usize) -> Kin
    ensures { result ≡ (at (table_of t.now).core s).kin }
{
    if s >= Table::SLOTS {
        return slot::FREE_KIN;
    }
    slot::kin_at(t, s)
}

// ---- of a slot
pub fn state(t: &[u64; Table::WORDS], s: Slot) -> ProcState
    ensures { result ≡ (at (table_of t.now).core s.0).meta.state }
{
    meta_of(t, s.0).state
}

pub fn channel(t: &[u64; Table::WORDS], s: Slot) -> u64
    ensures { result ≡ (at (table_of t.now).core s.0).meta.channel }
{
    meta_of(t, s.0).channel
}

pub fn killed(t: &[u64; Table::WORDS], s: Slot) -> bool
    ensures { result ≡ (at (table_of t.now).core s.0).meta.killed }
{
    meta_of(t, s.0).killed
}

pub fn pid(t: &[u64; Table::WORDS], s: Slot) -> Pid
    ensures { result ≡ (at (table_of t.now).core s.0).meta.pid }
{
    meta_of(t, s.0).pid
}

pub fn parent(t: &[u64; Table::WORDS], s: Slot) -> Option<Slot>
    ensures { result ≡ (at (table_of t.now).core s.0).kin.parent }
{
    kin_of(t, s.0).parent
}

pub fn group(t: &[u64; Table::WORDS], s: Slot) -> Option<usize>
    ensures { result ≡ (at (table_of t.now).core s.0).kin.group }
{
    kin_of(t, s.0).group
}

pub fn is_user_thread(t: &[u64; Table::WORDS], s: Slot) -> bool
    ensures { result ≡ (at (table_of t.now).core s.0).kin.thread }
{
    kin_of(t, s.0).thread
}

pub fn is_system_thread(t: &[u64; Table::WORDS], s: Slot) -> bool
    ensures { result ≡ (at (table_of t.now).core s.0).kin.system }
{
    kin_of(t, s.0).system
}

// ---- of the table
pub fn on_hart(t: &[u64; Table::WORDS], hart: usize) -> Option<Slot>
    ensures { result ≡ hart_at (table_of t.now).core hart }
{
    if hart >= Table::HARTS {
        return None;
    }
    book::hart_at(t, hart)
}

pub fn init(t: &[u64; Table::WORDS]) -> Option<Slot>
    ensures { result ≡ (table_of t.now).books.init }
{
    book::init(t)
}

pub fn pids(t: &[u64; Table::WORDS]) -> u64
    ensures { result ≡ (table_of t.now).books.pids }
{
    book::pids(t)
}

pub fn group_size(t: &[u64; Table::WORDS], g: usize) -> u64
    ensures { result ≡ (group_at (table_of t.now).books g).size }
{
    if g >= Table::SLOTS {
        return 0;
    }
    book::group_at(t, g).size
}

pub fn queue_len(t: &[u64; Table::WORDS]) -> usize
    ensures { result ≡ length (table_of t.now).core.queue }
{
    queue::waiting(t) as usize
}

// The slot with k ahead of it, if there is one.
pub fn queued(t: &[u64; Table::WORDS], k: usize) -> Option<Slot>
    requires { length (table_of t.now).core.queue ≤ slot_count }
    ensures { result ≡ cond (ltb k (length (table_of t.now).core.queue)) (Some (slot (get_or (table_of t.now).core.queue k 0))) None }
{
    if k >= queue_len(t) {
        return None;
    }
    Some(Slot(queue::queued_at(t, k)))
}
