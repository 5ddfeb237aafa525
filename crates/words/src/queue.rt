// The run queue. A ring of places under two running counts that wrap past their top on purpose, wherever it stands.
#![tactic(auto, using(crate::proofs::QueueLaws::queue_laws), unfolding(rules::specs::Sizes::slot_count, crate::specs::Reading::count_at, crate::specs::Reading::place_at, crate::specs::Effects::pushed, crate::specs::Effects::popped))]

ghost use Rattle.std.specs.Prelude.{◌≡◌, ◌+◌, ◌<◌, ◌≤◌, length, slice_index};
ghost use Rattle.rules.specs.Sizes.{slot_count};
ghost use Rattle.promises.specs.Order.Chains.{on_core};
ghost use Rattle.words.specs.Layout.{word_count};
ghost use Rattle.words.specs.Reading.{table_of, count_at, place_at, queue_at};
ghost use Rattle.words.specs.Effects.{enqueue, Popped, pushed, popped};

use crate::Table;
use crate::layout::{Cell, Column, get, get_cell, put, put_cell};

// A ring: the cells of its two counts, and the column of its places.
#[derive(Clone, Copy)]
struct RingAt {
    head: Cell,
    tail: Cell,
    places: Column,
}

const RUN_QUEUE: RingAt = RingAt {
    head: Cell::Head,
    tail: Cell::Tail,
    places: Column::Place,
};

// One past the top of a 32-bit count.
const TURNS: u64 = 1 << 32;

fn count(t: &[u64; Table::WORDS], cell: Cell) -> u32
    ensures { result ≡ count_at t.now cell }
{
    (get_cell(t, cell) % TURNS) as u32
}

impl RingAt {
    fn waiting(self, t: &[u64; Table::WORDS]) -> u32
        ensures { result ≡ length (queue_at self t.now) }
    {
        count(t, self.tail).wrapping_sub(count(t, self.head))
    }

    fn push(self, t: &mut [u64; Table::WORDS], s: usize)
        ensures { (t.new ≡ pushed self s t.old) × (length t.old ≡ word_count) }
    {
        let tail = count(t, self.tail);
        put(t, self.places, tail as usize % Table::SLOTS, s as u64);
        put_cell(t, self.tail, tail.wrapping_add(1) as u64);
    }

    // The slot with i ahead of it.
    fn place(self, t: &[u64; Table::WORDS], i: usize) -> usize
        requires { i < slot_count }
        ensures { (result ≡ place_at self t.now i) × (result < slot_count) }
    {
        let head = count(t, self.head);
        let s = get(t, self.places, (head as usize + i) % Table::SLOTS);
        (s % Table::SLOTS as u64) as usize
    }

    fn pop(self, t: &mut [u64; Table::WORDS]) -> usize
        ensures { (result ≡ place_at self t.old 0) × (t.new ≡ popped self t.old) × (length t.old ≡ word_count) }
    {
        let s = self.place(t, 0);
        let head = count(t, self.head);
        put_cell(t, self.head, head.wrapping_add(1) as u64);
        s
    }
}

pub fn waiting(t: &[u64; Table::WORDS]) -> u32
    ensures { result ≡ length (table_of t.now).core.queue }
{
    RUN_QUEUE.waiting(t)
}

pub fn push(t: &mut [u64; Table::WORDS], s: usize)
    requires { (s < slot_count) × (length (table_of t.old).core.queue < slot_count) }
    ensures { table_of t.new ≡ on_core (enqueue s) (table_of t.old) }
{
    RUN_QUEUE.push(t, s);
}

pub fn pop(t: &mut [u64; Table::WORDS]) -> usize
    requires { (0 < length (table_of t.old).core.queue) × (length (table_of t.old).core.queue ≤ slot_count) }
    ensures { Popped (table_of t.old) result (table_of t.new) }
{
    RUN_QUEUE.pop(t)
}

pub fn queued_at(t: &[u64; Table::WORDS], i: usize) -> usize
    requires { (i < length (table_of t.now).core.queue) × (length (table_of t.now).core.queue ≤ slot_count) }
    ensures { (result ≡ slice_index (table_of t.now).core.queue i) × (result < slot_count) }
{
    RUN_QUEUE.place(t, i)
}
