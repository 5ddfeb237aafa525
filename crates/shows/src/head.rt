// The queue and the harts, with commas.
ghost use Rattle.std.specs.Prelude.{◌+◌, ◌≤◌, length};
ghost use Rattle.rules.specs.Sizes.{slot_count};
ghost use Rattle.words.specs.Reading.{table_of};
ghost use Rattle.buffers.specs.Text.{Wrote};
ghost use Rattle.shows.specs.Shows.{queue_text, harts_text, queue_top, harts_top};

use words::{Table, book, queue};

pub fn write_queue(t: &[u64; Table::WORDS], out: &mut [u8], at: usize) -> usize
    requires { (length (table_of t.now).core.queue ≤ slot_count) × (at + queue_top ≤ length out.old) }
    ensures { Wrote out.old at (queue_text (table_of t.now).core.queue) out.new result × (result ≤ at + queue_top) }
{
    let n = queue::waiting(t) as usize;
    if n == 0 {
        return buffers::write(out, at, b" queue -");
    }
    let mut on = pieces::write_field(out, at, b" queue ", queue::queued_at(t, 0) as u64);
    for i in 1..n {
        on = pieces::write_field(out, on, b",", queue::queued_at(t, i) as u64);
    }
    on
}

pub fn write_harts(t: &[u64; Table::WORDS], out: &mut [u8], at: usize) -> usize
    requires { at + harts_top ≤ length out.old }
    ensures { Wrote out.old at (harts_text (table_of t.now).core.harts) out.new result × (result ≤ at + harts_top) }
{
    let mut on = pieces::write_place(out, at, b" harts ", book::hart_at(t, 0));
    for hart in 1..Table::HARTS {
        on = pieces::write_place(out, on, b",", book::hart_at(t, hart));
    }
    on
}
