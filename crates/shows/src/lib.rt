// The table as text in a lent buffer. Each function requires room for the longest text, and returns the place after it.
#![tactic(auto)]

ghost use Rattle.std.specs.Prelude.{◌+◌, ◌*◌, ◌<◌, ◌≤◌, length};
ghost use Rattle.rules.specs.Sizes.{slot_count};
ghost use Rattle.promises.specs.Order.Sound.{Sound};
ghost use Rattle.words.specs.Reading.{table_of};
ghost use Rattle.buffers.specs.Text.{Wrote};
ghost use Rattle.shows.specs.Shows.{head_text, slot_text, slots_text, show_text, head_top, slot_top, show_top};

use rules::ProcState;
use words::{Table, book, slot};

mod head; // the queue and the harts
mod part; // a slot's parts

// At the longest: a number, the first line, a name, a slot's line.
const NUMBER_TOP: usize = 20;

const HEAD_TOP: usize = 26 + 2 * NUMBER_TOP + (1 + NUMBER_TOP) * (Table::SLOTS + Table::HARTS);

const NAME_TOP: usize = 6 + 2 * 16;

const SLOT_TOP: usize = 120 + 13 * NUMBER_TOP + NAME_TOP;

// Room for the text of any table.
pub const TOP: usize = HEAD_TOP + SLOT_TOP * Table::SLOTS;

fn write_head(t: &[u64; Table::WORDS], out: &mut [u8], at: usize) -> usize
    requires { (length (table_of t.now).core.queue ≤ slot_count) × (at + head_top ≤ length out.old) }
    ensures { Wrote out.old at (head_text (table_of t.now)) out.new result × (result ≤ at + head_top) }
{
    let a = pieces::write_field(out, at, b"pids ", book::pids(t));
    let b = pieces::write_place(out, a, b" init ", book::init(t));
    let c = head::write_queue(t, out, b);
    let d = head::write_harts(t, out, c);
    buffers::write(out, d, b"\n")
}

fn write_slot(t: &[u64; Table::WORDS], out: &mut [u8], at: usize, s: usize) -> usize
    requires { (s < slot_count) × (at + slot_top ≤ length out.old) }
    ensures { Wrote out.old at (slot_text (table_of t.now) s) out.new result × (result ≤ at + slot_top) }
{
    let m = slot::meta_at(t, s);
    if let ProcState::UNUSED = m.state {
        return at;
    }
    let a = pieces::write_field(out, at, b"slot ", s as u64);
    let b = part::write_meta(out, a, m);
    let c = part::write_kin(t, out, b, s);
    let d = part::write_start(t, out, c, s);
    buffers::write(out, d, b"\n")
}

fn write_slots(t: &[u64; Table::WORDS], out: &mut [u8], at: usize) -> usize
    requires { at + slot_top * slot_count ≤ length out.old }
    ensures { Wrote out.old at (slots_text (table_of t.now) slot_count) out.new result × (result ≤ at + slot_top * slot_count) }
{
    let mut on = at;
    for s in 0..Table::SLOTS {
        on = write_slot(t, out, on, s);
    }
    on
}

// The whole table.
pub fn write_show(t: &[u64; Table::WORDS], out: &mut [u8], at: usize) -> usize
    requires { Sound (table_of t.now) × (at + show_top ≤ length out.old) }
    ensures { Wrote out.old at (show_text (table_of t.now)) out.new result × (result ≤ at + show_top) }
{
    let on = write_head(t, out, at);
    write_slots(t, out, on)
}
