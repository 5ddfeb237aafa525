// The parts of a slot's line.
ghost use Rattle.std.specs.Prelude.{◌≡◌, ◌++◌, ◌+◌, ◌-◌, ◌<◌, ◌≤◌, length};
ghost use Rattle.rules.specs.Sizes.{slot_count, trapframe};
ghost use Rattle.rules.specs.Model.{at};
ghost use Rattle.rules.specs.Listing.{bytes, state_text};
ghost use Rattle.words.specs.Reading.{table_of, start_of, InGroups};
ghost use Rattle.buffers.specs.Text.{Wrote};
ghost use Rattle.shows.specs.Shows.{meta_text, group_text, kin_text, record_text, name_text, start_text, state_top, meta_top, group_top, kin_top, record_top, name_top, start_top};

use pieces::state;
use rules::{ProcMeta, ProcState};
use words::slot::StartWords;
use words::{Table, book, slot};

fn write_state(out: &mut [u8], at: usize, s: ProcState) -> usize
    requires { at + state_top ≤ length out.old }
    ensures { Wrote out.old at (bytes " " ++ state_text s) out.new result × (result ≤ at + state_top) }
{
    let on = buffers::write(out, at, b" ");
    state::write(out, on, s)
}

pub fn write_meta(out: &mut [u8], at: usize, m: ProcMeta) -> usize
    requires { at + meta_top ≤ length out.old }
    ensures { Wrote out.old at (meta_text m) out.new result × (result ≤ at + meta_top) }
{
    let a = write_state(out, at, m.state);
    let b = pieces::write_field(out, a, b" channel ", m.channel);
    let c = pieces::write_flag(out, b, b" killed ", m.killed);
    let d = pieces::write_field(out, c, b" status ", m.xstate);
    let e = pieces::write_field(out, d, b" pid ", m.pid.0);
    pieces::write_flag(out, e, b" queued ", m.queued)
}

fn write_group(t: &[u64; Table::WORDS], out: &mut [u8], at: usize, g: Option<usize>) -> usize
    requires { InGroups g × (at + group_top ≤ length out.old) }
    ensures { Wrote out.old at (group_text (table_of t.now).books g) out.new result × (result ≤ at + group_top) }
{
    match g {
        None => buffers::write(out, at, b" group - size 0"),
        Some(n) => {
            let on = pieces::write_field(out, at, b" group ", n as u64);
            pieces::write_field(out, on, b" size ", book::group_at(t, n).size)
        }
    }
}

pub fn write_kin(t: &[u64; Table::WORDS], out: &mut [u8], to: usize, s: usize) -> usize
    requires { (s < slot_count) × (to + kin_top ≤ length out.old) }
    ensures { Wrote out.old to (kin_text (table_of t.now).books (at (table_of t.now).core s).kin) out.new result × (result ≤ to + kin_top) }
{
    let k = slot::kin_at(t, s);
    let a = pieces::write_place(out, to, b" parent ", k.parent);
    let b = pieces::write_flag(out, a, b" thread ", k.thread);
    let c = pieces::write_flag(out, b, b" system ", k.system);
    write_group(t, out, c, k.group)
}

#[tactic(auto, unfolding(rules::specs::Sizes::page_size, rules::specs::Sizes::trampoline, rules::specs::Sizes::trapframe))]
fn trapframe_at(below: u64) -> u64
    ensures { result ≡ trapframe - below }
{
    stacks::TRAPFRAME.saturating_sub(below)
}

fn write_record(out: &mut [u8], at: usize, w: StartWords) -> usize
    requires { at + record_top ≤ length out.old }
    ensures { Wrote out.old at (record_text (start_of w)) out.new result × (result ≤ at + record_top) }
{
    let a = pieces::write_field(out, at, b" start ", w.entry);
    let b = pieces::write_field(out, a, b"/", w.top);
    let c = pieces::write_field(out, b, b"/", w.arg);
    pieces::write_field(out, c, b"/", w.ret)
}

fn write_name(out: &mut [u8], at: usize, w: StartWords) -> usize
    requires { at + name_top ≤ length out.old }
    ensures { Wrote out.old at (name_text (start_of w)) out.new result × (result ≤ at + name_top) }
{
    let name = names::unpack(w.name0, w.name1);
    let on = buffers::write(out, at, b" name ");
    pieces::write_hex(out, on, &name)
}

pub fn write_start(t: &[u64; Table::WORDS], out: &mut [u8], to: usize, s: usize) -> usize
    requires { (s < slot_count) × (to + start_top ≤ length out.old) }
    ensures { Wrote out.old to (start_text (at (table_of t.now).core s).start) out.new result × (result ≤ to + start_top) }
{
    let w = slot::start_at(t, s);
    let a = pieces::write_field(out, to, b" trapframe ", trapframe_at(w.below));
    let b = pieces::write_field(out, a, b" sp ", w.sp);
    let c = write_record(out, b, w);
    // Read once more, and not kept so long: it would lie on the stack.
    let named = slot::start_at(t, s);
    write_name(out, c, named)
}
