// A slot's line: how long it is, and written.
ghost use Rattle.std.specs.Prelude.{◌≡◌, ◌++◌, ◌+◌, ◌≤◌, ◌<◌, length};
ghost use Rattle.rules.specs.Sizes.{slot_count, line_top};
ghost use Rattle.rules.specs.Listing.{state_text};
ghost use Rattle.words.specs.Reading.{table_of, bytes_of};
ghost use Rattle.buffers.specs.Text.{Wrote};
ghost use Rattle.listing.specs.Lines.{pid_text, state_labelled, name_labelled, line_at};

use names::shown;
use pieces::{digits, state};
use rules::ProcState;
use words::{Table, slot};

#[tactic(auto, using(crate::proofs::LineLaws::length_laws), unfolding(rules::specs::Sizes::line_top, rules::specs::Sizes::name_size))]
pub fn line_len(t: &[u64; Table::WORDS], s: usize) -> usize
    requires { s < slot_count }
    ensures { (result ≡ length (line_at (table_of t.now) s)) × (result ≤ line_top) }
{
    let m = slot::meta_at(t, s);
    if m.state == ProcState::UNUSED {
        return 0;
    }
    let w = slot::start_at(t, s);
    let name = shown::shown_name(w.name0, w.name1);
    // 21 bytes are the labels and the end of the line
    21 + digits::decimal(m.pid.0).as_slice().len() + state::name(m.state).len() + name.len
}

#[tactic(auto, unfolding(rules::specs::Listing::bytes, crate::specs::Lines::pid_text))]
fn write_pid(buffer: &mut [u8], at: usize, n: u64) -> usize
    requires { at + length (pid_text n) ≤ length buffer.old }
    ensures { Wrote buffer.old at (pid_text n) buffer.new result }
{
    let on = buffers::write(buffer, at, b"pid: ");
    digits::write(buffer, on, n)
}

#[tactic(auto, unfolding(rules::specs::Listing::bytes, crate::specs::Lines::state_labelled))]
fn write_state(buffer: &mut [u8], at: usize, s: ProcState) -> usize
    requires { at + length (state_labelled s) ≤ length buffer.old }
    ensures { Wrote buffer.old at (state_labelled s) buffer.new result }
{
    let on = buffers::write(buffer, at, b" state: ");
    state::write(buffer, on, s)
}

#[tactic(auto, unfolding(rules::specs::Listing::bytes, crate::specs::Lines::name_labelled))]
fn write_name(buffer: &mut [u8], at: usize, a: u64, b: u64) -> usize
    requires { at + length (name_labelled (bytes_of a ++ bytes_of b)) ≤ length buffer.old }
    ensures { Wrote buffer.old at (name_labelled (bytes_of a ++ bytes_of b)) buffer.new result }
{
    let name = shown::shown_name(a, b);
    let on = buffers::write(buffer, at, b" name: ");
    let after = buffers::write(buffer, on, &name.bytes[..name.len]);
    buffers::write(buffer, after, b"\n")
}

#[tactic(auto, using(crate::proofs::LineLaws::line_laws))]
pub fn write_line(t: &[u64; Table::WORDS], s: usize, buffer: &mut [u8], at: usize) -> usize
    requires { (s < slot_count) × (at + length (line_at (table_of t.now) s) ≤ length buffer.old) }
    ensures { Wrote buffer.old at (line_at (table_of t.now) s) buffer.new result }
{
    let m = slot::meta_at(t, s);
    if m.state == ProcState::UNUSED {
        return at;
    }
    let w = slot::start_at(t, s);
    let a = write_pid(buffer, at, m.pid.0);
    let b = write_state(buffer, a, m.state);
    write_name(buffer, b, w.name0, w.name1)
}
