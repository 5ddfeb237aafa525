// An answer without the end of its line.
ghost use Rattle.std.specs.Prelude.{◌≡◌, ◌+◌, ◌≤◌, length, Ok};
ghost use Rattle.buffers.specs.Text.{Wrote};
ghost use Rattle.texts.specs.Texts.{refusal_words, said_of, refusal_top, said_top};

use rules::{Answer, Grant, Refusal};

#[tactic(auto, unfolding(crate::specs::Texts::refusal_words, rules::specs::Listing::bytes))]
fn words_of(r: Refusal) -> &'static [u8]
    ensures words { result.now ≡ refusal_words r }
    ensures short { length result.now ≤ refusal_top }
{
    match r {
        Refusal::NoSuchHart => b"no such hart",
        Refusal::HartIdle => b"hart idle",
        Refusal::HartBusy => b"hart busy",
        Refusal::QueueEmpty => b"queue empty",
        Refusal::TableFull => b"table full",
        Refusal::PidsSpent => b"pids spent",
        Refusal::NoGroup => b"no group",
        Refusal::BadAddress => b"bad address",
        Refusal::Unmapped => b"unmapped",
        Refusal::NoneSuch => b"none such",
        Refusal::StatusUnwritable => b"status unwritable",
        Refusal::InitOutOfTurn => b"init out of turn",
        Refusal::WrongWayOut => b"wrong way out",
        Refusal::NotADevice => b"not a device",
        Refusal::NameTooLong => b"name too long",
        Refusal::NoRoom => b"no room",
        Refusal::SizeOutOfLimits => b"size out of limits",
        Refusal::NoMemory => b"no memory",
    }
}

fn write_grant(out: &mut [u8], at: usize, g: Grant) -> usize
    requires { at + said_top ≤ length out.old }
    ensures { Wrote out.old at (said_of (Ok g)) out.new result × (result ≤ at + said_top) }
{
    match g {
        Grant::Done => buffers::write(out, at, b"done"),
        Grant::Made(p) => pieces::write_field(out, at, b"pid ", p.0),
        Grant::Handed(s) => pieces::write_field(out, at, b"slot ", s.0 as u64),
        Grant::Reaped(pid, status) => {
            let on = pieces::write_field(out, at, b"reaped ", pid.0);
            pieces::write_field(out, on, b" ", status)
        }
        Grant::Joined(status) => {
            let on = buffers::write(out, at, b"joined ");
            pieces::write_signed(out, on, status)
        }
        Grant::Blocked => buffers::write(out, at, b"blocked"),
    }
}

pub fn write_said(out: &mut [u8], at: usize, a: Answer) -> usize
    requires { at + said_top ≤ length out.old }
    ensures { Wrote out.old at (said_of a) out.new result × (result ≤ at + said_top) }
{
    match a {
        Ok(g) => write_grant(out, at, g),
        Err(r) => {
            let on = pieces::write_field(out, at, b"refused ", answers::number_of(r));
            let after = buffers::write(out, on, b" ");
            buffers::write(out, after, words_of(r))
        }
    }
}
