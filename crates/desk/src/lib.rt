// A line answered: what it does to the table, and the text that comes back.
#![tactic(auto)]

ghost use Rattle.std.specs.Prelude.{◌≡◌, ◌+◌, ◌≤◌, length};
ghost use Rattle.rules.specs.declared.Grant.TheVariants.{Done};
ghost use Rattle.promises.specs.Order.Sound.{Sound};
ghost use Rattle.words.specs.Reading.{table_of};
ghost use Rattle.buffers.specs.Text.{Wrote};
ghost use Rattle.texts.specs.Texts.{answer_top};
ghost use Rattle.steps.specs.ByValue.{call_of};
ghost use Rattle.lines.specs.Meaning.{means, listed};
ghost use Rattle.desk.specs.Desk.{why_text, misread_text, text_for, why_top, misread_top, desk_top, Performed, Answered};

use lines::{Said, Why};
use rules::{Grant, Refusal};
use steps::Call;
use words::Table;

// Room for the answer to any line.
pub const TOP: usize = shows::TOP;

#[tactic(auto, unfolding(crate::specs::Desk::why_text, rules::specs::Listing::bytes))]
fn why_text(why: Why) -> &'static [u8]
    ensures text { result.now ≡ why_text why }
    ensures short { length result.now ≤ why_top }
{
    match why {
        Why::UnknownWord => b"unknown command",
        Why::TooFew => b"an argument is missing",
        Why::TooMany => b"a word too many",
        Why::NotANumber => b"not a number",
        Why::TooLarge => b"the number is too large",
        Why::NotAChoice => b"not yes or no, or not a wish",
        Why::NotAName => b"not two hex digits for each byte",
        Why::TooLong => b"over 255 bytes",
    }
}

pub fn write_misread(out: &mut [u8], at: usize, number: u64, why: Why) -> usize
    requires { at + misread_top ≤ length out.old }
    ensures { Wrote out.old at (misread_text number why) out.new result × (result ≤ at + misread_top) }
{
    let a = pieces::write_field(out, at, b"? line ", number);
    let b = buffers::write(out, a, b": ");
    let c = buffers::write(out, b, why_text(why));
    buffers::write(out, c, b"\n")
}

fn write_list(t: &[u64; Table::WORDS], out: &mut [u8], at: usize, room: u64) -> usize
    requires { Sound (table_of t.now) × (at + desk_top ≤ length out.old) }
    ensures { Wrote out.old at (text_for (table_of t.now) 0 (listed room)) out.new result × (result ≤ at + desk_top) }
{
    match listing::room_for(t, room as usize) {
        Ok(_) => listing::write_listing(t, out, at),
        Err(_) => texts::write_answer(out, at, Err(Refusal::NoRoom)),
    }
}

// The call that a line asks for, and its answer.
fn perform(t: &mut [u64; Table::WORDS], text: &[u8], c: Call, out: &mut [u8], at: usize) -> usize
    requires { Sound (table_of t.old) × (at + answer_top ≤ length out.old) }
    ensures { Performed (call_of text.now c) (table_of t.old) (table_of t.new) out.old at out.new result }
{
    let a = steps::step(t, text, c);
    texts::write_answer(out, at, a)
}

// Answers a line with this number.
pub fn answer(
    t: &mut [u64; Table::WORDS],
    line: &[u8],
    number: u64,
    name: &mut [u8],
    out: &mut [u8],
    at: usize,
) -> usize
    requires { Sound (table_of t.old) × (length line.now ≤ length name.old) × (at + desk_top ≤ length out.old) }
    ensures { Answered (table_of t.old) number (means line.now) (table_of t.new) out.old at out.new result }
{
    match lines::read(line, name) {
        Said::Nothing => at,
        Said::Call(c) => perform(t, b"", c, out, at),
        Said::Spawn(len, entry) => perform(t, name, Call::Spawn(0, len, entry), out, at),
        Said::List(room) => write_list(t, out, at, room),
        Said::Show => shows::write_show(t, out, at),
        Said::Fresh => {
            words::renew(t);
            texts::write_answer(out, at, Ok(Grant::Done))
        }
        Said::Misread(why) => write_misread(out, at, number, why),
    }
}
