// An answer as text in a lent buffer. The function requires room for the longest, and returns the place after it.
#![tactic(auto)]

ghost use Rattle.std.specs.Prelude.{◌+◌, ◌≤◌, length};
ghost use Rattle.buffers.specs.Text.{Wrote};
ghost use Rattle.texts.specs.Texts.{answer_text, answer_top};

use rules::Answer;

mod said; // an answer without the end of its line

pub fn write_answer(out: &mut [u8], at: usize, a: Answer) -> usize
    requires { at + answer_top ≤ length out.old }
    ensures { Wrote out.old at (answer_text a) out.new result × (result ≤ at + answer_top) }
{
    let on = said::write_said(out, at, a);
    buffers::write(out, on, b"\n")
}
