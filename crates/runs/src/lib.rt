// Many calls in one: a lent list of words holds the calls, another gets the answers.
#![tactic(auto)]

ghost use Rattle.promises.specs.Order.Sound.{Sound};
ghost use Rattle.words.specs.Reading.{table_of};
ghost use Rattle.runs.specs.Ran.{calls_within, Ran};

use words::Table;

// Makes the calls, up to the first words that are none, and says how many they were.
pub fn run(
    t: &mut [u64; Table::WORDS],
    text: &[u8],
    calls: &[u64],
    out: &mut [u64],
    budget: usize,
) -> usize
    requires { Sound (table_of t.old) }
    ensures { Ran (calls_within budget text.now calls.now out.old) (table_of t.old) out.old result (table_of t.new) out.new }
{
    let most = steps::least(budget, out.len() / answers::WORDS);
    // By number: with chunks of both lists the answer at their end stays open.
    for n in 0..most {
        let Some(c) = codes::first(&calls[n * codes::WORDS..]) else {
            return n;
        };
        let a = steps::step(t, text, c);
        answers::write(out, n * answers::WORDS, a);
    }
    most
}
