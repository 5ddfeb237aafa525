// An answer in three words: which it is, and its values.
#![tactic(auto)]

ghost use Rattle.std.specs.Prelude.{◌≡◌, [], ◌∷◌, ◌+◌, ◌≤◌, length, Ok};
ghost use Rattle.rules.specs.Answers.{number_of};
ghost use Rattle.buffers.specs.Text.{put};
ghost use Rattle.answers.specs.Words.{word_of, answer_words, coded};

use rules::{Answer, Grant, Refusal};

pub const WORDS: usize = 3;

// The refusals stand in the order of their numbers.
#[tactic(auto, unfolding(rules::specs::Answers::number_of))]
pub fn number_of(r: Refusal) -> u64
    ensures { result ≡ number_of r }
{
    r as u64 + 1
}

// Two's complement.
#[tactic(auto, unfolding(crate::specs::Words::word_of))]
fn word_of(x: i32) -> u64
    ensures { result ≡ word_of x }
{
    i64::from(x).cast_unsigned()
}

#[tactic(auto, unfolding(buffers::specs::Text::put))]
pub fn put(b: &mut [u64], at: usize, x: u64, y: u64, z: u64)
    requires { at + answer_words ≤ length b.old }
    ensures { b.new ≡ put b.old at (x ∷ y ∷ z ∷ []) }
{
    b[at..at + WORDS].copy_from_slice(&[x, y, z]);
}

#[tactic(auto, unfolding(crate::specs::Words::coded, crate::specs::Words::word_of, rules::specs::Answers::values_of))]
fn coded_grant(g: Grant) -> [u64; WORDS]
    ensures { result ≡ coded (Ok g) }
{
    match g {
        Grant::Done => [0, 0, 0],
        Grant::Made(p) => [1, p.0, 0],
        Grant::Handed(s) => [2, s.0 as u64, 0],
        Grant::Reaped(p, x) => [3, p.0, x],
        Grant::Joined(x) => [4, word_of(x), 0],
        Grant::Blocked => [5, 0, 0],
    }
}

#[tactic(auto, unfolding(crate::specs::Words::coded, crate::specs::Words::word_of, rules::specs::Answers::values_of))]
pub fn coded(a: Answer) -> [u64; WORDS]
    ensures { result ≡ coded a }
{
    match a {
        Ok(g) => coded_grant(g),
        Err(r) => [6, number_of(r), 0],
    }
}

pub fn write(b: &mut [u64], at: usize, a: Answer)
    requires { at + answer_words ≤ length b.old }
    ensures { b.new ≡ put b.old at (coded a) }
{
    let [x, y, z] = coded(a);
    put(b, at, x, y, z);
}
