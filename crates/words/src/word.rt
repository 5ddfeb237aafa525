// What one word means, and the word for a meaning. Every word means something.
#![tactic(auto, unfolding(rules::specs::Sizes::slot_count, rules::specs::Sizes::group_count))]

ghost use Rattle.std.specs.Prelude.{◌≡◌};
ghost use Rattle.rules.specs.Model.{state_code};
ghost use Rattle.words.specs.Reading.{state_of, flag_of, parent_of, member_of, flag_word, parent_word, member_word, InTable, InGroups};

use crate::Table;
use rules::{ProcState, Slot};

pub fn state_code(s: ProcState) -> u64
    ensures { (result ≡ state_code s) × (state_of result ≡ s) }
{
    s as u64
}

// By hand: every word means something, and how a state stands in one is known here alone.
pub fn state_of(n: u64) -> ProcState
    ensures { result ≡ state_of n }
{
    match n {
        1 => ProcState::ALLOCATED,
        2 => ProcState::RUNNABLE,
        3 => ProcState::RUNNING,
        4 => ProcState::SLEEPING,
        5 => ProcState::ZOMBIE,
        _ => ProcState::UNUSED,
    }
}

pub fn flag_of(n: u64) -> bool
    ensures { result ≡ flag_of n }
{
    n != 0
}

pub fn flag_word(b: bool) -> u64
    ensures { result ≡ flag_word b }
{
    u64::from(b)
}

// The index that a word means: 0 is none, else one more than the index.
fn place_of(n: u64) -> Option<usize>
    ensures { (result ≡ member_of n) × InGroups result }
{
    match n {
        0 => None,
        _ => Some(((n - 1) % Table::SLOTS as u64) as usize),
    }
}

fn place_word(p: Option<usize>) -> u64
    requires { InGroups p }
    ensures { result ≡ member_word p }
{
    p.map_or(0, |k| k as u64 + 1)
}

pub fn parent_of(n: u64) -> Option<Slot>
    ensures { (result ≡ parent_of n) × InTable result }
{
    place_of(n).map(Slot)
}

pub fn parent_word(p: Option<Slot>) -> u64
    requires { InTable p }
    ensures { result ≡ parent_word p }
{
    place_word(p.map(|s| s.0))
}

pub fn member_of(n: u64) -> Option<usize>
    ensures { (result ≡ member_of n) × InGroups result }
{
    place_of(n)
}

pub fn member_word(m: Option<usize>) -> u64
    requires { InGroups m }
    ensures { result ≡ member_word m }
{
    place_word(m)
}
