// A call in eight words: which it is, and its arguments.
#![tactic(auto)]

ghost use Rattle.std.specs.Prelude.{◌≡◌, ◌≤◌, length, get_or};
ghost use Rattle.std.specs.Bool.{then_some};
ghost use Rattle.rules.specs.Model.{pid};
ghost use Rattle.steps.specs.declared.Call.TheVariants.{Fork, Thread, Wait, Join, Grow};
ghost use Rattle.codes.specs.Codes.{signed_of, call_words, is_flag, yes, is_wish, wish_of, is_mapped, mapped_of, only_if, call_numbered, call_in};

use rules::{Mapped, Pid, ThreadAsk, Wish};
use steps::Call;

pub const WORDS: usize = 8;

#[tactic(auto, unfolding(crate::specs::Codes::wish_of))]
pub fn wish_of(n: u64) -> Wish
    ensures { result ≡ wish_of n }
{
    match n {
        0 => Wish::NotWanted,
        1 => Wish::Writable,
        _ => Wish::Unwritable,
    }
}

#[tactic(auto, unfolding(crate::specs::Codes::mapped_of, crate::specs::Codes::yes))]
pub fn mapped_of(n: u64) -> Mapped
    ensures { result ≡ mapped_of n }
{
    Mapped {
        entry: n % 2 == 1,
        ret: n / 2 % 2 == 1,
        stack: n / 4 % 2 == 1,
        top: n / 8 % 2 == 1,
    }
}

// 0 for no or 1 for yes.
#[tactic(auto, unfolding(crate::specs::Codes::is_flag, crate::specs::Codes::yes))]
pub fn flag(n: u64) -> Option<bool>
    ensures { result ≡ then_some (is_flag n) (yes n) }
{
    (n < 2).then_some(n == 1)
}

#[tactic(auto, unfolding(crate::specs::Codes::is_wish))]
pub fn wish(n: u64) -> Option<Wish>
    ensures { result ≡ then_some (is_wish n) (wish_of n) }
{
    (n < 3).then_some(wish_of(n))
}

#[tactic(auto, unfolding(crate::specs::Codes::is_mapped))]
pub fn mapped(n: u64) -> Option<Mapped>
    ensures { result ≡ then_some (is_mapped n) (mapped_of n) }
{
    (n < 16).then_some(mapped_of(n))
}

#[tactic(auto, unfolding(crate::specs::Codes::only_if))]
fn fork(hart: u64, memory: u64) -> Option<Call>
    ensures { result ≡ only_if (is_flag memory) (Fork hart (yes memory)) }
{
    Some(Call::Fork(hart as usize, flag(memory)?))
}

#[tactic(auto, unfolding(crate::specs::Codes::only_if))]
fn wait(hart: u64, w: u64) -> Option<Call>
    ensures { result ≡ only_if (is_wish w) (Wait hart (wish_of w)) }
{
    Some(Call::Wait(hart as usize, wish(w)?))
}

#[tactic(auto, unfolding(crate::specs::Codes::only_if))]
fn join(hart: u64, p: u64, w: u64) -> Option<Call>
    ensures { result ≡ only_if (is_wish w) (Join hart (pid p) (wish_of w)) }
{
    Some(Call::Join(hart as usize, Pid(p), wish(w)?))
}

#[tactic(auto, using(crate::proofs::CodeLaws::count_read), unfolding(crate::specs::Codes::only_if))]
fn grow(hart: u64, count: u64, memory: u64) -> Option<Call>
    ensures { result ≡ only_if (is_flag memory) (Grow hart (signed_of count) (yes memory)) }
{
    Some(Call::Grow(hart as usize, count.cast_signed(), flag(memory)?))
}

#[tactic(auto, unfolding(crate::specs::Codes::only_if))]
fn thread(hart: u64, ask: ThreadAsk, m: u64) -> Option<Call>
    ensures { result ≡ only_if (is_mapped m) (Thread hart ask (mapped_of m)) }
{
    Some(Call::Thread(hart as usize, ask, mapped(m)?))
}

fn ask_of(w: &[u64]) -> ThreadAsk
    requires { call_words ≤ length w.now }
    ensures { result ≡ record { entry = get_or w.now 2 0; arg = get_or w.now 3 0; stack = get_or w.now 4 0; ret = get_or w.now 5 0 } }
{
    ThreadAsk {
        entry: w[2],
        arg: w[3],
        stack: w[4],
        ret: w[5],
    }
}

// By hand: the C interface fixes the numbers (docs/ARCHIVE.md).
#[tactic(auto, unfolding(crate::specs::Codes::call_numbered, crate::specs::Codes::calls))]
fn numbered(n: u64, w: &[u64]) -> Option<Call>
    requires { call_words ≤ length w.now }
    ensures { result ≡ call_numbered n (λ i. get_or w.now i 0) }
{
    match n {
        0 => Some(Call::Boot),
        1 => Some(Call::Start),
        2 => Some(Call::Spawn(w[1] as usize, w[2] as usize, w[3])),
        3 => Some(Call::SystemReturn(w[1] as usize)),
        4 => fork(w[1], w[2]),
        5 => thread(w[1], ask_of(w), w[6]),
        6 => Some(Call::Dispatch(w[1] as usize)),
        7 => Some(Call::Yield(w[1] as usize)),
        8 => Some(Call::Sleep(w[1] as usize, w[2])),
        9 => Some(Call::Wakeup(w[1])),
        10 => Some(Call::Kill(Pid(w[1]))),
        11 => wait(w[1], w[2]),
        12 => join(w[1], w[2], w[3]),
        13 => Some(Call::ThreadExit(w[1] as usize, w[2])),
        14 => Some(Call::Exit(w[1] as usize, w[2])),
        15 => grow(w[1], w[2], w[3]),
        _ => None,
    }
}

// The call at the front of the words.
#[tactic(auto, unfolding(crate::specs::Codes::call_in))]
pub fn first(w: &[u64]) -> Option<Call>
    ensures { result ≡ call_in w.now }
{
    if w.len() < WORDS {
        return None;
    }
    numbered(w[0], w)
}
