// What a word is worth as an argument.
ghost use Rattle.std.specs.Prelude.{◌≡◌, ◌≤◌, ◌<◌, ◌+◌, ◌*◌, ◌^◌, SomeIff, Ok};
ghost use Rattle.std.specs.List.{list_all};
ghost use Rattle.std.specs.Char.{is_digit};
ghost use Rattle.lines.specs.Kinds.{letter};
ghost use Rattle.lines.specs.Values.{number_in, positive, negative, count_in, flag_word, flag_in, wish_word, wish_in, name_worth, value_in, argument_in};

use crate::Why;
use rules::Wish;

#[derive(Clone, Copy)]
pub enum Kind {
    Number,
    Count,
    Flag,
    Wish,
    Name,
    Room,
}

// 2^63: the counts below 0 are so many.
const HALF: u64 = 1 << 63;

// In front of a name that is written as the digits of its bytes.
pub const HEX: &[u8] = b"hex:";

// The words of a call that are no flag and no wish, numbers since `codes` reads words: one more than the last that is.
const NO_FLAG: u64 = 2;

const NO_WISH: u64 = 3;

fn all_digits(w: &[u8], base: u32) -> bool
    requires low { 2 ≤ base }
    requires high { base ≤ 36 }
    ensures { result ≡ list_all (λ b. is_digit b base) w.now }
{
    w.iter().all(|b| char::from(*b).is_digit(base))
}

// A number with one more digit behind it.
fn append(n: u64, digit: u64) -> Option<u64>
    ensures { SomeIff result (10 * n + digit < 2 ^ 64) (10 * n + digit) }
{
    n.checked_mul(10)?.checked_add(digit)
}

fn number(w: &[u8]) -> Result<u64, Why>
    ensures { result ≡ number_in w.now }
{
    if w.is_empty() || !all_digits(w, 10) {
        return Err(Why::NotANumber);
    }
    let mut n = 0;
    for b in w {
        n = append(n, u64::from(*b - b'0')).ok_or(Why::TooLarge)?;
    }
    Ok(n)
}

#[tactic(auto, unfolding(crate::specs::Values::positive))]
fn positive(n: u64) -> Result<u64, Why>
    ensures { result ≡ positive n }
{
    if n < HALF { Ok(n) } else { Err(Why::TooLarge) }
}

// The word that stands for -n.
fn negative(n: u64) -> Result<u64, Why>
    ensures { result ≡ negative n }
{
    if n <= HALF {
        Ok(n.wrapping_neg())
    } else {
        Err(Why::TooLarge)
    }
}

fn count(w: &[u8]) -> Result<u64, Why>
    ensures { result ≡ count_in w.now }
{
    match w.strip_prefix(b"-") {
        Some(digits) => negative(number(digits)?),
        None => positive(number(w)?),
    }
}

fn flag(w: &[u8]) -> Option<bool>
    ensures { Ok (flag_word result) ≡ flag_in w.now }
{
    if w == b"yes".as_slice() {
        Some(true)
    } else if w == b"no".as_slice() {
        Some(false)
    } else {
        None
    }
}

fn wish(w: &[u8]) -> Option<Wish>
    ensures { Ok (wish_word result) ≡ wish_in w.now }
{
    if w == b"not-wanted".as_slice() {
        Some(Wish::NotWanted)
    } else if w == b"writable".as_slice() {
        Some(Wish::Writable)
    } else if w == b"unwritable".as_slice() {
        Some(Wish::Unwritable)
    } else {
        None
    }
}

fn name_worth(w: &[u8]) -> Result<u64, Why>
    ensures { result ≡ name_worth w.now }
{
    let Some(digits) = w.strip_prefix(HEX) else {
        return Ok(w.len() as u64);
    };
    if digits.len() % 2 == 0 && all_digits(digits, 16) {
        Ok((digits.len() / 2) as u64)
    } else {
        Err(Why::NotAName)
    }
}

fn worth(kind: Kind, w: &[u8]) -> Result<u64, Why>
    ensures { result ≡ value_in (letter kind) w.now }
{
    match kind {
        Kind::Number | Kind::Room => number(w),
        Kind::Count => count(w),
        Kind::Flag => Ok(flag(w).map_or(NO_FLAG, u64::from)),
        // A closure under `map_or` has no contract that the proof can name.
        Kind::Wish => match wish(w) {
            Some(wish) => Ok(wish as u64),
            None => Ok(NO_WISH),
        },
        Kind::Name => name_worth(w),
    }
}

// A word that isn't there is worth nothing, but for a room: that may be left out, and is then as large as can be.
pub fn argument(kind: Kind, w: &[u8]) -> Result<u64, Why>
    ensures { result ≡ argument_in (letter kind) w.now }
{
    if !w.is_empty() {
        return worth(kind, w);
    }
    match kind {
        Kind::Room => Ok(u64::MAX),
        _ => Err(Why::TooFew),
    }
}
