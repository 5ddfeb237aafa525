// A name as the two words that a slot keeps of it, and out of them.
#![tactic(auto)]

ghost use Rattle.std.specs.Prelude.{◌≡◌, ◌++◌, ◌+◌, ◌≤◌, get_or};
ghost use Rattle.rules.specs.Calls.{padded};
ghost use Rattle.words.specs.Reading.{tab, bytes_of};

use std::array;

pub mod shown; // a name as the listing shows it

#[derive(Clone, Copy)]
pub struct NameWords {
    pub low: u64,
    pub high: u64,
}

// Eight bytes, the lowest first, with zeros past the end; at once where the name has all eight.
fn word(name: &[u8], from: usize) -> u64
    requires { from ≤ 8 }
    ensures { bytes_of result ≡ tab 8 (λ i. get_or name.now (from + i) 0) }
{
    if let Some(rest) = name.get(from..)
        && let Some(whole) = rest.first_chunk()
    {
        return u64::from_le_bytes(*whole);
    }
    u64::from_le_bytes(array::from_fn(|i| name.get(from + i).copied().unwrap_or(0)))
}

pub fn pack(name: &[u8]) -> NameWords
    ensures { bytes_of result.low ++ bytes_of result.high ≡ padded name.now }
{
    NameWords {
        low: word(name, 0),
        high: word(name, 8),
    }
}

// All sixteen bytes.
pub fn unpack(a: u64, b: u64) -> [u8; 16]
    ensures { result ≡ bytes_of a ++ bytes_of b }
{
    let mut bytes = [0; 16];
    bytes[..8].copy_from_slice(&a.to_le_bytes());
    bytes[8..].copy_from_slice(&b.to_le_bytes());
    bytes
}
