// A name as its bytes.
ghost use Rattle.std.specs.Prelude.{◌≡◌, true, ◌≤◌, ◌<◌, length};
ghost use Rattle.buffers.specs.Text.{Wrote};
ghost use Rattle.lines.specs.Values.{nibble, all_below, unhex, name_good, name_bytes};

use crate::value;

#[tactic(auto, unfolding(crate::specs::Values::nibble, crate::specs::Values::inside))]
fn nibble(digit: u8) -> u8
    requires { nibble digit < 16 }
    ensures { result ≡ nibble digit }
{
    match digit {
        b'0'..=b'9' => digit - b'0',
        b'A'..=b'F' => digit - b'A' + 10,
        _ => digit - b'a' + 10,
    }
}

// Two digits for each byte.
fn unhex(digits: &[u8], out: &mut [u8]) -> usize
    requires { (all_below 16 digits.now ≡ true) × (length digits.now ≤ length out.old) }
    ensures { Wrote out.old 0 (unhex digits.now) out.new result }
{
    let (pairs, _) = digits.as_chunks::<2>();
    for (i, [high, low]) in pairs.iter().enumerate() {
        out[i] = 16 * nibble(*high) + nibble(*low);
    }
    pairs.len()
}

pub fn write_name(w: &[u8], out: &mut [u8]) -> usize
    requires { (name_good w.now ≡ true) × (length w.now ≤ length out.old) }
    ensures { Wrote out.old 0 (name_bytes w.now) out.new result }
{
    match w.strip_prefix(value::HEX) {
        Some(digits) => unhex(digits, out),
        None => buffers::write(out, 0, w),
    }
}
