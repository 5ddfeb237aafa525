// The pieces of a text.
#![tactic(auto)]

ghost use Rattle.std.specs.Prelude.{◌≡◌, ◌++◌, ◌+◌, ◌*◌, ◌<◌, ◌≤◌, length};
ghost use Rattle.rules.specs.Listing.{digits};
ghost use Rattle.buffers.specs.Text.{Wrote};
ghost use Rattle.pieces.specs.Pieces.{number_top, signed_digits, flag_text, place_text, hex_digit, hex_text};

use rules::Slot;

pub mod digits; // a number in decimal
pub mod state; // a state's name

pub fn write_field(out: &mut [u8], at: usize, label: &[u8], n: u64) -> usize
    requires { at + length label.now + number_top ≤ length out.old }
    ensures { Wrote out.old at (label.now ++ digits n) out.new result × (result ≤ at + length label.now + number_top) }
{
    let on = buffers::write(out, at, label);
    digits::write(out, on, n)
}

pub fn write_signed(out: &mut [u8], at: usize, x: i32) -> usize
    requires { at + 1 + number_top ≤ length out.old }
    ensures { Wrote out.old at (signed_digits x) out.new result × (result ≤ at + 1 + number_top) }
{
    let sign: &[u8] = if x < 0 { b"-" } else { b"" };
    write_field(out, at, sign, u64::from(x.unsigned_abs()))
}

pub fn write_flag(out: &mut [u8], at: usize, label: &[u8], b: bool) -> usize
    requires { at + length label.now + 1 ≤ length out.old }
    ensures { Wrote out.old at (label.now ++ flag_text b) out.new result × (result ≤ at + length label.now + 1) }
{
    let on = buffers::write(out, at, label);
    buffers::write(out, on, if b { b"1" } else { b"0" })
}

pub fn write_place(out: &mut [u8], at: usize, label: &[u8], p: Option<Slot>) -> usize
    requires { at + length label.now + number_top ≤ length out.old }
    ensures { Wrote out.old at (label.now ++ place_text p) out.new result × (result ≤ at + length label.now + number_top) }
{
    let on = buffers::write(out, at, label);
    match p {
        None => buffers::write(out, on, b"-"),
        Some(s) => digits::write(out, on, s.0 as u64),
    }
}

#[tactic(auto, unfolding(crate::specs::Pieces::hex_digit))]
fn hex_digit(n: u8) -> u8
    requires { n < 16 }
    ensures { result ≡ hex_digit n }
{
    if n < 10 { b'0' + n } else { b'a' + (n - 10) }
}

pub fn write_hex(out: &mut [u8], at: usize, name: &[u8]) -> usize
    requires { at + 2 * length name.now ≤ length out.old }
    ensures { Wrote out.old at (hex_text name.now) out.new result × (result ≤ at + 2 * length name.now) }
{
    let mut on = at;
    for b in name {
        on = buffers::write(out, on, &[hex_digit(b / 16), hex_digit(b % 16)]);
    }
    on
}
