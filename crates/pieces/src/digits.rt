// A number in decimal.
ghost use Rattle.std.specs.Prelude.{◌≡◌, ◌+◌, ◌<◌, ◌≤◌, length, drop};
ghost use Rattle.rules.specs.Listing.{digits};
ghost use Rattle.buffers.specs.Text.{Wrote};

// The digits stand at the end, from `from` on.
#[derive(Drop)]
pub struct Digits {
    pub bytes: [u8; 20],
    pub from: usize,
}

impl Digits {
    pub fn as_slice(&self) -> &[u8]
        requires { self.now.from ≤ 20 }
        ensures { result.now ≡ drop self.now.from self.now.bytes }
    {
        &self.bytes[self.from..]
    }
}

// By hand: the last division says how many digits there are.
#[tactic(auto, using(crate::proofs::DigitLaws::left_steps))]
pub fn decimal(n: u64) -> Digits
    ensures { (drop result.from result.bytes ≡ digits n) × (result.from < 20) }
{
    let mut bytes = [0u8; 20];
    let mut from = 19;
    let mut rest = n;
    while rest >= 10 {
        bytes[from] = b'0' + (rest % 10) as u8;
        rest /= 10;
        from -= 1;
    }
    bytes[from] = b'0' + rest as u8;
    Digits { bytes, from }
}

pub fn write(buffer: &mut [u8], at: usize, n: u64) -> usize
    requires { at + length (digits n) ≤ length buffer.old }
    ensures { Wrote buffer.old at (digits n) buffer.new result }
{
    let Digits { bytes, from } = decimal(n);
    buffers::write(buffer, at, &bytes[from..])
}
