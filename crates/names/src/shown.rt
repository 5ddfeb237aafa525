// A slot's name as the listing shows it.
ghost use Rattle.std.specs.Prelude.{◌≡◌, ◌++◌, ◌≤◌, take};
ghost use Rattle.rules.specs.Listing.{shown};
ghost use Rattle.words.specs.Reading.{bytes_of};
ghost use Rattle.names.specs.Names.{name_shown};

#[derive(Drop)]
pub struct Name {
    pub bytes: [u8; 16],
    pub len: usize,
}

#[tactic(auto, unfolding(rules::specs::Listing::shown))]
fn show(b: u8) -> u8
    ensures { result ≡ shown b }
{
    match b {
        b' '..=b'~' => b,
        _ => b'?',
    }
}

pub fn shown_name(a: u64, b: u64) -> Name
    ensures { (take result.len result.bytes ≡ name_shown (bytes_of a ++ bytes_of b)) × (result.len ≤ 16) }
{
    let mut bytes = crate::unpack(a, b);
    let len = bytes.iter().position(|b| *b == 0).unwrap_or(bytes.len());
    // `bytes.map(show)` takes ten times as long.
    for b in &mut bytes[..len] {
        *b = show(*b);
    }
    Name { bytes, len }
}
