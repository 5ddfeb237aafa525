// The listing of the table: its length, and its text in a lent buffer.
#![tactic(auto, unfolding(rules::specs::Listing::room_for, rules::specs::Listing::fits_in, rules::specs::Listing::listed_part, rules::specs::Listing::listed_buffer, buffers::specs::Text::put))]

ghost use Rattle.std.specs.Prelude.{◌≡◌, ◌+◌, ◌≤◌, length};
ghost use Rattle.rules.specs.Listing.{listing, room_for, listed_part, listed_buffer};
ghost use Rattle.words.specs.Reading.{table_of};
ghost use Rattle.buffers.specs.Text.{Wrote};

use rules::Refusal;
use words::Table;

mod line; // a slot's line

#[tactic(auto, using(crate::proofs::LineLaws::listing_laws), unfolding(rules::specs::Sizes::slot_count, rules::specs::Sizes::line_top, rules::specs::Sizes::name_size))]
fn text_len(t: &[u64; Table::WORDS]) -> usize
    ensures { result ≡ length (listing (table_of t.now)) }
{
    let mut n = 0;
    for s in 0..Table::SLOTS {
        n += line::line_len(t, s);
    }
    n
}

// From a place in the buffer on; returns the place after it.
#[tactic(auto, using(crate::proofs::LineLaws::listing_laws), unfolding(rules::specs::Sizes::slot_count))]
pub fn write_listing(t: &[u64; Table::WORDS], buffer: &mut [u8], at: usize) -> usize
    requires { at + length (listing (table_of t.now)) ≤ length buffer.old }
    ensures { Wrote buffer.old at (listing (table_of t.now)) buffer.new result }
{
    let mut on = at;
    for s in 0..Table::SLOTS {
        on = line::write_line(t, s, buffer, on);
    }
    on
}

pub fn room_for(t: &[u64; Table::WORDS], room: usize) -> Result<usize, Refusal>
    ensures { result ≡ room_for (table_of t.now) room }
{
    let n = text_len(t);
    if n <= room {
        Ok(n)
    } else {
        Err(Refusal::NoRoom)
    }
}

pub fn dump_into(t: &[u64; Table::WORDS], buffer: &mut [u8]) -> Result<usize, Refusal>
    ensures answer { result ≡ room_for (table_of t.now) (length buffer.old) }
    ensures written { buffer.new ≡ listed_buffer (table_of t.now) buffer.old }
{
    let n = room_for(t, buffer.len())?;
    write_listing(t, buffer, 0);
    Ok(n)
}

// The part stands at the front of the buffer. What the rest holds is not said here; dump_into says it.
pub fn proc_dump<'a>(t: &[u64; Table::WORDS], buffer: &'a mut [u8]) -> &'a mut [u8]
    ensures part { result.now ≡ listed_part (table_of t.now) buffer.old }
    ensures front { result.ref_ptr ≡ buffer.entry.ref_ptr }
{
    let n = dump_into(t, buffer).unwrap_or(0);
    &mut buffer[..n]
}
