// A fresh table, and what is seen of one: the listing, the whole table as text, a slot in ten words.
ghost use Rattle.std.specs.Prelude.{◌≡◌, ℕ, ltb, List, [], ◌∷◌, Some};
ghost use Rattle.rules.specs.Sizes.{slot_count};
ghost use Rattle.words.specs.Reading.{table_of};
ghost use Rattle.sights.specs.Sights.{room_words};
ghost use Rattle.anwalghid.specs.Exports.{Renewed, InOrder, allowed, Seen, listed, shown, slot_seen};

use crate::{ANSWERED, NOT_ONE_TABLE, OUT_OF_RANGE};
use rules::Refusal;
use sights::slot;
use words::Table;

#[tactic(auto, using(crate::proofs::ExportLaws::other_number, crate::proofs::ExportLaws::renewed_one))]
#[unsafe(no_mangle)]
pub extern "C" fn anwalghid_new(tables: &mut [[u64; Table::WORDS]]) -> u64
    ensures { Renewed tables.old result tables.new }
{
    // By index: what is left in a slice pattern's element isn't known to be left in the slice.
    if tables.len() != 1 {
        return NOT_ONE_TABLE;
    }
    words::renew(&mut tables[0]);
    ANSWERED
}

// If `write` does f with any table and buffer, f is what is seen.
fn text_of<F: FnOnce(&[u64; Table::WORDS], &mut [u8]) -> Result<usize, Refusal>>(
    tables: &[[u64; Table::WORDS]],
    buffer: &mut [u8],
    answer: &mut [u64; answers::WORDS],
    write: F,
) -> u64
    requires { (t : _) (b : _) → tables.now ≡ t.now ∷ [] → F.pre write t b }
    ensures { (f : List ℕ → _ → List ℕ × List ℕ) → ((t : _) (b : _) (room : _) (d : _) → F.post write t b room d → (d.now, room_words room) ≡ f b.now (table_of t.now)) → Seen (Some (f buffer.old)) tables.now (buffer.old, answer.old) result (buffer.new, answer.new) }
{
    let [t] = tables else {
        return NOT_ONE_TABLE;
    };
    *answer = sights::room_words(write(t, buffer));
    ANSWERED
}

#[unsafe(no_mangle)]
pub extern "C" fn anwalghid_proc_dump(
    tables: &[[u64; Table::WORDS]],
    buffer: &mut [u8],
    answer: &mut [u64; answers::WORDS],
) -> u64
    ensures { Seen (Some (listed buffer.old)) tables.now (buffer.old, answer.old) result (buffer.new, answer.new) }
{
    text_of(tables, buffer, answer, listing::dump_into)
}

#[unsafe(no_mangle)]
pub extern "C" fn anwalghid_show(
    tables: &[[u64; Table::WORDS]],
    buffer: &mut [u8],
    answer: &mut [u64; answers::WORDS],
) -> u64
    requires { InOrder tables.now }
    ensures { Seen (Some (shown buffer.old)) tables.now (buffer.old, answer.old) result (buffer.new, answer.new) }
{
    text_of(tables, buffer, answer, sights::show_into)
}

#[tactic(auto, using(crate::proofs::ExportLaws::other_number, crate::proofs::ExportLaws::seen_one, crate::proofs::ExportLaws::unseen), unfolding(crate::specs::Exports::allowed, crate::specs::Exports::slot_seen, rules::specs::Sizes::slot_count))]
#[unsafe(no_mangle)]
pub extern "C" fn anwalghid_slot(
    tables: &[[u64; Table::WORDS]],
    s: usize,
    seen: &mut [u64; slot::WORDS],
) -> u64
    ensures { Seen (allowed (ltb s slot_count) (slot_seen s)) tables.now seen.old result seen.new }
{
    let [t] = tables else {
        return NOT_ONE_TABLE;
    };
    if s >= Table::SLOTS {
        return OUT_OF_RANGE;
    }
    *seen = slot::see(t, s);
    ANSWERED
}
