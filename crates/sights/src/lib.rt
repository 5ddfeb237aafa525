// What a host reads of a table: an answer and a room in words, and the table's text in a lent buffer.
#![tactic(auto)]

ghost use Rattle.std.specs.Prelude.{◌≡◌, length};
ghost use Rattle.promises.specs.Order.Sound.{Sound};
ghost use Rattle.words.specs.Reading.{table_of};
ghost use Rattle.answers.specs.Words.{coded};
ghost use Rattle.sights.specs.Sights.{room_words, show_room, show_buffer};

use rules::{Answer, Refusal};
use words::Table;

pub mod slot; // a slot in ten words

// The first word of an answer that is a text's length: a number, since C reads it.
const LISTED: u64 = 7;

pub fn words_of(a: Answer) -> [u64; answers::WORDS]
    ensures { result ≡ coded a }
{
    answers::coded(a)
}

#[tactic(auto, unfolding(crate::specs::Sights::room_words))]
pub fn room_words(room: Result<usize, Refusal>) -> [u64; answers::WORDS]
    ensures { result ≡ room_words room }
{
    match room {
        Ok(n) => [LISTED, n as u64, 0],
        Err(why) => words_of(Err(why)),
    }
}

#[tactic(auto, unfolding(crate::specs::Sights::show_room, crate::specs::Sights::show_buffer, rules::specs::Sizes::slot_count, rules::specs::Sizes::hart_count, rules::specs::Sizes::name_size))]
pub fn show_into(t: &[u64; Table::WORDS], buffer: &mut [u8]) -> Result<usize, Refusal>
    requires { Sound (table_of t.now) }
    ensures answer { result ≡ show_room (table_of t.now) (length buffer.old) }
    ensures written { buffer.new ≡ show_buffer (table_of t.now) buffer.old }
{
    if buffer.len() < shows::TOP {
        return Err(Refusal::NoRoom);
    }
    Ok(shows::write_show(t, buffer, 0))
}
