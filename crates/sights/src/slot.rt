// A slot in ten words. Their meanings are a host's own: the words of the table may change, what is linked against may not.
#![tactic(auto, unfolding(crate::specs::Sights::flag_word, crate::specs::Sights::place_word, crate::specs::Sights::group_word, crate::specs::Sights::slot_words, rules::specs::Sizes::slot_count, rules::specs::Sizes::group_count))]

ghost use Rattle.std.specs.Prelude.{◌≡◌, ◌<◌};
ghost use Rattle.rules.specs.Sizes.{slot_count};
ghost use Rattle.rules.specs.Model.{at};
ghost use Rattle.words.specs.Reading.{table_of, InTable, InGroups};
ghost use Rattle.sights.specs.Sights.{place_word, group_word, slot_words};

use rules::Slot;
use words::{Table, slot, word};

pub const WORDS: usize = 10;

fn group(m: Option<usize>) -> u64
    requires { InGroups m }
    ensures { result ≡ group_word m }
{
    m.map_or(0, |g| g as u64 + 1)
}

fn place(p: Option<Slot>) -> u64
    requires { InTable p }
    ensures { result ≡ place_word p }
{
    group(p.map(|s| s.0))
}

pub fn see(t: &[u64; Table::WORDS], s: usize) -> [u64; WORDS]
    requires { s < slot_count }
    ensures { result ≡ slot_words (at (table_of t.now).core s) }
{
    let m = slot::meta_at(t, s);
    let k = slot::kin_at(t, s);
    [
        word::state_code(m.state),
        m.channel,
        u64::from(m.killed),
        m.xstate,
        m.pid.0,
        u64::from(m.queued),
        group(k.group),
        place(k.parent),
        u64::from(k.thread),
        u64::from(k.system),
    ]
}
