// The process table in place: an array of words, a column for each field. Contracts speak of the table that the words hold,
// `table_of`; where a word stands is known in this crate alone.
#![tactic(auto)]

ghost use Rattle.std.specs.Prelude.{◌≡◌};
ghost use Rattle.rules.specs.Model.{fresh};
ghost use Rattle.promises.specs.Order.Sound.{Sound};
ghost use Rattle.words.specs.Reading.{table_of};

mod layout; // where each word stands
pub mod word; // what one word means
pub mod slot; // a slot's fields and its parts
pub mod book; // groups, harts, init, the pid counter
pub mod queue; // the run queue

#[derive(Drop)]
pub struct Table {
    pub words: [u64; Table::WORDS],
}

impl Table {
    pub const SLOTS: usize = 64;

    pub const HARTS: usize = 8;

    pub const WORDS: usize = layout::WORDS;

    pub fn new() -> Self
        ensures { (table_of result.words ≡ fresh) × Sound (table_of result.words) }
    {
        Table {
            words: [0; Table::WORDS],
        }
    }
}

// A fresh table in place of the one that was.
pub fn renew(t: &mut [u64; Table::WORDS])
    ensures { (table_of t.new ≡ fresh) × Sound (table_of t.new) }
{
    let Table { words } = Table::new();
    *t = words;
}
