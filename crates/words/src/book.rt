// Groups, harts, init and the pid counter, read and set.
#![tactic(auto, using(crate::proofs::BookLaws::book_laws), unfolding(rules::specs::Sizes::group_count))]

ghost use Rattle.std.specs.Prelude.{◌≡◌, ◌<◌};
ghost use Rattle.rules.specs.Sizes.{group_count, hart_count};
ghost use Rattle.rules.specs.Model.{group_at, hart_at};
ghost use Rattle.rules.specs.Moves.{set_group, resize};
ghost use Rattle.promises.specs.Order.Chains.{on_core};
ghost use Rattle.words.specs.Reading.{table_of, InTable};
ghost use Rattle.words.specs.Effects.{on_books, with_hart, with_init, with_pids, recount};

use crate::layout::{Cell, Column, get, get_cell, get_hart, put, put_cell, put_hart};
use crate::{Table, word};
use rules::{Group, Slot};

pub fn group_at(t: &[u64; Table::WORDS], g: usize) -> Group
    requires { g < group_count }
    ensures { result ≡ group_at (table_of t.now).books g }
{
    Group {
        size: get(t, Column::Size, g),
        count: get(t, Column::Count, g),
    }
}

pub fn set_size(t: &mut [u64; Table::WORDS], g: usize, size: u64)
    requires { g < group_count }
    ensures { table_of t.new ≡ on_books (resize g size) (table_of t.old) }
{
    put(t, Column::Size, g, size);
}

pub fn set_count(t: &mut [u64; Table::WORDS], g: usize, count: u64)
    requires { g < group_count }
    ensures { table_of t.new ≡ on_books (recount g count) (table_of t.old) }
{
    put(t, Column::Count, g, count);
}

pub fn set_group(t: &mut [u64; Table::WORDS], g: usize, group: Group)
    requires { g < group_count }
    ensures { table_of t.new ≡ on_books (set_group g group) (table_of t.old) }
{
    set_size(t, g, group.size);
    set_count(t, g, group.count);
}

pub fn hart_at(t: &[u64; Table::WORDS], hart: usize) -> Option<Slot>
    requires { hart < hart_count }
    ensures { (result ≡ hart_at (table_of t.now).core hart) × InTable result }
{
    word::parent_of(get_hart(t, hart))
}

pub fn set_hart(t: &mut [u64; Table::WORDS], hart: usize, p: Option<Slot>)
    requires { (hart < hart_count) × InTable p }
    ensures { table_of t.new ≡ on_core (with_hart hart p) (table_of t.old) }
{
    put_hart(t, hart, word::parent_word(p));
}

pub fn init(t: &[u64; Table::WORDS]) -> Option<Slot>
    ensures { (result ≡ (table_of t.now).books.init) × InTable result }
{
    word::parent_of(get_cell(t, Cell::Init))
}

pub fn set_init(t: &mut [u64; Table::WORDS], p: Option<Slot>)
    requires { InTable p }
    ensures { table_of t.new ≡ on_books (with_init p) (table_of t.old) }
{
    put_cell(t, Cell::Init, word::parent_word(p));
}

pub fn pids(t: &[u64; Table::WORDS]) -> u64
    ensures { result ≡ (table_of t.now).books.pids }
{
    get_cell(t, Cell::Pids)
}

pub fn set_pids(t: &mut [u64; Table::WORDS], n: u64)
    ensures { table_of t.new ≡ on_books (with_pids n) (table_of t.old) }
{
    put_cell(t, Cell::Pids, n);
}
