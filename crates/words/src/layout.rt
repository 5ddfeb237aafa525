// Where each word stands: the columns, then the single cells, then the harts.
#![tactic(auto, unfolding(rules::specs::Sizes::slot_count, rules::specs::Sizes::hart_count, crate::specs::Layout::column_at, crate::specs::Layout::cell_at, crate::specs::Layout::word_count, crate::specs::Layout::column, crate::specs::Layout::cell))]

ghost use Rattle.std.specs.Prelude.{◌≡◌, ◌<◌, length, slice_set};
ghost use Rattle.rules.specs.Sizes.{slot_count, hart_count};
ghost use Rattle.words.specs.Layout.{column_number, cell_number, hart_cell, column_at, cell_at, word_count, column, cell};

use crate::Table;

// The columns: a word for each slot, or each group (Size, Count), or each place of the run queue (Place).
#[derive(Clone, Copy)]
pub enum Column {
    State,
    Channel,
    Killed,
    Xstate,
    Pid,
    Queued,
    Group,
    Parent,
    Thread,
    System,
    Below,
    Sp,
    Entry,
    Top,
    Arg,
    Ret,
    Name0,
    Name1,
    Size,
    Count,
    Place,
}

// The single words, behind the columns and before the harts' words.
#[derive(Clone, Copy)]
pub enum Cell {
    Head,
    Tail,
    Init,
    Pids,
}

const FIRST_CELL: usize = (Column::Place as usize + 1) * Table::SLOTS;

const FIRST_HART: usize = FIRST_CELL + Cell::Pids as usize + 1;

pub const WORDS: usize = FIRST_HART + Table::HARTS;

// The word of slot (or group, or place) s in column f.
pub fn get(t: &[u64; Table::WORDS], f: Column, s: usize) -> u64
    requires { s < slot_count }
    ensures { result ≡ column t.now (column_number f) s }
{
    t[f as usize * Table::SLOTS + s]
}

pub fn get_cell(t: &[u64; Table::WORDS], k: Cell) -> u64
    ensures { result ≡ cell t.now (cell_number k) }
{
    t[FIRST_CELL + k as usize]
}

pub fn put(t: &mut [u64; Table::WORDS], f: Column, s: usize, n: u64)
    requires { s < slot_count }
    ensures { (t.new ≡ slice_set t.old (column_at (column_number f) s) n) × (length t.old ≡ word_count) }
{
    t[f as usize * Table::SLOTS + s] = n;
}

pub fn put_cell(t: &mut [u64; Table::WORDS], k: Cell, n: u64)
    ensures { (t.new ≡ slice_set t.old (cell_at (cell_number k)) n) × (length t.old ≡ word_count) }
{
    t[FIRST_CELL + k as usize] = n;
}

pub fn get_hart(t: &[u64; Table::WORDS], hart: usize) -> u64
    requires { hart < hart_count }
    ensures { result ≡ cell t.now (hart_cell hart) }
{
    t[FIRST_HART + hart]
}

pub fn put_hart(t: &mut [u64; Table::WORDS], hart: usize, n: u64)
    requires { hart < hart_count }
    ensures { (t.new ≡ slice_set t.old (cell_at (hart_cell hart)) n) × (length t.old ≡ word_count) }
{
    t[FIRST_HART + hart] = n;
}
