// The table for C and Rust to link, over lent tables: a slice that must hold one.
#![tactic(auto)]

mod calls; // each call, its answer in three words
mod tables; // a fresh table, and what is seen of one: the listing, its text, a slot

// What C reads: numbers, as docs/ARCHIVE.md has them.
const ANSWERED: u64 = 0;

const NOT_ONE_TABLE: u64 = 1;

const OUT_OF_RANGE: u64 = 2;
