// An input to a session, in whatever pieces it comes, and what is said to an output.
#![tactic(auto)]

ghost use Rattle.std.specs.Prelude.{◌≡◌, ◌+◌, ◌≤◌, length};
ghost use Rattle.desk.specs.Desk.{desk_top};
ghost use Rattle.session.specs.Places.{seat_of, Ready};
ghost use Rattle.session.specs.Turns.{after_room, Heard, HeardSome};

use std::io::{Read, Write};
use talk::Place;
use words::Table;

pub mod talk; // but for reading and writing: the input cut into lines, and answered

// Room for what waits to be written, and for one more answer.
const ROOM: usize = 2 * desk::TOP;

// How much is read at once.
const PIECE: usize = 4096;

// How many bytes came: none once the input has ended or can't be read.
fn read<R: Read>(input: &mut R, chunk: &mut [u8]) -> usize
    ensures { result ≤ length chunk.new }
{
    input.read(chunk).unwrap_or(0)
}

// What can't be written is passed over.
fn write_all<W: Write>(output: &mut W, said: &[u8]) {
    let _ = output.write_all(said);
}

// Writes what waits, if the next answer might not fit behind it.
fn make_room<W: Write>(output: &mut W, out: &[u8], at: usize) -> usize
    requires { (desk_top ≤ length out.now) × (at ≤ length out.now) }
    ensures { (result ≡ after_room at (length out.now)) × (result + desk_top ≤ length out.now) }
{
    if at <= out.len() - desk::TOP {
        return at;
    }
    write_all(output, &out[..at]);
    0
}

// A whole piece of the input.
fn take_all<W: Write>(
    output: &mut W,
    t: &mut [u64; Table::WORDS],
    chunk: &[u8],
    line: &mut [u8],
    name: &mut [u8],
    out: &mut [u8],
    p: Place,
) -> Place
    requires { Ready t.old line.old name.old out.old p }
    ensures { Heard (seat_of t.old line.old out.old p) chunk.now t.new line.new name.new out.new result }
{
    let mut p = p;
    let mut done = 0;
    // Not by `for`: how far a turn goes is what `take` answers.
    while done < chunk.len() {
        let e = talk::take(t, &chunk[done..], line, name, out, p);
        p = e.place;
        p.at = make_room(output, out, p.at);
        done += e.used;
    }
    p
}

// A proved loop has to end, and nothing says that an input does: it counts its turns, to a number that no run reaches.
fn hear<R: Read, W: Write>(
    input: &mut R,
    output: &mut W,
    t: &mut [u64; Table::WORDS],
    line: &mut [u8],
    name: &mut [u8],
    out: &mut [u8],
    p: Place,
) -> Place
    requires { Ready t.old line.old name.old out.old p }
    ensures { HeardSome (seat_of t.old line.old out.old p) t.new line.new name.new out.new result }
{
    let mut p = p;
    let mut chunk = [0u8; PIECE];
    for _ in 0..u64::MAX {
        let n = read(input, &mut chunk);
        if n == 0 {
            return p;
        }
        p = take_all(output, t, &chunk[..n], line, name, out, p);
    }
    p
}

pub fn run<R: Read, W: Write>(input: &mut R, output: &mut W) {
    let mut t = Table::new().words;
    let mut line = [0u8; talk::LINE];
    let mut name = [0u8; talk::LINE];
    let mut out = [0u8; ROOM];
    let p = hear(
        input,
        output,
        &mut t,
        &mut line,
        &mut name,
        &mut out,
        talk::start(),
    );
    let e = talk::close(&mut t, &line, &mut name, &mut out, p);
    write_all(output, &out[..e.at]);
}
