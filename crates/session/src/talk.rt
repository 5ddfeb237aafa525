// A session but for reading and writing: the input cut into lines, in whatever pieces it comes, and answered.
ghost use Rattle.std.specs.Prelude.{◌≡◌, ◌≤◌, length, take};
ghost use Rattle.session.specs.Talk.{kept, ended, heard, closed};
ghost use Rattle.session.specs.Places.{line_room, seat_of, at_start, Ready, Seated, HeardPart};

use lines::Why;
use words::Table;

// One byte more than the longest line.
pub const LINE: usize = 256;

// How long the line is so far (LINE: too long), the number of the last one, and how much waits to be written.
#[derive(Clone, Copy)]
pub struct Place {
    pub len: usize,
    pub number: u64,
    pub at: usize,
}

// How many bytes of a piece were heard.
#[derive(Clone, Copy)]
pub struct Taken {
    pub place: Place,
    pub used: usize,
}

pub fn start() -> Place
    ensures { result ≡ at_start }
{
    Place {
        len: 0,
        number: 0,
        at: 0,
    }
}

fn push(line: &mut [u8], len: usize, b: u8) -> usize
    requires { (length line.old ≡ line_room) × (len ≤ line_room) }
    ensures { (take result line.new ≡ kept (take len line.old) b) × (result ≤ line_room) }
{
    if len < LINE {
        line[len] = b;
        len + 1
    } else {
        len
    }
}

fn end_line(
    t: &mut [u64; Table::WORDS],
    line: &[u8],
    name: &mut [u8],
    out: &mut [u8],
    p: Place,
) -> Place
    requires { Ready t.old line.now name.old out.old p }
    ensures { Seated (ended (seat_of t.old line.now out.old p)) out.old t.new line.now out.new result }
{
    let number = p.number.wrapping_add(1);
    let at = if p.len < LINE {
        desk::answer(t, &line[..p.len], number, name, out, p.at)
    } else {
        desk::write_misread(out, p.at, number, Why::TooLong)
    };
    Place { len: 0, number, at }
}

fn feed(
    t: &mut [u64; Table::WORDS],
    b: u8,
    line: &mut [u8],
    name: &mut [u8],
    out: &mut [u8],
    p: Place,
) -> Place
    requires { Ready t.old line.old name.old out.old p }
    ensures { Seated (heard (seat_of t.old line.old out.old p) b) out.old t.new line.new out.new result }
{
    if b == b'\n' {
        return end_line(t, line, name, out, p);
    }
    Place {
        len: push(line, p.len, b),
        ..p
    }
}

// Hears a piece of the input, and stops where the next answer might not fit.
pub fn take(
    t: &mut [u64; Table::WORDS],
    chunk: &[u8],
    line: &mut [u8],
    name: &mut [u8],
    out: &mut [u8],
    p: Place,
) -> Taken
    requires { Ready t.old line.old name.old out.old p }
    ensures { HeardPart (seat_of t.old line.old out.old p) out.old chunk.now t.new line.new out.new result }
{
    let last = out.len() - desk::TOP;
    // In three numbers: a struct that goes round by every byte takes twice as long (docs/SPEED.md).
    let mut len = p.len;
    let mut number = p.number;
    let mut at = p.at;
    for (i, &b) in chunk.iter().enumerate() {
        let p = Place { len, number, at };
        if at > last {
            return Taken { place: p, used: i };
        }
        let e = feed(t, b, line, name, out, p);
        len = e.len;
        number = e.number;
        at = e.at;
    }
    Taken {
        place: Place { len, number, at },
        used: chunk.len(),
    }
}

// The input has ended.
pub fn close(
    t: &mut [u64; Table::WORDS],
    line: &[u8],
    name: &mut [u8],
    out: &mut [u8],
    p: Place,
) -> Place
    requires { Ready t.old line.now name.old out.old p }
    ensures { Seated (closed (seat_of t.old line.now out.old p)) out.old t.new line.now out.new result }
{
    if p.len == 0 {
        return p;
    }
    end_line(t, line, name, out, p)
}
