// The process table by hand: calls as text on standard input, an answer a line on standard output. docs/LANE.md has the format.
#![tactic(auto)]

use std::io;

fn main(rt: HostRuntime) {
    session::run(&mut rt.stdin(), &mut io::writer(&rt));
}
