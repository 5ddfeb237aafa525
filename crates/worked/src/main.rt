// Document 01's worked runs, each from a fresh table, and behind them the recorded sample: `stdin` has the calls, `stdout` what
// the document says and what the Rust answered. oracle/sample.sh makes both.
#![tactic(auto)]

use std::io;

fn main(rt: HostRuntime) {
    session::run(&mut rt.stdin(), &mut io::writer(&rt));
}
