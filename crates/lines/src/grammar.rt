// The commands, and the kinds of their arguments.
#![tactic(auto, unfolding(crate::specs::Grammar::name_of, crate::specs::Grammar::kinds_of, crate::specs::Grammar::grammar, crate::specs::Grammar::command, rules::specs::Listing::bytes))]

ghost use Rattle.std.specs.Prelude.{◌≡◌, ◌<◌, length, map};
ghost use Rattle.lines.specs.Kinds.{letter};
ghost use Rattle.lines.specs.Grammar.{command_of, name_of, kinds_of, number_of, number_found};

use crate::value::Kind::{self, Count, Flag, Name, Number, Room, Wish};

// In the order of their numbers: first what is no call, then the calls.
#[derive(Clone, Copy)]
pub enum Command {
    List,
    Show,
    Fresh,
    Boot,
    Start,
    Spawn,
    SystemReturn,
    Fork,
    Thread,
    Dispatch,
    Yield,
    Sleep,
    Wake,
    Kill,
    Wait,
    Join,
    ThreadExit,
    Exit,
    Grow,
}

impl Command {
    const ALL: [Command; 19] = [
        Command::List,
        Command::Show,
        Command::Fresh,
        Command::Boot,
        Command::Start,
        Command::Spawn,
        Command::SystemReturn,
        Command::Fork,
        Command::Thread,
        Command::Dispatch,
        Command::Yield,
        Command::Sleep,
        Command::Wake,
        Command::Kill,
        Command::Wait,
        Command::Join,
        Command::ThreadExit,
        Command::Exit,
        Command::Grow,
    ];

    fn name(self) -> &'static [u8]
        ensures { result.now ≡ name_of (number_of self) }
    {
        match self {
            Command::List => b"list",
            Command::Show => b"show",
            Command::Fresh => b"fresh",
            Command::Boot => b"boot",
            Command::Start => b"start",
            Command::Spawn => b"spawn",
            Command::SystemReturn => b"system-return",
            Command::Fork => b"fork",
            Command::Thread => b"thread",
            Command::Dispatch => b"dispatch",
            Command::Yield => b"yield",
            Command::Sleep => b"sleep",
            Command::Wake => b"wake",
            Command::Kill => b"kill",
            Command::Wait => b"wait",
            Command::Join => b"join",
            Command::ThreadExit => b"thread-exit",
            Command::Exit => b"exit",
            Command::Grow => b"grow",
        }
    }

    // The kinds of its arguments.
    pub fn kinds(self) -> &'static [Kind]
        ensures are { map letter result.now ≡ kinds_of (number_of self) }
        ensures few { length result.now < 10 }
    {
        match self {
            Command::List => &[Room],
            Command::Show | Command::Fresh | Command::Boot | Command::Start => &[],
            Command::Spawn => &[Name, Number],
            Command::SystemReturn | Command::Dispatch | Command::Yield => &[Number],
            Command::Wake | Command::Kill => &[Number],
            Command::Fork => &[Number, Flag],
            Command::Thread => &[
                Number, Number, Number, Number, Number, Flag, Flag, Flag, Flag,
            ],
            Command::Sleep | Command::ThreadExit | Command::Exit => &[Number, Number],
            Command::Wait => &[Number, Wish],
            Command::Join => &[Number, Number, Wish],
            Command::Grow => &[Number, Count, Flag],
        }
    }
}

// The command with this name.
pub fn find(name: &[u8]) -> Option<Command>
    ensures { number_found result ≡ command_of name.now }
{
    for command in Command::ALL {
        if name == command.name() {
            return Some(command);
        }
    }
    None
}
