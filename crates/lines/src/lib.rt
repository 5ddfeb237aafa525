// What a line says.
#![tactic(auto)]

ghost use Rattle.std.specs.Prelude.{◌≡◌, ◌≤◌, length, unwrap_or};
ghost use Rattle.lines.specs.Meaning.{word_count, means, command_means, words_of, bits, flags_together, said_by, meaning_of, NameThere};
ghost use Rattle.lines.specs.Grammar.{first_call, number_of};
ghost use Rattle.codes.specs.Codes.{call_in};

use steps::Call;

mod word; // the words of a line
mod value; // what a word is worth
mod name; // a name as its bytes
mod grammar; // the commands
mod arguments; // the arguments of a command

use grammar::Command;

// Why a line can't be read.
#[derive(Clone, Copy)]
pub enum Why {
    UnknownWord,
    TooFew,
    TooMany,
    NotANumber,
    TooLarge,
    NotAChoice,
    NotAName,
    // Said by whoever cuts the input into lines.
    TooLong,
}

#[derive(Clone, Copy)]
pub enum Said {
    Nothing,
    Call(Call),
    // The length of the name, and the entry.
    Spawn(usize, u64),
    List(u64),
    Show,
    Fresh,
    Misread(Why),
}

// The word of a thread's flags where one is no flag: a number, since `codes` reads words.
const NO_FLAGS: u64 = 16;

// Four flags in a word; none, if one is no flag.
#[tactic(auto, unfolding(crate::specs::Meaning::bits, codes::specs::Codes::is_flag))]
fn bits(a: u64, b: u64, c: u64, d: u64) -> Option<u64>
    ensures { unwrap_or result 16 ≡ bits a b c d }
{
    if a < 2 && b < 2 && c < 2 && d < 2 {
        Some(a + 2 * b + 4 * c + 8 * d)
    } else {
        None
    }
}

fn flags_together(command: Command, w: &mut [u64])
    requires { word_count ≤ length w.old }
    ensures { w.new ≡ flags_together (number_of command) w.old }
{
    if let Command::Thread = command {
        w[6] = bits(w[6], w[7], w[8], w[9]).unwrap_or(NO_FLAGS);
    }
}

fn call(command: Command, w: &mut [u64]) -> Said
    requires call { first_call ≤ number_of command }
    requires long { word_count ≤ length w.old }
    ensures { result ≡ said_by (call_in (words_of (number_of command) w.old)) }
{
    flags_together(command, w);
    w[0] = command as u64 - Command::Boot as u64;
    codes::first(w).map_or(Said::Misread(Why::NotAChoice), Said::Call)
}

// The command with its arguments in w, and the rest of the line behind its name.
fn meant(command: Command, rest: &[u8], w: &mut [u64], name: &mut [u8]) -> Said
    requires long { word_count ≤ length w.old }
    requires fits { length rest.now ≤ length name.old }
    requires named { NameThere (number_of command) rest.now }
    ensures { meaning_of name.new result ≡ command_means (number_of command) rest.now w.old }
{
    match command {
        Command::Spawn => {
            let (word, _) = word::next(rest);
            Said::Spawn(name::write_name(word, name), w[2])
        }
        Command::List => Said::List(w[1]),
        Command::Show => Said::Show,
        Command::Fresh => Said::Fresh,
        _ => call(command, w),
    }
}

// The name that a spawn has goes into a lent buffer.
pub fn read(line: &[u8], name: &mut [u8]) -> Said
    requires { length line.now ≤ length name.old }
    ensures { meaning_of name.new result ≡ means line.now }
{
    let (word, rest) = word::next(line);
    if word.is_empty() || word[0] == b'#' {
        return Said::Nothing;
    }
    let Some(command) = grammar::find(word) else {
        return Said::Misread(Why::UnknownWord);
    };
    let mut w = [0; arguments::WORDS];
    match arguments::read(rest, command.kinds(), &mut w) {
        Ok(()) => meant(command, rest, &mut w, name),
        // Not by `?`: what can't be read is said.
        Err(why) => Said::Misread(why),
    }
}
