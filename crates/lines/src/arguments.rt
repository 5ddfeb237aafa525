// The arguments of a command, as numbers in a row.
ghost use Rattle.std.specs.Prelude.{◌<◌, length, map};
ghost use Rattle.lines.specs.Kinds.{letter};
ghost use Rattle.lines.specs.Meaning.{arguments_in, Told};

use crate::value::Kind;
use crate::{Why, value, word};

// The command's number, and nine arguments at most.
pub const WORDS: usize = 10;

// Argument i goes to w[i + 1].
pub fn read(line: &[u8], kinds: &[Kind], w: &mut [u64]) -> Result<(), Why>
    requires { length kinds.now < length w.old }
    ensures { Told (arguments_in (map letter kinds.now) line.now) w.old result w.new }
{
    let mut rest = line;
    for (i, kind) in kinds.iter().enumerate() {
        let (word, behind) = word::next(rest);
        w[i + 1] = value::argument(*kind, word)?;
        rest = behind;
    }
    let (word, _) = word::next(rest);
    if word.is_empty() {
        Ok(())
    } else {
        Err(Why::TooMany)
    }
}
