// Words: runs of bytes other than the space.
ghost use Rattle.std.specs.Prelude.{◌≡◌, ◌==◌, not, position};
ghost use Rattle.lines.specs.Words.{first_word, after_word};

fn first_space(line: &[u8]) -> Option<usize>
    ensures { result ≡ position (λ b. b == 32) line.now }
{
    line.iter().position(|b| *b == b' ')
}

fn first_letter(line: &[u8]) -> Option<usize>
    ensures { result ≡ position (λ b. not (b == 32)) line.now }
{
    line.iter().position(|b| *b != b' ')
}

// The first word and what is behind it; where there is none, the word is empty.
pub fn next(line: &[u8]) -> (&[u8], &[u8])
    ensures word { result.0.now ≡ first_word line.now }
    ensures rest { result.1.now ≡ after_word line.now }
{
    let start = first_letter(line).unwrap_or(line.len());
    let from_word = &line[start..];
    let end = first_space(from_word).unwrap_or(from_word.len());
    from_word.split_at(end)
}
