// Words are runs of bytes other than spaces.
ghost use Rattle.std.specs.Prelude.{◌≡◌, ◌==◌, ◌<◌, [], ◌∷◌, not, drop, length, position, IfSome, MatchOption};
ghost use Rattle.std.specs.List.{position_or_len};
ghost use Rattle.replay.specs.Word.{words, word_of, word_count_of};

// A line from its first word on; empty where it has none.
fn trimmed<'a>(line: &'a [u8]) -> &'a [u8]
    ensures { result.now ≡ drop (position_or_len (λ b. not (b == 32)) line.now) line.now }
{
    match line.iter().position(|b| *b != b' ') {
        Some(start) => &line[start..],
        None => b"",
    }
}

// The first word of a line, and the line behind it; nothing where there is no word.
fn first_word<'a>(line: &'a [u8]) -> Option<(&'a [u8], &'a [u8])>
    ensures { MatchOption result (words line.now ≡ []) (λ p. words line.now ≡ p.0.now ∷ words p.1.now) }
{
    let rest = trimmed(line);
    if rest.is_empty() {
        return None;
    }
    let end = place_of(rest, b' ').unwrap_or(rest.len());
    Some(rest.split_at(end))
}

// A line from its word number k on, counted from 0; empty where there are fewer.
pub fn from_word<'a>(line: &'a [u8], k: usize) -> &'a [u8]
    ensures { words result.now ≡ drop k (words line.now) }
{
    let mut rest = line;
    for _ in 0..k {
        match first_word(rest) {
            Some((_, behind)) => rest = behind,
            None => return b"",
        }
    }
    trimmed(rest)
}

// The word number k, counted from 0; empty where there are fewer.
pub fn word<'a>(line: &'a [u8], k: usize) -> &'a [u8]
    ensures { result.now ≡ word_of line.now k }
{
    match first_word(from_word(line, k)) {
        Some((first, _)) => first,
        None => b"",
    }
}

pub fn word_count(line: &[u8]) -> usize
    ensures { result ≡ word_count_of line.now }
{
    let mut rest = line;
    let mut n = 0;
    while let Some((_, behind)) = first_word(rest) {
        rest = behind;
        n += 1;
    }
    n
}

// The first place that holds the byte.
pub fn place_of(s: &[u8], byte: u8) -> Option<usize>
    ensures value { result ≡ position (λ b. b == byte) s.now }
    ensures bound { IfSome result (λ k. k < length s.now) }
{
    s.iter().position(|b| *b == byte)
}
