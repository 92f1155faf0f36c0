// Texts: their lines, the words of a line, and the number that a word writes.
ghost use Rattle.std.specs.Prelude.{◌≡◌, ℕ, ◌+◌, ◌^◌, ◌<◌, ◌≤◌, true, false, [], ◌∷◌, length, MatchOption, ◌==◌, ◌≢◌, slice_index};
ghost use Rattle.text.specs.Texts.{blank, chomped, digit_on, lines_of, number_of, words_of};

// A number by one digit more.
fn append_digit(number: u64, byte: u8) -> Option<u64>
    ensures { result ≡ digit_on number byte }
{
    if !byte.is_ascii_digit() {
        return None;
    }
    number.checked_mul(10)?.checked_add((byte - b'0') as u64)
}

// The number that a word writes in decimal digits, if it fits.
pub fn number(word: &[u8]) -> Option<u64>
    ensures { result ≡ number_of word.now }
{
    if word.is_empty() {
        return None;
    }
    let mut number = 0;
    for byte in word {
        number = append_digit(number, *byte)?;
    }
    Some(number)
}

fn is_blank(byte: u8) -> bool
    ensures { result ≡ blank byte }
{
    byte == b' ' || byte == b'\t'
}

// The first word of a line, and what comes behind it.
pub fn next_word(line: &[u8]) -> Option<(&[u8], &[u8])>
    ensures { MatchOption result (words_of line.now ≡ []) (λ p. words_of line.now ≡ p.0.now ∷ words_of p.1.now) }
{
    let start = line.iter().position(|byte| !is_blank(*byte))?;
    let rest = &line[start..];
    let end = rest.iter().position(|byte| is_blank(*byte));
    Some(rest.split_at(end.unwrap_or(rest.len())))
}

// A line without the carriage return at its end.
fn chomp(line: &[u8]) -> &[u8]
    ensures { result.now ≡ chomped line.now }
{
    line.strip_suffix(b"\r").unwrap_or(line)
}

// The first line of a text that is not empty, and what comes behind it.
fn split_line(text: &[u8]) -> (&[u8], &[u8])
    requires { 0 < length text.now }
    ensures lines { lines_of text.now ≡ result.0.now ∷ lines_of result.1.now }
    ensures shorter { length result.1.now < length text.now }
{
    match text.iter().position(|byte| *byte == b'\n') {
        Some(feed) => (chomp(&text[..feed]), &text[feed + 1..]),
        None => (text, &[]),
    }
}

// What is left of a text, and how many of its lines have been taken. No Iterator: a scan takes lines
// of its own between two of a job's, so no `for` or chain could go over a text.
#[derive(Clone, Copy)]
pub struct Text<'a> {
    rest: &'a [u8],
    pub taken: usize,
    ghost fits: { taken + length rest.now < 2 ^ 64 },
}

impl<'a> Text<'a> {
    pub fn new(bytes: &'a [u8]) -> Text<'a>
        ensures rest { result.rest.now ≡ bytes.now }
        ensures taken { result.taken ≡ 0 }
    {
        Text {
            rest: bytes,
            taken: 0,
        }
    }

    // The next line, if there is one.
    pub fn next_line(&mut self) -> Option<&'a [u8]>
        ensures lines { MatchOption result ((lines_of self.old.rest.now ≡ []) × (lines_of self.new.rest.now ≡ [])) (λ l. lines_of self.old.rest.now ≡ l.now ∷ lines_of self.new.rest.now) }
        ensures taken { MatchOption result (self.new.taken ≡ self.old.taken) (λ _. self.new.taken ≡ self.old.taken + 1) }
    {
        if self.rest.is_empty() {
            return None;
        }
        let (line, rest) = split_line(self.rest);
        self.rest = rest;
        self.taken += 1;
        Some(line)
    }
}
