// The first word of a line.
ghost use Rattle.std.specs.Prelude.{◌≡◌, ◌∷◌, [], MatchOption, not, position, ◌≤◌, length};
ghost use Rattle.std.specs.List.{position_or_len};
ghost use Rattle.console.specs.Words.{blank, words};

// The first word of a line and what follows it, if the line has a word.
#[tactic(auto, using(crate::proofs::Splitting::splitting))]
pub(crate) fn first_word(line: &[u8]) -> Option<(&[u8], &[u8])>
    ensures { MatchOption result (words line.now ≡ []) (λ r. words line.now ≡ r.0.now ∷ words r.1.now) }
{
    let text = &line[word_start(line)?..];
    Some(text.split_at(word_len(text)))
}

// Where the first word begins.
fn word_start(line: &[u8]) -> Option<usize>
    ensures { result ≡ position (λ c. not (blank c)) line.now }
{
    line.iter().position(|c| !is_blank(*c))
}

// How many bytes stand before the first blank.
fn word_len(text: &[u8]) -> usize
    ensures place { result ≡ position_or_len blank text.now }
    ensures within { result ≤ length text.now }
{
    text.iter().take_while(|c| !is_blank(**c)).count()
}

// The blanks are the space, the tab and the carriage return.
fn is_blank(c: u8) -> bool
    ensures { result ≡ blank c }
{
    matches!(c, b' ' | b'\t' | b'\r')
}
