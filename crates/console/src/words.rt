// The words of a command line.
ghost use Rattle.std.specs.Prelude.{◌≡◌};
ghost use Rattle.std.specs.Iterator.{YieldsFirstRef, item_count};
ghost use Rattle.std.specs.Str.{bytes_eq};
ghost use Rattle.console.specs.Words.{words, words_left};

use crate::scan::first_word;
use std::mem;

// The words that are left of a line, from the first to the last.
#[derive(Clone, Copy)]
pub struct Words<'a> {
    rest: &'a [u8],
}

// All the words of a line.
pub fn split_line(line: &[u8]) -> Words<'_>
    ensures { words_left result ≡ words line.now }
{
    Words { rest: line }
}

impl<'a> Iterator for Words<'a> {
    type Item = &'a [u8];

    ghost next_gives = { YieldsFirstRef words_left };

    ghost remaining = { item_count words_left };

    fn next(&mut self) -> Option<&'a [u8]> {
        // where no word is left nothing is, so that blanks at the end are gone over once
        let (word, rest) = first_word(mem::replace(&mut self.rest, b""))?;
        self.rest = rest;
        Some(word)
    }
}

// Whether a word is this text. Callers ask this rather than match bytes, since such a pattern is tested and proved byte by byte.
pub fn word_is(word: &[u8], text: &str) -> bool
    ensures { result ≡ bytes_eq word.now text.now }
{
    word == text.as_bytes()
}
