// The words of a line.
ghost use Rattle.std.specs.Prelude.{◌≡◌, not, [], ◌∷◌, MatchOption};
ghost use Rattle.std.specs.List.{prefix_len};
ghost use Rattle.std.specs.Iterator.{YieldsFirstRef, item_count};
ghost use Rattle.script.specs.Format.{blank, words as words_of};

use std::marker::Model;

// The words of a line that are still to come.
#[derive(Drop)]
pub struct Words<'a> {
    rest: &'a [u8],
}

impl<'a> Model for Words<'a> {
    ghost use Rattle.std.specs.Prelude.{ℕ, List};
    ghost use Rattle.script.specs.Format.{words as words_of};

    ghost Value = { List (List ℕ) };

    ghost view = { λ w. words_of w.rest.now };
}

// Whether a byte stands between words.
fn is_blank(b: u8) -> bool
    ensures { result ≡ blank b }
{
    matches!(b, b' ' | b'\t' | b'\r')
}

// How many blanks a text begins with. It and the next differ in a `!`: a test as a parameter would need its contract through a bound.
fn blank_len(text: &[u8]) -> usize
    ensures { result ≡ prefix_len blank text.now }
{
    text.iter().take_while(|b| is_blank(**b)).count()
}

// How many bytes a text has before its first blank.
fn word_len(text: &[u8]) -> usize
    ensures { result ≡ prefix_len (λ b. not (blank b)) text.now }
{
    text.iter().take_while(|b| !is_blank(**b)).count()
}

// The first word of a text, and what stands behind it.
fn first_word<'a>(text: &'a [u8]) -> Option<(&'a [u8], &'a [u8])>
    ensures { MatchOption result (words_of text.now ≡ []) (λ p. words_of text.now ≡ p.0.now ∷ words_of p.1.now) }
{
    let (_, text) = text.split_at(blank_len(text));
    let (word, rest) = text.split_at(word_len(text));
    if word.is_empty() {
        None
    } else {
        Some((word, rest))
    }
}

impl<'a> Words<'a> {
    // The words of a line, from the first on.
    pub fn of(line: &'a [u8]) -> Words<'a>
        ensures { result ≡ words_of line.now }
    {
        Words { rest: line }
    }
}

impl<'a> Iterator for Words<'a> {
    type Item = &'a [u8];

    ghost next_gives = { YieldsFirstRef (λ w. w) };

    ghost remaining = { item_count (λ w. w) };

    fn next(&mut self) -> Option<&'a [u8]> {
        let (word, rest) = first_word(self.rest)?;
        self.rest = rest;
        Some(word)
    }
}
