//! The words of a line.

ghost use Rattle.std.specs.Prelude.{◌≡◌, ◌∷◌, [], MatchOption};
ghost use Rattle.line_words.specs.Words.{words, words_left};

use memchr::memchr;
use std::marker::Model;

/// The words of a line that are not read yet. A space stands between two words.
#[derive(Debug, Drop)]
pub struct Words<'a> {
    rest: Option<&'a [u8]>,
}

impl<'a> Model for Words<'a> {
    ghost use Rattle.std.specs.Prelude.{List, ℕ};
    ghost use Rattle.std.specs.Option.{option_map};
    ghost use Rattle.line_words.specs.Words.{words_left};

    ghost Value = { List (List ℕ) };

    ghost view = { λ left. words_left (option_map (λ rest. rest.now) left.rest) };
}

impl<'a> Words<'a> {
    /// All words of a line. It takes no memory.
    pub fn new(line: &'a [u8]) -> Self
        ensures made { result ≡ words line.now }
    {
        Words { rest: Some(line) }
    }

    /// The next word; `None` exactly where none is left. It takes no memory.
    pub fn next(&mut self) -> Option<&'a [u8]>
        ensures word { MatchOption result ((self.old ≡ []) × (self.new ≡ [])) (λ word. self.old ≡ word.now ∷ self.new) }
    {
        let rest = self.rest?;
        match memchr(b' ', rest) {
            None => {
                self.rest = None;
                Some(rest)
            }
            Some(place) => {
                let (word, _) = rest.split_at(place);
                let (_, others) = rest.split_at(place + 1);
                self.rest = Some(others);
                Some(word)
            }
        }
    }
}
