ghost use Rattle.std.specs.Prelude.{◌≡◌, ◌∷◌, [], IfSome, IfNone};
ghost use Rattle.pur_base.specs.Grammar.{words};
ghost use Rattle.request_codec.specs.Words.{words_in, left_words};

use line_input::place_of;

/// The words that are left of a line.
#[derive(Drop)]
pub struct Words<'a> {
    pub rest: Option<&'a [u8]>,
}

fn split_word(text: &[u8]) -> (&[u8], Option<&[u8]>)
    ensures { words text.now ≡ result.0.now ∷ words_in result.1 }
{
    match place_of(text, b' ') {
        Some(at) => (&text[..at], Some(&text[at + 1..])),
        None => (text, None),
    }
}

impl<'a> Words<'a> {
    pub fn new(line: &'a [u8]) -> Words<'a>
        ensures { left_words result ≡ words line.now }
    {
        Words { rest: Some(line) }
    }

    /// The next word.
    pub fn next(&mut self) -> Option<&'a [u8]>
        ensures some { IfSome result (λ word. left_words self.old ≡ word.now ∷ left_words self.new) }
        ensures none { IfNone result (left_words self.old ≡ []) }
    {
        match self.rest {
            None => None,
            Some(text) => {
                let (word, rest) = split_word(text);
                self.rest = rest;
                Some(word)
            }
        }
    }
}
