//! Texts cut at a byte, and the words of a line.
ghost use Rattle.std.specs.Prelude.{◌≡◌, ◌∷◌, ◌++◌, length, MatchOption, ◌==◌};
ghost use Rattle.std.specs.Iterator.{YieldsFirstRef, item_count};
ghost use Rattle.notation.specs.Texts.{Lacks, words, left, Gave};

/// What stands before the first byte `at`, and what stands behind it.
pub fn split_once(text: &[u8], at: u8) -> Option<(&[u8], &[u8])>
    ensures { MatchOption result (Lacks at text.now) (λ p. Lacks at p.0.now × (text.now ≡ p.0.now ++ (at ∷ p.1.now))) }
{
    let i = text.iter().position(|b| *b == at)?;
    Some((&text[..i], &text[i + 1..]))
}

/// The words of a line, one after another.
// Kept: an iterator of its own. `str::split` gives the same words and is no plainer: its type `Split<char>` does not say that it cuts
// at spaces, so each function that is lent the words would have to require it.
#[derive(Drop)]
pub struct Words<'a> {
    rest: Option<&'a str>,
}

impl<'a> Words<'a> {
    pub fn new(line: &'a str) -> Words<'a>
        ensures { left result ≡ words line.now }
    {
        Words { rest: Some(line) }
    }

    /// The next word; an empty one where none is left.
    pub fn next_word(&mut self) -> &'a str
        ensures { Gave self.old result.now self.new }
    {
        self.next().unwrap_or("")
    }

    /// Is no word left?
    pub fn at_end(&self) -> bool
        ensures { result ≡ (length (left self.now) == 0) }
    {
        self.rest.is_none()
    }
}

impl<'a> Iterator for Words<'a> {
    type Item = &'a str;

    ghost next_gives = { YieldsFirstRef left };

    ghost remaining = { item_count left };

    fn next(&mut self) -> Option<&'a str> {
        let text = self.rest.take()?;
        let Some((word, rest)) = text.split_once(' ') else {
            return Some(text);
        };
        self.rest = Some(rest);
        Some(word)
    }
}
