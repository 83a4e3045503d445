// Tokens of a line.
ghost use Rattle.std.specs.Prelude.{length};
ghost use Rattle.std.specs.Iterator.{at_most};

// What is left of a line: its tokens, parted by spaces.
#[derive(Clone, Copy, Drop)]
pub struct Tokens<'a> {
    rest: &'a [u8],
}

impl<'a> Iterator for Tokens<'a> {
    type Item = &'a [u8];

    ghost remaining = { λ s. at_most (length s.rest.now) };

    fn next(&mut self) -> Option<&'a [u8]> {
        let rest = self.rest;
        let from = rest.iter().position(|c| *c != b' ')?;
        let begun = &rest[from..];
        let to = begun.iter().position(|c| *c == b' ').unwrap_or(begun.len());
        self.rest = &begun[to..];
        Some(&begun[..to])
    }
}

impl<'a> Tokens<'a> {
    pub fn new(line: &'a [u8]) -> Tokens<'a> {
        Tokens { rest: line }
    }

    // Passes over the next token where it is this word.
    pub fn skip_word(&mut self, w: &[u8]) -> bool {
        let mut after = *self;
        let is_next = after.next().is_some_and(|token| word(token) == Some(w));
        if is_next {
            *self = after;
        }
        is_next
    }

    // Nothing, where a token is left.
    pub fn end(mut self) -> Option<()> {
        self.next().is_none().then_some(())
    }
}

// The word that a token of at most eight bytes is: zeros at its end do not count. A longer token is
// no word.
pub fn word(token: &[u8]) -> Option<&[u8]> {
    let to = token.iter().rposition(|c| *c != 0).map_or(0, |i| i + 1);
    (token.len() <= 8).then_some(&token[..to])
}
