// The words of a line, taken one by one.
use std::str::FromStr;

// What is left of a line: nothing behind its last word.
// No `Split`, which cannot be copied: whoever has the words of a line can look ahead on a copy.
#[derive(Clone, Copy)]
pub struct Words<'a> {
    rest: Option<&'a str>,
}

impl<'a> Words<'a> {
    pub fn new(line: &'a str) -> Words<'a> {
        Words { rest: Some(line) }
    }

    // The next word, which may be empty.
    pub fn word(&mut self) -> Option<&'a str> {
        let rest = self.rest?;
        let (word, more) = rest
            .split_once(' ')
            .map_or((rest, None), |(word, more)| (word, Some(more)));
        self.rest = more;
        Some(word)
    }

    // The next word as a value: a number has no sign.
    pub fn value<T: FromStr>(&mut self) -> Option<T>
    where
        T::Err: Drop,
    {
        let word = self.word()?;
        if word.starts_with('+') {
            return None;
        }
        word.parse().ok()
    }

    // The next word, of so many bytes.
    pub fn bytes<const N: usize>(&mut self) -> Option<[u8; N]> {
        self.word()?.as_bytes().try_into().ok()
    }

    // Whether every word was taken.
    pub fn is_done(self) -> bool {
        self.rest.is_none()
    }
}
