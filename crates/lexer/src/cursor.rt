// The cursor: a place in a text, by value. Each method takes the text beside it; what moves hands the moved cursor back, so that going
// back is to use the old one. Text and cursor stay two parameters, since one text has many cursors at once: start, dot, end.
ghost use Rattle.std.specs.Prelude.{◌≡◌, ◌≤◌, drop};
ghost use Rattle.grammar.specs.Runs.{sees, sees_pair, moved, optional, over};
ghost use Rattle.grammar.specs.Answers.{is_hex};
ghost use Rattle.lexer.specs.Eaten.{head, past};

use crate::sets::{ByteSet, Not, Or};

#[derive(Clone, Copy, PartialEq, Eq)]
pub struct Cursor {
    pub at: usize,
}

impl Cursor {
    pub fn peek(self, text: &[u8]) -> Option<u8>
        ensures { result ≡ head (drop self.at text.now) }
    {
        // `get` answers with a reference in an Option, which the module for the Cortex-M4 can't hold (docs/DEVICE.md)
        let at = self.at;
        if text.len() <= at {
            return None;
        }
        Some(text[at])
    }

    // Over a byte, if there is one.
    pub(crate) fn eat(self, text: &[u8]) -> Cursor
        ensures place { result.at ≡ moved self.at text.now }
        ensures onward { self.at ≤ result.at }
    {
        let at = self.at;
        if at < text.len() {
            Cursor { at: at + 1 }
        } else {
            self
        }
    }

    pub(crate) fn sees<K: ByteSet>(self, text: &[u8], set: K) -> bool
        ensures { result ≡ sees (K.set set) (drop self.at text.now) }
    {
        self.peek(text).is_some_and(|b| set.has(b))
    }

    pub(crate) fn sees_pair(self, text: &[u8]) -> bool
        ensures { result ≡ sees_pair (drop self.at text.now) }
    {
        self.sees(text, b':') && self.eat(text).sees(text, b':')
    }

    // `0x` or `0X`.
    pub(crate) fn sees_hex(self, text: &[u8]) -> bool
        ensures { result ≡ is_hex (drop self.at text.now) }
    {
        self.sees(text, b'0') && self.eat(text).sees(text, Or(b'x', b'X'))
    }

    // Over a byte of the set, if one is there.
    pub(crate) fn eat_if<K: ByteSet>(self, text: &[u8], set: K) -> Cursor
        ensures place { result.at ≡ optional (K.set set) self.at text.now }
        ensures onward { self.at ≤ result.at }
    {
        if self.sees(text, set) {
            self.eat(text)
        } else {
            self
        }
    }

    // Over bytes of the set, to the first that is none, or to the end.
    pub(crate) fn eat_while<K: ByteSet>(self, text: &[u8], set: K) -> Cursor
        ensures place { result.at ≡ over (K.set set) self.at text.now }
        ensures onward { self.at ≤ result.at }
    {
        // By an index: tried, a `for` over places is slower by a fifth in a long string, and the module for the Cortex-M4 (docs/DEVICE.md)
        // can't hold the Option of a reference that an iterator's `position` goes by.
        let mut at = self.at;
        while at < text.len() && set.has(text[at]) {
            at += 1;
        }
        Cursor { at }
    }

    // Behind the next such byte; or, where there is none, an error: the end.
    pub(crate) fn eat_past(self, text: &[u8], b: u8) -> Result<Cursor, Cursor>
        ensures { result ≡ past b self.at text.now }
    {
        let stop = self.eat_while(text, Not(b));
        if stop.sees(text, b) {
            Ok(stop.eat(text))
        } else {
            Err(stop)
        }
    }
}
