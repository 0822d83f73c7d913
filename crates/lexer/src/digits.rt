// Runs of digits, in groups parted by single underscores.
ghost use Rattle.std.specs.Prelude.{◌≡◌, ◌+◌, ◌≤◌, drop};
ghost use Rattle.lexer.specs.Eaten.{digit_run, groups, hex_run, tally};

use crate::cursor::Cursor;
use crate::sets::{ByteSet, Digit, Hexdigit};

// A place in a number, and how many digits and underscores the number has before it.
#[derive(Clone, Copy)]
pub(crate) struct Tally {
    pub(crate) cursor: Cursor,
    pub(crate) digits: usize,
    pub(crate) underscores: usize,
}

// Where a run goes wrong: from where its last group starts.
#[derive(Clone, Copy)]
pub(crate) struct Span {
    pub(crate) from: Cursor,
    pub(crate) to: Cursor,
}

// The bound on the counts stands in the three contracts and not in the type: the definitions of specs/ count on in tallies that nothing
// bounds.
impl Tally {
    // Nothing is counted yet.
    pub(crate) fn begin(cursor: Cursor) -> Tally
        ensures { result ≡ tally cursor.at 0 0 }
    {
        Tally {
            cursor,
            digits: 0,
            underscores: 0,
        }
    }

    // Behind the run, which is counted.
    pub(crate) fn eat_while_number_digit(self, text: &[u8]) -> Result<Tally, Span>
        requires { self.digits + self.underscores ≤ self.cursor.at }
        ensures { result ≡ digit_run self text.now }
    {
        // no test for a digit before the underscore: the Rust's, made behind it, never holds (proofs/MissingDigit.antt)
        self.eat_groups(text, Digit)
    }

    pub(crate) fn eat_while_number_hexdigit(self, text: &[u8]) -> Result<Tally, Span>
        requires { self.digits + self.underscores ≤ self.cursor.at }
        ensures { result ≡ hex_run self text.now }
    {
        let start = self.cursor;
        if start.sees(text, b'_') {
            // before the underscore, there was no digit
            return Err(Span {
                from: start,
                to: start,
            });
        }
        self.eat_groups(text, Hexdigit)
    }

    // Each group but the first has a digit, since a digit behind the underscore is what begins it.
    fn eat_groups<K: ByteSet>(self, text: &[u8], set: K) -> Result<Tally, Span>
        requires { self.digits + self.underscores ≤ self.cursor.at }
        ensures { result ≡ groups (K.set set) self.cursor.at self.cursor.at self.digits self.underscores (drop self.cursor.at text.now) }
    {
        let mut start = self.cursor;
        let mut digits = self.digits;
        let mut underscores = self.underscores;
        loop {
            let end = start.eat_while(text, set);
            digits += end.at - start.at;
            if !end.sees(text, b'_') {
                return Ok(Tally {
                    cursor: end,
                    digits,
                    underscores,
                });
            }
            let next = end.eat(text);
            if !next.sees(text, set) {
                // after the underscore, there is no digit
                return Err(Span {
                    from: start,
                    to: next,
                });
            }
            underscores += 1;
            start = next;
        }
    }
}
