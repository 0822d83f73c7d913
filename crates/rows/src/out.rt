// What is printed, gathered in a row of bytes that is written whenever it is full: a call of the system for each piece would cost
// more than the lexing. A row of no bytes prints nothing. What cannot be written is told on standard error and is lost, so that each
// call answers as if it were written.
ghost use Rattle.std.specs.Prelude.{◌≡◌, ◌≤◌, length, take};
ghost use Rattle.rows.specs.Counts.{IsPrefixLen};
ghost use Rattle.rows.specs.Out.{Within, Gives, filled_of, one_more, more};

use std::fmt::{Display, Write};
use std::{fmt, str};

// The row, of which the first `filled` bytes are filled. What is not flushed is not printed.
#[derive(Drop)]
pub struct Out<'a, P: Print + Eprint> {
    rt: &'a P,
    row: &'a mut [u8],
    filled: usize,
    pub ghost within: { Within row.now filled },
}

impl<'a, P: Print + Eprint> Out<'a, P> {
    // So many bytes of the row are filled: a number beyond it counts as none.
    pub fn new(rt: &'a P, row: &'a mut [u8], at: usize) -> Out<'a, P>
        ensures same_reference { result.row.ghost_name ≡ row.entry.ghost_name }
        ensures row { result.row.now ≡ row.old }
        ensures filled { result.filled ≡ filled_of row.old at }
    {
        let filled = filled(row, at);
        Out { rt, row, filled }
    }

    // What is filled.
    pub fn bytes(&self) -> &[u8]
        ensures { result.now ≡ take self.now.filled self.now.row.now }
    {
        &self.row[..self.filled]
    }

    // Writes what is filled, and tells where it cannot be written. The row stays as it is, and as much of it is filled.
    pub fn flush(&self) {
        if self.rt.write_all(self.bytes()).is_err() {
            complain(self.rt, b"standard output cannot be written\n");
        }
    }

    #[inline]
    #[tactic(auto, unfolding(crate::specs::Out::one_more))]
    pub fn put_byte(&mut self, b: u8)
        ensures same_reference { self.new.row.ghost_name ≡ self.old.row.ghost_name }
        ensures gives { Gives (one_more self.old.row.now self.old.filled b) self.new.row.now self.new.filled }
    {
        if self.filled < self.row.len() {
            self.row[self.filled] = b;
            self.filled += 1;
            return;
        }
        self.put_first(b);
    }

    // Writes the full row, and puts the byte at its front. It stands apart, and so does `put_over`: what is put is mostly one byte or a few,
    // and a call that might write costs more than that.
    #[cold]
    #[inline(never)]
    #[tactic(auto, unfolding(crate::specs::Out::one_more))]
    fn put_first(&mut self, b: u8)
        requires { length self.old.row.now ≤ self.old.filled }
        ensures same_reference { self.new.row.ghost_name ≡ self.old.row.ghost_name }
        ensures gives { Gives (one_more self.old.row.now self.old.filled b) self.new.row.now self.new.filled }
    {
        self.flush();
        if self.row.len() == 0 {
            return;
        }
        self.row[0] = b;
        self.filled = 1;
    }

    // A text for which there is room is copied whole.
    #[tactic(auto, using(crate::proofs::OutLaws::put_fits))]
    pub fn put(&mut self, text: &[u8])
        ensures same_reference { self.new.row.ghost_name ≡ self.old.row.ghost_name }
        ensures gives { Gives (more self.old.row.now self.old.filled text.now) self.new.row.now self.new.filled }
    {
        if text.len() <= self.row.len() - self.filled {
            let end = self.filled + text.len();
            self.row[self.filled..end].copy_from_slice(text);
            self.filled = end;
            return;
        }
        self.put_over(text);
    }

    // Byte by byte, over the row's end.
    #[cold]
    #[inline(never)]
    #[tactic(auto, using(crate::proofs::OutLaws::put_on, crate::proofs::OutLaws::put_none))]
    fn put_over(&mut self, text: &[u8])
        ensures same_reference { self.new.row.ghost_name ≡ self.old.row.ghost_name }
        ensures gives { Gives (more self.old.row.now self.old.filled text.now) self.new.row.now self.new.filled }
    {
        for &b in text {
            self.put_byte(b);
        }
    }

    // What `print!(out; ..)` calls. The row takes everything, so that nothing fails. It is lent once more, since what a `Display` leaves of a
    // writer is said only where it does not fail: so the row stays the one that was lent, whatever is printed.
    pub fn print(&mut self, what: impl Display + Drop)
        ensures same_reference { self.new.row.ghost_name ≡ self.old.row.ghost_name }
    {
        let mut lent = Out {
            rt: self.rt,
            row: &mut *self.row,
            filled: self.filled,
        };
        let _told = lent.write(what);
        let filled = lent.filled;
        self.filled = filled.min(self.row.len());
    }

    // What `println!(out; ..)` calls.
    pub fn println(&mut self, what: impl Display + Drop)
        ensures same_reference { self.new.row.ghost_name ≡ self.old.row.ghost_name }
    {
        self.print(what);
        self.put_byte(b'\n');
    }
}

impl<P: Print + Eprint> Write for Out<'_, P> {
    ghost write_str_gives = { λ s bytes t. (t.row.ghost_name ≡ s.row.ghost_name) × Gives (more s.row.now s.filled bytes) t.row.now t.filled };

    fn write_str(&mut self, s: &str) -> fmt::Result {
        self.put(s.as_bytes());
        Ok(())
    }
}

// An error must not look like an answer: it goes to standard error. Bytes that are no text are told in ASCII, by escapes.
pub fn complain(rt: &impl Eprint, what: &[u8]) {
    let _told = match str::from_utf8(what) {
        Ok(text) => rt.eprint(text),
        Err(_) => rt.eprint(what.escape_ascii()),
    };
}

// How many bytes are filled.
pub fn filled(row: &[u8], at: usize) -> usize
    ensures value { result ≡ filled_of row.now at }
    ensures prefix_len { IsPrefixLen result row.now }
{
    if at <= row.len() { at } else { 0 }
}
