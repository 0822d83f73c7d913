// The input, read in pieces as large as the row of bytes allows, and its records.
ghost use Rattle.std.specs.Prelude.{◌≡◌, ◌≤◌, ◌<◌, length, slice_range};
ghost use Rattle.printing.specs.Rows.{Holds, no_record};

use rows::input::{NoText, Text, record_at};
use rows::out::complain;
use std::io::Read;

// The row that the input is read into: from `start` to `end` it has the text of the record that was read last, and from there to `to`
// what is read and not used yet.
#[derive(Drop)]
pub struct Records<'a> {
    row: &'a mut [u8],
    start: usize,
    end: usize,
    to: usize,
    pub ghost holds: { Holds row.now start end to },
}

// Over: the input ends where a record would start. Short: a record of at least so many bytes is cut off. Bad: its text is longer than
// allowed, or the input cannot be read, which is told at once.
#[derive(Clone, Copy)]
pub enum NoRecord {
    Over,
    Short(usize),
    Bad,
}

impl From<NoText> for NoRecord {
    ghost from_gives = { λ why e. e ≡ no_record why };

    fn from(why: NoText) -> NoRecord {
        match why {
            NoText::Short(n) => NoRecord::Short(n),
            NoText::Bad => NoRecord::Bad,
        }
    }
}

impl<'a> Records<'a> {
    // The bytes from one place to before another are read and not used yet: none where they do not lie in the row.
    pub fn new(row: &'a mut [u8], from: usize, to: usize) -> Records<'a>
        ensures same_reference { result.row.ghost_name ≡ row.entry.ghost_name }
        ensures kept { from ≤ to → to ≤ length row.old → (result.end ≡ from) × (result.to ≡ to) }
        ensures none { length row.old < to → result.end ≡ result.to }
    {
        if from <= to && to <= row.len() {
            return Records {
                row,
                start: from,
                end: from,
                to,
            };
        }
        Records {
            row,
            start: 0,
            end: 0,
            to: 0,
        }
    }

    // The text of the record that was read last.
    pub fn text(&self) -> &[u8]
        ensures { result.now ≡ slice_range self.now.row.now self.now.start self.now.end }
    {
        &self.row[self.start..self.end]
    }

    // What is read and not used yet.
    pub fn unread(&self) -> &[u8]
        ensures { result.now ≡ slice_range self.now.row.now self.now.end self.now.to }
    {
        &self.row[self.end..self.to]
    }

    // Reads on, up to n unread bytes, or all that the input still has and the row holds.
    pub(crate) fn fill(
        &mut self,
        rt: &impl Eprint,
        input: &mut impl Read,
        n: usize,
    ) -> Result<(), NoRecord>
        ensures same_reference { self.new.row.ghost_name ≡ self.old.row.ghost_name }
    {
        if n <= self.to - self.end {
            return Ok(());
        }
        self.row.copy_within(self.end..self.to, 0);
        self.to -= self.end;
        self.start = 0;
        self.end = 0;
        while self.to < n {
            match input.read(&mut self.row[self.to..]) {
                Ok(0) => break,
                Ok(more) => self.to += more,
                Err(_) => {
                    complain(rt, b"standard input cannot be read\n");
                    return Err(NoRecord::Bad);
                }
            }
        }
        Ok(())
    }

    // Reads the next record, and gives its offset.
    pub fn next(&mut self, rt: &impl Eprint, input: &mut impl Read) -> Result<usize, NoRecord>
        ensures same_reference { self.new.row.ghost_name ≡ self.old.row.ghost_name }
    {
        self.fill(rt, input, 8)?;
        if self.unread().is_empty() {
            return Err(NoRecord::Over);
        }
        if let Err(NoText::Short(n)) = record_at(self.unread()) {
            self.fill(rt, input, n)?;
        }
        let Text { offset, start, end } = record_at(self.unread())?;
        self.start = self.end + start;
        self.end += end;
        Ok(offset)
    }
}
