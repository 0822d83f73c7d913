// The line of a place of a text, found by going along the text.
#![tactic(auto)]

ghost use Rattle.std.specs.Prelude.{◌≡◌, ◌+◌, ◌≤◌, length};
ghost use Rattle.std.proofs.Math.Seq.{slice};
ghost use Rattle.places.specs.Lines.{line_over, has_newline, Clear, FirstNewline};

// The byte that ends a line.
pub const NEWLINE: u8 = 0x0A;

// A line's number, from 1 on, and the offset of its first byte.
#[derive(Clone, Copy)]
pub struct Line {
    pub number: u32,
    pub start: usize,
}

// The line with which every text begins.
pub const FIRST: Line = Line {
    number: 1,
    start: 0,
};

// The line at one offset, from the line at another before it: the bytes between them are gone through once.
pub fn line_behind(text: &[u8], from: usize, to: usize, line: Line) -> Line
    ensures { result ≡ line_over line from (slice from to text.now) }
{
    let end = to.min(text.len());
    if end <= from {
        return line;
    }
    let mut here = line;
    let mut at = from;
    loop {
        let stop = next_newline(text, at, end);
        // It is never beyond the end; with `==` each byte that is looked at by itself takes two instructions more.
        if stop >= end {
            return here;
        }
        here = Line {
            number: here.number.saturating_add(1),
            start: stop + 1,
        };
        at = stop + 1;
    }
}

// The first 0A from an offset on, or where they end: four bytes at a time while these have none, then one by one.
fn next_newline(text: &[u8], from: usize, to: usize) -> usize
    requires { (from ≤ to) × (to ≤ length text.now) }
    ensures { FirstNewline text.now from to result }
{
    for at in skip_fours(text, from, to)..to {
        if text[at] == NEWLINE {
            return at;
        }
    }
    to
}

fn skip_fours(text: &[u8], from: usize, to: usize) -> usize
    requires { (from ≤ to) × (to ≤ length text.now) }
    ensures { Clear text.now from to result }
{
    // by the fours' number: `step_by` over places takes a third more instructions (docs/PERFORMANCE.md)
    let fours = (to - from) / 4;
    for k in 0..fours {
        let at = from + 4 * k;
        if four_have_newline(text, at) {
            return at;
        }
    }
    from + 4 * fours
}

// Tried: `contains` of the four takes 4 % more instructions over long comments on the device, and 578 bytes of code.
fn four_have_newline(text: &[u8], at: usize) -> bool
    requires { at + 4 ≤ length text.now }
    ensures { result ≡ has_newline (slice at (at + 4) text.now) }
{
    if text[at] == NEWLINE {
        return true;
    }
    if text[at + 1] == NEWLINE {
        return true;
    }
    if text[at + 2] == NEWLINE {
        return true;
    }
    text[at + 3] == NEWLINE
}
