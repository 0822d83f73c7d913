// A token's record, and the line behind a token.
ghost use Rattle.std.specs.Prelude.{◌≡◌, ◌+◌, ◌≤◌, ◌<◌, length as len};
ghost use Rattle.lists.specs.Lists.{longest_text};
ghost use Rattle.lists.specs.Lines.{record_on, has_no_newline, line_behind};

use keywords::kinds::TK_ID;
use places::{Line, NEWLINE, line_behind};
use records::Record;

// The record of a token that stands on this line.
pub(crate) fn record_of(kind: u32, start: usize, length: usize, line: Line) -> Record
    requires { (line.start ≤ start) × (start + length ≤ longest_text) }
    ensures { result ≡ record_on line kind start length }
{
    Record {
        kind,
        start: start as u32,
        length: length as u32,
        line: line.number,
        column: (start - line.start + 1) as u32,
    }
}

// The line behind a token that stands on this one. Its bytes are gone through only where there can be a 0A among them; a token of one byte, as
// most are, shows it at a glance. There are two calls, since with one both branches are computed at each token.
pub(crate) fn line_behind_token(
    text: &[u8],
    kind: u32,
    start: usize,
    length: usize,
    line: Line,
) -> Line
    requires { (0 < length) × (start + length ≤ len text.now) }
    ensures { result ≡ line_behind text.now kind start length line }
{
    if length == 1 {
        if text[start] != NEWLINE {
            return line;
        }
        return line_behind(text, start, start + length, line);
    }
    if has_no_newline(kind, text[start]) {
        return line;
    }
    line_behind(text, start, start + length, line)
}

// True of a kind and a first byte with which no token has a 0A in it: blanks, comments and strings have a smaller kind than TK_ID, and
// a quoted name begins with a double quote, a bracket or a backtick. As one condition it costs List 0.6 instructions a byte more.
fn has_no_newline(kind: u32, first: u8) -> bool
    ensures { result ≡ has_no_newline kind first }
{
    if TK_ID < kind {
        return true;
    }
    if kind == TK_ID {
        return b'`' < first;
    }
    false
}
