// A text's records into a lent list of numbers.
ghost use Rattle.grammar.specs.Longest.{source};
ghost use Rattle.lists.specs.Lists.{Lists};

use crate::pass::{There, pass};
use grammar::profile::Profile;
use keywords::kinds::TK_NONE;
use lexer::cursor::Cursor;
use lexer::lexed::Refusal;
use records::WIDTH;

// The longest text that `list` takes.
pub const LONGEST_TEXT: usize = 65535;

// Why the list ends where it does, and how many records it has. `Refused` is what `next` refuses; `ListFull` is at the lexeme that
// has no place.
#[derive(Clone, Copy)]
pub enum Listed {
    End {
        records: usize,
        next: Cursor,
    },
    Refused {
        why: Refusal,
        start: usize,
        length: usize,
        records: usize,
        next: Cursor,
    },
    TooLong {
        next: Cursor,
    },
    ListFull {
        records: usize,
        next: Cursor,
    },
}

// A record for each legal lexeme from the cursor on: kind, start, length, line, column. The list is lent, as C lends it, and how
// many records it has stands in the answer.
pub fn list(text: &[u8], cursor: Cursor, profile: Profile, numbers: &mut [u32]) -> Listed
    ensures { Lists (source profile text.now) cursor.at numbers.old result numbers.new }
{
    if LONGEST_TEXT < text.len() {
        return Listed::TooLong { next: cursor };
    }
    // A text has no more lexemes than bytes, so that this allowance is never spent.
    let stop = pass(text, cursor, profile, numbers, TK_NONE, u32::MAX);
    let records = stop.filled / WIDTH;
    let next = stop.next;
    match stop.there {
        There::Lexeme => Listed::ListFull { records, next },
        There::End => Listed::End { records, next },
        There::Refused { why, start, length } => Listed::Refused {
            why,
            start,
            length,
            records,
            next,
        },
    }
}
