// A list without TK_NONE, a slice at a time.
ghost use Rattle.grammar.specs.Longest.{source};
ghost use Rattle.lists.specs.Parts.{Parts};

use crate::list::LONGEST_TEXT;
use crate::pass::{There, pass};
use grammar::profile::Profile;
use keywords::kinds::TK_NONE;
use lexer::cursor::Cursor;
use lexer::lexed::Refusal;
use records::WIDTH;

// Why it ends where it does, how many records it wrote, and how many lexemes it passed. `Paused`: the allowance is spent, and another
// legal lexeme begins at the cursor. The other cases are those of `Listed`.
#[derive(Clone, Copy)]
pub enum Part {
    End {
        records: usize,
        spent: u32,
        next: Cursor,
    },
    Refused {
        why: Refusal,
        start: usize,
        length: usize,
        records: usize,
        spent: u32,
        next: Cursor,
    },
    TooLong {
        next: Cursor,
    },
    Paused {
        records: usize,
        spent: u32,
        next: Cursor,
    },
    ListFull {
        records: usize,
        spent: u32,
        next: Cursor,
    },
}

// A record for each legal lexeme from the cursor on that is not TK_NONE. Each lexeme, TK_NONE or not, costs one of the allowance.
pub fn list_part(
    text: &[u8],
    cursor: Cursor,
    profile: Profile,
    allowance: u32,
    numbers: &mut [u32],
) -> Part
    ensures { Parts (source profile text.now) cursor.at allowance numbers.old result numbers.new }
{
    if LONGEST_TEXT < text.len() {
        return Part::TooLong { next: cursor };
    }
    let stop = pass(text, cursor, profile, numbers, TK_NONE + 1, allowance);
    let records = stop.filled / WIDTH;
    let spent = allowance - stop.left;
    let next = stop.next;
    match stop.there {
        There::Lexeme if stop.left == 0 => Part::Paused {
            records,
            spent,
            next,
        },
        There::Lexeme => Part::ListFull {
            records,
            spent,
            next,
        },
        There::End => Part::End {
            records,
            spent,
            next,
        },
        There::Refused { why, start, length } => Part::Refused {
            why,
            start,
            length,
            records,
            spent,
            next,
        },
    }
}
