// The walk that writes records, for `list` and `list_part`.
ghost use Rattle.std.specs.Prelude.{◌≡◌, ◌≤◌, length as len};
ghost use Rattle.grammar.specs.Longest.{source};
ghost use Rattle.lists.specs.Lists.{longest_text};
ghost use Rattle.lists.specs.Passing.{Passing, from_kind, stop_of};

use crate::lines::{line_behind_token, record_of};
use grammar::profile::Profile;
use lexer::cursor::Cursor;
use lexer::lexed::{Lexed, Refusal};
use lexer::next::next;
use places::{FIRST, line_behind};
use records::{WIDTH, put};

// What stands where the walk stops: a lexeme that it does not pass, the end, or what `next` refuses. No `Result`: a lexeme that is not
// passed is no error of the walk, and `list` and `list_part` each make an answer of their own of it.
#[derive(Clone, Copy)]
pub(crate) enum There {
    Lexeme,
    End,
    Refused {
        why: Refusal,
        start: usize,
        length: usize,
    },
}

// How many numbers the walk has filled, how much of its allowance is left, where lexing goes on, and why it stopped.
#[derive(Clone, Copy)]
pub(crate) struct Stop {
    pub(crate) filled: usize,
    pub(crate) left: u32,
    pub(crate) next: Cursor,
    pub(crate) there: There,
}

// Passes a lexeme for each of the allowance, and writes a record of those whose kind is `least` or a greater one: a flag for blanks was
// measured, and is slower. Text, cursor and profile stay apart, as the calls above are given them and as `next` takes them.
pub(crate) fn pass(
    text: &[u8],
    cursor: Cursor,
    profile: Profile,
    numbers: &mut [u32],
    least: u32,
    allowance: u32,
) -> Stop
    requires { len text.now ≤ longest_text }
    ensures { Passing (source profile text.now) cursor.at (from_kind least) allowance numbers.old result numbers.new }
{
    let mut at = cursor;
    let mut line = line_behind(text, 0, cursor.at, FIRST);
    let mut filled = 0;
    let mut left = allowance;
    loop {
        match next(text, at, profile) {
            Lexed::Token {
                kind,
                length,
                next,
                ..
            } => {
                if left == 0 {
                    return stopped(filled, left, at, There::Lexeme);
                }
                if least <= kind {
                    // A token starts at the cursor: its own start would be one number more to keep.
                    if !put(numbers, filled, record_of(kind, at.at, length, line)) {
                        return stopped(filled, left, at, There::Lexeme);
                    }
                    filled += WIDTH;
                }
                left -= 1;
                line = line_behind_token(text, kind, at.at, length, line);
                at = next;
            }
            Lexed::End { next } => return stopped(filled, left, next, There::End),
            Lexed::Refused {
                why,
                start,
                length,
                next,
            } => {
                return stopped(filled, left, next, There::Refused { why, start, length });
            }
        }
    }
}

fn stopped(filled: usize, left: u32, next: Cursor, there: There) -> Stop
    ensures { result ≡ stop_of filled left next there }
{
    Stop {
        filled,
        left,
        next,
        there,
    }
}
