// What `next` answers.
ghost use Rattle.std.specs.Prelude.{◌≡◌, ◌-◌, ◌≤◌};
ghost use Rattle.grammar.specs.Answers.{sum};
ghost use Rattle.grammar.specs.Texts.{offset};
ghost use Rattle.lexer.specs.Values.{values_of};

use crate::cursor::Cursor;
use crate::digits::Tally;

// The most that a sum says.
pub const MOST: usize = 4294967295;

// The errors that the Rust's lexer gives, in the order of document 01's numbers, and the one that it adds.
#[derive(Clone, Copy, PartialEq, Eq)]
pub enum Refusal {
    UnrecognizedToken,
    UnterminatedLiteral,
    BadNumber,
    BadFractionalPart,
    BadExponentPart,
    MalformedHexInteger,
    ExpectedEqualsSign,
    OffsetPastEnd,
}

// `kind`: as the header for C numbers it.
// `digits`, `underscores`: how many of them a number has, MOST where they are more; any other token has 0.
// `next`: behind a token; at a refused lexeme's start, where the same refusal comes again, but behind it after class U; past the end as
// given. An enum of its own: each of the three outcomes leads on to an offset, the end too, so that none is an error or nothing.
#[derive(Clone, Copy)]
pub enum Lexed {
    Token {
        kind: u32,
        start: usize,
        length: usize,
        next: Cursor,
        digits: u32,
        underscores: u32,
    },
    End {
        next: Cursor,
    },
    Refused {
        why: Refusal,
        start: usize,
        length: usize,
        next: Cursor,
    },
}

impl Lexed {
    // Where lexing goes on.
    pub fn next(self) -> Cursor
        ensures { result.at ≡ offset (values_of self) }
    {
        match self {
            Lexed::Token { next, .. } | Lexed::End { next } | Lexed::Refused { next, .. } => next,
        }
    }
}

// With no digits.
pub(crate) fn token(kind: u32, from: Cursor, to: Cursor) -> Lexed
    requires { from.at ≤ to.at }
    ensures { result ≡ Lexed.Token kind from.at (to.at - from.at) to 0 0 }
{
    number(kind, from, Tally::begin(to))
}

pub(crate) fn number(kind: u32, from: Cursor, to: Tally) -> Lexed
    requires { from.at ≤ to.cursor.at }
    ensures { result ≡ Lexed.Token kind from.at (to.cursor.at - from.at) to.cursor (sum to.digits) (sum to.underscores) }
{
    let end = to.cursor;
    Lexed::Token {
        kind,
        start: from.at,
        length: end.at - from.at,
        next: end,
        digits: sum(to.digits),
        underscores: sum(to.underscores),
    }
}

// A sum in 32 bits: with two of 64 the Cortex-M4 would copy answers by memcpy, which is not in the library.
fn sum(n: usize) -> u32
    ensures { result ≡ sum n }
{
    n.min(MOST) as u32
}

// The span is from one cursor to another; lexing goes on at a third.
pub(crate) fn refused(why: Refusal, from: Cursor, to: Cursor, next: Cursor) -> Lexed
    requires { from.at ≤ to.at }
    ensures { result ≡ Lexed.Refused why from.at (to.at - from.at) next }
{
    Lexed::Refused {
        why,
        start: from.at,
        length: to.at - from.at,
        next,
    }
}
