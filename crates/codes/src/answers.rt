// Answers in numbers: what `include/sqllex.h` calls a status, and what it says beside it. Statuses are numbers and no enum since C gets them
// so, and since refusals, of which each crate has its own, are among them.
ghost use Rattle.std.specs.Prelude.{◌≡◌};
ghost use Rattle.lexer.specs.Values.{number_of};
ghost use Rattle.codes.specs.Numbers.{five, of_token};

use lexer::lexed::Refusal;

// The statuses that are no refusal of Next.
pub const END: u32 = 0;

pub const TOO_LONG: u32 = 9;

pub const LIST_FULL: u32 = 10;

pub const NO_ROOM: u32 = 13;

pub const LEXEME_TOO_LONG: u32 = 14;

pub const CLOSED: u32 = 15;

pub const UNKNOWN_STREAM: u32 = 98;

pub const UNKNOWN_PROFILE: u32 = 99;

pub const TOKEN: u32 = 100;

pub const CUT: u32 = 101;

pub const OPEN: u32 = 102;

pub const MORE: u32 = 103;

pub const DONE: u32 = 104;

// 106 is that of a list that is accepted, in `verdicts`.
pub const PAUSED: u32 = 105;

#[derive(Clone, Copy)]
pub struct Numbers {
    pub status: u32,
    pub value: usize,
    pub start: usize,
    pub length: usize,
    pub next: usize,
    pub digits: usize,
    pub underscores: usize,
}

// Of what is no token.
pub fn five(status: u32, value: usize, start: usize, bytes: usize, next: usize) -> Numbers
    ensures { result ≡ five status value start bytes next }
{
    Numbers {
        status,
        value,
        start,
        length: bytes,
        next,
        digits: 0,
        underscores: 0,
    }
}

pub fn of_token(
    kind: u32,
    start: usize,
    bytes: usize,
    next: usize,
    digits: u32,
    underscores: u32,
) -> Numbers
    ensures { result ≡ of_token kind start bytes next digits underscores }
{
    Numbers {
        status: TOKEN,
        value: kind as usize,
        start,
        length: bytes,
        next,
        digits: digits as usize,
        underscores: underscores as usize,
    }
}

// Both types are foreign, so this is no `From`; and a `match`, since its arms say which number C has for which refusal.
pub fn number_of(why: Refusal) -> u32
    ensures { result ≡ number_of why }
{
    match why {
        Refusal::UnrecognizedToken => 1,
        Refusal::UnterminatedLiteral => 2,
        Refusal::BadNumber => 3,
        Refusal::BadFractionalPart => 4,
        Refusal::BadExponentPart => 5,
        Refusal::MalformedHexInteger => 6,
        Refusal::ExpectedEqualsSign => 7,
        Refusal::OffsetPastEnd => 8,
    }
}
