// How a stream begins, and what its calls give.
ghost use Rattle.std.specs.Prelude.{◌≡◌};
ghost use Rattle.stream.specs.Calls.{begun};

use grammar::profile::Profile;
use intake::state::{Phase, Stream};
use lexer::lexed::Refusal;
use readings::reading::Reading;

// Offsets count from the first byte of all parts. `Closed`, `TooLong` and `LexemeTooLong` have the end of the token given last.
#[derive(Clone, Copy)]
pub enum Answer {
    Token {
        kind: u32,
        start: usize,
        length: usize,
        next: usize,
        digits: u32,
        underscores: u32,
    },
    More,
    End {
        next: usize,
    },
    Refused {
        why: Refusal,
        start: usize,
        length: usize,
        next: usize,
    },
    Closed {
        next: usize,
    },
    TooLong {
        next: usize,
    },
    LexemeTooLong {
        next: usize,
    },
}

// The stream to go on with, how many bytes of the part were taken, and the answer.
#[derive(Clone, Copy)]
pub struct Given {
    pub stream: Stream,
    pub taken: usize,
    pub answer: Answer,
}

pub fn begin(profile: Profile) -> Stream
    ensures { result ≡ begun profile }
{
    Stream {
        profile,
        reading: Reading::Start,
        phase: Phase::Open,
        given: 0,
        held: 0,
        total: 0,
    }
}
