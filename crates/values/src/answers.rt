// What is answered, in numbers.
ghost use Rattle.std.specs.Prelude.{◌≡◌, MatchResult, Ok, Err};
ghost use Rattle.buffers.specs.Buffers as Buffers;
ghost use Rattle.spans.specs.Spans as Spans;
ghost use Rattle.integers.specs.Calls as Integers;
ghost use Rattle.buffers.specs.Buffers.{Said};
ghost use Rattle.values.specs.Calls.{status_of, done};

use buffers::written::NoRoom;
use codes::answers::{DONE, NO_ROOM};
use integers::reading::IntegerError;
use spans::answers::ReadError;

// The refusals that no other call has.
pub(crate) const NOT_THAT_LITERAL: u32 = 11;

pub(crate) const OUT_OF_RANGE: u32 = 12;

// What a call below refuses by has a status.
pub(crate) trait Refusal {
    ghost said: { Self → Said };

    fn status(self) -> u32
        ensures { result ≡ status_of (said self) };
}

impl Refusal for NoRoom {
    ghost said = { λ e. Buffers.said_of (Err e) };

    fn status(self) -> u32 {
        NO_ROOM
    }
}

impl Refusal for ReadError {
    ghost said = { λ e. Spans.said_of (Err e) };

    fn status(self) -> u32 {
        match self {
            ReadError::NotThatLiteral => NOT_THAT_LITERAL,
            ReadError::NoRoom => NO_ROOM,
        }
    }
}

impl Refusal for IntegerError {
    ghost said = { λ e. Integers.said_of (Err e) };

    fn status(self) -> u32 {
        match self {
            IntegerError::NotThatLiteral => NOT_THAT_LITERAL,
            IntegerError::OutOfRange => OUT_OF_RANGE,
        }
    }
}

// What is lent is set only where a value was read, or bytes stand in the buffer.
pub(crate) fn give<T: Copy, E: Refusal>(answer: Result<T, E>, place: &mut T) -> u32
    ensures { MatchResult answer (λ x. (result ≡ done) × (place.new ≡ x)) (λ e. (result ≡ status_of (E.said e)) × (place.new ≡ place.old)) }
{
    match answer {
        Ok(x) => {
            *place = x;
            DONE
        }
        Err(refusal) => refusal.status(),
    }
}
