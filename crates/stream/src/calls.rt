// The calls: a part, and that no part comes any more.
ghost use Rattle.stream.specs.Calls.{Offered, Finished};

use crate::answers::{answer, close, end, hold, refuse};
use crate::stream::{Answer, Given};
use intake::state::{Phase, Stream};
use intake::taking::{bring, is_over, take_in};

// The most bytes that a stream takes.
pub const MOST: u32 = u32::MAX;

pub fn offer(stream: Stream, row: &mut [u8; 2050], part: &[u8]) -> Given
    ensures { Offered stream row.old part.now result row.new }
{
    let Phase::Open = stream.phase else {
        return refuse(stream, 0, |next| Answer::Closed { next });
    };
    let room = (MOST - stream.total) as usize;
    if room < part.len() {
        return refuse(close(stream), 0, |next| Answer::TooLong { next });
    }
    let took = take_in(stream, row, part);
    let moved = hold(stream, took);
    if !took.ready {
        return Given {
            stream: moved,
            taken: took.taken,
            answer: Answer::More,
        };
    }
    if is_over(took.reading, took.held) {
        return refuse(
            close(moved),
            took.taken,
            |next| Answer::LexemeTooLong { next },
        );
    }
    answer(moved, row, took.taken)
}

pub fn finish(stream: Stream, row: &mut [u8; 2050]) -> Given
    ensures { Finished stream row.old result row.new }
{
    if let Phase::Closed = stream.phase {
        return refuse(stream, 0, |next| Answer::Closed { next });
    }
    let held = bring(row, stream.given, stream.held);
    answer(end(stream, held), row, 0)
}
