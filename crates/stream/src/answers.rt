// The answers of a stream, each with the stream to go on with.
ghost use Rattle.std.specs.Prelude.{◌≡◌, ◌+◌, ◌≤◌, length, take};
ghost use Rattle.lexer.specs.Values.{LexesUnder};
ghost use Rattle.stream.specs.Calls.{last_end, closed, holding, ended, passed, Answers};

use crate::stream::{Answer, Given};
use grammar::profile::Profile;
use intake::state::{Phase, Stream};
use intake::taking::Taken;
use lexer::cursor::Cursor;
use lexer::lexed::Lexed;
use lexer::next::next;
use readings::reading::Reading;

// Where the token given last ends: so many bytes were taken but for those held behind it.
#[tactic(auto, unfolding(crate::specs::Calls::last_end))]
pub(crate) fn last_end(stream: Stream) -> usize
    ensures { (result ≡ last_end stream) × (result ≤ 4294967295) }
{
    let behind = stream.held.saturating_sub(stream.given);
    (stream.total as usize).saturating_sub(behind)
}

pub(crate) fn close(stream: Stream) -> Stream
    ensures { result ≡ closed stream }
{
    Stream {
        phase: Phase::Closed,
        ..stream
    }
}

// When bytes were taken.
pub(crate) fn hold(stream: Stream, took: Taken) -> Stream
    requires { stream.total + took.taken ≤ 4294967295 }
    ensures { result ≡ holding stream took.reading took.held took.taken }
{
    Stream {
        reading: took.reading,
        given: 0,
        held: took.held,
        total: stream.total + took.taken as u32,
        ..stream
    }
}

// When no part comes any more.
pub(crate) fn end(stream: Stream, held: usize) -> Stream
    ensures { result ≡ ended stream held }
{
    Stream {
        phase: Phase::Ending,
        given: 0,
        held,
        ..stream
    }
}

// Behind a token, whose bytes stay at the row's front.
fn pass(stream: Stream, token: usize) -> Stream
    ensures { result ≡ passed stream token }
{
    Stream {
        reading: Reading::Start,
        given: token,
        ..stream
    }
}

// A refusal of the stream's own, which is told with the end of the token given last.
pub(crate) fn refuse<F: FnOnce(usize) -> Answer>(stream: Stream, taken: usize, tell: F) -> Given
    requires { F.IsAlwaysCallable tell }
    ensures left { result.stream ≡ stream }
    ensures taken { result.taken ≡ taken }
    ensures told { F.post tell (last_end stream) result.answer }
{
    Given {
        stream,
        taken,
        answer: tell(last_end(stream)),
    }
}

// What `next` gives for the bytes that are held.
pub(crate) fn answer(stream: Stream, row: &[u8], taken: usize) -> Given
    requires { stream.held ≤ length row.now }
    ensures { Answers stream (take stream.held row.now) taken result }
{
    let last = last_end(stream);
    match lex_held(row, stream.held, stream.profile) {
        Lexed::Token {
            kind,
            start,
            length,
            next,
            digits,
            underscores,
        } => Given {
            stream: pass(stream, length),
            taken,
            answer: Answer::Token {
                kind,
                start: last + start,
                length,
                next: last + next.at,
                digits,
                underscores,
            },
        },
        Lexed::End { next } => Given {
            stream: close(stream),
            taken,
            answer: Answer::End {
                next: last + next.at,
            },
        },
        Lexed::Refused {
            why,
            start,
            length,
            next,
        } => Given {
            stream: close(stream),
            taken,
            answer: Answer::Refused {
                why,
                start: last + start,
                length,
                next: last + next.at,
            },
        },
    }
}

fn lex_held(row: &[u8], held: usize, profile: Profile) -> Lexed
    requires { held ≤ length row.now }
    ensures { LexesUnder profile (take held row.now) 0 result }
{
    next(&row[..held], Cursor { at: 0 }, profile)
}
