// What is printed of a script: the calls of one stream, one behind the other. A call is the length of a part, two bytes with the lowest
// first, and the part; or 65535, which no part is as long as, for a finish call.
ghost use Rattle.std.specs.Prelude.{◌≡◌};
ghost use Rattle.printing.specs.Streams.{is_token};

use crate::lines::{put_columns, put_line, refusal_name};
use grammar::profile::Profile;
use intake::state::Stream;
use names::name_of;
use rows::out::Out;
use stream::calls::{finish, offer};
use stream::stream::{Answer, begin};

// A line for each answer; BADSCRIPT in place of a call that is cut off. The stream begins anew, whatever bytes are held.
pub(crate) fn put_stream(
    out: &mut Out<'_, impl Print + Eprint>,
    script: &[u8],
    profile: Profile,
    held: &mut [u8; 2050],
)
    ensures same_reference { out.new.row.ghost_name ≡ out.old.row.ghost_name }
{
    let mut stream = begin(profile);
    let mut rest = script;
    while let Some((length, calls)) = rest.split_first_chunk() {
        let length = u16::from_le_bytes(*length);
        if length == u16::MAX {
            stream = put_finish(out, stream, held);
            rest = calls;
            continue;
        }
        let Some((part, calls)) = calls.split_at_checked(usize::from(length)) else {
            break;
        };
        stream = put_part(out, stream, held, part);
        rest = calls;
    }
    if !rest.is_empty() {
        println!(out; "BADSCRIPT");
    }
}

// Offers the part, and while a token comes what is left of it, also where that is nothing: what is held may give a token more. Each token
// has a byte at least, so that they run out.
#[tactic(auto, using(crate::proofs::Offers::leads_on))]
fn put_part(
    out: &mut Out<'_, impl Print + Eprint>,
    before: Stream,
    held: &mut [u8; 2050],
    part: &[u8],
) -> Stream
    ensures same_reference { out.new.row.ghost_name ≡ out.old.row.ghost_name }
{
    let mut stream = before;
    let mut rest = part;
    loop {
        let given = offer(stream, held, rest);
        stream = given.stream;
        put_called(out, given.answer, given.taken);
        if !is_token(given.answer) {
            return stream;
        }
        rest = &rest[given.taken..];
    }
}

fn put_finish(
    out: &mut Out<'_, impl Print + Eprint>,
    before: Stream,
    held: &mut [u8; 2050],
) -> Stream
    ensures same_reference { out.new.row.ghost_name ≡ out.old.row.ghost_name }
{
    let given = finish(before, held);
    put_called(out, given.answer, given.taken);
    given.stream
}

fn is_token(answer: Answer) -> bool
    ensures { result ≡ is_token answer }
{
    matches!(answer, Answer::Token { .. })
}

// The line of an answer, with how many bytes of the part were taken; END is without it. A refusal of the stream's own has a span of no
// byte.
fn put_called(out: &mut Out<'_, impl Print + Eprint>, answer: Answer, taken: usize)
    ensures same_reference { out.new.row.ghost_name ≡ out.old.row.ghost_name }
{
    match answer {
        Answer::Token {
            kind,
            start,
            length,
            ..
        } => put_line(out, name_of(kind), &[start, length, taken]),
        Answer::More => put_line(out, "More", &[taken]),
        Answer::End { next } => put_line(out, "END", &[next]),
        Answer::Refused {
            why,
            start,
            length,
            next,
        } => put_line(out, refusal_name(why), &[start, length, next, taken]),
        Answer::Closed { next } => put_line(out, "Closed", &[next, 0, next, taken]),
        Answer::TooLong { next } => put_line(out, "TooLong", &[next, 0, next, taken]),
        Answer::LexemeTooLong { next } => put_line(out, "LexemeTooLong", &[next, 0, next, taken]),
    }
}
