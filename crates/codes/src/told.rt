// The answers of Next, List, its slices and the cut in numbers. These are functions and no `From`, since what the value is depends on the call,
// which the name says.
ghost use Rattle.std.specs.Prelude.{◌≡◌};
ghost use Rattle.lists.specs.Parts.{spent_in};
ghost use Rattle.codes.specs.Told.{of_next, of_list, of_part, of_cut, written};

use crate::answers::{
    CUT, END, LIST_FULL, Numbers, OPEN, PAUSED, TOO_LONG, five, number_of, of_token,
};
use cuts::Statement;
use lexer::lexed::Lexed;
use lists::list::Listed;
use lists::part::Part;

// Writes all but the status, which it returns.
pub fn give(given: Numbers, answer: &mut [usize; 6]) -> u32
    ensures { (result ≡ given.status) × (answer.new ≡ written given) }
{
    *answer = [
        given.value,
        given.start,
        given.length,
        given.next,
        given.digits,
        given.underscores,
    ];
    given.status
}

pub fn of_next(answer: Lexed) -> Numbers
    ensures { result ≡ of_next answer }
{
    match answer {
        Lexed::Token {
            kind,
            start,
            length,
            next,
            digits,
            underscores,
        } => of_token(kind, start, length, next.at, digits, underscores),
        Lexed::End { next } => five(END, 0, next.at, 0, next.at),
        Lexed::Refused {
            why,
            start,
            length,
            next,
        } => five(number_of(why), 0, start, length, next.at),
    }
}

pub fn of_list(answer: Listed) -> Numbers
    ensures { result ≡ of_list answer }
{
    match answer {
        Listed::End { records, next } => five(END, records, next.at, 0, next.at),
        Listed::Refused {
            why,
            start,
            length,
            records,
            next,
        } => five(number_of(why), records, start, length, next.at),
        Listed::TooLong { next } => five(TOO_LONG, 0, 0, 0, next.at),
        Listed::ListFull { records, next } => five(LIST_FULL, records, next.at, 0, next.at),
    }
}

pub fn of_part(answer: Part) -> Numbers
    ensures { result ≡ of_part answer }
{
    match answer {
        Part::End { records, next, .. } => five(END, records, next.at, 0, next.at),
        Part::Refused {
            why,
            start,
            length,
            records,
            next,
            ..
        } => five(number_of(why), records, start, length, next.at),
        Part::TooLong { next } => five(TOO_LONG, 0, 0, 0, next.at),
        Part::Paused { records, next, .. } => five(PAUSED, records, next.at, 0, next.at),
        Part::ListFull { records, next, .. } => five(LIST_FULL, records, next.at, 0, next.at),
    }
}

// How many lexemes a slice passed, which is none of its numbers.
pub fn spent_in(answer: Part) -> u32
    ensures { result ≡ spent_in answer }
{
    match answer {
        Part::End { spent, .. }
        | Part::Refused { spent, .. }
        | Part::Paused { spent, .. }
        | Part::ListFull { spent, .. } => spent,
        Part::TooLong { .. } => 0,
    }
}

pub fn of_cut(answer: Statement) -> Numbers
    ensures { result ≡ of_cut answer }
{
    match answer {
        Statement::Cut {
            start,
            length,
            any,
            next,
        } => five(CUT, any as usize, start, length, next.at),
        Statement::Open {
            start,
            length,
            next,
        } => five(OPEN, 1, start, length, next.at),
        Statement::End { next } => five(END, 0, next.at, 0, next.at),
        Statement::Refused {
            why,
            start,
            length,
            next,
        } => five(number_of(why), 0, start, length, next.at),
    }
}
