// A stream's answers in numbers.
ghost use Rattle.std.specs.Prelude.{◌≡◌};
ghost use Rattle.packets.specs.Numbers.{of_stream, seven};

use codes::answers::{
    CLOSED, END, LEXEME_TOO_LONG, MORE, Numbers, TOO_LONG, five, number_of, of_token,
};
use stream::stream::Answer;

pub(crate) fn of_stream(answer: Answer) -> Numbers
    ensures { result ≡ of_stream answer }
{
    match answer {
        Answer::Token {
            kind,
            start,
            length,
            next,
            digits,
            underscores,
        } => of_token(kind, start, length, next, digits, underscores),
        Answer::More => five(MORE, 0, 0, 0, 0),
        Answer::End { next } => five(END, 0, next, 0, next),
        Answer::Refused {
            why,
            start,
            length,
            next,
        } => five(number_of(why), 0, start, length, next),
        Answer::Closed { next } => five(CLOSED, 0, next, 0, next),
        Answer::TooLong { next } => five(TOO_LONG, 0, next, 0, next),
        Answer::LexemeTooLong { next } => five(LEXEME_TOO_LONG, 0, next, 0, next),
    }
}

// Writes all but the status, and how many bytes were taken, or lexemes spent. One function for this and `give` of `codes`, over an array of any
// size, would be no plainer: it would write a number more or not by the size.
pub fn give(numbers: Numbers, taken: usize, given: &mut [usize; 7]) -> u32
    ensures { (result ≡ numbers.status) × (given.new ≡ seven numbers taken) }
{
    *given = [
        numbers.value,
        numbers.start,
        numbers.length,
        numbers.next,
        numbers.digits,
        numbers.underscores,
        taken,
    ];
    numbers.status
}
