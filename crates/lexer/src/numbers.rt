// Numbers.
ghost use Rattle.std.specs.Prelude.{◌≡◌, drop};
ghost use Rattle.grammar.specs.Form.{D};
ghost use Rattle.grammar.specs.Classes.{exponent_start};
ghost use Rattle.grammar.specs.Runs.{char, sees};
ghost use Rattle.grammar.proofs.Places.{At, Counted, Decimal, Dot, Fraction, Exponent, Hex};
ghost use Rattle.lexer.specs.Values.{Lexes, LexesUnder};

use crate::cursor::Cursor;
use crate::digits::Tally;
use crate::lexed::{Lexed, Refusal, number, refused, token};
use crate::sets::{Digit, Or, Start};
use grammar::profile::Profile;
use keywords::kinds::{TK_DOT, TK_FLOAT, TK_INTEGER};

// A dot with no digits before it.
pub(crate) fn eat_dot_or_frac(text: &[u8], start: Cursor, profile: Profile) -> Lexed
    requires { At (char ".") start.at text.now }
    ensures { LexesUnder profile text.now start.at result }
{
    let rest = start.eat(text);
    if rest.sees(text, Digit) {
        eat_frac(text, start, Tally::begin(rest), start, profile)
    } else {
        token(TK_DOT, start, rest)
    }
}

// A dot behind a number's digits: here `e` may follow at once, as in `5.e_1`.
fn eat_dot_after_digits(text: &[u8], start: Cursor, digits: Tally, profile: Profile) -> Lexed
    requires dot { Dot profile text.now start.at digits.cursor.at }
    requires counted { Counted D text.now start.at digits.cursor.at digits.digits digits.underscores }
    ensures { LexesUnder profile text.now start.at result }
{
    let dot = digits.cursor;
    let rest = dot.eat(text);
    let at = Tally {
        cursor: rest,
        ..digits
    };
    if rest.sees(text, Digit) {
        return eat_frac(text, start, at, dot, profile);
    }
    if rest.sees(text, Or(b'e', b'E')) {
        return eat_expo(text, start, at, profile);
    }
    number(TK_FLOAT, start, at)
}

// The digits behind the dot of a number.
fn eat_frac(text: &[u8], start: Cursor, at: Tally, dot: Cursor, profile: Profile) -> Lexed
    requires fraction { Fraction profile text.now start.at at.cursor.at dot.at }
    requires counted { Counted D text.now start.at at.cursor.at at.digits at.underscores }
    ensures { LexesUnder profile text.now start.at result }
{
    let digits = match at.eat_while_number_digit(text) {
        Ok(digits) => digits,
        Err(bad) => return refused(Refusal::BadNumber, bad.from, bad.to, start),
    };
    let end = digits.cursor;
    if end.sees(text, Or(b'e', b'E')) {
        return eat_expo(text, start, digits, profile);
    }
    if end.sees(text, Start) {
        return refused(Refusal::BadFractionalPart, dot, end, start);
    }
    number(TK_FLOAT, start, digits)
}

// A digit, or an underscore where the profile lets one stand there.
fn begins_exponent(text: &[u8], at: Cursor, profile: Profile) -> bool
    ensures { result ≡ sees (exponent_start profile) (drop at.at text.now) }
{
    match profile {
        Profile::Turso => at.sees(text, Or(Digit, b'_')),
        Profile::Sqlite => at.sees(text, Digit),
    }
}

// At the `e` of a number.
fn eat_expo(text: &[u8], start: Cursor, digits: Tally, profile: Profile) -> Lexed
    requires exponent { Exponent profile text.now start.at digits.cursor.at }
    requires counted { Counted D text.now start.at digits.cursor.at digits.digits digits.underscores }
    ensures { LexesUnder profile text.now start.at result }
{
    let e = digits.cursor;
    let first = e.eat(text).eat_if(text, Or(b'+', b'-'));
    let at = Tally {
        cursor: first,
        ..digits
    };
    if !begins_exponent(text, first, profile) {
        return refused(Refusal::BadExponentPart, e, first, start);
    }
    let all = match at.eat_while_number_digit(text) {
        Ok(all) => all,
        Err(bad) => return refused(Refusal::BadNumber, bad.from, bad.to, start),
    };
    let end = all.cursor;
    if end.sees(text, Start) {
        return refused(Refusal::BadExponentPart, e, end, start);
    }
    number(TK_FLOAT, start, all)
}

pub(crate) fn eat_number(text: &[u8], start: Cursor, profile: Profile) -> Lexed
    requires { At D start.at text.now }
    ensures { LexesUnder profile text.now start.at result }
{
    let rest = start.eat(text);
    if start.sees_hex(text) {
        return eat_hex(text, start, rest.eat(text));
    }
    eat_decimal(text, start, rest, profile)
}

// Behind `0x`.
fn eat_hex(text: &[u8], start: Cursor, at: Cursor) -> Lexed
    requires { Hex text.now start.at at.at }
    ensures { Lexes text.now start.at result }
{
    let digits = match Tally::begin(at).eat_while_number_hexdigit(text) {
        Ok(digits) => digits,
        Err(bad) => return refused(Refusal::BadNumber, bad.from, bad.to, start),
    };
    let end = digits.cursor;
    if at.at == end.at {
        return refused(Refusal::MalformedHexInteger, start, end, start);
    }
    if end.sees(text, Start) {
        return refused(Refusal::BadNumber, start, end, start);
    }
    number(TK_INTEGER, start, digits)
}

// Behind the first digit of a number that is not hexadecimal.
fn eat_decimal(text: &[u8], start: Cursor, at: Cursor, profile: Profile) -> Lexed
    requires { Decimal profile text.now start.at at.at }
    ensures { LexesUnder profile text.now start.at result }
{
    let first = Tally {
        cursor: at,
        digits: 1,
        underscores: 0,
    };
    let digits = match first.eat_while_number_digit(text) {
        Ok(digits) => digits,
        Err(bad) => return refused(Refusal::BadNumber, bad.from, bad.to, start),
    };
    let end = digits.cursor;
    if end.sees(text, b'.') {
        return eat_dot_after_digits(text, start, digits, profile);
    }
    if end.sees(text, Or(b'e', b'E')) {
        return eat_expo(text, start, digits, profile);
    }
    if end.sees(text, Start) {
        return refused(Refusal::BadNumber, start, end, start);
    }
    number(TK_INTEGER, start, digits)
}
