// Blank runs, comments and operators.
ghost use Rattle.std.specs.Prelude.{◌≡◌, ◌+◌, ◌<◌, length};
ghost use Rattle.grammar.specs.Form.{blank};
ghost use Rattle.grammar.specs.Runs.{char};
ghost use Rattle.grammar.proofs.Reading.{Reads, behind};
ghost use Rattle.lexer.specs.Eaten.{cursor, one_or_two};
ghost use Rattle.grammar.proofs.Places.{At};
ghost use Rattle.lexer.specs.Values.{Lexes};

use crate::cursor::Cursor;
use crate::lexed::{Lexed, Refusal, refused, token};
use crate::parameters::eat_named_var;
use crate::sets::{Blank, Not};
use keywords::kinds::{
    TK_ARRAY_CONTAINS, TK_GE, TK_GT, TK_LE, TK_LSHIFT, TK_LT, TK_MINUS, TK_NE, TK_NONE, TK_PTR,
    TK_RSHIFT, TK_SLASH,
};

pub(crate) fn eat_one_token(text: &[u8], start: Cursor, kind: u32) -> Lexed
    requires { start.at < length text.now }
    ensures { result ≡ Lexed.Token kind start.at 1 (cursor (start.at + 1)) 0 0 }
{
    token(kind, start, start.eat(text))
}

// Of two bytes where the second follows: `==`, `||`, `&&`.
pub(crate) fn eat_one_or_two(text: &[u8], start: Cursor, one: u32, second: u8, two: u32) -> Lexed
    requires { start.at < length text.now }
    ensures { result ≡ one_or_two one second two start.at text.now }
{
    let sign = start.eat(text);
    if sign.sees(text, second) {
        token(two, start, sign.eat(text))
    } else {
        token(one, start, sign)
    }
}

// A byte and a run behind it, as `eat_illegal` and `eat_numbered_var` are of other sets: they share this one expression, and each answers for
// a class of its own.
pub(crate) fn eat_white_space(text: &[u8], start: Cursor) -> Lexed
    requires { At blank start.at text.now }
    ensures { Lexes text.now start.at result }
{
    token(TK_NONE, start, start.eat(text).eat_while(text, Blank))
}

pub(crate) fn eat_minus_or_comment_or_ptr(text: &[u8], start: Cursor) -> Lexed
    requires { At (char "-") start.at text.now }
    ensures { Lexes text.now start.at result }
{
    let minus = start.eat(text);
    if minus.sees(text, b'-') {
        return token(
            TK_NONE,
            start,
            minus.eat(text).eat_while(text, Not(b'\n')).eat(text),
        );
    }
    if minus.sees(text, b'>') {
        let ptr = minus.eat(text);
        if ptr.sees(text, b'>') {
            return token(TK_PTR, start, ptr.eat(text));
        }
        return token(TK_PTR, start, ptr);
    }
    token(TK_MINUS, start, minus)
}

pub(crate) fn eat_slash_or_comment(text: &[u8], start: Cursor) -> Lexed
    requires { At (char "/") start.at text.now }
    ensures { Lexes text.now start.at result }
{
    let slash = start.eat(text);
    if slash.sees(text, b'*') {
        return eat_comment(text, start, slash.eat(text));
    }
    token(TK_SLASH, start, slash)
}

// C-style comments begin with "/*" and extend up to and including the next "*/" or until the end.
pub(crate) fn eat_comment(text: &[u8], start: Cursor, at: Cursor) -> Lexed
    requires { Reads text.now start.at at.at (behind "/*") }
    ensures { Lexes text.now start.at result }
{
    let mut body = at;
    loop {
        match body.eat_past(text, b'*') {
            Err(end) => return token(TK_NONE, start, end),
            Ok(star) => {
                if star.sees(text, b'/') {
                    return token(TK_NONE, start, star.eat(text));
                }
                body = star;
            }
        }
    }
}

pub(crate) fn eat_le_or_ne_or_lshift_or_lt(text: &[u8], start: Cursor) -> Lexed
    requires { At (char "<") start.at text.now }
    ensures { Lexes text.now start.at result }
{
    let lt = start.eat(text);
    if lt.sees(text, b'=') {
        return token(TK_LE, start, lt.eat(text));
    }
    if lt.sees(text, b'<') {
        return token(TK_LSHIFT, start, lt.eat(text));
    }
    if lt.sees(text, b'>') {
        return token(TK_NE, start, lt.eat(text));
    }
    token(TK_LT, start, lt)
}

pub(crate) fn eat_ge_or_gt_or_rshift(text: &[u8], start: Cursor) -> Lexed
    requires { At (char ">") start.at text.now }
    ensures { Lexes text.now start.at result }
{
    let gt = start.eat(text);
    if gt.sees(text, b'=') {
        return token(TK_GE, start, gt.eat(text));
    }
    if gt.sees(text, b'>') {
        return token(TK_RSHIFT, start, gt.eat(text));
    }
    token(TK_GT, start, gt)
}

pub(crate) fn eat_ne(text: &[u8], start: Cursor) -> Lexed
    requires { At (char "!") start.at text.now }
    ensures { Lexes text.now start.at result }
{
    let bang = start.eat(text);
    if bang.sees(text, b'=') {
        return token(TK_NE, start, bang.eat(text));
    }
    refused(Refusal::ExpectedEqualsSign, start, bang, start)
}

// `@>` is the array contains operator; any other `@` starts a parameter.
pub(crate) fn eat_array_contains_or_var(text: &[u8], start: Cursor) -> Lexed
    requires { At (char "@") start.at text.now }
    ensures { Lexes text.now start.at result }
{
    let sign = start.eat(text);
    if sign.sees(text, b'>') {
        return token(TK_ARRAY_CONTAINS, start, sign.eat(text));
    }
    eat_named_var(text, start, sign)
}
