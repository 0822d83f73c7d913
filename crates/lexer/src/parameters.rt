// Parameters, and the colon.
ghost use Rattle.std.specs.Prelude.{◌≤◌};
ghost use Rattle.grammar.specs.declared.profile.Profile.{Profile};
ghost use Rattle.grammar.specs.Runs.{char};
ghost use Rattle.grammar.proofs.Reading.{ReadsUnder, behind};
ghost use Rattle.grammar.proofs.Places.{At, Named};
ghost use Rattle.lexer.specs.Values.{Lexes, LexesUnder};

use crate::cursor::Cursor;
use crate::lexed::{Lexed, Refusal, refused, token};
use crate::sets::{Blank, Continue, Digit, Not, Or, Start};
use keywords::kinds::{TK_COLON, TK_VARIABLE};

// `?` and digits.
pub(crate) fn eat_numbered_var(text: &[u8], start: Cursor) -> Lexed
    requires { At (char "?") start.at text.now }
    ensures { Lexes text.now start.at result }
{
    token(TK_VARIABLE, start, start.eat(text).eat_while(text, Digit))
}

// The name of a parameter, behind its `$`, `@` or `:`: identifier bytes, and `::` pairs anywhere. Here no identifier byte has come yet;
// without one it is refused. A name is read the same way under each profile, so that these three functions take none, and promise the
// answer under every profile that leads to where they begin.
pub(crate) fn eat_named_var(text: &[u8], start: Cursor, at: Cursor) -> Lexed
    requires { start.at ≤ at.at }
    ensures { (p : Profile) → ReadsUnder p text.now start.at at.at (behind "$") → LexesUnder p text.now start.at result }
{
    let mut name = at;
    loop {
        if name.sees(text, Continue) {
            return eat_name(text, start, name);
        }
        if !name.sees_pair(text) {
            return refused(Refusal::UnrecognizedToken, start, name, start);
        }
        name = name.eat(text).eat(text);
    }
}

// From the first identifier byte on.
fn eat_name(text: &[u8], start: Cursor, at: Cursor) -> Lexed
    requires { start.at ≤ at.at }
    ensures { (p : Profile) → ReadsUnder p text.now start.at at.at (behind "$a") → LexesUnder p text.now start.at result }
{
    let mut name = at;
    loop {
        let end = name.eat_while(text, Continue);
        if !end.sees_pair(text) {
            return eat_suffix(text, start, end);
        }
        name = end.eat(text).eat(text);
    }
}

// One "(...)" ends a name; it must be closed and hold no blank.
fn eat_suffix(text: &[u8], start: Cursor, at: Cursor) -> Lexed
    requires { start.at ≤ at.at }
    ensures { (p : Profile) → Named p text.now start.at at.at → LexesUnder p text.now start.at result }
{
    if !at.sees(text, b'(') {
        return token(TK_VARIABLE, start, at);
    }
    let end = at.eat(text).eat_while(text, Not(Or(b')', Blank)));
    if !end.sees(text, b')') {
        return refused(Refusal::UnrecognizedToken, start, end, start);
    }
    token(TK_VARIABLE, start, end.eat(text))
}

// `:name` is a named parameter, and so is `:::name`; any other `:` is a colon.
pub(crate) fn eat_colon_or_var(text: &[u8], start: Cursor) -> Lexed
    requires { At (char ":") start.at text.now }
    ensures { Lexes text.now start.at result }
{
    let colon = start.eat(text);
    if colon.sees(text, Start) || colon.sees_pair(text) {
        eat_named_var(text, start, colon)
    } else {
        token(TK_COLON, start, colon)
    }
}
