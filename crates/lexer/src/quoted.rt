// Strings, quoted names and blobs.
ghost use Rattle.std.specs.Prelude.{◌≡◌, true};
ghost use Rattle.grammar.specs.declared.profile.Profile.TheVariants.{Sqlite};
ghost use Rattle.grammar.specs.Form.{byte, one_of, holds};
ghost use Rattle.grammar.specs.Runs.{char};
ghost use Rattle.grammar.proofs.Reading.{Reads, behind};
ghost use Rattle.grammar.proofs.Places.{At};
ghost use Rattle.lexer.specs.Eaten.{quote_kind};
ghost use Rattle.lexer.specs.Values.{Lexes, LexesUnder};

use crate::cursor::Cursor;
use crate::lexed::{Lexed, Refusal, refused, token};
use crate::sets::Hexdigit;
use keywords::kinds::{TK_BLOB, TK_ID, TK_STRING};

fn quote_kind(quote: u8) -> u32
    ensures { result ≡ quote_kind quote }
{
    if quote == b'\'' { TK_STRING } else { TK_ID }
}

pub(crate) fn eat_lit_or_id(text: &[u8], start: Cursor, quote: u8) -> Lexed
    requires { At (byte quote) start.at text.now × (holds (one_of "'\"`") quote ≡ true) }
    ensures { Lexes text.now start.at result }
{
    let mut body = start.eat(text);
    loop {
        match body.eat_past(text, quote) {
            Err(end) => return refused(Refusal::UnterminatedLiteral, start, end, start),
            Ok(after) => {
                if !after.sees(text, quote) {
                    return token(quote_kind(quote), start, after);
                }
                body = after.eat(text);
            }
        }
    }
}

// `[` up to the first `]`, a name where the profile is nearer SQLite.
pub(crate) fn eat_bracketed(text: &[u8], start: Cursor) -> Lexed
    requires { At (char "[") start.at text.now }
    ensures { LexesUnder Sqlite text.now start.at result }
{
    match start.eat(text).eat_past(text, b']') {
        Err(end) => refused(Refusal::UnterminatedLiteral, start, end, start),
        Ok(after) => token(TK_ID, start, after),
    }
}

// Behind `x'`.
pub(crate) fn eat_blob(text: &[u8], start: Cursor, at: Cursor) -> Lexed
    requires { Reads text.now start.at at.at (behind "x'") }
    ensures { Lexes text.now start.at result }
{
    let end = at.eat_while(text, Hexdigit);
    if !end.sees(text, b'\'') {
        return refused(Refusal::UnterminatedLiteral, start, end, start);
    }
    if (end.at - at.at) % 2 != 0 {
        return refused(Refusal::UnrecognizedToken, start, end.eat(text), start);
    }
    token(TK_BLOB, start, end.eat(text))
}
