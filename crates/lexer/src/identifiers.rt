// Words, `#` and what starts nothing.
ghost use Rattle.grammar.specs.Form.{S};
ghost use Rattle.grammar.specs.Classes.{U};
ghost use Rattle.grammar.specs.Runs.{char};
ghost use Rattle.grammar.proofs.Reading.{Reads, behind};
ghost use Rattle.grammar.proofs.Places.{At};
ghost use Rattle.lexer.specs.Values.{Lexes};

use crate::cursor::Cursor;
use crate::lexed::{Lexed, Refusal, refused, token};
use crate::quoted::eat_blob;
use crate::sets::{Blank, Continue, Not, Or};
use keywords::kinds::TK_ILLEGAL;
use words::lookup::keyword_or_id_token;

pub(crate) fn eat_blob_or_id(text: &[u8], start: Cursor) -> Lexed
    requires { At S start.at text.now }
    ensures { Lexes text.now start.at result }
{
    let rest = start.eat(text);
    if start.sees(text, Or(b'x', b'X')) && rest.sees(text, b'\'') {
        eat_blob(text, start, rest.eat(text))
    } else {
        eat_id(text, start, rest)
    }
}

// Behind the first byte of a word.
fn eat_id(text: &[u8], start: Cursor, at: Cursor) -> Lexed
    requires { Reads text.now start.at at.at (behind "a") }
    ensures { Lexes text.now start.at result }
{
    let end = at.eat_while(text, Continue);
    token(keyword_or_id_token(&text[start.at..end.at]), start, end)
}

pub(crate) fn eat_illegal(text: &[u8], start: Cursor) -> Lexed
    requires { At (char "#") start.at text.now }
    ensures { Lexes text.now start.at result }
{
    token(TK_ILLEGAL, start, start.eat(text).eat_while(text, Continue))
}

// The only refusal that leaves the cursor behind the lexeme.
pub(crate) fn eat_unrecognized(text: &[u8], start: Cursor) -> Lexed
    requires { At U start.at text.now }
    ensures { Lexes text.now start.at result }
{
    let end = start.eat_while(text, Not(Blank));
    refused(Refusal::UnrecognizedToken, start, end, end)
}
