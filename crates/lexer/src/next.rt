// The longest lexeme at a cursor.
ghost use Rattle.std.specs.Prelude.{◌≡◌, ◌<◌, false, length};
ghost use Rattle.words.specs.Bytes.{is_blank};
ghost use Rattle.grammar.specs.Form.{D, S, byte, ◌or◌};
ghost use Rattle.grammar.specs.Classes.{U};
ghost use Rattle.grammar.specs.Runs.{char};
ghost use Rattle.grammar.proofs.Places.{At};
ghost use Rattle.lexer.specs.Values.{LexesUnder};

use crate::cursor::Cursor;
use crate::identifiers::{eat_blob_or_id, eat_illegal, eat_unrecognized};
use crate::lexed::{Lexed, Refusal};
use crate::numbers::{eat_dot_or_frac, eat_number};
use crate::operators::{
    eat_array_contains_or_var, eat_ge_or_gt_or_rshift, eat_le_or_ne_or_lshift_or_lt,
    eat_minus_or_comment_or_ptr, eat_ne, eat_one_or_two, eat_one_token, eat_slash_or_comment,
    eat_white_space,
};
use crate::parameters::{eat_colon_or_var, eat_named_var, eat_numbered_var};
use crate::quoted::{eat_bracketed, eat_lit_or_id};
use crate::sets::{Digit, Start};
use grammar::profile::Profile;
use keywords::kinds::{
    TK_ARRAY_OVERLAP, TK_BITAND, TK_BITNOT, TK_BITOR, TK_COMMA, TK_CONCAT, TK_EQ, TK_LBRACKET,
    TK_LP, TK_PLUS, TK_RBRACKET, TK_REM, TK_RP, TK_SEMI, TK_STAR,
};
use words::bytes::is_blank;

// Past the end a refusal, at the end End, else what the longest lexeme here answers.
pub fn next(text: &[u8], cursor: Cursor, profile: Profile) -> Lexed
    ensures { LexesUnder profile text.now cursor.at result }
{
    let at = cursor.at;
    if text.len() < at {
        return Lexed::Refused {
            why: Refusal::OffsetPastEnd,
            start: 0,
            length: 0,
            next: cursor,
        };
    }
    let Some(b) = cursor.peek(text) else {
        return Lexed::End { next: cursor };
    };
    if is_blank(b) {
        return eat_white_space(text, cursor);
    }
    eat_lexeme(text, cursor, b, profile)
}

// By the first byte, which is no blank.
fn eat_lexeme(text: &[u8], start: Cursor, b: u8, profile: Profile) -> Lexed
    requires { At (byte b) start.at text.now × (is_blank b ≡ false) × (start.at < length text.now) }
    ensures { LexesUnder profile text.now start.at result }
{
    match b {
        b'-' => eat_minus_or_comment_or_ptr(text, start),
        b'(' => eat_one_token(text, start, TK_LP),
        b')' => eat_one_token(text, start, TK_RP),
        b';' => eat_one_token(text, start, TK_SEMI),
        b'+' => eat_one_token(text, start, TK_PLUS),
        b'*' => eat_one_token(text, start, TK_STAR),
        b'/' => eat_slash_or_comment(text, start),
        b'%' => eat_one_token(text, start, TK_REM),
        b'=' => eat_one_or_two(text, start, TK_EQ, b'=', TK_EQ),
        b'<' => eat_le_or_ne_or_lshift_or_lt(text, start),
        b'>' => eat_ge_or_gt_or_rshift(text, start),
        b'!' => eat_ne(text, start),
        b'|' => eat_one_or_two(text, start, TK_BITOR, b'|', TK_CONCAT),
        b',' => eat_one_token(text, start, TK_COMMA),
        b'&' => eat_and(text, start, profile),
        b'~' => eat_one_token(text, start, TK_BITNOT),
        b'\'' | b'"' | b'`' => eat_lit_or_id(text, start, b),
        b'.' => eat_dot_or_frac(text, start, profile),
        b'[' => eat_bracket(text, start, profile),
        b']' => eat_one_token(text, start, TK_RBRACKET),
        b'@' => eat_at(text, start, profile),
        b'?' => eat_numbered_var(text, start),
        b'$' => eat_named_var(text, start, start.eat(text)),
        b'#' => eat_illegal(text, start),
        b':' => eat_colon(text, start, profile),
        _ => eat_number_or_name(text, start, profile),
    }
}

fn eat_number_or_name(text: &[u8], start: Cursor, profile: Profile) -> Lexed
    requires { At (D or S or U) start.at text.now }
    ensures { LexesUnder profile text.now start.at result }
{
    if start.sees(text, Digit) {
        return eat_number(text, start, profile);
    }
    if start.sees(text, Start) {
        return eat_blob_or_id(text, start);
    }
    eat_unrecognized(text, start)
}

// Where the profiles part by the first byte: `&`, `[`, `@` and `:`. Each goes on by functions of its own, so that one for the four would be
// handed two closures and be no shorter.
fn eat_and(text: &[u8], start: Cursor, profile: Profile) -> Lexed
    requires { At (char "&") start.at text.now }
    ensures { LexesUnder profile text.now start.at result }
{
    match profile {
        Profile::Turso => eat_one_or_two(text, start, TK_BITAND, b'&', TK_ARRAY_OVERLAP),
        Profile::Sqlite => eat_one_token(text, start, TK_BITAND),
    }
}

fn eat_bracket(text: &[u8], start: Cursor, profile: Profile) -> Lexed
    requires { At (char "[") start.at text.now }
    ensures { LexesUnder profile text.now start.at result }
{
    match profile {
        Profile::Turso => eat_one_token(text, start, TK_LBRACKET),
        Profile::Sqlite => eat_bracketed(text, start),
    }
}

fn eat_at(text: &[u8], start: Cursor, profile: Profile) -> Lexed
    requires { At (char "@") start.at text.now }
    ensures { LexesUnder profile text.now start.at result }
{
    match profile {
        Profile::Turso => eat_array_contains_or_var(text, start),
        Profile::Sqlite => eat_named_var(text, start, start.eat(text)),
    }
}

fn eat_colon(text: &[u8], start: Cursor, profile: Profile) -> Lexed
    requires { At (char ":") start.at text.now }
    ensures { LexesUnder profile text.now start.at result }
{
    match profile {
        Profile::Turso => eat_colon_or_var(text, start),
        Profile::Sqlite => eat_named_var(text, start, start.eat(text)),
    }
}
