// The bytes of a string or a quoted name that is a span of a text.
ghost use Rattle.std.specs.Prelude.{◌≡◌, false, true, ◌≤◌, length};
ghost use Rattle.grammar.specs.Classes.{by};
ghost use Rattle.buffers.specs.Buffers.{before, Fills};
ghost use Rattle.spans.specs.Spans.{span, is_quote, said_of};
ghost use Rattle.strings.specs.Quotes.{undoubled, unquoted};
ghost use Rattle.strings.specs.Calls.{ReadsString, ReadsName};
ghost use Rattle.strings.specs.Closing.{closing_of, IsQuoted};

use grammar::profile::Profile;
use keywords::kinds::{TK_ID, TK_STRING};
use spans::answers::ReadError;
use spans::span::find;

pub fn read_string(
    text: &[u8],
    start: usize,
    length: usize,
    profile: Profile,
    buffer: &mut [u8],
) -> Result<usize, ReadError>
    ensures { ReadsString profile text.now start length buffer.old result buffer.new }
{
    find(text, start, length, TK_STRING, profile).ok_or(ReadError::NotThatLiteral)?;
    unquote(text, start, length, buffer)
}

// A quoted name. A bare word is a token of the same kind, and is refused.
pub fn read_name(
    text: &[u8],
    start: usize,
    length: usize,
    profile: Profile,
    buffer: &mut [u8],
) -> Result<usize, ReadError>
    ensures { ReadsName profile text.now start length buffer.old result buffer.new }
{
    find(text, start, length, TK_ID, profile).ok_or(ReadError::NotThatLiteral)?;
    if !is_quote(text[start], profile) {
        return Err(ReadError::NotThatLiteral);
    }
    unquote(text, start, length, buffer)
}

// What opens a quoted name.
fn is_quote(b: u8, profile: Profile) -> bool
    ensures { result ≡ is_quote profile b }
{
    match b {
        b'"' | b'`' => true,
        b'[' => matches!(profile, Profile::Sqlite),
        _ => false,
    }
}

// In a name between brackets the closing one stands nowhere, so that nothing is doubled.
fn unquote(text: &[u8], start: usize, n: usize, buffer: &mut [u8]) -> Result<usize, ReadError>
    requires { IsQuoted text.now start n }
    ensures { Fills (unquoted (span text.now start n)) buffer.old (said_of result) buffer.new }
{
    let from = start + 1;
    let to = start + n - 1;
    undouble(&text[from..to], closing(text[start]), buffer)
}

fn closing(b: u8) -> u8
    ensures { result ≡ closing_of b }
{
    if b == b'[' { b']' } else { b }
}

// The bytes are counted only where the buffer might be too short: they are never more than the body's.
fn undouble(body: &[u8], quote: u8, buffer: &mut [u8]) -> Result<usize, ReadError>
    ensures { Fills (undoubled quote false body.now) buffer.old (said_of result) buffer.new }
{
    if buffer.len() < body.len() && buffer.len() < undoubled_length(body, quote) {
        return Err(ReadError::NoRoom);
    }
    Ok(put_undoubled(body, quote, buffer))
}

// It counts what `put_undoubled` puts: one loop for both, over a closure for each byte, would need clauses on the closure, longer than a loop.
fn undoubled_length(body: &[u8], quote: u8) -> usize
    ensures { result ≡ length (undoubled quote false body.now) }
{
    let mut n = 0;
    let mut skipped = false;
    for &b in body {
        if skipped {
            skipped = false;
        } else {
            n += 1;
            skipped = b == quote;
        }
    }
    n
}

fn put_undoubled(body: &[u8], quote: u8, buffer: &mut [u8]) -> usize
    requires { length (undoubled quote false body.now) ≤ length buffer.old }
    ensures { (result ≡ length (undoubled quote false body.now)) × (buffer.new ≡ before (undoubled quote false body.now) buffer.old) }
{
    let mut n = 0;
    let mut out = false;
    for &b in body {
        if out {
            out = false;
        } else {
            buffer[n] = b;
            n += 1;
            out = b == quote;
        }
    }
    n
}
