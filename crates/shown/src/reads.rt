// What is printed of a span: what each call that reads a literal answers for it. A record's text is the span's length and the buffer's, 4
// bytes each with the lowest first, then the text that the span is of.
ghost use Rattle.std.specs.Prelude.{◌≡◌};

use crate::lines::put_call;
use crate::numbers::number;
use blobs::reading::read_blob;
use grammar::profile::Profile;
use integers::reading::{IntegerError, read_integer};
use rows::out::{Out, filled};
use strings::reading::{read_name, read_string};

// The longest buffer that a record may ask for.
const LONGEST_BUFFER: u32 = 70000;

// Whether a record's text has both lengths, and such a buffer is lent.
pub fn is_literal_record(record: &[u8]) -> bool {
    record.len() >= 8 && number(record, 4) <= LONGEST_BUFFER
}

// Four lines and an empty one. Of a record that is none nothing is printed; a buffer longer than what is lent has no byte.
pub fn put_literals(
    out: &mut Out<'_, impl Print + Eprint>,
    record: &[u8],
    start: usize,
    profile: Profile,
    lent: &mut [u8],
)
    ensures same_reference { out.new.row.ghost_name ≡ out.old.row.ghost_name }
{
    if record.len() < 8 {
        return;
    }
    let text = &record[8..];
    let length = number(record, 0) as usize;
    let n = filled(lent, number(record, 4) as usize);
    let buffer = &mut lent[..n];
    put_integer_read(out, read_integer(text, start, length, profile));
    put_call(out, "STRING", buffer, |buffer| {
        read_string(text, start, length, profile, buffer)
    });
    put_call(out, "NAME", buffer, |buffer| {
        read_name(text, start, length, profile, buffer)
    });
    put_call(out, "BLOB", buffer, |buffer| {
        read_blob(text, start, length, profile, buffer)
    });
    println!(out;);
}

fn put_integer_read(out: &mut Out<'_, impl Print + Eprint>, answer: Result<i64, IntegerError>)
    ensures same_reference { out.new.row.ghost_name ≡ out.old.row.ghost_name }
{
    print!(out; "INTEGER\t");
    match answer {
        Ok(value) => println!(out; "{value}"),
        Err(IntegerError::NotThatLiteral) => println!(out; "NotThatLiteral"),
        Err(IntegerError::OutOfRange) => println!(out; "OutOfRange"),
    }
}
