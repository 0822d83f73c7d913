// What is printed of bytes: what each call that writes a literal answers for them, and for the integer that they begin with.
ghost use Rattle.std.specs.Prelude.{◌≡◌};

use crate::lines::put_call;
use crate::numbers::value_of;
use blobs::writing::write_blob;
use integers::writing::write_integer;
use rows::out::{Out, filled};
use spans::answers::ReadError;
use strings::writing::{write_name, write_string};

// The longest buffer that a record may ask for, about twice as long as any literal of a record's bytes.
const LONGEST_BUFFER: usize = 262144;

// Whether such a buffer is lent.
pub fn is_write_record(length: usize) -> bool {
    length <= LONGEST_BUFFER
}

// Four lines and an empty one. A buffer longer than what is lent has no byte.
pub fn put_writes(
    out: &mut Out<'_, impl Print + Eprint>,
    bytes: &[u8],
    length: usize,
    lent: &mut [u8],
)
    ensures same_reference { out.new.row.ghost_name ≡ out.old.row.ghost_name }
{
    let n = filled(lent, length);
    let buffer = &mut lent[..n];
    put_call(out, "STRING", buffer, |buffer| {
        write_string(bytes, buffer).map_err(ReadError::from)
    });
    put_call(out, "NAME", buffer, |buffer| {
        write_name(bytes, buffer).map_err(ReadError::from)
    });
    put_call(out, "BLOB", buffer, |buffer| {
        write_blob(bytes, buffer).map_err(ReadError::from)
    });
    put_call(out, "INTEGER", buffer, |buffer| {
        write_integer(value_of(bytes), buffer).map_err(ReadError::from)
    });
    println!(out;);
}
