// The literal of bytes: each quote doubled, between two of them.
ghost use Rattle.std.specs.Prelude.{◌≡◌, ◌≤◌, length};
ghost use Rattle.buffers.specs.Buffers.{said_of, before, Fills};
ghost use Rattle.strings.specs.Quotes.{doubled, quoted};
ghost use Rattle.strings.specs.Calls.{WritesString, WritesName};

use buffers::written::NoRoom;

pub fn write_string(bytes: &[u8], buffer: &mut [u8]) -> Result<usize, NoRoom>
    ensures { WritesString bytes.now buffer.old result buffer.new }
{
    write_quoted(bytes, b'\'', buffer)
}

pub fn write_name(bytes: &[u8], buffer: &mut [u8]) -> Result<usize, NoRoom>
    ensures { WritesName bytes.now buffer.old result buffer.new }
{
    write_quoted(bytes, b'"', buffer)
}

fn write_quoted(bytes: &[u8], quote: u8, buffer: &mut [u8]) -> Result<usize, NoRoom>
    ensures { Fills (quoted quote bytes.now) buffer.old (said_of result) buffer.new }
{
    if buffer.len() < 2 {
        return Err(NoRoom);
    }
    let n = doubled_length(bytes, quote);
    if buffer.len() - 2 < n {
        return Err(NoRoom);
    }
    put_quoted(bytes, quote, buffer);
    Ok(n + 2)
}

fn doubled_length(bytes: &[u8], quote: u8) -> usize
    ensures { result ≡ length (doubled quote bytes.now) }
{
    // by a `for`: the module for the Cortex-M4 (docs/DEVICE.md) can't hold what a filter hands on
    let mut n = 0;
    for &b in bytes {
        n += if b == quote { 2 } else { 1 };
    }
    n
}

fn put_quoted(bytes: &[u8], quote: u8, buffer: &mut [u8])
    requires { length (quoted quote bytes.now) ≤ length buffer.old }
    ensures { buffer.new ≡ before (quoted quote bytes.now) buffer.old }
{
    buffer[0] = quote;
    // The place in the buffer: it moves on by one or two.
    let mut n = 1;
    for &b in bytes {
        buffer[n] = b;
        n += 1;
        if b == quote {
            buffer[n] = b;
            n += 1;
        }
    }
    buffer[n] = quote;
}
