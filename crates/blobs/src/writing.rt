// The blob of bytes: small `x`, H in capitals.
ghost use Rattle.std.specs.Prelude.{◌≡◌, ◌≤◌, length};
ghost use Rattle.buffers.specs.Buffers.{before};
ghost use Rattle.blobs.specs.Blobs.{blob_literal};
ghost use Rattle.blobs.specs.Calls.{WritesBlob};

use buffers::written::NoRoom;
use hexdigits::digits::digit;

// The room is halved, since twice the number of bytes might not be a number of 64 bits.
pub fn write_blob(bytes: &[u8], buffer: &mut [u8]) -> Result<usize, NoRoom>
    ensures { WritesBlob bytes.now buffer.old result buffer.new }
{
    let room = buffer.len();
    let n = bytes.len();
    if room < 3 || (room - 3) / 2 < n {
        return Err(NoRoom);
    }
    put_blob(bytes, buffer);
    Ok(n * 2 + 3)
}

fn put_blob(bytes: &[u8], buffer: &mut [u8])
    requires { length (blob_literal bytes.now) ≤ length buffer.old }
    ensures { buffer.new ≡ before (blob_literal bytes.now) buffer.old }
{
    buffer[0] = b'x';
    buffer[1] = b'\'';
    // The place in the buffer: it moves on by two.
    let mut n = 2;
    for &b in bytes {
        buffer[n] = digit(b / 16);
        n += 1;
        buffer[n] = digit(b % 16);
        n += 1;
    }
    buffer[n] = b'\'';
}
