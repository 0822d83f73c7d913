// The bytes of a blob that is a span of a text.
ghost use Rattle.std.specs.Prelude.{◌≡◌, ◌+◌, ◌*◌, ◌≤◌, length};
ghost use Rattle.buffers.specs.Buffers.{before, Fills};
ghost use Rattle.spans.specs.Spans.{said_of};
ghost use Rattle.hexdigits.specs.Digits.{worth};
ghost use Rattle.blobs.specs.Blobs.{pairs};
ghost use Rattle.blobs.specs.Calls.{ReadsBlob};

use grammar::profile::Profile;
use hexdigits::digits::worth;
use keywords::kinds::TK_BLOB;
use spans::answers::ReadError;
use spans::span::find;

pub fn read_blob(
    text: &[u8],
    start: usize,
    length: usize,
    profile: Profile,
    buffer: &mut [u8],
) -> Result<usize, ReadError>
    ensures { ReadsBlob profile text.now start length buffer.old result buffer.new }
{
    find(text, start, length, TK_BLOB, profile).ok_or(ReadError::NotThatLiteral)?;
    let from = start + 2;
    let to = start + length - 1;
    unhex(&text[from..to], buffer)
}

// The bytes that pairs of digits stand for.
fn unhex(digits: &[u8], buffer: &mut [u8]) -> Result<usize, ReadError>
    ensures { Fills (pairs digits.now) buffer.old (said_of result) buffer.new }
{
    let n = digits.len() / 2;
    if buffer.len() < n {
        return Err(ReadError::NoRoom);
    }
    put_pairs(digits, buffer);
    Ok(n)
}

fn put_pairs(digits: &[u8], buffer: &mut [u8])
    requires { length (pairs digits.now) ≤ length buffer.old }
    ensures { buffer.new ≡ before (pairs digits.now) buffer.old }
{
    for n in 0..digits.len() / 2 {
        buffer[n] = pair(digits[2 * n], digits[2 * n + 1]);
    }
}

fn pair(high: u8, low: u8) -> u8
    ensures { result ≡ worth high * 16 + worth low }
{
    worth(high) * 16 + worth(low)
}
