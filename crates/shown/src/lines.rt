// A line: a literal's name, what a call answers, and the buffer behind the call.
ghost use Rattle.std.specs.Prelude.{◌≡◌};

use hexdigits::digits::digit;
use rows::out::Out;
use spans::answers::ReadError;

// The name, how many bytes there are or the refusal, and the whole buffer that the call fills. Each byte of it is FF before, so that those
// which the call leaves are seen.
pub(crate) fn put_call<F: FnOnce(&mut [u8]) -> Result<usize, ReadError>>(
    out: &mut Out<'_, impl Print + Eprint>,
    name: &str,
    buffer: &mut [u8],
    call: F,
)
    requires { F.IsAlwaysCallable call }
    ensures same_reference { out.new.row.ghost_name ≡ out.old.row.ghost_name }
{
    buffer.fill(u8::MAX);
    let answer = call(buffer);
    print!(out; "{name}\t");
    put_answer(out, answer);
    out.put_byte(b'\t');
    put_buffer(out, buffer);
    out.put_byte(b'\n');
}

fn put_answer(out: &mut Out<'_, impl Print + Eprint>, answer: Result<usize, ReadError>)
    ensures same_reference { out.new.row.ghost_name ≡ out.old.row.ghost_name }
{
    match answer {
        Ok(n) => print!(out; "{n}"),
        Err(ReadError::NotThatLiteral) => print!(out; "NotThatLiteral"),
        Err(ReadError::NoRoom) => print!(out; "NoRoom"),
    }
}

// In hexadecimal; `-` where it has no byte.
fn put_buffer(out: &mut Out<'_, impl Print + Eprint>, buffer: &[u8])
    ensures same_reference { out.new.row.ghost_name ≡ out.old.row.ghost_name }
{
    if buffer.is_empty() {
        print!(out; "-");
    }
    for &b in buffer {
        out.put_byte(digit(b / 16));
        out.put_byte(digit(b % 16));
    }
}
