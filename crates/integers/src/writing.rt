// The literal of an integer: decimal, of a negative one `0x` and sixteen digits.
ghost use Rattle.std.specs.Prelude.{◌≡◌, ◌/◌, ◌≤◌, ◌<◌, length};
ghost use Rattle.buffers.specs.Buffers.{said_of, before, Fills};
ghost use Rattle.integers.specs.Numbers.{width, padded};
ghost use Rattle.integers.specs.Integers.{bits_of, decimal, hexadecimal};
ghost use Rattle.integers.specs.Calls.{WritesInteger};

use buffers::written::NoRoom;
use hexdigits::digits::digit;

pub fn write_integer(value: i64, buffer: &mut [u8]) -> Result<usize, NoRoom>
    ensures { WritesInteger value buffer.old result buffer.new }
{
    if value < 0 {
        return write_hexadecimal(value.cast_unsigned(), buffer);
    }
    write_decimal(value.cast_unsigned(), buffer)
}

fn write_decimal(n: u64, buffer: &mut [u8]) -> Result<usize, NoRoom>
    ensures { Fills (decimal n) buffer.old (said_of result) buffer.new }
{
    let count = decimal_width(n);
    if buffer.len() < count {
        return Err(NoRoom);
    }
    put_digits::<10>(&mut buffer[..count], n);
    Ok(count)
}

fn decimal_width(n: u64) -> usize
    ensures { result ≡ width 19 n }
{
    let mut w = 1;
    let mut left = n;
    while 9 < left {
        left = tenth(left);
        w += 1;
    }
    w
}

// By divisions of 32 bits. A processor of that width has none of 64, for which the compiler would call a function of another library.
fn tenth(n: u64) -> u64
    ensures { result ≡ n / 10 }
{
    let high = (n / 4294967296) as u32;
    let low = (n % 4294967296) as u32;
    let middle = high % 10 * 65536 + low / 65536;
    let last = middle % 10 * 65536 + low % 65536;
    (high / 10) as u64 * 4294967296 + (middle / 10) as u64 * 65536 + (last / 10) as u64
}

fn write_hexadecimal(bits: u64, buffer: &mut [u8]) -> Result<usize, NoRoom>
    ensures { Fills (hexadecimal bits) buffer.old (said_of result) buffer.new }
{
    if buffer.len() < 18 {
        return Err(NoRoom);
    }
    buffer[..2].copy_from_slice(b"0x");
    put_digits::<16>(&mut buffer[2..18], bits);
    Ok(18)
}

// n in as many digits of a base as there are places, the last one first.
fn put_digits<const BASE: u64>(places: &mut [u8], n: u64)
    requires { (0 < BASE) × (BASE ≤ 16) }
    ensures { places.new ≡ padded BASE (length places.old) n }
{
    let mut left = n;
    for k in (0..places.len()).rev() {
        places[k] = digit((left % BASE) as u8);
        left = if BASE == 10 { tenth(left) } else { left / BASE };
    }
}
