// The number that digits name, underscores skipped.
ghost use Rattle.std.specs.Prelude.{◌≡◌, ◌+◌, ◌*◌, ◌^◌, ◌≤◌, ◌<◌};
ghost use Rattle.integers.specs.Numbers.{value};
ghost use Rattle.integers.specs.Integers.{up_to};
ghost use Rattle.integers.specs.Calls.{said_of};

use crate::reading::IntegerError;
use hexdigits::digits::worth;

// One that is known to fit in 64 bits: no digit is tested.
pub(crate) fn small_number(bytes: &[u8], base: u64) -> u64
    requires { (0 < base) × (value base bytes.now < 2 ^ 64) }
    ensures { result ≡ value base bytes.now }
{
    let mut n: u64 = 0;
    for &b in bytes {
        if b != b'_' {
            let d = worth(b) as u64;
            n = n * base + d;
        }
    }
    n
}

// Any, up to a limit: most * base + last, told so that nothing is divided. (No byte stands for more than 15.)
pub(crate) fn number_up_to(
    bytes: &[u8],
    base: u64,
    most: u64,
    last: u64,
) -> Result<i64, IntegerError>
    requires { (last < base) × (15 ≤ base + last) × (most * base + last < 2 ^ 64) }
    ensures { said_of result ≡ up_to (most * base + last) (value base bytes.now) }
{
    let mut n: u64 = 0;
    for &b in bytes {
        if b != b'_' {
            let d = worth(b) as u64;
            if most < n {
                return Err(IntegerError::OutOfRange);
            }
            if n == most && last < d {
                return Err(IntegerError::OutOfRange);
            }
            n = n * base + d;
        }
    }
    Ok(n.cast_signed())
}
