// Where one set of bytes leads on, and no other.
ghost use Rattle.std.specs.Prelude.{◌≡◌, cond};
ghost use Rattle.readings.specs.declared.reading.Reading.{Reading};

use readings::reading::Reading;

// `hit`: the byte is in the set. A choice between two readings stands where it is made: a function that is handed both was measured, and is
// slower (docs/PERFORMANCE.md).
pub(crate) fn only(hit: bool, then: Reading) -> Reading
    ensures { result ≡ cond hit then Reading.Dead }
{
    if hit { then } else { Reading::Dead }
}
