// Decimal and hexadecimal digits.
ghost use Rattle.std.specs.Prelude.{◌≡◌};
ghost use Rattle.hexdigits.specs.Digits.{worth, digit};

// What an H stands for; 0 for any other byte.
#[tactic(auto, unfolding(crate::specs::Digits::worth, words::specs::Bytes::is_digit))]
pub fn worth(b: u8) -> u8
    ensures { result ≡ worth b }
{
    match b {
        b'0'..=b'9' => b - b'0',
        b'A'..=b'F' => b - b'A' + 10,
        b'a'..=b'f' => b - b'a' + 10,
        _ => 0,
    }
}

// The H in capitals that stands for a number below sixteen; 0 for any other.
#[tactic(auto, unfolding(crate::specs::Digits::digit))]
pub fn digit(d: u8) -> u8
    ensures { result ≡ digit d }
{
    match d {
        0..=9 => b'0' + d,
        10..=15 => b'A' + (d - 10),
        _ => 0,
    }
}
