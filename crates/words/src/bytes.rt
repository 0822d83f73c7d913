// The byte classes of document 01.
ghost use Rattle.std.specs.Prelude.{◌≡◌};
ghost use Rattle.words.specs.Bytes.{is_digit, is_hexdigit, is_identifier_start, is_identifier_continue, is_blank};

#[tactic(auto, unfolding(crate::specs::Bytes::is_digit))]
pub fn is_digit(b: u8) -> bool
    ensures { result ≡ is_digit b }
{
    matches!(b, b'0'..=b'9')
}

// The two ranges of letters are asked one after the other: in one pattern they take a quarter more instructions over a blob (docs/PERFORMANCE.md).
#[tactic(auto, unfolding(crate::specs::Bytes::is_digit, crate::specs::Bytes::is_hexdigit))]
pub fn is_hexdigit(b: u8) -> bool
    ensures { result ≡ is_hexdigit b }
{
    is_digit(b) || matches!(b, b'A'..=b'F') || matches!(b, b'a'..=b'f')
}

#[tactic(auto, unfolding(crate::specs::Bytes::is_identifier_start))]
pub fn is_identifier_start(b: u8) -> bool
    ensures { result ≡ is_identifier_start b }
{
    matches!(b, b'A'..=b'Z' | b'a'..=b'z' | b'_' | 0x80..=0xFF)
}

#[tactic(auto, unfolding(crate::specs::Bytes::is_identifier_continue))]
pub fn is_identifier_continue(b: u8) -> bool
    ensures { result ≡ is_identifier_continue b }
{
    is_identifier_start(b) || is_digit(b) || b == b'$'
}

// 0B is no blank, here as in the Rust.
#[tactic(auto, unfolding(crate::specs::Bytes::is_blank))]
pub fn is_blank(b: u8) -> bool
    ensures { result ≡ is_blank b }
{
    b.is_ascii_whitespace()
}
