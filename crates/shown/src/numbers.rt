// Integers from bytes with the lowest first, one and a list of them.
ghost use Rattle.std.specs.Prelude.{◌+◌, ◌≤◌, ◌<◌, length};
ghost use Rattle.rows.specs.Counts.{IsPrefixLen};

// The number in the 4 bytes at a place.
pub(crate) fn number(bytes: &[u8], at: usize) -> u32
    requires { at + 4 ≤ length bytes.now }
{
    u32::from_le_bytes([bytes[at], bytes[at + 1], bytes[at + 2], bytes[at + 3]])
}

// Whether a record's text is whole numbers of 4 bytes.
pub fn is_numbers_record(record: &[u8]) -> bool {
    record.len().is_multiple_of(4)
}

// Puts the numbers that the bytes are, 4 bytes each, into a list that is lent, as many as it takes. Gives how many.
pub fn read_numbers(bytes: &[u8], numbers: &mut [u32]) -> usize
    ensures { IsPrefixLen result numbers.new }
{
    let (fours, _) = bytes.as_chunks();
    for (number, four) in numbers.iter_mut().zip(fours) {
        *number = u32::from_le_bytes(*four);
    }
    fours.len().min(numbers.len())
}

// The first eight bytes as two's complement; 0 where there are fewer.
pub(crate) fn value_of(bytes: &[u8]) -> i64 {
    bytes
        .first_chunk()
        .map_or(0, |eight| i64::from_le_bytes(*eight))
}
