// The record at a place of a row: an offset and a length, 4 bytes each with the lowest first, then the text.
ghost use Rattle.std.specs.Prelude.{◌≡◌, ◌+◌, ◌≤◌, length, IfOk};
ghost use Rattle.rows.specs.Records.{number_at, record_at};

// The longest text of a record.
pub const LONGEST_RECORD: usize = 65536;

// A record's offset, and where in the row its text stands.
#[derive(Clone, Copy)]
pub struct Text {
    pub offset: usize,
    pub start: usize,
    pub end: usize,
}

// Short: the record has at least so many bytes, and fewer are there. Bad: its text is longer than allowed.
#[derive(Clone, Copy)]
pub enum NoText {
    Short(usize),
    Bad,
}

// The number in the 4 bytes at a place, the lowest first.
fn number(row: &[u8], at: usize) -> usize
    requires { at + 4 ≤ length row.now }
    ensures { result ≡ number_at row.now at }
{
    u32::from_le_bytes([row[at], row[at + 1], row[at + 2], row[at + 3]]) as usize
}

// The record that starts at the row's beginning.
#[tactic(auto, unfolding(crate::specs::Records::record_at))]
pub fn record_at(row: &[u8]) -> Result<Text, NoText>
    ensures value { result ≡ record_at row.now }
    ensures inside { IfOk result (λ text. (text.start ≤ text.end) × (text.end ≤ length row.now)) }
{
    if row.len() < 8 {
        return Err(NoText::Short(8));
    }
    let length = number(row, 4);
    if LONGEST_RECORD < length {
        return Err(NoText::Bad);
    }
    let end = 8 + length;
    if row.len() < end {
        return Err(NoText::Short(end));
    }
    Ok(Text {
        offset: number(row, 0),
        start: 8,
        end,
    })
}
