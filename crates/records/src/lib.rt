// A record of a list: what a list has of a token, in five numbers, one behind the other.
#![tactic(auto)]

ghost use Rattle.std.specs.Prelude.{◌≡◌};
ghost use Rattle.records.specs.Records.{is_free, with_record};

// How many numbers a record has.
pub const WIDTH: usize = 5;

// A token's kind and span, and the line and column of its start; laid out as C has it, which lends lists of them.
#[repr(C)]
#[derive(Clone, Copy, PartialEq, Eq)]
pub struct Record {
    pub kind: u32,
    pub start: u32,
    pub length: u32,
    pub line: u32,
    pub column: u32,
}

// Writes a record's numbers from a place of a list on, and says whether it did: not where they have no room there.
pub fn put(numbers: &mut [u32], at: usize, r: Record) -> bool
    ensures { (result ≡ is_free numbers.old at) × (numbers.new ≡ with_record numbers.old at r) }
{
    let room = numbers.len();
    if room < WIDTH || room - WIDTH < at {
        return false;
    }
    // Number by number. Tried: on the device `copy_from_slice` of the five is a call of memcpy for each token; and of what is written through
    // a slice's pattern the check knows the length alone.
    numbers[at] = r.kind;
    numbers[at + 1] = r.start;
    numbers[at + 2] = r.length;
    numbers[at + 3] = r.line;
    numbers[at + 4] = r.column;
    true
}
