// The brackets of a list of records, paired: two passes, so that a list which is refused leaves the lent one as it was. The first reads
// groups and items, and decides; the second goes the same way, and writes.
#![tactic(auto)]

mod kinds;
mod reading;
mod writing;

ghost use Rattle.pairs.specs.Pairs.{Pairs};

use crate::reading::nested;
use crate::writing::write_items;
use records::WIDTH;

// More records no text of a list has.
const MOST_RECORDS: usize = 65535;

// An index is that of the record at fault, the first; of those left open it is the innermost.
#[derive(Clone, Copy, PartialEq, Eq, Debug)]
pub enum PairError {
    NotRecords,
    TooLong,
    NoRoom,
    TooDeep { index: usize },
    WrongCloser { index: usize },
    LeftOpen { index: usize },
}

// Writes for each record, five numbers of the list, its partner's index, or its own if it has none; returns how deep the brackets nest.
pub fn pair(numbers: &[u32], partners: &mut [u32]) -> Result<u32, PairError>
    ensures { Pairs numbers.now partners.old result partners.new }
{
    if numbers.len() % WIDTH != 0 {
        return Err(PairError::NotRecords);
    }
    let count = numbers.len() / WIDTH;
    if MOST_RECORDS < count {
        return Err(PairError::TooLong);
    }
    if partners.len() < count {
        return Err(PairError::NoRoom);
    }
    let deepest = nested(numbers)?;
    write_items(numbers, 0, 0, partners);
    Ok(deepest)
}
