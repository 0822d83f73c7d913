// What `check_list` answers, in numbers: the status and the index. `pairing` has what `pair` answers.
#![tactic(auto)]

pub mod pairing;

ghost use Rattle.agreeing.specs.Agreeing.{verdict_of};
ghost use Rattle.verdicts.specs.Verdicts.{GaveVerdict};

use agreeing::CheckError;
use codes::answers::TOO_LONG;

// The statuses that no other call has.
const LIST_DIFFERS: u32 = 16;

const ACCEPTED: u32 = 106;

// Writes the index, and returns the status.
pub fn give(checked: Result<(), CheckError>, index: &mut usize) -> u32
    ensures { GaveVerdict (verdict_of checked) result index.new }
{
    let (status, first) = match checked {
        Ok(()) => (ACCEPTED, 0),
        Err(CheckError::TooLong) => (TOO_LONG, 0),
        Err(CheckError::ListDiffers { index }) => (LIST_DIFFERS, index),
    };
    *index = first;
    status
}
