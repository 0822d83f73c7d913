// What `pair` answers, in numbers.
ghost use Rattle.pairs.specs.Pairs.{outcome_of};
ghost use Rattle.verdicts.specs.Pairing.{GavePairing};

use codes::answers::{DONE, NO_ROOM, TOO_LONG};
use pairs::PairError;

// The refusals that no other call has.
const NOT_RECORDS: u32 = 17;

const TOO_DEEP: u32 = 18;

const WRONG_CLOSER: u32 = 19;

const LEFT_OPEN: u32 = 20;

// Writes the deepest nesting, or a refusal's index, and returns the status.
pub fn give_pairing(paired: Result<u32, PairError>, value: &mut usize) -> u32
    ensures { GavePairing (outcome_of paired) result value.new }
{
    let (status, told) = match paired {
        Ok(nesting) => (DONE, nesting as usize),
        Err(PairError::NotRecords) => (NOT_RECORDS, 0),
        Err(PairError::TooLong) => (TOO_LONG, 0),
        Err(PairError::NoRoom) => (NO_ROOM, 0),
        Err(PairError::TooDeep { index }) => (TOO_DEEP, index),
        Err(PairError::WrongCloser { index }) => (WRONG_CLOSER, index),
        Err(PairError::LeftOpen { index }) => (LEFT_OPEN, index),
    };
    *value = told;
    status
}
