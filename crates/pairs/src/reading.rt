// The first pass: a group is an opener, items and its closer, and an item is a group or any other record. Reading a group calls reading
// items, one level deeper, and that calls reading a group. At most sixteen groups are open at once, so the stack has a bound.
// Each takes the list as it is lent: over a struct with `are_records` as its invariant four requires would be shorter by a word, and every
// clause longer by a field.
ghost use Rattle.std.specs.Prelude.{◌≡◌, true, [], ◌≤◌, ◌<◌, length};
ghost use Rattle.brackets.specs.Brackets.{nesting};
ghost use Rattle.brackets.specs.Numbers.{are_records, kinds_of};
ghost use Rattle.pairs.specs.Pairs.{outcome_of};
ghost use Rattle.pairs.specs.Parts.{OpenerAt, Reads, ItemsEnd, GroupEnd, closed};

use crate::PairError;
use crate::kinds::{closer_of, is_closer, is_opener, kind_at};
use records::WIDTH;

// Sixteen levels pass.
const LEVELS: u32 = 16;

// Where a part of the list ends, with the deepest nesting up to there.
#[derive(Clone, Copy)]
pub(crate) struct Upto {
    at: usize,
    deepest: u32,
}

// Up to the list's end, or a closer that is none of theirs. A group is passed in one step, so the loop is no `for`.
#[cycle(group_items)]
fn items(numbers: &[u32], from: usize, depth: u32, deepest: u32) -> Result<Upto, PairError>
    requires { (are_records numbers.now ≡ true) × (from ≤ length (kinds_of numbers.now)) × (depth ≤ 16) }
    ensures { Reads (kinds_of numbers.now) from depth deepest result × ItemsEnd (kinds_of numbers.now) from result }
{
    let mut read = Upto { at: from, deepest };
    while read.at * WIDTH < numbers.len() {
        let kind = kind_at(numbers, read.at);
        if is_closer(kind) {
            break;
        }
        if is_opener(kind) {
            read = group(numbers, read.at, depth, read.deepest)?;
        } else {
            read.at += 1;
        }
    }
    Ok(read)
}

// From its opener up to behind its closer.
#[cycle(group_items)]
fn group(numbers: &[u32], from: usize, depth: u32, deepest: u32) -> Result<Upto, PairError>
    requires { (are_records numbers.now ≡ true) × OpenerAt (kinds_of numbers.now) from × (depth ≤ 16) }
    ensures { Reads (kinds_of numbers.now) from depth deepest result × GroupEnd (kinds_of numbers.now) from result }
{
    if depth == LEVELS {
        return Err(PairError::TooDeep { index: from });
    }
    let inner = items(numbers, from + 1, depth + 1, deepest.max(depth + 1))?;
    close(numbers, from, inner.at, inner.deepest)
}

// A group whose items end at a place: its closer stands there, or a wrong one, or nothing more.
fn close(numbers: &[u32], from: usize, at: usize, deepest: u32) -> Result<Upto, PairError>
    requires { (are_records numbers.now ≡ true) × (from < at) × (at ≤ length (kinds_of numbers.now)) }
    ensures { result ≡ closed (kinds_of numbers.now) from at deepest }
{
    if at * WIDTH == numbers.len() {
        return Err(PairError::LeftOpen { index: from });
    }
    let opener = kind_at(numbers, from);
    if kind_at(numbers, at) != closer_of(opener) {
        return Err(PairError::WrongCloser { index: at });
    }
    Ok(Upto {
        at: at + 1,
        deepest,
    })
}

// The whole list: a closer that ends its items closes nothing.
pub(crate) fn nested(numbers: &[u32]) -> Result<u32, PairError>
    requires { are_records numbers.now ≡ true }
    ensures { outcome_of result ≡ nesting (kinds_of numbers.now) 0 [] 0 }
{
    let all = items(numbers, 0, 0, 0)?;
    if all.at * WIDTH < numbers.len() {
        return Err(PairError::WrongCloser { index: all.at });
    }
    Ok(all.deepest)
}
