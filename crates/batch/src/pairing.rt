// What is printed of a list: what `pair` answers for it, and the lent numbers behind the call. A record's text is the list's numbers.
ghost use Rattle.std.specs.Prelude.{◌≡◌};

use pairs::{PairError, pair};
use printing::answers::put_numbers;
use printing::lines::put_line;
use rows::out::Out;
use shown::numbers::read_numbers;

// Two lines and an empty one. The list is put into `given`, as much of it as fits there, and its partners are written into the first n of the
// lent numbers, or into all where there are fewer. These are printed in one line, which shows also those that are left as they were: each is
// 4294967295 before. Then DEEPEST and the deepest nesting, or the refusal and its index.
pub(crate) fn put_pairing(
    out: &mut Out<'_, impl Print + Eprint>,
    record: &[u8],
    given: &mut [u32],
    lent: &mut [u32],
    n: usize,
)
    ensures same_reference { out.new.row.ghost_name ≡ out.old.row.ghost_name }
{
    let count = read_numbers(record, given);
    let room = n.min(lent.len());
    let partners = &mut lent[..room];
    partners.fill(u32::MAX);
    let paired = pair(&given[..count], partners);
    put_numbers(out, partners);
    put_paired(out, paired);
    println!(out;);
}

fn put_paired(out: &mut Out<'_, impl Print + Eprint>, paired: Result<u32, PairError>)
    ensures same_reference { out.new.row.ghost_name ≡ out.old.row.ghost_name }
{
    match paired {
        Ok(levels) => put_line(out, "DEEPEST", &[levels as usize]),
        Err(PairError::NotRecords) => put_line(out, "NotRecords", &[0]),
        Err(PairError::TooLong) => put_line(out, "TooLong", &[0]),
        Err(PairError::NoRoom) => put_line(out, "NoRoom", &[0]),
        Err(PairError::TooDeep { index }) => put_line(out, "TooDeep", &[index]),
        Err(PairError::WrongCloser { index }) => put_line(out, "WrongCloser", &[index]),
        Err(PairError::LeftOpen { index }) => put_line(out, "LeftOpen", &[index]),
    }
}
