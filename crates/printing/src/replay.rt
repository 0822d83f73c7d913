// One text walked with the tokens' digits and underscores, by `next` and by a reader, listed and cut. A list answers otherwise where it has
// no room for the text's records, so it is made at several lengths.
ghost use Rattle.std.specs.Prelude.{◌≡◌, ◌≤◌};

use crate::MOST;
use crate::answers::{Source, Way};
use crate::blocks::{put_cut_block, put_list_block, put_walk_block};
use lexer::cursor::Cursor;
use lists::list::{LONGEST_TEXT, Listed, list};
use records::WIDTH;
use rows::out::Out;

// Lists of fewer numbers than these have no record, one or two, and some numbers over.
const FEW: usize = 2 * WIDTH + 2;

pub fn put_replay(out: &mut Out<'_, impl Print + Eprint>, source: Source, numbers: &mut [u32])
    ensures same_reference { out.new.row.ghost_name ≡ out.old.row.ghost_name }
{
    put_walk_block(out, source, Way::Sums);
    put_walk_block(out, source, Way::Reader);
    for n in 0..FEW {
        put_list_block(out, source, numbers, n);
    }
    put_near(out, source, numbers);
    put_cut_block(out, source);
}

// Lists of one number too few for the text's records, of just enough, and of four more.
fn put_near(out: &mut Out<'_, impl Print + Eprint>, source: Source, numbers: &mut [u32])
    ensures same_reference { out.new.row.ghost_name ≡ out.old.row.ghost_name }
{
    let full = WIDTH * records(source, numbers);
    put_list_block(out, source, numbers, full.saturating_sub(1));
    put_list_block(out, source, numbers, full);
    put_list_block(out, source, numbers, full + 4);
}

// How many records the text has in a list with room for any. They are no more than the longest text has bytes; `min` says so to the sums
// above.
fn records(source: Source, numbers: &mut [u32]) -> usize
    ensures { result ≤ 65535 }
{
    let lent = MOST.min(numbers.len());
    let start = Cursor { at: source.offset };
    match list(source.text, start, source.profile, &mut numbers[..lent]) {
        Listed::End { records, .. }
        | Listed::Refused { records, .. }
        | Listed::ListFull { records, .. } => records.min(LONGEST_TEXT),
        Listed::TooLong { .. } => 0,
    }
}
