// The second pass, over a list without a fault: nothing is looked for any more, and each group's two brackets get each other's index. As in the
// first, a group is passed in one step, so the loop is no `for`.
ghost use Rattle.std.specs.Prelude.{◌≡◌, true, ◌≤◌};
ghost use Rattle.brackets.specs.Numbers.{are_records, kinds_of};
ghost use Rattle.pairs.specs.Parts.{OpenerAt, Ready, WroteItems, WroteGroup};

use crate::kinds::{is_closer, is_opener, kind_at};
use records::WIDTH;

#[cycle(write_group_write_items)]
pub(crate) fn write_items(numbers: &[u32], from: usize, depth: u32, partners: &mut [u32]) -> usize
    requires { (are_records numbers.now ≡ true) × Ready (kinds_of numbers.now) from depth partners.old × (depth ≤ 16) }
    ensures { WroteItems (kinds_of numbers.now) from depth partners.old result partners.new }
{
    let mut at = from;
    while at * WIDTH < numbers.len() {
        let kind = kind_at(numbers, at);
        if is_closer(kind) {
            return at;
        }
        if is_opener(kind) {
            at = write_group(numbers, at, depth, partners);
        } else {
            partners[at] = at as u32;
            at += 1;
        }
    }
    at
}

#[cycle(write_group_write_items)]
fn write_group(numbers: &[u32], from: usize, depth: u32, partners: &mut [u32]) -> usize
    requires { (are_records numbers.now ≡ true) × OpenerAt (kinds_of numbers.now) from × Ready (kinds_of numbers.now) from depth partners.old × (depth ≤ 16) }
    ensures { WroteGroup (kinds_of numbers.now) from depth partners.old result partners.new }
{
    let end = write_items(numbers, from + 1, depth + 1, partners);
    partners[from] = end as u32;
    partners[end] = from as u32;
    end + 1
}
