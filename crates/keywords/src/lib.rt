// The kinds' numbers (`kinds`), the word list as it is stored (`table`), and the lookup of a word that stands in a row of 17 bytes.
#![tactic(auto)]

pub mod kinds;
mod table;

ghost use Rattle.std.specs.Prelude.{◌≡◌, map, ◌+◌, ◌*◌, ◌≤◌, ◌<◌, length, take, drop};
ghost use Rattle.keywords.specs.Words.{same, kind_in};
ghost use Rattle.keywords.specs.Rows.{row_of, row_entry, kind_of_row};
ghost use Rattle.keywords.specs.Stored.{group, store};

use table::{kind_at, letter_at, skip, start_of};

// Whether the row is that of the n bytes at p of the words end to end. The lookup counts in 32-bit numbers, which a small device holds in
// a register.
fn same_row(row: &[u8; 17], n: u32, p: u32) -> bool
    requires n_bound { n ≤ 17 }
    requires n_bound_2 { p + n ≤ 888 }
    requires row_len { length row.now ≡ 17 }
    ensures { result ≡ same row.now (row_of 17 (take n (drop p store))) }
{
    for i in 0..n {
        if row[i as usize] != letter_at(p + i) {
            return false;
        }
    }
    for i in n..17 {
        if row[i as usize] != b'.' {
            return false;
        }
    }
    true
}

// Walks the words of n bytes that begin with letter a, A being letter 0: at most four.
fn find(row: &[u8; 17], n: u32, a: u32) -> u32
    requires n_bound { n ≤ 17 }
    requires a_bound { a < 26 }
    requires row_len { length row.now ≡ 17 }
    ensures { result ≡ kind_in (map row_entry (group (28 * n + a))) row.now }
{
    let x = 28 * n + a;
    for k in start_of(x)..start_of(x + 1) {
        if same_row(row, n, n * k - skip(n)) {
            return kind_at(k);
        }
    }
    kinds::TK_ID
}

// The kind of the word of n bytes that stands in this row, with dots behind it; TK_ID where the list has no such word.
pub fn kind_of_row(row: [u8; 17], n: usize) -> u32
    ensures { result ≡ kind_of_row n row }
{
    if 17 < n {
        return kinds::TK_ID;
    }
    let first = row[0];
    if first < b'A' || b'Z' < first {
        return kinds::TK_ID;
    }
    find(&row, n as u32, u32::from(first - b'A'))
}
