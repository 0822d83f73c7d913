// What the answers print, with an empty line behind each.
ghost use Rattle.std.specs.Prelude.{◌≡◌};

use crate::answers::{Source, Way, put_listed, put_listed_part, put_numbers, put_walk};
use crate::lines::{put_line, refusal_name};
use crate::streams::put_stream;
use cuts::{Statement, cut};
use grammar::profile::Profile;
use lexer::cursor::Cursor;
use lists::list::list;
use lists::part::list_part;
use names::name_of;
use rows::out::Out;
use words::lookup::{is_quotable_keyword, keyword_or_id_token};

pub fn put_walk_block(out: &mut Out<'_, impl Print + Eprint>, source: Source, way: Way)
    ensures same_reference { out.new.row.ghost_name ≡ out.old.row.ghost_name }
{
    put_walk(out, source, way);
    out.put_byte(b'\n');
}

// A list into the first n numbers, or into all where there are fewer. They are printed in one line, which shows also those that `list`
// leaves as they were: each is 4294967295 before.
pub fn put_list_block(
    out: &mut Out<'_, impl Print + Eprint>,
    source: Source,
    numbers: &mut [u32],
    n: usize,
)
    ensures same_reference { out.new.row.ghost_name ≡ out.old.row.ghost_name }
{
    let lent = n.min(numbers.len());
    let numbers = &mut numbers[..lent];
    numbers.fill(u32::MAX);
    let start = Cursor { at: source.offset };
    let listed = list(source.text, start, source.profile, numbers);
    put_numbers(out, numbers);
    put_listed(out, listed);
    out.put_byte(b'\n');
}

// A slice of a list without TK_NONE, into as many.
pub fn put_part_block(
    out: &mut Out<'_, impl Print + Eprint>,
    source: Source,
    allowance: u32,
    numbers: &mut [u32],
    n: usize,
)
    ensures same_reference { out.new.row.ghost_name ≡ out.old.row.ghost_name }
{
    let lent = n.min(numbers.len());
    let numbers = &mut numbers[..lent];
    numbers.fill(u32::MAX);
    let start = Cursor { at: source.offset };
    let part = list_part(source.text, start, source.profile, allowance, numbers);
    put_numbers(out, numbers);
    put_listed_part(out, part);
    out.put_byte(b'\n');
}

// CUT, the span, whether it has a token that counts, and the offset; or OPEN or END, the span and the offset; or the refusal.
pub fn put_cut_block(out: &mut Out<'_, impl Print + Eprint>, source: Source)
    ensures same_reference { out.new.row.ghost_name ≡ out.old.row.ghost_name }
{
    let start = Cursor { at: source.offset };
    match cut(source.text, start, source.profile) {
        Statement::Cut {
            start,
            length,
            any,
            next,
        } => put_line(out, "CUT", &[start, length, usize::from(any), next.at]),
        Statement::Open {
            start,
            length,
            next,
        } => put_line(out, "OPEN", &[start, length, next.at]),
        Statement::End { next } => put_line(out, "END", &[next.at, 0, next.at]),
        Statement::Refused {
            why,
            start,
            length,
            next,
        } => put_line(out, refusal_name(why), &[start, length, next.at]),
    }
    out.put_byte(b'\n');
}

// The kind's name, and 1 where `is_quotable_keyword` holds, else 0.
pub fn put_word_block(out: &mut Out<'_, impl Print + Eprint>, word: &[u8])
    ensures same_reference { out.new.row.ghost_name ≡ out.old.row.ghost_name }
{
    let name = name_of(keyword_or_id_token(word));
    put_line(out, name, &[usize::from(is_quotable_keyword(word))]);
    out.put_byte(b'\n');
}

pub fn put_stream_block(
    out: &mut Out<'_, impl Print + Eprint>,
    script: &[u8],
    profile: Profile,
    held: &mut [u8; 2050],
)
    ensures same_reference { out.new.row.ghost_name ≡ out.old.row.ghost_name }
{
    put_stream(out, script, profile, held);
    out.put_byte(b'\n');
}
