// What is printed of a text: the tokens that `next` gives one after another, and the numbers of a list. `blocks` has the rest.
ghost use Rattle.std.specs.Prelude.{◌≡◌};
ghost use Rattle.lexer.specs.Values.{LexesUnder};

use crate::lines::{put_columns, put_line, refusal_name};
use grammar::profile::Profile;
use lexer::cursor::Cursor;
use lexer::lexed::Lexed;
use lexer::next::next;
use lists::list::Listed;
use lists::part::Part;
use names::name_of;
use reader::read_at;
use rows::out::Out;

// A text, the place in it where a walk, a list or a cut begins, and the profile for it.
#[derive(Clone, Copy)]
pub struct Source<'a> {
    pub text: &'a [u8],
    pub offset: usize,
    pub profile: Profile,
}

// How a text is walked: by `next`; so, and with each token's digits and underscores; with them, by a reader. It is no closure, since each
// caller would then have to prove that what it passes lexes.
#[derive(Clone, Copy)]
pub enum Way {
    Next,
    Sums,
    Reader,
}

// A line for each token, then END, the offset and the number of tokens, or the refusal, its span and the offset.
#[tactic(auto, using(crate::proofs::Walks::advances))]
pub(crate) fn put_walk(out: &mut Out<'_, impl Print + Eprint>, source: Source, way: Way)
    ensures same_reference { out.new.row.ghost_name ≡ out.old.row.ghost_name }
{
    let mut cursor = Cursor { at: source.offset };
    let mut tokens = 0;
    loop {
        match lexed_at(source.text, cursor, way, source.profile) {
            Lexed::Token {
                kind,
                start,
                length,
                next,
                digits,
                underscores,
            } => {
                put_columns(out, name_of(kind), &[start, length]);
                put_counts(out, way, digits, underscores);
                tokens += 1;
                cursor = next;
            }
            Lexed::End { next } => return put_line(out, "END", &[next.at, tokens]),
            Lexed::Refused {
                why,
                start,
                length,
                next,
            } => return put_line(out, refusal_name(why), &[start, length, next.at]),
        }
    }
}

// The same answer, from `next` or through a reader.
fn lexed_at(text: &[u8], cursor: Cursor, way: Way, profile: Profile) -> Lexed
    ensures { LexesUnder profile text.now cursor.at result }
{
    match way {
        Way::Next | Way::Sums => next(text, cursor, profile),
        Way::Reader => read_at(text, cursor.at, profile),
    }
}

// What ends a token's line.
fn put_counts(out: &mut Out<'_, impl Print + Eprint>, way: Way, digits: u32, underscores: u32)
    ensures same_reference { out.new.row.ghost_name ≡ out.old.row.ghost_name }
{
    match way {
        Way::Next => out.put_byte(b'\n'),
        Way::Sums | Way::Reader => {
            out.put_byte(b'\t');
            print!(out; "{digits}");
            out.put_byte(b'\t');
            print!(out; "{underscores}");
            out.put_byte(b'\n');
        }
    }
}

// In one line, parted by blanks.
pub fn put_numbers(out: &mut Out<'_, impl Print + Eprint>, numbers: &[u32])
    ensures same_reference { out.new.row.ghost_name ≡ out.old.row.ghost_name }
{
    if let Some((first, others)) = numbers.split_first() {
        print!(out; "{first}");
        for n in others {
            out.put_byte(b' ');
            print!(out; "{n}");
        }
    }
    out.put_byte(b'\n');
}

// END, the offset and the number of records, or the refusal, its span, the offset and the number of records.
pub(crate) fn put_listed(out: &mut Out<'_, impl Print + Eprint>, listed: Listed)
    ensures same_reference { out.new.row.ghost_name ≡ out.old.row.ghost_name }
{
    match listed {
        Listed::End { records, next } => put_line(out, "END", &[next.at, records]),
        Listed::Refused {
            why,
            start,
            length,
            records,
            next,
        } => put_line(out, refusal_name(why), &[start, length, next.at, records]),
        Listed::TooLong { next } => put_line(out, "TooLong", &[0, 0, next.at, 0]),
        Listed::ListFull { records, next } => {
            put_line(out, "ListFull", &[next.at, 0, next.at, records])
        }
    }
}

// The same, with how many lexemes were spent at the end of the line. Paused is told as a refusal is. What stops at a legal lexeme has a
// span of no byte there.
pub(crate) fn put_listed_part(out: &mut Out<'_, impl Print + Eprint>, part: Part)
    ensures same_reference { out.new.row.ghost_name ≡ out.old.row.ghost_name }
{
    match part {
        Part::End {
            records,
            spent,
            next,
        } => put_line(out, "END", &[next.at, records, spent as usize]),
        Part::Refused {
            why,
            start,
            length,
            records,
            spent,
            next,
        } => put_line(
            out,
            refusal_name(why),
            &[start, length, next.at, records, spent as usize],
        ),
        Part::TooLong { next } => put_line(out, "TooLong", &[0, 0, next.at, 0, 0]),
        Part::Paused {
            records,
            spent,
            next,
        } => put_line(
            out,
            "Paused",
            &[next.at, 0, next.at, records, spent as usize],
        ),
        Part::ListFull {
            records,
            spent,
            next,
        } => put_line(
            out,
            "ListFull",
            &[next.at, 0, next.at, records, spent as usize],
        ),
    }
}
