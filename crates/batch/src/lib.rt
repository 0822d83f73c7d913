// What `sqlbatch` and `replay` print of each record of their input. `pairing` has what is printed of a list whose brackets are paired.
#![tactic(auto)]

mod pairing;

ghost use Rattle.std.specs.Prelude.{◌≡◌};

use crate::pairing::put_pairing;
use grammar::profile::Profile;
use printing::MOST;
use printing::answers::{Source, Way};
use printing::blocks::{
    put_cut_block, put_list_block, put_part_block, put_stream_block, put_walk_block, put_word_block,
};
use printing::input::{NoRecord, Records};
use printing::replay::put_replay;
use rows::out::Out;
use shown::numbers::is_numbers_record;
use shown::reads::{is_literal_record, put_literals};
use shown::writes::{is_write_record, put_writes};
use std::io::Read;

// What is printed of a record: `next` walked over the text, also with the tokens' digits and underscores, a list of so many numbers, one
// without TK_NONE and with an allowance of lexemes, the statement cut, the text as a word, or as a script of a stream's calls, a span's
// literals read, the text written as literals, or a list's brackets paired with so many numbers lent; or, for `Replay`, the walk, the walk
// by a reader, lists of several lengths and the cut.
#[derive(Clone, Copy)]
pub enum Mode {
    Next,
    Sums,
    List(usize),
    Part(usize, u32),
    Cut,
    Word,
    Stream,
    Literal,
    Write,
    Pair(usize),
    Replay,
}

// What is lent to the calls whose answers are printed. `numbers`: four more than a list fills, for `Replay`. `given`: the numbers that a
// record's text is, of which the longest has so many. `held`: what a stream holds. `bytes`: what is read of literals, and what is written:
// no record of `shown` asks for more.
#[derive(Drop)]
struct Lent<'a> {
    numbers: &'a mut [u32],
    given: &'a mut [u32],
    held: &'a mut [u8; 2050],
    bytes: &'a mut [u8],
}

// Answers each record of standard input under the profile; a word's lookup, what is written and what is paired have none. One that is too
// long or cut off, or cannot be read, or that the mode does not take, prints BADRECORD and is the last.
pub fn print_records(rt: &(impl Input + Print + Eprint), mode: Mode, profile: Profile) {
    let mut row = [0u8; 131072];
    let mut bytes = [0u8; 65536];
    let mut out = Out::new(rt, &mut bytes, 0);
    let mut lent = Lent {
        numbers: &mut [0u32; MOST + 4],
        given: &mut [0u32; 16384],
        held: &mut [0u8; 2050],
        bytes: &mut [0u8; 262144],
    };
    put_answers(
        rt,
        &mut rt.reader(),
        &mut Records::new(&mut row, 0, 0),
        mode,
        profile,
        &mut lent,
        &mut out,
    );
    out.flush();
}

// A loop has to end, and nothing says that the input does: it counts up to a number that no input uses up.
fn put_answers(
    rt: &impl Eprint,
    input: &mut impl Read,
    records: &mut Records,
    mode: Mode,
    profile: Profile,
    lent: &mut Lent,
    out: &mut Out<'_, impl Print + Eprint>,
) {
    for _ in 0..u64::MAX {
        match records.next(rt, input) {
            Ok(offset) if is_taken(mode, records.text(), offset) => {
                let source = Source {
                    text: records.text(),
                    offset,
                    profile,
                };
                put_answer(out, mode, source, lent);
            }
            Err(NoRecord::Over) => return,
            _ => return println!(out; "BADRECORD"),
        }
    }
}

fn is_taken(mode: Mode, text: &[u8], offset: usize) -> bool {
    match mode {
        Mode::Literal => is_literal_record(text),
        Mode::Write => is_write_record(offset),
        Mode::Pair(_) => is_numbers_record(text),
        _ => true,
    }
}

fn put_answer(out: &mut Out<'_, impl Print + Eprint>, mode: Mode, source: Source, lent: &mut Lent)
    ensures same_reference { out.new.row.ghost_name ≡ out.old.row.ghost_name }
{
    let Source {
        text,
        offset,
        profile,
    } = source;
    match mode {
        Mode::Next => put_walk_block(out, source, Way::Next),
        Mode::Sums => put_walk_block(out, source, Way::Sums),
        Mode::List(n) => put_list_block(out, source, lent.numbers, n),
        Mode::Part(n, allowance) => put_part_block(out, source, allowance, lent.numbers, n),
        Mode::Cut => put_cut_block(out, source),
        Mode::Word => put_word_block(out, text),
        Mode::Stream => put_stream_block(out, text, profile, lent.held),
        Mode::Literal => put_literals(out, text, offset, profile, lent.bytes),
        Mode::Write => put_writes(out, text, offset, lent.bytes),
        Mode::Pair(n) => put_pairing(out, text, lent.given, lent.numbers, n),
        Mode::Replay => put_replay(out, source, lent.numbers),
    }
}
