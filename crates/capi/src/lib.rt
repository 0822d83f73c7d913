// The library for C and Rust: numbers and slices in, numbers out. `include/sqllex.h` declares the calls and says what they take and give.
#![tactic(auto)]

ghost use Rattle.std.specs.Prelude.{◌≡◌};
ghost use Rattle.words.specs.Word.{kind_of, is_quotable};
ghost use Rattle.integers.specs.Calls.{WritesInteger};
ghost use Rattle.strings.specs.Calls.{ReadsString, ReadsName, WritesString, WritesName};
ghost use Rattle.blobs.specs.Calls.{ReadsBlob, WritesBlob};
ghost use Rattle.packets.specs.Calls.{BeginCall, OfferCall, FinishCall};
ghost use Rattle.values.specs.Calls.{ReadIntegerCall, ReadBytesCall, WriteCall};
ghost use Rattle.capi.specs.Calls.{NextCall, ListCall, PartCall, CountCall, CutCall, CheckCall, PairCall};

use agreeing::check_list;
use codes::answers::UNKNOWN_PROFILE;
use codes::profiles::profile_of;
use codes::told::{give, of_cut, of_list, of_next, of_part, spent_in};
use cuts::cut;
use lexer::cursor::Cursor;
use lexer::next::next;
use lists::part::list_part;
use packets::calls::{begin_numbers, finish_numbers, offer_numbers};
use pairs::pair;
use records::Record;
use verdicts::pairing::give_pairing;
use words::lookup::{is_quotable_keyword, keyword_or_id_token};

#[unsafe(no_mangle)]
pub extern "C" fn sqllex_next(
    text: &[u8],
    offset: usize,
    profile: u32,
    answer: &mut [usize; 6],
) -> u32
    ensures { NextCall text.now offset profile answer.old result answer.new }
{
    let Some(profile) = profile_of(profile) else {
        return UNKNOWN_PROFILE;
    };
    give(of_next(next(text, Cursor { at: offset }, profile)), answer)
}

#[unsafe(no_mangle)]
pub extern "C" fn sqllex_list_from(
    text: &[u8],
    offset: usize,
    profile: u32,
    list: &mut [u32],
    answer: &mut [usize; 6],
) -> u32
    ensures { ListCall text.now offset profile list.old answer.old result answer.new list.new }
{
    let Some(profile) = profile_of(profile) else {
        return UNKNOWN_PROFILE;
    };
    give(
        of_list(lists::list::list(text, Cursor { at: offset }, profile, list)),
        answer,
    )
}

// A slice: as far as the allowance lasts, and without TK_NONE. The last of its seven numbers is how many lexemes were spent.
#[unsafe(no_mangle)]
pub extern "C" fn sqllex_list_part(
    text: &[u8],
    offset: usize,
    profile: u32,
    allowance: u32,
    list: &mut [u32],
    slice: &mut [usize; 7],
) -> u32
    ensures { PartCall text.now offset profile allowance list.old slice.old result slice.new list.new }
{
    let Some(profile) = profile_of(profile) else {
        return UNKNOWN_PROFILE;
    };
    let part = list_part(text, Cursor { at: offset }, profile, allowance, list);
    let numbers = of_part(part);
    let spent = spent_in(part) as usize;
    packets::answers::give(numbers, spent, slice)
}

// From the text's beginning, for a caller that wants no more than the number of records.
#[unsafe(no_mangle)]
pub extern "C" fn sqllex_list(text: &[u8], profile: u32, list: &mut [u32]) -> u64
    ensures { CountCall text.now profile list.old result list.new }
{
    let Some(profile) = profile_of(profile) else {
        return 0;
    };
    let answer = of_list(lists::list::list(text, Cursor { at: 0 }, profile, list));
    answer.value as u64
}

#[unsafe(no_mangle)]
pub extern "C" fn sqllex_cut(
    text: &[u8],
    offset: usize,
    profile: u32,
    answer: &mut [usize; 6],
) -> u32
    ensures { CutCall text.now offset profile answer.old result answer.new }
{
    let Some(profile) = profile_of(profile) else {
        return UNKNOWN_PROFILE;
    };
    give(of_cut(cut(text, Cursor { at: offset }, profile)), answer)
}

// Whether a list made elsewhere is the one that List would write.
#[unsafe(no_mangle)]
pub extern "C" fn sqllex_check_list(
    text: &[u8],
    profile: u32,
    records: &[Record],
    index: &mut usize,
) -> u32
    ensures { CheckCall text.now profile records.now index.old result index.new }
{
    match profile_of(profile) {
        Some(profile) => verdicts::give(check_list(text, profile, records), index),
        None => UNKNOWN_PROFILE,
    }
}

// The brackets of a list of records. It lexes nothing, and takes no profile.
#[unsafe(no_mangle)]
pub extern "C" fn sqllex_pair(numbers: &[u32], partners: &mut [u32], value: &mut usize) -> u32
    ensures { PairCall numbers.now partners.old result value.new partners.new }
{
    give_pairing(pair(numbers, partners), value)
}

#[unsafe(no_mangle)]
pub extern "C" fn sqllex_word_kind(word: &[u8]) -> u32
    ensures { result ≡ kind_of word.now }
{
    keyword_or_id_token(word)
}

#[unsafe(no_mangle)]
pub extern "C" fn sqllex_is_quotable_keyword(word: &[u8]) -> bool
    ensures { result ≡ is_quotable word.now }
{
    is_quotable_keyword(word)
}

// Lexing packet by packet. The caller keeps the stream, which is six numbers, and lends the row.
#[unsafe(no_mangle)]
pub extern "C" fn sqllex_stream_begin(profile: u32, stream: &mut [u32; 6]) -> u32
    ensures { BeginCall profile stream.old result stream.new }
{
    begin_numbers(profile, stream)
}

#[unsafe(no_mangle)]
pub extern "C" fn sqllex_stream_offer(
    stream: &mut [u32; 6],
    row: &mut [u8; 2050],
    part: &[u8],
    given: &mut [usize; 7],
) -> u32
    ensures { OfferCall stream.old row.old part.now given.old result stream.new row.new given.new }
{
    offer_numbers(stream, row, part, given)
}

#[unsafe(no_mangle)]
pub extern "C" fn sqllex_stream_finish(
    stream: &mut [u32; 6],
    row: &mut [u8; 2050],
    given: &mut [usize; 7],
) -> u32
    ensures { FinishCall stream.old row.old given.old result stream.new row.new given.new }
{
    finish_numbers(stream, row, given)
}

// The value of a literal that is a span of a text. C names each call, so these are written out one by one, and so are those that write.
#[unsafe(no_mangle)]
pub extern "C" fn sqllex_read_integer(
    text: &[u8],
    start: usize,
    length: usize,
    profile: u32,
    value: &mut i64,
) -> u32
    ensures { ReadIntegerCall text.now start length profile value.old result value.new }
{
    values::reading::integer(text, start, length, profile, value)
}

#[unsafe(no_mangle)]
pub extern "C" fn sqllex_read_string(
    text: &[u8],
    start: usize,
    length: usize,
    profile: u32,
    buffer: &mut [u8],
    bytes: &mut usize,
) -> u32
    ensures { ReadBytesCall ReadsString text.now start length profile buffer.old bytes.old result buffer.new bytes.new }
{
    values::reading::string(text, start, length, profile, buffer, bytes)
}

#[unsafe(no_mangle)]
pub extern "C" fn sqllex_read_name(
    text: &[u8],
    start: usize,
    length: usize,
    profile: u32,
    buffer: &mut [u8],
    bytes: &mut usize,
) -> u32
    ensures { ReadBytesCall ReadsName text.now start length profile buffer.old bytes.old result buffer.new bytes.new }
{
    values::reading::name(text, start, length, profile, buffer, bytes)
}

#[unsafe(no_mangle)]
pub extern "C" fn sqllex_read_blob(
    text: &[u8],
    start: usize,
    length: usize,
    profile: u32,
    buffer: &mut [u8],
    bytes: &mut usize,
) -> u32
    ensures { ReadBytesCall ReadsBlob text.now start length profile buffer.old bytes.old result buffer.new bytes.new }
{
    values::reading::blob(text, start, length, profile, buffer, bytes)
}

// The literal of a value.
#[unsafe(no_mangle)]
pub extern "C" fn sqllex_write_integer(value: i64, buffer: &mut [u8], bytes: &mut usize) -> u32
    ensures { WriteCall (WritesInteger value) buffer.old bytes.old result buffer.new bytes.new }
{
    values::writing::integer(value, buffer, bytes)
}

#[unsafe(no_mangle)]
pub extern "C" fn sqllex_write_string(value: &[u8], buffer: &mut [u8], bytes: &mut usize) -> u32
    ensures { WriteCall (WritesString value.now) buffer.old bytes.old result buffer.new bytes.new }
{
    values::writing::string(value, buffer, bytes)
}

#[unsafe(no_mangle)]
pub extern "C" fn sqllex_write_name(value: &[u8], buffer: &mut [u8], bytes: &mut usize) -> u32
    ensures { WriteCall (WritesName value.now) buffer.old bytes.old result buffer.new bytes.new }
{
    values::writing::name(value, buffer, bytes)
}

#[unsafe(no_mangle)]
pub extern "C" fn sqllex_write_blob(value: &[u8], buffer: &mut [u8], bytes: &mut usize) -> u32
    ensures { WriteCall (WritesBlob value.now) buffer.old bytes.old result buffer.new bytes.new }
{
    values::writing::blob(value, buffer, bytes)
}
