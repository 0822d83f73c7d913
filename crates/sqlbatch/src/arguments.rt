// The mode and the profile that the program's arguments ask for.
ghost use Rattle.std.specs.Prelude.{◌≤◌, length};

use batch::Mode;
use grammar::profile::Profile;
use printing::MOST;
use std::env::FillError;
use std::rt::Env;
use std::str;

// The longest argument that is read.
const LONGEST_ARGUMENT: usize = 4096;

// More words than any mode takes.
const MOST_WORDS: usize = 6;

// A missing argument reads as an empty word, and so does one longer than the buffer: neither is a mode, a number or a profile.
pub(crate) fn read_arguments(rt: &impl Env) -> Option<(Mode, Profile)> {
    let mut buffer = [0u8; LONGEST_ARGUMENT];
    let n = argument(rt, 1, &mut buffer);
    match &buffer[..n] {
        b"next" => with_profile(rt, Mode::Next, 2),
        b"sums" => with_profile(rt, Mode::Sums, 2),
        b"list" => with_profile(rt, Mode::List(asked_numbers(rt)?), 3),
        b"part" => with_profile(rt, Mode::Part(asked_numbers(rt)?, number_at(rt, 3)?), 4),
        b"cut" => with_profile(rt, Mode::Cut, 2),
        b"word" => without_profile(rt, Mode::Word, 2),
        b"stream" => with_profile(rt, Mode::Stream, 2),
        b"literal" => with_profile(rt, Mode::Literal, 2),
        b"write" => without_profile(rt, Mode::Write, 2),
        b"pair" => without_profile(rt, Mode::Pair(asked_numbers(rt)?), 3),
        _ => None,
    }
}

// Puts the argument at a place into the buffer, and gives how long it is: 0 where it is missing or longer than the buffer.
fn argument(rt: &impl Env, place: usize, buffer: &mut [u8]) -> usize
    ensures { result ≤ length buffer.new }
{
    rt.arg(place, buffer).unwrap_or(0)
}

// How many words the program was started with, its own name among them. What is more than MOST_WORDS counts as so many.
fn count(rt: &impl Env) -> usize {
    let mut buffer = [0u8; LONGEST_ARGUMENT];
    for n in 0..MOST_WORDS {
        if let Err(FillError::NotPresent) = rt.arg(n, &mut buffer) {
            return n;
        }
    }
    MOST_WORDS
}

// How many numbers are lent: no more than a list can fill.
fn asked_numbers(rt: &impl Env) -> Option<usize> {
    let numbers = number_at(rt, 2)? as usize;
    if numbers <= MOST { Some(numbers) } else { None }
}

fn number_at(rt: &impl Env, place: usize) -> Option<u32> {
    let mut buffer = [0u8; LONGEST_ARGUMENT];
    let n = argument(rt, place, &mut buffer);
    decimal(&buffer[..n])
}

// A word is looked up, a literal written, and a list paired, the same way under each profile. The mode has so many words.
fn without_profile(rt: &impl Env, mode: Mode, words: usize) -> Option<(Mode, Profile)> {
    if count(rt) == words {
        return Some((mode, Profile::Turso));
    }
    None
}

// The profile is the last word, behind so many others, if it is there.
fn with_profile(rt: &impl Env, mode: Mode, others: usize) -> Option<(Mode, Profile)>
    requires { others ≤ 4 }
{
    let words = count(rt);
    if words == others {
        return Some((mode, Profile::Turso));
    }
    if words != others + 1 {
        return None;
    }
    let mut buffer = [0u8; LONGEST_ARGUMENT];
    let n = argument(rt, others, &mut buffer);
    match &buffer[..n] {
        b"turso" => Some((mode, Profile::Turso)),
        b"sqlite" => Some((mode, Profile::Sqlite)),
        _ => None,
    }
}

// The number of 32 bits that decimal digits say. A sign, which `parse` takes, is none of them.
fn decimal(word: &[u8]) -> Option<u32> {
    if !word.iter().all(|b| b.is_ascii_digit()) {
        return None;
    }
    str::from_utf8(word).ok()?.parse().ok()
}
