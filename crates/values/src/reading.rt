// The calls that read a literal. With a number that is no profile's nothing is written.
ghost use Rattle.strings.specs.Calls.{ReadsString, ReadsName};
ghost use Rattle.blobs.specs.Calls.{ReadsBlob};
ghost use Rattle.values.specs.Calls.{ReadIntegerCall, ReadBytesCall};

use crate::answers::give;
use blobs::reading::read_blob;
use codes::answers::UNKNOWN_PROFILE;
use codes::profiles::profile_of;
use integers::reading::read_integer;
use strings::reading::{read_name, read_string};

pub fn integer(text: &[u8], start: usize, length: usize, profile: u32, value: &mut i64) -> u32
    ensures { ReadIntegerCall text.now start length profile value.old result value.new }
{
    let Some(profile) = profile_of(profile) else {
        return UNKNOWN_PROFILE;
    };
    give(read_integer(text, start, length, profile), value)
}

// This and the next two differ only in the call below them: one function with that call as a parameter would be longer than their bodies.
pub fn string(
    text: &[u8],
    start: usize,
    length: usize,
    profile: u32,
    buffer: &mut [u8],
    bytes: &mut usize,
) -> u32
    ensures { ReadBytesCall ReadsString text.now start length profile buffer.old bytes.old result buffer.new bytes.new }
{
    let Some(profile) = profile_of(profile) else {
        return UNKNOWN_PROFILE;
    };
    give(read_string(text, start, length, profile, buffer), bytes)
}

pub fn name(
    text: &[u8],
    start: usize,
    length: usize,
    profile: u32,
    buffer: &mut [u8],
    bytes: &mut usize,
) -> u32
    ensures { ReadBytesCall ReadsName text.now start length profile buffer.old bytes.old result buffer.new bytes.new }
{
    let Some(profile) = profile_of(profile) else {
        return UNKNOWN_PROFILE;
    };
    give(read_name(text, start, length, profile, buffer), bytes)
}

pub fn blob(
    text: &[u8],
    start: usize,
    length: usize,
    profile: u32,
    buffer: &mut [u8],
    bytes: &mut usize,
) -> u32
    ensures { ReadBytesCall ReadsBlob text.now start length profile buffer.old bytes.old result buffer.new bytes.new }
{
    let Some(profile) = profile_of(profile) else {
        return UNKNOWN_PROFILE;
    };
    give(read_blob(text, start, length, profile, buffer), bytes)
}
