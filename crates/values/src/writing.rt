// The calls that write a literal.
ghost use Rattle.integers.specs.Calls.{WritesInteger};
ghost use Rattle.strings.specs.Calls.{WritesString, WritesName};
ghost use Rattle.blobs.specs.Calls.{WritesBlob};
ghost use Rattle.values.specs.Calls.{WriteCall};

use crate::answers::give;
use blobs::writing::write_blob;
use integers::writing::write_integer;
use strings::writing::{write_name, write_string};

pub fn integer(value: i64, buffer: &mut [u8], bytes: &mut usize) -> u32
    ensures { WriteCall (WritesInteger value) buffer.old bytes.old result buffer.new bytes.new }
{
    give(write_integer(value, buffer), bytes)
}

pub fn string(value: &[u8], buffer: &mut [u8], bytes: &mut usize) -> u32
    ensures { WriteCall (WritesString value.now) buffer.old bytes.old result buffer.new bytes.new }
{
    give(write_string(value, buffer), bytes)
}

pub fn name(value: &[u8], buffer: &mut [u8], bytes: &mut usize) -> u32
    ensures { WriteCall (WritesName value.now) buffer.old bytes.old result buffer.new bytes.new }
{
    give(write_name(value, buffer), bytes)
}

pub fn blob(value: &[u8], buffer: &mut [u8], bytes: &mut usize) -> u32
    ensures { WriteCall (WritesBlob value.now) buffer.old bytes.old result buffer.new bytes.new }
{
    give(write_blob(value, buffer), bytes)
}
