//! Appending to a text.
//!
//! A printed text has many parts, and memory may run out between two of them. A public call that appends several parts
//! notes the length first and ends with [`undo_if_failed`], so that it appends all of them or none.
ghost use Rattle.std.specs.Prelude.{◌≡◌, ◌<◌, ◌^◌, ◌++◌, length, take, replicate, decimal, OnOk, OnErr};
ghost use Rattle.ascii_text.specs.Append.{Extends, gap};

use crate::no_memory::NoMemory;
use itoa::write_digits;
use std::alloc::AllocError;

/// Appends a part.
pub fn append(text: &mut Vec<u8>, part: &[u8]) -> Result<(), NoMemory>
    ensures ok { OnOk result (text.new.items ≡ text.old.items ++ part.now) }
    ensures err { OnErr result (text.new.items ≡ text.old.items) }
    ensures extends { Extends text.old.items text.new.items }
{
    text.extend_from_slice(part)?;
    Ok(())
}

/// Appends a byte `count` times, such as the spaces that fill up a column.
pub fn append_times(text: &mut Vec<u8>, byte: u8, count: usize) -> Result<(), NoMemory>
    requires { count < 2 ^ 63 }
    ensures ok { OnOk result (text.new.items ≡ text.old.items ++ replicate count byte) }
    ensures err { OnErr result (text.new.items ≡ text.old.items) }
    ensures extends { Extends text.old.items text.new.items }
{
    text.resize(text.len() + count, byte)?;
    Ok(())
}

/// Appends the space before the part at this index, if parts have one space between them: none before the first.
pub fn append_gap(text: &mut Vec<u8>, index: usize) -> Result<(), NoMemory>
    ensures ok { OnOk result (text.new.items ≡ text.old.items ++ gap index) }
    ensures extends { Extends text.old.items text.new.items }
{
    if index > 0 {
        append(text, b" ")
    } else {
        Ok(())
    }
}

/// Appends a number in decimal, without leading zeros.
pub fn append_number(text: &mut Vec<u8>, number: u64) -> Result<(), AllocError>
    ensures ok { OnOk result (text.new.items ≡ text.old.items ++ decimal number) }
    ensures err { OnErr result (text.new.items ≡ text.old.items) }
    ensures extends { take (length text.old.items) text.new.items ≡ text.old.items }
{
    if number >= 10 {
        return append_digits(text, number);
    }
    text.push(b'0' + number as u8)?;
    Ok(())
}

// Appends a number that is not 0. It first appends 20 zeros, as many as the greatest `u64` has digits. The digits
// overwrite the first of these zeros, and the other zeros are dropped.
#[inline(never)]
fn append_digits(text: &mut Vec<u8>, number: u64) -> Result<(), AllocError>
    requires { 0 < number }
    ensures ok { OnOk result (text.new.items ≡ text.old.items ++ decimal number) }
    ensures err { OnErr result (text.new.items ≡ text.old.items) }
    ensures extends { take (length text.old.items) text.new.items ≡ text.old.items }
{
    let end = text.len() + number.ilog10() as usize + 1;
    text.extend_from_slice(b"00000000000000000000")?;
    write_digits(number, text.as_mut_slice(), end);
    text.truncate(end);
    Ok(())
}

/// Ends the appending of several parts. If it failed, the text is cut back to `len` bytes, the length that it had
/// before the first part.
pub fn undo_if_failed(
    text: &mut Vec<u8>,
    len: usize,
    appended: Result<(), NoMemory>,
) -> Result<(), NoMemory>
    ensures same { result ≡ appended }
    ensures ok { OnOk appended (text.new.items ≡ text.old.items) }
    ensures err { OnErr appended (text.new.items ≡ take len text.old.items) }
{
    if appended.is_err() {
        text.truncate(len);
    }
    appended
}
