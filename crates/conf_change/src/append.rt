//! Appending optional parts and lists of numbers to a text.
ghost use Rattle.std.specs.Prelude.{◌≡◌, ◌++◌, decimal, OnOk};
ghost use Rattle.ascii_text.specs.Append.{Extends, gap};
ghost use Rattle.conf_change.specs.ConfStateLine.{ParsesToNumbers};
ghost use Rattle.conf_change.specs.Text.{text_if, spaced_numbers};

use ascii_text::NoMemory;
use ascii_text::append::{append, append_gap, append_number};

// Appends a part if `there` is true, such as ` learner` after the progress of a learner.
pub(crate) fn append_if(text: &mut Vec<u8>, there: bool, part: &[u8]) -> Result<(), NoMemory>
    ensures ok { OnOk result (text.new.items ≡ text.old.items ++ text_if there part.now) }
    ensures extends { Extends text.old.items text.new.items }
{
    if there { append(text, part) } else { Ok(()) }
}

// Appends the number at a position of a list, after a space unless it is the first.
pub(crate) fn append_number_at(
    text: &mut Vec<u8>,
    position: usize,
    number: u64,
) -> Result<(), NoMemory>
    ensures ok { OnOk result (text.new.items ≡ text.old.items ++ (gap position ++ decimal number)) }
    ensures extends { Extends text.old.items text.new.items }
{
    append_gap(text, position)?;
    append_number(text, number)?;
    Ok(())
}

// Appends numbers, separated by one space, as `1 2 3`.
pub(crate) fn append_numbers(text: &mut Vec<u8>, numbers: &[u64]) -> Result<(), NoMemory>
    ensures ok { OnOk result (text.new.items ≡ text.old.items ++ spaced_numbers numbers.now) }
    ensures parsed { OnOk result (ParsesToNumbers (spaced_numbers numbers.now) numbers.now) }
    ensures extends { Extends text.old.items text.new.items }
{
    for (position, number) in numbers.iter().enumerate() {
        append_number_at(text, position, *number)?;
    }
    Ok(())
}
