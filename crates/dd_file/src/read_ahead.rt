//! Reading the parts of an input, items or lines, from the bytes that are read ahead.
ghost use Rattle.std.specs.Prelude.{◌≡◌, ◌+◌, ◌||◌, None, false, is_err, IfOk, OnErr, IsOkUnless, length};
ghost use Rattle.std.specs.Io.KnownBytes.{Keeps};
ghost use Rattle.dd_file.specs.Position.{longest_input};
ghost use Rattle.dd_file.specs.Grammar.{next_of};
ghost use Rattle.dd_file.specs.ReaderState.{IsBounded, fresh};
ghost use Rattle.dd_file.specs.Buffered.{IsFirstBuffered, within_limit};
ghost use Rattle.dd_file.specs.Answer.{ReadsOn, FlushesFirst, fault_of};
ghost use Rattle.dd_file.specs.Draft.{DraftOf, finished, by_value};

use crate::device::{Nowhere, Sink, Source};
use crate::draft::Draft;
use crate::fault::{FileFault, WriteFault};
use crate::input::Input;
use crate::scan::{Scan, add_last_line, add_lines};
use std::alloc::Global;
use std::marker::Model;

/// Reads the parts of an input from a [`Source`]: the items of a script, or lines.
#[derive(Drop)]
pub struct Parts<D: Draft> {
    input: Input,
    draft: D,
    /// The part that was read last, which the caller may borrow.
    part: D::Part,
}

impl<D: Draft> Model for Parts<D> {
    ghost use Rattle.dd_file.specs.ReaderState.{ReaderState, IsBounded};

    ghost Value = { ReaderState };

    ghost view = { λ a. a.input };

    ghost invariant = { λ a. IsBounded a.input };
}

impl<D: Draft + Drop> Parts<D> {
    ghost use Rattle.std.specs.Borrow.{sem};
    ghost use Rattle.std.specs.Io.BufRead.{Rests};
    ghost use Rattle.dd_file.specs.contracts.read_ahead.Parts.{the_row};

    /// A reader at the beginning of its input. It fails only if memory runs out.
    pub fn new(alloc: Global) -> Result<Parts<D>, FileFault>
        ensures fresh { IfOk result (λ parts. parts ≡ fresh) }
        ensures memory { IsOkUnless result FileFault.NoMemory }
    {
        let input = Input::new(alloc).map_err(|_| FileFault::NoMemory)?;
        Ok(Parts {
            input,
            draft: D::new(alloc),
            part: D::no_part(alloc),
        })
    }

    /// The next part, borrowed until the next call; `None` at the end and from then on. The errors are those of a
    /// script's syntax, `InputTooLong` for an input of 2^30 bytes or more, `Read` if a read failed, and `NoMemory`. An
    /// error is permanent: later calls return it again, and read nothing.
    pub fn next<R: Source>(&mut self, reader: &mut R) -> Result<Option<&D::Part>, FileFault>
        // Of the state once the part is no longer borrowed.
        ensures* reads { sem 𝓛 (Rests (the_row D.row D.Part.row D.Draft) self.entry (λ new.
            ReadsOn R.remaining R.has_failed (next_of D.first_item D.numbered longest_input)
            D.IsFault self.old new reader.old reader.new (by_value result))) }
    {
        match self.next_after_flush(reader, &mut Nowhere) {
            Ok(answer) => answer,
            Err(_) => unreachable!(),
        }
    }

    /// Does what `next` does for a program that replies to each part. If the part is not buffered, the writer is flushed
    /// before more is read, since the other side may wait for the replies. If that fails, nothing is read.
    pub fn next_after_flush<R: Source, W: Sink>(
        &mut self,
        reader: &mut R,
        writer: &mut W,
    ) -> Result<Result<Option<&D::Part>, FileFault>, WriteFault>
        // Of the state once the part is no longer borrowed.
        ensures* reads { sem 𝓛 (Rests (the_row D.row D.Part.row D.Draft) self.entry (λ new.
            IfOk result (λ answer. ReadsOn R.remaining R.has_failed
            (next_of D.first_item D.numbered longest_input) D.IsFault self.old new reader.old
            reader.new (by_value answer)) × OnErr result (new ≡ self.old))) }
        ensures buffered { IsFirstBuffered D.first_item self.old
            → (reader.new ≡ reader.old) × (writer.new ≡ writer.old) }
        ensures flushed { self.old.fault ≡ None
            → FlushesFirst W.IsFlushed reader.old reader.new writer.new result }
        ensures unread { OnErr result (reader.new ≡ reader.old) }
        ensures kept { Keeps (W.contents writer.old) (W.contents writer.new) }
        ensures write { W.has_failed writer.new ≡ (W.has_failed writer.old || is_err result) }
    {
        // The early returns leave both as they are, which is known only of what the body reads.
        let _ = &*reader;
        let _ = &*writer;
        if let Some(fault) = self.input.fault() {
            return Ok(Err(fault));
        }
        if self.input.is_over() {
            D::parts_are_of_a_grammar();
            return Ok(Ok(None));
        }
        let answer = read(
            &mut self.draft,
            &mut self.part,
            &mut self.input,
            reader,
            writer,
        )?;
        self.input.set_fault(answer.err());
        Ok(match answer {
            Ok(true) => Ok(Some(&self.part)),
            Ok(false) => Ok(None),
            Err(fault) => Err(fault),
        })
    }
}

/// The next part. If it is not buffered, the writer is flushed, and then the rest of the part is read.
#[inline(always)]
fn read<D: Draft + Drop, R: Source, W: Sink>(
    draft: &mut D,
    part: &mut D::Part,
    input: &mut Input,
    reader: &mut R,
    writer: &mut W,
) -> Result<Result<bool, FileFault>, WriteFault>
    requires faultless { input.old.fault ≡ None }
    requires unended { input.old.is_ended ≡ false }
    requires bounded { IsBounded input.old }
    ensures reads { IfOk result (λ answer. ReadsOn R.remaining R.has_failed
        (next_of D.first_item D.numbered longest_input) D.IsFault input.old
        (record input.new { fault = fault_of (finished part.new answer) })
        reader.old reader.new (finished part.new answer)) }
    ensures buffered { IsFirstBuffered D.first_item input.old → (reader.new ≡ reader.old)
        × (writer.new ≡ writer.old) }
    ensures flushed { FlushesFirst W.IsFlushed reader.old reader.new writer.new result }
    ensures unread { OnErr result ((input.new ≡ input.old) × (reader.new ≡ reader.old)) }
    ensures kept { Keeps (W.contents writer.old) (W.contents writer.new) }
    ensures write { W.has_failed writer.new ≡ (W.has_failed writer.old || is_err result) }
{
    let _ = &*reader;
    let _ = &*writer;
    D::parts_are_of_a_grammar();
    draft.clear();
    let mut scan = Scan {
        lines: 0,
        bytes: 0,
        searched: 0,
    };
    match add_lines(draft, &mut scan, input.within_limit()) {
        Ok(true) => {
            let first = input.count() + 1;
            input.pass(scan.lines, scan.bytes);
            Ok(draft.finish(first, input.count(), part))
        }
        Ok(false) => {
            if writer.flush_all().is_err() {
                return Err(WriteFault);
            }
            Ok(read_rest(draft, part, scan, input, reader))
        }
        Err(_) => Ok(Err(FileFault::NoMemory)),
    }
}

/// Reads until all lines of the next part are buffered or the input has ended, and returns the part. The draft has the
/// lines that are buffered. This call may wait for input, so the output is to be flushed before it.
fn read_rest<D: Draft + Drop, R: Source>(
    draft: &mut D,
    part: &mut D::Part,
    mut scan: Scan,
    input: &mut Input,
    reader: &mut R,
) -> Result<bool, FileFault>
    requires so_far { DraftOf D.first_item D.begun D.Fits draft.old scan (within_limit input.old) }
    requires open_end { (D.begun draft.old).is_done ≡ false }
    requires searched { scan.bytes + scan.searched ≡ length (within_limit input.old) }
    requires faultless { input.old.fault ≡ None }
    requires unended { input.old.is_ended ≡ false }
    ensures { ReadsOn R.remaining R.has_failed (next_of D.first_item D.numbered longest_input)
        D.IsFault input.old
        (record input.new { fault = fault_of (finished part.new result) }) reader.old reader.new
        (finished part.new result) }
{
    D::parts_are_of_a_grammar();
    let first = input.count() + 1;
    'read: loop {
        if input.is_beyond_limit() {
            return Err(FileFault::InputTooLong(first));
        }
        match input.fill(reader) {
            Ok(true) => {}
            Ok(false) => break,
            Err(fault) => return Err(fault),
        }
        match add_lines(draft, &mut scan, input.within_limit()) {
            Ok(true) => {
                input.pass(scan.lines, scan.bytes);
                return draft.finish(first, input.count(), part);
            }
            Ok(false) => {}
            Err(_) => return Err(FileFault::NoMemory),
        }
    }
    match add_last_line(draft, scan, input.within_limit()) {
        Ok(count) => {
            input.end(count);
            draft.finish(first, input.count(), part)
        }
        Err(_) => Err(FileFault::NoMemory),
    }
}
