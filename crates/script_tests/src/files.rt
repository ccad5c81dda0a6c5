//! Script files: their lines and items, and items that are rewritten.
use crate::matching::Matching;
use dd_file::device::{FromRead, ToWrite};
use dd_file::fault::FileFault;
use dd_file::item::Item;
use dd_file::line::Line;
use dd_file::lines::Lines;
use dd_file::reader::Reader;
use dd_file::rewriter::Rewriter;
use std::alloc::{AllocError, Global};
use test_support::twice;

// A script; each line of this literal is an item.
const SCRIPT: &[u8] = b"# c\n\
    \n\
    simple\nv1\n----\nvoters=(1)\n\n\
    enter-joint autoleave=(true,false) \\\n  x\nr1 r2\nr9\n----\n----\na\n\nb\n----\n----\n\n\
    simple\nv2\n----";

// The items: each as it is rewritten with `a` as the actual output, and its expected output.
static ITEMS: [(&[u8], &[u8]); 5] = [
    (b"# c\n", b""),
    (b"\n", b""),
    (b"simple\nv1\n----\na\n", b"voters=(1)\n"),
    (
        b"enter-joint autoleave=(true,false) \\\n  x\nr1 r2\nr9\n----\na\n",
        b"a\n\nb\n",
    ),
    (b"simple\nv2\n----\na\n", b""),
];

// Whether an item is rewritten as this text. The actual output is `a`, followed by a blank line if `is_double`. This
// does not allocate.
fn is_written(item: &Item, is_double: bool, text: &'static [u8]) -> bool {
    let mut writer = ToWrite::new(Matching::with(text));
    let mut rewriter = Rewriter::new();
    let mut is_kept = rewriter.keep(&mut writer, item).is_ok();
    if item.as_directive().is_some() {
        let actual = if is_double {
            b"a\n\n".as_slice()
        } else {
            b"a\n"
        };
        is_kept &= rewriter.found(&mut writer, actual).is_ok();
    }
    is_kept & rewriter.end(&mut writer).is_ok() & writer.into_inner().is_whole()
}

fn is_item(item: &Item, text: &'static [u8], expected: &[u8]) -> bool {
    let expects = match item.as_directive() {
        Some(directive) => directive.expected() == expected,
        None => expected.is_empty(),
    };
    expects & is_written(item, false, text)
}

// Whether a reader gives these items until memory runs out, and whether memory lasts. Once memory ran out, the reader
// gives no more.
fn gives_items(reader: &mut Reader) -> (bool, bool) {
    let mut source = FromRead::new(SCRIPT);
    let mut is_so = true;
    let mut has_memory = true;
    for (text, expected) in &ITEMS {
        match reader.next(&mut source) {
            Ok(Some(item)) => is_so &= has_memory & is_item(item, *text, *expected),
            Err(FileFault::NoMemory) => has_memory = false,
            _ => is_so = false,
        }
    }
    match reader.next(&mut source) {
        Ok(None) => is_so &= has_memory,
        Err(FileFault::NoMemory) => has_memory = false,
        _ => is_so = false,
    }
    (is_so, has_memory)
}

// Whether a reader gives the items, or on `NoMemory` another one does.
fn reads_items(reader: &mut Reader, other: &mut Reader) -> bool {
    let (is_so, has_memory) = gives_items(reader);
    is_so & (has_memory || gives_items(other) == (true, true))
}

fn items(alloc: Global) -> bool {
    match (
        twice!(FileFault::NoMemory, Reader::new(alloc)),
        twice!(FileFault::NoMemory, Reader::new(alloc)),
    ) {
        (Ok(mut reader), Ok(mut other)) => reads_items(&mut reader, &mut other),
        _ => false,
    }
}

const INPUT: &[u8] = b"a\r\n\nbb\nc";

static LINES: [&[u8]; 4] = [b"a", b"", b"bb", b"c"];

fn is_line(line: &Line, text: &[u8]) -> bool {
    line.as_slice() == text
}

// Whether a reader gives these lines until memory runs out, and whether memory lasts.
fn gives_lines(lines: &mut Lines) -> (bool, bool) {
    let mut source = FromRead::new(INPUT);
    let mut is_so = true;
    let mut has_memory = true;
    for text in &LINES {
        match lines.next(&mut source) {
            Ok(Some(line)) => is_so &= has_memory & is_line(line, *text),
            Err(FileFault::NoMemory) => has_memory = false,
            _ => is_so = false,
        }
    }
    match lines.next(&mut source) {
        Ok(None) => is_so &= has_memory,
        Err(FileFault::NoMemory) => has_memory = false,
        _ => is_so = false,
    }
    (is_so, has_memory)
}

fn reads_lines(lines: &mut Lines, other: &mut Lines) -> bool {
    let (is_so, has_memory) = gives_lines(lines);
    is_so & (has_memory || gives_lines(other) == (true, true))
}

fn lines(alloc: Global) -> bool {
    match (
        twice!(FileFault::NoMemory, Lines::new(alloc)),
        twice!(FileFault::NoMemory, Lines::new(alloc)),
    ) {
        (Ok(mut lines), Ok(mut other)) => reads_lines(&mut lines, &mut other),
        _ => false,
    }
}

#[test]
fn reads_lines_and_items(rt: HostRuntime) {
    assert!(rt; lines(rt.alloc()) & items(rt.alloc()));
}

// A comment of one line.
fn made_comment(alloc: Global) -> Result<Item, AllocError> {
    Item::comment(alloc, b"# a".to_vec(alloc)?)
}

// The directive of a line, without input.
fn made_directive(alloc: Global) -> Result<Option<Item>, AllocError> {
    Item::directive(alloc, b"simple x=(1,2)".to_vec(alloc)?, &[])
}

fn is_comment_written(alloc: Global) -> bool {
    match twice!(AllocError, made_comment(alloc)) {
        Ok(item) => is_written(&item, false, b"# a\n"),
        Err(_) => false,
    }
}

fn is_directive_written(alloc: Global) -> bool {
    match twice!(AllocError, made_directive(alloc)) {
        Ok(Some(item)) => is_written(&item, false, b"simple x=(1,2)\n----\na\n"),
        _ => false,
    }
}

#[test]
fn makes_items(rt: HostRuntime) {
    assert!(rt; is_comment_written(rt.alloc()) & is_directive_written(rt.alloc()));
}

// Whether a directive with a blank line before its separator is read, and written in both forms.
fn is_read_and_written(alloc: Global) -> Result<bool, FileFault> {
    let mut reader = Reader::new(alloc)?;
    match reader.next(&mut FromRead::new(b"vote\n\n----\n".as_slice()))? {
        Some(item) => Ok(
            is_written(item, false, b"vote\n\n----\na\n")
                & is_written(item, true, b"vote\n\n----\n----\na\n\n----\n----\n"),
        ),
        None => Ok(false),
    }
}

fn is_written_twice(alloc: Global) -> bool {
    matches!(
        twice!(FileFault::NoMemory, is_read_and_written(alloc)),
        Ok(true)
    )
}

#[test]
fn rewrites_directives(rt: HostRuntime) {
    assert!(rt; is_written_twice(rt.alloc()));
}
