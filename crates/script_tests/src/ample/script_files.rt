//! Lines that are read from inputs, items that are read from scripts, and items that are made.
use crate::ample::devices::byte_by_byte;
use dd_file::blocks::Blocks;
use dd_file::device::{FromRead, Sink, Source, ToWrite};
use dd_file::fault::FileFault;
use dd_file::item::{Argument, Directive, Item};
use dd_file::lines::Lines;
use dd_file::reader::Reader;
use test_support::runtime::Runtime;

fn show(rt: &impl Runtime, shown: &mut Vec<u8>, bytes: &[u8]) {
    shown.extend_from_slice(bytes).expect(rt, "room");
}

fn show_line(rt: &impl Runtime, shown: &mut Vec<u8>, line: &[u8]) {
    show(rt, shown, b"<");
    show(rt, shown, line);
    show(rt, shown, b">");
}

// A writer that has a byte which is not flushed.
fn unflushed(rt: &impl Runtime) -> Blocks<ToWrite<Vec<u8>>> {
    let writer = ToWrite::new(Vec::new(rt.alloc()));
    let mut blocks = Blocks::new(rt.alloc(), writer).expect(rt, "blocks");
    blocks.write(b"r").expect(rt, "a byte");
    blocks
}

// An h if the writer was not flushed.
fn show_unflushed(rt: &impl Runtime, shown: &mut Vec<u8>, blocks: Blocks<ToWrite<Vec<u8>>>) {
    if blocks.into_inner().into_inner().is_empty() {
        show(rt, shown, b"h");
    }
}

// The next line, with an h before it if it was buffered; nothing at the end.
fn show_next_line<R: Source>(
    rt: &impl Runtime,
    shown: &mut Vec<u8>,
    lines: &mut Lines,
    source: &mut R,
) {
    let mut writer = unflushed(rt);
    let answer = lines
        .next_after_flush(source, &mut writer)
        .expect(rt, "a flush");
    if let Some(line) = answer.expect(rt, "a line or the end") {
        show_unflushed(rt, shown, writer);
        show_line(rt, shown, line.as_slice());
    }
}

fn lines_of(rt: &impl Runtime, input: &str) -> Vec<u8> {
    let mut source = FromRead::new(input.as_bytes());
    let mut lines = Lines::new(rt.alloc()).expect(rt, "a reader");
    let mut shown = Vec::new(rt.alloc());
    for _ in 0..9 {
        show_next_line(rt, &mut shown, &mut lines, &mut source);
    }
    shown
}

// Inputs, and their lines: what the first read gave is buffered, up to its last newline.
static LINES: [(&str, &str); 6] = [
    ("", ""),
    ("a\r\n\nb\r\r", "<a>h<><b\r>"),
    ("\n", "<>"),
    ("\r", "<>"),
    ("a", "<a>"),
    ("a\nb\r\n\nc", "<a>h<b>h<><c>"),
];

#[test]
fn reads_lines(rt: HostRuntime) {
    for (input, expected) in &LINES {
        let shown = lines_of(&rt, *input);
        assert!(rt; shown.as_slice() == expected.as_bytes(), "at {input}");
    }
}

// The lines of a comment or of a blank.
fn show_lines(rt: &impl Runtime, shown: &mut Vec<u8>, item: &Item) {
    show(rt, shown, b"lines:");
    for i in 0..3 {
        if let Some(line) = item.raw_line(i) {
            show_line(rt, shown, line);
        }
    }
}

fn show_argument(rt: &impl Runtime, shown: &mut Vec<u8>, argument: &Argument) {
    show(rt, shown, b" ");
    show(rt, shown, argument.key());
    for i in 0..9 {
        if let Some(value) = argument.value(i) {
            show(rt, shown, b"[");
            show(rt, shown, value);
            show(rt, shown, b"]");
        }
    }
}

// The values of an argument in order, and nothing after the last one.
fn show_values(rt: &impl Runtime, shown: &mut Vec<u8>, argument: &Argument) {
    let mut values = argument.values();
    for _ in 0..9 {
        if let Some(value) = values.next() {
            show_line(rt, shown, value);
        }
    }
}

// The values of the first argument of a directive.
fn show_first_values(rt: &impl Runtime, shown: &mut Vec<u8>, item: &Item) {
    if let Some(directive) = item.as_directive() {
        if let Some(argument) = directive.arg(0) {
            show_values(rt, shown, argument);
        }
    }
}

fn values_of(rt: &impl Runtime, line: &str) -> Vec<u8> {
    let mut source = FromRead::new(line.as_bytes());
    let mut items = Reader::new(rt.alloc()).expect(rt, "a reader");
    let mut shown = Vec::new(rt.alloc());
    let item = items.next(&mut source).expect(rt, "an item");
    if let Some(item) = item {
        show_first_values(rt, &mut shown, item);
    }
    shown
}

// Directive lines, and the values of their first argument: a list, one value with commas in it, and none.
static VALUES: [(&str, &str); 8] = [
    ("committed cfg=(1, 2 ,3)", "<1><2><3>"),
    ("committed cfg=( 10 )", "<10>"),
    ("committed cfg=(,)", "<><>"),
    ("committed cfg=()", ""),
    ("committed cfg=( \t)", ""),
    ("committed cfg=1,2", "<1,2>"),
    ("committed cfg=", "<>"),
    ("committed cfg", ""),
];

#[test]
fn reads_values(rt: HostRuntime) {
    for (line, expected) in &VALUES {
        let shown = values_of(&rt, *line);
        assert!(rt; shown.as_slice() == expected.as_bytes(), "at {line}");
    }
}

// The line and the command, each argument with its values in brackets, the input and the expected output.
fn show_directive(rt: &impl Runtime, shown: &mut Vec<u8>, directive: &Directive) {
    show(rt, shown, &[b'0' + (directive.line() % 10) as u8, b':']);
    show(rt, shown, directive.command());
    for i in 0..directive.arguments().len() {
        if let Some(argument) = directive.arg(i) {
            show_argument(rt, shown, argument);
        }
    }
    show(rt, shown, b"/");
    show(rt, shown, directive.input());
    show(rt, shown, b"/");
    show(rt, shown, directive.expected());
}

fn show_item(rt: &impl Runtime, shown: &mut Vec<u8>, item: &Item) {
    match item.as_directive() {
        Some(directive) => show_directive(rt, shown, directive),
        None => show_lines(rt, shown, item),
    }
    show(rt, shown, b"|");
}

fn show_fault(rt: &impl Runtime, shown: &mut Vec<u8>, fault: FileFault) {
    let message = format!(in rt.alloc(); "{fault}").expect(rt, "a message");
    show(rt, shown, message.as_bytes());
}

// The next item, the end, or the message of an error.
fn show_next_item<R: Source>(
    rt: &impl Runtime,
    shown: &mut Vec<u8>,
    reader: &mut Reader,
    source: &mut R,
) -> bool {
    match reader.next(source) {
        Ok(Some(item)) => {
            show_item(rt, shown, item);
            true
        }
        Ok(None) => false,
        Err(fault) => {
            show_fault(rt, shown, fault);
            false
        }
    }
}

// Each item, and the message of the error that ends them.
fn items_of<R: Source>(rt: &impl Runtime, source: &mut R) -> Vec<u8> {
    let mut shown = Vec::new(rt.alloc());
    let mut reader = Reader::new(rt.alloc()).expect(rt, "a reader");
    let mut has_more = true;
    for _ in 0..9 {
        has_more = has_more && show_next_item(rt, &mut shown, &mut reader, source);
    }
    shown
}

fn has_items<R: Source>(rt: &impl Runtime, source: &mut R, expected: &str) -> bool {
    items_of(rt, source).as_slice() == expected.as_bytes()
}

static SCRIPTS: [(&str, &str); 51] = [
    ("", ""),
    (
        "enter-joint \\\n  autoleave=true\n----\nno\n",
        "1:enter-joint autoleave[true]//no\n|",
    ),
    (
        "simple\n----\n----\nremoved all voters\n----\n----\n",
        "1:simple//removed all voters\n|",
    ),
    (
        "simple\n----\n----\nremoved all voters\n----\n----\nx\n",
        "line 7: line after double separator is not blank",
    ),
    ("simple a=(1, 2) b\n", "1:simple a[1][2] b//|"),
    (
        "# c\r\n\nsimple\nv1\n ---- \nold\n\nx y",
        "lines:<# c>|lines:<>|3:simple/v1/old\n|8:x y//|",
    ),
    (
        "simple\n----\n----\n\na\n----\nb\n----\n----\n \n# x",
        "1:simple//\na\n----\nb\n|lines:<# x>|",
    ),
    (
        "\n\nsimple\n----\n----\nx\n",
        "lines:<>|lines:<>|line 3: double separator is not closed",
    ),
    ("simple\n# no\n\nv1 \n----\n\n", "1:simple/# no\n\nv1/|"),
    ("\r", "lines:<>|"),
    ("simple\n----\n---- \n", "1:simple//---- \n|"),
    // comments, and lines that are not comments
    (
        "\t # a\n# b\\\n# c",
        "lines:<\t # a>|lines:<# b\\>|lines:<# c>|",
    ),
    ("a #\n", "line 1: bad directive"),
    // directives over several lines
    (" a \\ \n\tb", "1:a b//|"),
    ("\\\n \nx", "lines:<\\>< >|3:x//|"),
    ("simple a=\\\n\n----\n", "1:simple a[]//|"),
    ("simple a=\\\\\n\n----\n", "1:simple a[\\]//|"),
    ("simple a=\\b\nc", "1:simple a[\\b]/c/|"),
    ("a\\\n----\n", "1:a ----//|"),
    ("a\\\n# b\n", "line 1: bad directive"),
    // white space at both ends, and other bytes that look like it
    (" \t\x0b\x0c", "lines:< \t\x0b\x0c>|"),
    ("\x08", "line 1: bad directive"),
    ("a\n\t\r\n\x0b\x0c b c\t\n", "1:a/b c/|"),
    ("a\n\x08 \u{a0}\n", "1:a/\x08 \u{a0}/|"),
    ("a\n\n\t\n----\n b\nc \n", "1:a// b\nc \n|"),
    (
        "# a\n\nundo \\\r\nsteps=2\n\n v1\n----\n----\na \n\n----\n----\n",
        "lines:<# a>|lines:<>|3:undo steps[2]/v1/a \n\n|",
    ),
    // four dashes, and lines that are not
    (
        "a\n---\n-----\n---- -\n\t---- \nb",
        "1:a/---\n-----\n---- -/b\n|",
    ),
    // commands and arguments
    ("simple", "1:simple//|"),
    ("subtests", "1:subtests//|"),
    (
        "\tenter-joint  autoleave=true ",
        "1:enter-joint autoleave[true]//|",
    ),
    (
        "committed cfg=(1, 2) cfgj=zero idx=(_,3)",
        "1:committed cfg[1][2] cfgj[zero] idx[_][3]//|",
    ),
    ("vote cfg votes=( y n )", "1:vote cfg votes[y n]//|"),
    ("x a=() b=( ) c=(,) d=", "1:x a b c[][] d[]//|"),
    ("x a=((=#\\)", "1:x a[(=#\\]//|"),
    ("x a==1", "1:x a[=1]//|"),
    ("x a=\u{e9}", "1:x a[\u{e9}]//|"),
    // lines that are not directives
    ("subtest", "line 1: bad directive"),
    ("subtest a", "line 1: bad directive"),
    ("a=1", "line 1: bad directive"),
    ("simple =1", "line 1: bad directive"),
    ("simple a=(", "line 1: bad directive"),
    ("simple a=(1", "line 1: bad directive"),
    ("simple a=(1, 2)b", "line 1: bad directive"),
    ("simple a=(1)(2)", "line 1: bad directive"),
    ("simple a=b(c d)", "line 1: bad directive"),
    ("simple a=b)", "line 1: bad directive"),
    ("simple (1)", "line 1: bad directive"),
    ("simple \\", "line 1: bad directive"),
    ("x a=((=#\\ \\", "line 1: bad directive"),
    ("caf\u{e9}", "line 1: bad directive"),
    ("simple \u{e9}=1", "line 1: bad directive"),
];

#[test]
fn reads_items(rt: HostRuntime) {
    for (script, expected) in &SCRIPTS {
        assert!(rt;
            has_items(&rt, &mut FromRead::new(script.as_bytes()), *expected)
                & has_items(
                    &rt,
                    &mut byte_by_byte(script.as_bytes(), usize::MAX),
                    *expected
                ),
            "at {script}"
        );
    }
}

// The next item, printed with an h before it if it was buffered; nothing at the end.
fn show_buffered_item<R: Source>(
    rt: &impl Runtime,
    shown: &mut Vec<u8>,
    reader: &mut Reader,
    source: &mut R,
) {
    let mut writer = unflushed(rt);
    let answer = reader
        .next_after_flush(source, &mut writer)
        .expect(rt, "a flush");
    if let Some(item) = answer.expect(rt, "an item or the end") {
        show_unflushed(rt, shown, writer);
        show_item(rt, shown, item);
    }
}

// A script, and its items as they are printed if the first read gives all of it.
const BUFFERED_SCRIPT: &[u8] = b"# a\nb\n\n----\n1\n\n\nc\n----\n2\n";

const BUFFERED_ITEMS: &[u8] = b"lines:<# a>|h2:b//1\n|hlines:<>|8:c//2\n|";

#[test]
fn reads_buffered_items(rt: HostRuntime) {
    let mut source = FromRead::new(BUFFERED_SCRIPT);
    let mut reader = Reader::new(rt.alloc()).expect(&rt, "a reader");
    let mut shown = Vec::new(rt.alloc());
    for _ in 0..9 {
        show_buffered_item(&rt, &mut shown, &mut reader, &mut source);
    }
    assert!(rt; shown.as_slice() == BUFFERED_ITEMS);
}

// Lines, a line of input for each, and the items that are made of it: a directive, if there is one, and a comment.
static MADE: [(&str, &str, &str); 3] = [
    (
        "enter-joint autoleave=true",
        " v1 r2\t",
        "1:enter-joint autoleave[true]/v1 r2/|lines:<enter-joint autoleave=true>|",
    ),
    ("simple", "", "1:simple//|lines:<simple>|"),
    ("# nothing to do", "v1", "lines:<# nothing to do>|"),
];

fn copied(rt: &impl Runtime, text: &str) -> Vec<u8> {
    Vec::from_slice(rt.alloc(), text.as_bytes()).expect(rt, "a copy")
}

fn show_made_directive(rt: &impl Runtime, shown: &mut Vec<u8>, line: &str, input: &str) {
    let mut lines = Vec::new(rt.alloc());
    lines.push(copied(rt, input)).expect(rt, "room");
    let made = Item::directive(rt.alloc(), copied(rt, line), lines.as_slice()).expect(rt, "memory");
    if let Some(directive) = made {
        show_item(rt, shown, &directive);
    }
}

fn show_made_comment(rt: &impl Runtime, shown: &mut Vec<u8>, line: &str) {
    let comment = Item::comment(rt.alloc(), copied(rt, line)).expect(rt, "memory");
    show_item(rt, shown, &comment);
}

#[test]
fn makes_items(rt: HostRuntime) {
    for (line, input, expected) in &MADE {
        let mut shown = Vec::new(rt.alloc());
        show_made_directive(&rt, &mut shown, *line, *input);
        show_made_comment(&rt, &mut shown, *line);
        assert!(rt; shown.as_slice() == expected.as_bytes(), "of {line}");
    }
}

#[test]
fn reads_little_ahead(rt: HostRuntime) {
    let script = vec![in rt.alloc(); b'\n'; 100_000].expect(&rt, "a script");
    let mut source = FromRead::new(script.as_slice());
    let mut reader = Reader::new(rt.alloc()).expect(&rt, "a reader");
    let first = reader.next(&mut source).expect(&rt, "an item");
    assert!(rt; first.is_some());
    assert!(rt; source.into_inner().len() >= 100_000 - 1 - 4096);
}
