//! White space, tokens, lines and numbers in texts.
use ascii_text::lines::{ends_in_newline, first_line_len, line_of, next_full_line, strip_last};
use ascii_text::number::read_number;
use ascii_text::position::{find_far_byte, position_of, split_at_first};
use ascii_text::tokens::next_token;
use ascii_text::white_space::{
    is_blank, is_space, trimmed, without_leading_space, without_trailing_space,
};

static BYTES: [(u8, bool); 11] = [
    (8, false),
    (9, true),
    (10, true),
    (11, true),
    (12, true),
    (13, true),
    (14, false),
    (32, true),
    (33, false),
    (133, false),
    (160, false),
];

#[test]
fn knows_white_space(rt: HostRuntime) {
    for (byte, expected) in &BYTES {
        assert!(rt; is_space(*byte) == *expected, "byte {byte}");
    }
}

// A text, and the same text without white space before it, after it, and at both ends.
static ENDS: [(&[u8], &[u8], &[u8], &[u8]); 4] = [
    (b"", b"", b"", b""),
    (b" \t\n\x0b\x0c\r", b"", b"", b""),
    (b"\r v1  l2\x0b", b"v1  l2\x0b", b"\r v1  l2", b"v1  l2"),
    (b"\x0e\xa0", b"\x0e\xa0", b"\x0e\xa0", b"\x0e\xa0"),
];

#[test]
fn trims_white_space(rt: HostRuntime) {
    for (index, (text, no_leading, no_trailing, neither)) in ENDS.iter().enumerate() {
        assert!(rt;
            (without_leading_space(*text) == *no_leading)
                & (without_trailing_space(*text) == *no_trailing)
                & (trimmed(*text) == *neither)
                & (is_blank(*text) == neither.is_empty()),
            "row {index}"
        );
    }
}

static FIRST_TOKENS: [(&[u8], Option<(&[u8], &[u8])>); 5] = [
    (b"", None),
    (b" \t\n\x0b\x0c\r", None),
    (b"v1", Some((b"v1", b""))),
    (b"\r\nv1\x0bl02 r0", Some((b"v1", b"\x0bl02 r0"))),
    (b"\xff\x0e v", Some((b"\xff\x0e", b" v"))),
];

#[test]
fn finds_the_first_token(rt: HostRuntime) {
    for (index, (text, expected)) in FIRST_TOKENS.iter().enumerate() {
        assert!(rt; next_token(*text) == *expected, "row {index}");
    }
}

static FIRST_LINES: [(&[u8], usize, Option<(&[u8], &[u8])>); 5] = [
    (b"", 0, None),
    (b"a\n\nbc", 2, Some((b"a\n", b"\nbc"))),
    (b"\n", 1, Some((b"\n", b""))),
    (b"a\r\n", 3, Some((b"a\r\n", b""))),
    (b"abc", 3, Some((b"abc", b""))),
];

#[test]
fn splits_texts_after_newlines(rt: HostRuntime) {
    for (index, (text, len, expected)) in FIRST_LINES.iter().enumerate() {
        assert!(rt;
            (first_line_len(*text) == *len) & (next_full_line(*text) == *expected),
            "row {index}"
        );
    }
}

// A text, a byte, and its first position, or else the length of the text.
static POSITIONS: [(&[u8], u8, usize); 4] = [
    (b"a] b]", b']', 1),
    (b"(1, 22, 333, 4444, 55555)", b')', 24),
    (b"a", b']', 1),
    (b"", b']', 0),
];

#[test]
fn finds_the_first_such_byte(rt: HostRuntime) {
    for (index, (text, byte, position)) in POSITIONS.iter().enumerate() {
        assert!(rt;
            (position_of(*text, *byte) == *position)
                & (find_far_byte(*text, *byte) == *position)
                & (split_at_first(*text, *byte) == (&text[..*position], &text[*position..])),
            "row {index}"
        );
    }
}

// A line with its end, the line without it, and whether it ends in a newline.
static LINES: [(&[u8], &[u8], bool); 5] = [
    (b"", b"", false),
    (b"a\r\n", b"a", true),
    (b"a\r\r\n", b"a\r", true),
    (b"a\n\r", b"a\n", false),
    (b"a", b"a", false),
];

#[test]
fn trims_the_ends_of_lines(rt: HostRuntime) {
    for (index, (full_line, line, whole)) in LINES.iter().enumerate() {
        assert!(rt;
            (line_of(*full_line) == *line) & (ends_in_newline(*full_line) == *whole),
            "row {index}"
        );
    }
}

#[test]
fn trims_a_backslash(rt: HostRuntime) {
    assert!(rt;
        (strip_last(b"a\\\\", b'\\') == b"a\\".as_slice())
            & (strip_last(b"a", b'\\') == b"a".as_slice())
    );
}

static NUMBERS: [(&[u8], Option<u64>); 7] = [
    (b"", None),
    (b"0", Some(0)),
    (b"007", Some(7)),
    (b"18446744073709551615", Some(u64::MAX)),
    (b"18446744073709551616", None),
    (b"+1", None),
    (b"1 ", None),
];

#[test]
fn reads_numbers(rt: HostRuntime) {
    for (index, (digits, expected)) in NUMBERS.iter().enumerate() {
        assert!(rt; read_number(*digits) == *expected, "row {index}");
    }
}
