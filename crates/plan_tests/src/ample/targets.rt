//! What is printed of a text that is not a target of (1 2 3).
use crate::assertions::{holds, holds_at};
use crate::paths::{THREE, config_at};
use conf_change::Config;
use plan_input::{IdHint, TextFault, read_target};
use quorum_sets::InlineIds;
use std::alloc::Global;
use std::fmt::Display;
use test_support::runtime::Runtime;

const CHANGES: &str =
    "expected changes as r1 v4 l5, or a configuration as voters=(1 2 3), a ConfState line, or JSON";

const PRINTED: &str =
    "bad configuration: expected voters=(1 2)&&(1 2 3) learners=(4) learners_next=(3) autoleave, \
    without what is empty";

const LINE: &str =
    "bad conf state: expected Voters:[1 2] VotersOutgoing:[] Learners:[3] LearnersNext:[] AutoLeave:false";

const JSON: &str =
    "bad JSON: expected {\"voters\":[1,2],\"voters_outgoing\":[],\"learners\":[3],\"learners_next\":[],\
    \"auto_leave\":false}, or etcdctl member list -w json";

// A text, what is printed of it, and the hexadecimal id in it, if there is one.
static MESSAGES: [(&str, &str, &str, &str); 24] = [
    ("", "expected a configuration or changes", "", ""),
    ("r7", "r7: 7 is not a member", "", ""),
    (
        "r3 v3",
        "3 is removed and added again: a server that lost its log needs a new id",
        "",
        "",
    ),
    (
        "1 2 4",
        "bad change 1: a target is a configuration, as voters=(1 2 4), or changes, as r1 v4",
        "",
        "",
    ),
    ("v4 x5", "bad change x5: ", CHANGES, ""),
    (
        "r8e9e05c52164694d",
        "bad change r8e9e05c52164694d: ",
        CHANGES,
        "8e9e05c52164694d",
    ),
    (
        "v4 r0xFD422379FDA50E48",
        "bad change r0xFD422379FDA50E48: ",
        CHANGES,
        "FD422379FDA50E48",
    ),
    // Other numbers of digits, and other digits.
    (
        "r8e9e05c521646",
        "bad change r8e9e05c521646: ",
        CHANGES,
        "8e9e05c521646",
    ),
    ("r8e9e05c52164", "bad change r8e9e05c52164: ", CHANGES, ""),
    (
        "r8e9e05c52164694d1",
        "bad change r8e9e05c52164694d1: ",
        CHANGES,
        "",
    ),
    (
        "rx1027665774393297",
        "bad change rx1027665774393297: ",
        CHANGES,
        "",
    ),
    (
        "voters=(1,2,3)",
        "bad configuration: expected ids with spaces between, as in voters=(1 2 3)",
        "",
        "",
    ),
    (
        "voters=(1,91bc3c398fb3c146)",
        "bad configuration: expected ids with spaces between, as in voters=(1 2 3)",
        "",
        "91bc3c398fb3c146",
    ),
    ("voters=(1", PRINTED, "", ""),
    (
        "voters=(1 8e9e05c52164694d 91bc3c398fb3c146)",
        PRINTED,
        "",
        "8e9e05c52164694d",
    ),
    ("Voters:[1]", LINE, "", ""),
    (
        "Voters:[8e9e05c52164694d] VotersOutgoing:[] Learners:[] LearnersNext:[] AutoLeave:false",
        LINE,
        "",
        "8e9e05c52164694d",
    ),
    ("{\"voters\":[1.5]}", JSON, "", ""),
    (
        "{\"voters\":[1,8e9e05c52164694d]}",
        JSON,
        "",
        "8e9e05c52164694d",
    ),
    // The number is that of a server, and not that of the cluster.
    (
        "{\"header\":{\"cluster_id\":\"cdf818194e3a8c32\"},\"members\":[{\"ID\":\"8e9e05c52164694d\"}]}",
        "bad JSON: an ID is a decimal number",
        "",
        "8e9e05c52164694d",
    ),
    ("{\"cluster_id\":\"cdf818194e3a8c32\"}", JSON, "", ""),
    (
        "{\"learners_next\":[1,\"2\"]}",
        "bad JSON: an ID is a decimal number",
        "",
        "",
    ),
    ("{\"members\":[{\"ID\":\"2\"}", JSON, "", ""),
    (
        "{\"members\":[{\"ID\":1,\"name\":2.5},{\"name\":\"1\"}]}",
        JSON,
        "",
        "",
    ),
];

// Whether a text is refused as a target of (1 2 3), with this message.
fn is_refused(rt: &impl Runtime, text: &str, message: &str) -> bool {
    match target_of_three(rt.alloc(), text) {
        Err(fault) => is_shown(rt, &fault, message),
        Ok(_) => false,
    }
}

fn target_of_three(alloc: Global, text: &str) -> Result<Config<InlineIds>, TextFault> {
    let now = config_at(alloc, THREE);
    read_target(alloc, &now, text.as_bytes())
}

// Whether this is what is printed of a value.
fn is_shown<T: Display>(rt: &impl Runtime, value: &T, message: &str) -> bool {
    let shown = format!(in rt.alloc(); "{value}").expect(rt, "a message");
    shown.as_str() == message
}

// The message of a row.
fn message_of(rt: &impl Runtime, first: &str, second: &str, id: &str) -> String {
    let hint = if id.is_empty() {
        ""
    } else {
        "; ids are decimal: printf '%u\\n' 0x"
    };
    format!(in rt.alloc(); "{first}{second}{hint}{id}").expect(rt, "a message")
}

#[test]
fn prints_why_a_text_is_not_a_target(rt: HostRuntime) {
    for (text, first, second, id) in &MESSAGES {
        let message = message_of(&rt, *first, *second, *id);
        holds_at(&rt, *text, is_refused(&rt, *text, message.as_str()));
    }
}

#[test]
fn hints_at_decimal_ids(rt: HostRuntime) {
    let hint = IdHint::new(b"1,8e9e05c52164694d");
    let shown = "; ids are decimal: printf '%u\\n' 0x8e9e05c52164694d";
    holds(
        &rt,
        is_shown(&rt, &hint, shown) & (IdHint::new(b"1,2") == IdHint::NONE),
    );
}
