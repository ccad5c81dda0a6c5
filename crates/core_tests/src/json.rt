//! The JSON of saved configurations and of proposed changes.
use conf_change::{Change, Changes, ConfState, Config, Kind, Step};
use quorum_sets::{InlineIds, MemberSet, NoMemory, TreeIds};
use raft_json::{JsonFault, conf_change_value, conf_state_value, json_in, saved_of};
use std::alloc::Global;
use test_support::equal::is_same_state;
use test_support::restoring::{FIVE, changer_at, read};
use test_support::twice;

const JOINT: &str =
    "Voters:[2 3 4] VotersOutgoing:[1 2 3] Learners:[5] LearnersNext:[1] AutoLeave:true";

// The JSON of a saved configuration, and its line.
static READ: [(&str, &str); 11] = [
    (
        "{}",
        "Voters:[] VotersOutgoing:[] Learners:[] LearnersNext:[] AutoLeave:false",
    ),
    ("{\"voters\":[1,2,3,4,5],\"auto_leave\":false}", FIVE),
    (
        "{\"auto_leave\":true,\"learners\":[5],\"learners_next\":[1],\"voters\":[2,3,4],\"voters_outgoing\":[1,2,3]}",
        JOINT,
    ),
    (
        " { \"voters_outgoing\" : [1, 2, 3], \"learners_next\":[1],\t\"learners\":[5],\r\n\"auto_leave\":true,\"voters\":[2,3,4]} ",
        JOINT,
    ),
    (
        "{\"voters\":[],\"voters_outgoing\":null,\"learners\":null,\"learners_next\":null,\"auto_leave\":null}",
        "Voters:[] VotersOutgoing:[] Learners:[] LearnersNext:[] AutoLeave:false",
    ),
    (
        "{\"voters\":[18446744073709551615,9007199254740993,0]}",
        "Voters:[18446744073709551615 9007199254740993 0] VotersOutgoing:[] Learners:[] LearnersNext:[] AutoLeave:false",
    ),
    // An id may repeat, as in a line; of a key that repeats, the last value counts.
    (
        "{\"voters\":[1,1]}",
        "Voters:[1 1] VotersOutgoing:[] Learners:[] LearnersNext:[] AutoLeave:false",
    ),
    (
        "{\"voters\":[1],\"voters\":[2]}",
        "Voters:[2] VotersOutgoing:[] Learners:[] LearnersNext:[] AutoLeave:false",
    ),
    (
        "{\"\\u0076oters\":[1]}",
        "Voters:[1] VotersOutgoing:[] Learners:[] LearnersNext:[] AutoLeave:false",
    ),
    // What etcdctl 3.4.23 prints of a cluster of one member, and of three of which one is a learner.
    (
        "{\"header\":{\"cluster_id\":14841639068965178418,\"member_id\":10276657743932975437,\"raft_term\":2},\
        \"members\":[{\"ID\":10276657743932975437,\"name\":\"default\",\"peerURLs\":[\"http://localhost:2380\"],\
        \"clientURLs\":[\"http://localhost:2379\"]}]}",
        "Voters:[10276657743932975437] VotersOutgoing:[] Learners:[] LearnersNext:[] AutoLeave:false",
    ),
    (
        "{\"members\":[{\"ID\":7},{\"isLearner\":true,\"ID\":2,\"name\":\"\"},{\"ID\":1,\"isLearner\":false}]}",
        "Voters:[7 1] VotersOutgoing:[] Learners:[2] LearnersNext:[] AutoLeave:false",
    ),
];

// Almost the JSON of a saved configuration.
static BAD: [&str; 29] = [
    "",
    "null",
    "[]",
    "{\"voters\":[1]",
    "{\"voters\":[1],}",
    "{\"voters\":[1]} x",
    "{\"voters\":[1]}{}",
    "{voters:[1]}",
    "{\"voter\":[1]}",
    "{\"Voters\":[1]}",
    "{\"voters\":[1],\"id\":1}",
    "{\"voters\":1}",
    "{\"voters\":{}}",
    "{\"voters\":[1.0]}",
    "{\"voters\":[1.5]}",
    "{\"voters\":[1e2]}",
    "{\"voters\":[-1]}",
    "{\"voters\":[-0]}",
    "{\"voters\":[01]}",
    "{\"voters\":[\"1\"]}",
    "{\"voters\":[null]}",
    "{\"voters\":[18446744073709551616]}",
    "{\"voters\":[1],\"auto_leave\":0}",
    "{\"learners\":[[1]]}",
    "{\"members\":null}",
    "{\"members\":{}}",
    "{\"members\":[{\"id\":1}]}",
    "{\"members\":[{\"ID\":\"1\"}]}",
    "{\"members\":[{\"ID\":1,\"isLearner\":1}]}",
];

// The changes of a simple step, and what is proposed for it: a step without a change is proposed as an update.
static PROPOSED: [(&[Change], &str); 2] = [
    (
        &[],
        "{\"changes\":[{\"node_id\":1,\"type\":\"ConfChangeUpdateNode\"}],\"transition\":\"ConfChangeTransitionAuto\"}",
    ),
    (
        &[Change {
            kind: Kind::Learner,
            id: u64::MAX,
        }],
        "{\"changes\":[{\"node_id\":18446744073709551615,\"type\":\"ConfChangeAddLearnerNode\"}],\"transition\":\"ConfChangeTransitionAuto\"}",
    ),
];

fn read_json(alloc: Global, json: &[u8]) -> Result<ConfState, JsonFault> {
    match twice!(NoMemory, json_in(alloc, json)) {
        Ok(Some(value)) => twice!(JsonFault::NoMemory, saved_of(alloc, &value)),
        Ok(None) => Err(JsonFault::BadJson),
        Err(_) => Err(JsonFault::NoMemory),
    }
}

fn is_read(alloc: Global, json: &str, line: &str) -> bool {
    match (read_json(alloc, json.as_bytes()), read(alloc, line)) {
        (Ok(actual), Ok(state)) => is_same_state(&actual, &state),
        _ => false,
    }
}

// Whether the JSON of a saved configuration is this text.
fn is_printed(alloc: Global, state: &ConfState, json: &str) -> bool {
    match twice!(NoMemory, conf_state_text(alloc, state)) {
        Ok(text) => text.as_str() == json,
        Err(_) => false,
    }
}

// Whether the JSON of a line's configuration is this text.
fn is_line_in_json(alloc: Global, line: &str, json: &str) -> bool {
    match read(alloc, line) {
        Ok(state) => is_printed(alloc, &state, json),
        Err(_) => false,
    }
}

fn conf_state_text(alloc: Global, state: &ConfState) -> Result<String, NoMemory> {
    Ok(conf_state_value(alloc, state)?.to_string(alloc)?)
}

fn conf_change_text<S: MemberSet>(
    alloc: Global,
    before: &Config<S>,
    step: &Step,
) -> Result<String, NoMemory> {
    Ok(conf_change_value(alloc, before, step)?.to_string(alloc)?)
}

// Whether the JSON of what is proposed for a step is this text.
fn is_proposed<S: MemberSet>(alloc: Global, before: &Config<S>, step: &Step, json: &str) -> bool {
    match twice!(NoMemory, conf_change_text(alloc, before, step)) {
        Ok(text) => text.as_str() == json,
        Err(_) => false,
    }
}

// The simple step of some changes.
fn simple_step(alloc: Global, changes: &[Change]) -> Result<Step, NoMemory> {
    Ok(Step::Simple(Changes::from(changes.to_vec(alloc)?)))
}

// Whether this is proposed for a simple step of some changes from five voters.
fn proposes<S: MemberSet>(alloc: Global, changes: &[Change], json: &str) -> bool {
    let five = changer_at::<S>(alloc, FIVE);
    match twice!(NoMemory, simple_step(alloc, changes)) {
        Ok(step) => is_proposed(alloc, five.tracker().config(), &step, json),
        Err(_) => false,
    }
}

fn is_bad(alloc: Global, json: &[u8]) -> bool {
    read_json(alloc, json).err() == Some(JsonFault::BadJson)
}

#[test]
fn reads_and_writes_conf_states(rt: HostRuntime) {
    for (json, line) in &READ {
        assert!(rt; is_read(rt.alloc(), *json, *line), "{}", *json);
    }
    assert!(rt; is_line_in_json(rt.alloc(), JOINT, READ[2].0));
}

#[test]
fn refuses_bad_json(rt: HostRuntime) {
    for json in &BAD {
        assert!(rt; is_bad(rt.alloc(), json.as_bytes()), "{}", *json);
    }
    assert!(rt; is_bad(rt.alloc(), b"{\"voters\":[1],\"\xff\":null}"));
}

#[test]
fn writes_proposals(rt: HostRuntime) {
    for (changes, json) in &PROPOSED {
        assert!(rt;
            proposes::<TreeIds>(rt.alloc(), *changes, *json)
                & proposes::<InlineIds>(rt.alloc(), *changes, *json),
            "{}",
            *json
        );
    }
}
