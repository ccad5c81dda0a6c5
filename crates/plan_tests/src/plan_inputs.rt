//! What a plan is made for: the current configuration and the target, in each form.
ghost use Rattle.std.specs.Prelude.{◌≡◌, true, IfOk};
ghost use Rattle.conf_change.specs.Configuration.{is_valid};

use crate::assertions::holds_at;
use crate::paths::ids;
use conf_change::{Config, Violation};
use plan_input::{
    Current, IdHint, ShortToken, TextFault, first_nonmember, read_current, read_target,
};
use quorum_sets::InlineIds;
use std::alloc::Global;
use test_support::twice;

// A configuration in its forms.
static SIMPLE: [&str; 6] = [
    "voters=(1 2) learners=(3)",
    " voters = ( 02 1\n)\tlearners=(3)\n",
    "Voters:[2 1] VotersOutgoing:[] Learners:[3] LearnersNext:[] AutoLeave:false",
    "{\"voters\":[1,2],\"learners\":[3]}",
    "{\"members\":[{\"ID\":1},{\"ID\":3,\"isLearner\":true},{\"ID\":2}]}",
    " {\"members\":[{\"ID\":2,\"isLearner\":false},{\"ID\":1},{\"isLearner\":true,\"ID\":3}],\"voters\":[9]}\n",
];

static JOINT: [&str; 4] = [
    "voters=(2 3)&&(1 2) learners=(4) learners_next=(1) autoleave",
    "voters=(3 2) && (2 1) learners=(4)learners_next=(1)autoleave",
    "Voters:[2 3] VotersOutgoing:[1 2] Learners:[4] LearnersNext:[1] AutoLeave:true",
    "{\"auto_leave\":true,\"learners\":[4],\"learners_next\":[1],\"voters\":[2,3],\"voters_outgoing\":[1,2]}",
];

static EMPTY: [&str; 4] = [
    "voters=()",
    "Voters:[] VotersOutgoing:[] Learners:[] LearnersNext:[] AutoLeave:false",
    "{}",
    "{\"members\":[]}",
];

// The current configuration, changes of it, and the target.
static CHANGED: [(&str, &str, &str); 15] = [
    ("voters=(1 2 3)", "r1 v4 l5", "voters=(2 3 4) learners=(5)"),
    // It is left first where it is joint, also if no change has an effect.
    ("voters=(2 3)&&(1 2)", "u9", "voters=(2 3)"),
    // An outgoing voter is a member.
    ("voters=(2 3)&&(1 2)", "r1", "voters=(2 3)"),
    (
        "voters=(2 3)&&(1 2) learners_next=(1) autoleave",
        "v4",
        "voters=(2 3 4) learners=(1)",
    ),
    ("voters=(2 3)&&(1 2)", "v1", "voters=(1 2 3)"),
    ("voters=(1 2)", " l1\tv3\n", "voters=(2 3) learners=(1)"),
    // No change has an effect.
    (
        "voters=(1) learners=(2)",
        "u1 u9 v1 l2 v0",
        "voters=(1) learners=(2)",
    ),
    // The last effective change of an id counts.
    ("voters=(1)", "v2 l2", "voters=(1) learners=(2)"),
    ("voters=(1 2)", "v2 l2 r2 u2", "voters=(1)"),
    // Only a member that is removed before may not be added.
    ("voters=(1 2)", "v2 r2 v3 v0", "voters=(1 3)"),
    ("voters=(1 2)", "r2 u2 v3 l3 v3", "voters=(1 3)"),
    // All voters are exchanged at once.
    ("voters=(1 2)", "r1 r2 v3 v4", "voters=(3 4)"),
    // No voter is left, or there was none.
    ("voters=(1 2) learners=(3)", "r1 r2 r3", "voters=()"),
    ("voters=(1) learners=(3)", "l1", "voters=()"),
    ("voters=()", "v1", "voters=()"),
];

// The current configuration, changes that are refused, and why the first one is.
static REFUSED_CHANGES: [(&str, &str, TextFault); 15] = [
    ("voters=(1)&&(1 2)", "", TextFault::Empty),
    ("voters=(1)", " \n", TextFault::Empty),
    ("voters=(1 2 3)", "r7", TextFault::NotAMember(7)),
    ("voters=(1 2 3)", "v7 r7", TextFault::NotAMember(7)),
    ("voters=(1 2 3)", "r1 r0 r9", TextFault::NotAMember(0)),
    ("voters=(1 2 3)", "r3 v3", TextFault::AddedAgain(3)),
    ("voters=(1 2 3)", "r3 u3 l4 l3 r3", TextFault::AddedAgain(3)),
    ("voters=(1 2 3)", "l3 r3 l3", TextFault::AddedAgain(3)),
    (
        "voters=(1 2) learners=(3)",
        "r3 v3",
        TextFault::AddedAgain(3),
    ),
    (
        "voters=(2)&&(1 2) learners_next=(1)",
        "r1 l1",
        TextFault::AddedAgain(1),
    ),
    // The first change that is refused counts, whatever comes after it.
    ("voters=(1 2 3)", "r3 v3 r9", TextFault::AddedAgain(3)),
    ("voters=(1 2 3)", "r9 r3 v3", TextFault::NotAMember(9)),
    ("voters=(1 2 3)", "r3 r9 v3", TextFault::NotAMember(9)),
    ("voters=(1 2 3)", "r3 r2 v2 v3", TextFault::AddedAgain(2)),
    (
        "voters=()",
        "r18446744073709551615",
        TextFault::NotAMember(18446744073709551615),
    ),
];

// Texts that are neither a current configuration nor a target, and why.
static REFUSED: [(&str, TextFault); 21] = [
    ("voters=(1", TextFault::BadPrinted(IdHint::NONE)),
    ("voters=1", TextFault::BadPrinted(IdHint::NONE)),
    ("voters=(1 x)", TextFault::BadPrinted(IdHint::NONE)),
    ("voters=(1,2)", TextFault::CommasBetween(IdHint::NONE)),
    (
        "voters=(18446744073709551616)",
        TextFault::BadPrinted(IdHint::NONE),
    ),
    ("voters=(1) x", TextFault::BadPrinted(IdHint::NONE)),
    ("voters=(1)&&()", TextFault::BadPrinted(IdHint::NONE)),
    (
        "voters=(1) learners=()",
        TextFault::BadPrinted(IdHint::NONE),
    ),
    (
        "voters=(1) learners_next=(2) learners=(3)",
        TextFault::BadPrinted(IdHint::NONE),
    ),
    (
        "voters=(1)autoleave autoleave",
        TextFault::BadPrinted(IdHint::NONE),
    ),
    ("votersx=(1)", TextFault::BadPrinted(IdHint::NONE)),
    ("Voters:[1]", TextFault::BadConfState(IdHint::NONE)),
    ("{", TextFault::BadJson(IdHint::NONE)),
    ("{\"members\":1}", TextFault::BadJson(IdHint::NONE)),
    (
        "{\"members\":[{\"ID\":1},{\"ID\":\"2\"}]}",
        TextFault::TextIds(IdHint::NONE),
    ),
    ("{\"learners\":[\"\"]}", TextFault::TextIds(IdHint::NONE)),
    (
        "voters=(0)",
        TextFault::NotAConfiguration(Violation::ZeroId),
    ),
    (
        "voters=(1 1)",
        TextFault::NotAConfiguration(Violation::ListedTwice(1)),
    ),
    (
        "voters=(1 2) learners=(2)",
        TextFault::NotAConfiguration(Violation::LearnerAndVoter(2)),
    ),
    (
        "{\"members\":[{\"ID\":1},{\"ID\":1}]}",
        TextFault::NotAConfiguration(Violation::ListedTwice(1)),
    ),
    (
        "{\"members\":[{\"ID\":1},{\"ID\":1,\"isLearner\":true}]}",
        TextFault::NotAConfiguration(Violation::LearnerAndVoter(1)),
    ),
];

// Texts in no form of a configuration, with the first token that is not a change.
static OTHERS: [(&str, &str); 5] = [
    ("v2 v-1 x", "v-1"),
    ("v1 v 1", "v"),
    ("Voters=(1)", "Voters=(1)"),
    ("v18446744073709551616", "v18446744073709551616"),
    (
        "v1 abcdefghijklmnopqrstuvwxyz",
        "abcdefghijklmnopqrstuvwxyz",
    ),
];

// Texts whose first token that is not a change is a number.
static BARE: [(&str, &str); 2] = [
    ("1 2 4", "1"),
    ("r1 18446744073709551616", "18446744073709551616"),
];

fn current_in(alloc: Global, text: &str) -> Result<Current, TextFault>
    ensures { IfOk result (λ current. is_valid current.config ≡ true) }
{
    twice!(TextFault::NoMemory, read_current(alloc, text.as_bytes()))
}

fn current(alloc: Global, text: &str) -> Result<Config<InlineIds>, TextFault>
    ensures { IfOk result (λ c. is_valid c ≡ true) }
{
    Ok(current_in(alloc, text)?.config)
}

fn target(
    alloc: Global,
    now: &Config<InlineIds>,
    text: &str,
) -> Result<Config<InlineIds>, TextFault>
    requires { is_valid now.now ≡ true }
{
    twice!(
        TextFault::NoMemory,
        read_target(alloc, now, text.as_bytes())
    )
}

// Whether the target that a text denotes is this configuration.
fn is_target(
    alloc: Global,
    now: &Config<InlineIds>,
    text: &str,
    expected: &Config<InlineIds>,
) -> bool
    requires { is_valid now.now ≡ true }
{
    match target(alloc, now, text) {
        Ok(actual) => actual.same(expected),
        Err(_) => false,
    }
}

// Whether a text denotes this configuration, as the current one and as the target.
fn is_text_of(alloc: Global, config: &Config<InlineIds>, text: &str) -> bool
    requires { is_valid config.now ≡ true }
{
    match current(alloc, text) {
        Ok(others) => config.same(&others) & is_target(alloc, config, text, config),
        Err(_) => false,
    }
}

// Whether two texts denote the same configuration, as the current one and as the target.
fn is_same(alloc: Global, text: &str, other: &str) -> bool {
    match current(alloc, text) {
        Ok(config) => is_text_of(alloc, &config, other),
        Err(_) => false,
    }
}

fn changes_from(alloc: Global, now: &Config<InlineIds>, changes: &str, expected: &str) -> bool
    requires { is_valid now.now ≡ true }
{
    match current(alloc, expected) {
        Ok(expected) => is_target(alloc, now, changes, &expected),
        Err(_) => false,
    }
}

// Whether changes make this target of the current configuration.
fn changes_to(alloc: Global, now: &str, changes: &str, expected: &str) -> bool {
    match current(alloc, now) {
        Ok(now) => changes_from(alloc, &now, changes, expected),
        Err(_) => false,
    }
}

// Whether a text is refused as the target of this configuration.
fn is_no_target_of(alloc: Global, now: &str, text: &str, fault: TextFault) -> bool {
    match current(alloc, now) {
        Ok(now) => target(alloc, &now, text).err() == Some(fault),
        Err(_) => false,
    }
}

// Whether a text is refused as the target of a single voter.
fn is_no_target(alloc: Global, text: &str, fault: TextFault) -> bool {
    is_no_target_of(alloc, "voters=(1)", text, fault)
}

// Whether a text is refused as the current configuration.
fn is_no_current(alloc: Global, text: &str, fault: TextFault) -> bool {
    current(alloc, text).err() == Some(fault)
}

// Whether two texts denote the same configuration, whichever is the current one.
fn are_same(alloc: Global, text: &str, other: &str) -> bool {
    is_same(alloc, text, other) & is_same(alloc, other, text)
}

#[test]
fn reads_each_form(rt: HostRuntime) {
    for texts in [&SIMPLE[..], &JOINT[..], &EMPTY[..]] {
        for text in texts {
            holds_at(&rt, *text, are_same(rt.alloc(), texts[0], *text));
        }
    }
}

#[test]
fn reads_changes_as_the_target(rt: HostRuntime) {
    for (now, changes, expected) in &CHANGED {
        holds_at(
            &rt,
            *changes,
            changes_to(rt.alloc(), *now, *changes, *expected),
        );
    }
}

#[test]
fn refuses_changes(rt: HostRuntime) {
    for (now, changes, fault) in &REFUSED_CHANGES {
        holds_at(
            &rt,
            *changes,
            is_no_target_of(rt.alloc(), *now, *changes, *fault),
        );
    }
}

// Whether a text is refused as the current configuration, and as the target of a single voter.
fn is_refused(alloc: Global, text: &str, as_current: TextFault, as_target: TextFault) -> bool {
    is_no_current(alloc, text, as_current) & is_no_target(alloc, text, as_target)
}

#[test]
fn refuses_other_texts(rt: HostRuntime) {
    for (text, fault) in &REFUSED {
        holds_at(&rt, *text, is_refused(rt.alloc(), *text, *fault, *fault));
    }
    for (text, token) in &OTHERS {
        let fault = TextFault::BadChange(ShortToken::new(token.as_bytes()), IdHint::NONE);
        holds_at(
            &rt,
            *text,
            is_refused(rt.alloc(), *text, TextFault::UnknownForm, fault),
        );
    }
    for (text, token) in &BARE {
        let fault = TextFault::BareId(ShortToken::new(token.as_bytes()));
        holds_at(
            &rt,
            *text,
            is_refused(rt.alloc(), *text, TextFault::UnknownForm, fault),
        );
    }
}

// Texts, and whether they are lists of members.
static LISTS: [(&str, bool); 6] = [
    ("{\"members\":[{\"ID\":1}]}", true),
    (" {\"header\":{},\"members\":[]}\n", true),
    ("{\"voters\":[1],\"members\":[]}", true),
    ("{\"voters\":[1]}", false),
    (
        "Voters:[1] VotersOutgoing:[] Learners:[] LearnersNext:[] AutoLeave:false",
        false,
    ),
    ("voters=(1)", false),
];

// Whether a text is the current configuration, and a list of members or not.
fn is_list(alloc: Global, text: &str, expected: bool) -> bool {
    match current_in(alloc, text) {
        Ok(current) => current.is_member_list == expected,
        Err(_) => false,
    }
}

#[test]
fn finds_lists_of_members(rt: HostRuntime) {
    for (text, expected) in &LISTS {
        holds_at(&rt, *text, is_list(rt.alloc(), *text, *expected));
    }
}

// The ids that are down, two configurations, and the least of the ids that is a member of neither.
type Nonmember = (&'static [u64], &'static str, &'static str, Option<u64>);

static NONMEMBERS: [Nonmember; 6] = [
    (&[], "voters=(1)", "voters=(2)", None),
    (&[2, 1], "voters=(1)", "voters=(2)", None),
    (&[9, 7, 1], "voters=(1)", "voters=(2)", Some(7)),
    (
        &[1, 2, 3, 4],
        "voters=(2)&&(1 2) learners=(3) learners_next=(1)",
        "voters=(4)",
        None,
    ),
    (&[5], "voters=(2)&&(1 2)", "voters=(1) learners=(5)", None),
    (
        &[18446744073709551615, 0],
        "voters=(1)",
        "voters=(18446744073709551615)",
        Some(0),
    ),
];

// The least of the ids that are down and members of neither configuration.
fn nonmember(
    alloc: Global,
    down: &[u64],
    now: &Config<InlineIds>,
    target: &Config<InlineIds>,
) -> Option<u64> {
    let down = ids(alloc, down);
    first_nonmember(Some(&down), now, target)
}

fn has_nonmember_from(alloc: Global, now: &Config<InlineIds>, row: &Nonmember) -> bool {
    match current(alloc, row.2) {
        Ok(target) => nonmember(alloc, row.0, now, &target) == row.3,
        Err(_) => false,
    }
}

fn has_nonmember(alloc: Global, row: &Nonmember) -> bool {
    match current(alloc, row.1) {
        Ok(now) => has_nonmember_from(alloc, &now, row),
        Err(_) => false,
    }
}

#[test]
fn finds_nonmembers(rt: HostRuntime) {
    for (index, row) in NONMEMBERS.iter().enumerate() {
        holds_at(&rt, index, has_nonmember(rt.alloc(), row));
    }
}
