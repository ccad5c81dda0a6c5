//! Saved configurations, and copies of configurations and changers.
use conf_change::{
    AckFault, Changer, ConfState, ConfStateFault, Config, ConfigurationFault, Floor, Progress,
    RestoreFault, Violation, check, conf_state, described, read_configuration, valid_configuration,
    write_conf_state,
};
use quorum_sets::{InlineIds, MemberSet, NoMemory, TreeIds};
use std::alloc::Global;
use test_support::equal::{is_same, is_same_state};
use test_support::restoring::{read, restored};
use test_support::shown::{Shown, TEN, is_shown};
use test_support::{appends, twice};

// A line, and what is printed of the changer that it restores.
static RESTORED: [(&str, Shown); 3] = [
    (
        "Voters:[1 2 3] VotersOutgoing:[1 2 4 6] Learners:[5] LearnersNext:[4] AutoLeave:false",
        (
            "voters=(1 2 3)&&(1 2 4 6) learners=(5) learners_next=(4)",
            &[
                "1: StateProbe match=0 next=1",
                "2: StateProbe match=0 next=1",
                "3: StateProbe match=0 next=1",
                "4: StateProbe match=0 next=1",
                "5: StateProbe match=0 next=1 learner",
                "6: StateProbe match=0 next=1",
            ],
        ),
    ),
    (
        "Voters:[1 2 3 4 5 6 7 8 9 10] VotersOutgoing:[1] Learners:[] LearnersNext:[] AutoLeave:true",
        ("voters=(1 2 3 4 5 6 7 8 9 10)&&(1) autoleave", TEN),
    ),
    (
        "Voters:[] VotersOutgoing:[] Learners:[] LearnersNext:[] AutoLeave:false",
        ("voters=()", &[]),
    ),
];

fn is_cloned<S: MemberSet>(config: &Config<S>) -> bool {
    match twice!(NoMemory, config.try_clone()) {
        Ok(copy) => copy.same(config),
        Err(_) => false,
    }
}

// Whether a configuration is copied and saved again as it was.
fn is_saved<S: MemberSet>(alloc: Global, config: &Config<S>, state: &ConfState) -> bool {
    let saves = match twice!(NoMemory, conf_state(alloc, config)) {
        Ok(saved) => is_same_state(&saved, state),
        Err(_) => false,
    };
    saves & is_cloned(config) & check(config).is_ok()
}

// Whether a saved form describes a configuration.
fn is_described<S: MemberSet>(alloc: Global, state: &ConfState, config: &Config<S>) -> bool {
    match twice!(RestoreFault::NoMemory, described::<S>(alloc, state)) {
        Ok(actual) => actual.same(config),
        Err(_) => false,
    }
}

// Whether a changer and its copy are equal and printed as this text.
fn is_copied<S: MemberSet>(alloc: Global, changer: &Changer<S>, shown: Shown) -> bool {
    match twice!(NoMemory, changer.try_clone()) {
        Ok(copy) => is_same(&copy, changer) & is_shown(alloc, &copy, shown),
        Err(_) => false,
    }
}

fn is_restored<S: MemberSet>(alloc: Global, state: &ConfState, shown: Shown) -> bool {
    match twice!(
        RestoreFault::NoMemory,
        Changer::<S>::restore(alloc, state, 0)
    ) {
        Ok(changer) => {
            is_saved(alloc, changer.tracker().config(), state)
                & is_described(alloc, state, changer.tracker().config())
                & is_copied(alloc, &changer, shown)
        }
        Err(_) => false,
    }
}

fn is_printed(alloc: Global, state: &ConfState, line: &str) -> bool {
    appends!(alloc, line, |text| write_conf_state(text, state))
}

fn is_line<S: MemberSet>(alloc: Global, line: &str, shown: Shown) -> bool {
    match read(alloc, line) {
        Ok(state) => { is_printed(alloc, &state, line) & is_restored::<S>(alloc, &state, shown) }
        Err(_) => false,
    }
}

// Whether a line is refused as a configuration.
fn is_refused<S: MemberSet>(alloc: Global, line: &str) -> bool {
    match read(alloc, line) {
        Ok(state) => {
            restored::<S>(alloc, &state, Floor::One).err() == Some(RestoreFault::NotAConfiguration)
        }
        Err(_) => false,
    }
}

fn is_no_line(alloc: Global, line: &str) -> bool {
    read(alloc, line).err() == Some(ConfStateFault::BadConfState)
}

#[test]
fn saves_and_restores(rt: HostRuntime) {
    for (index, (line, shown)) in RESTORED.iter().enumerate() {
        assert!(rt;
            is_line::<TreeIds>(rt.alloc(), *line, *shown)
                & is_line::<InlineIds>(rt.alloc(), *line, *shown),
            "row {index}"
        );
    }
}

#[test]
fn refuses_bad_lines(rt: HostRuntime) {
    let no_configuration =
        "Voters:[1 2 3] VotersOutgoing:[1 2 4 6] Learners:[5] LearnersNext:[7] AutoLeave:false";
    assert!(rt;
        is_refused::<InlineIds>(rt.alloc(), no_configuration)
            & is_no_line(rt.alloc(), "Voters:[1 2 3] VotersOutgoing:[1 2 x]")
    );
}

// A line, and why it is not a valid configuration.
static FAULTY: [(&str, ConfigurationFault); 4] = [
    (
        "Voters:[1] VotersOutgoing:[] Learners:[] LearnersNext:[]",
        ConfigurationFault::BadConfState,
    ),
    (
        "Voters:[1 2] VotersOutgoing:[5 4 4 6 5] Learners:[3 3] LearnersNext:[] AutoLeave:false",
        ConfigurationFault::NotAConfiguration(Violation::ListedTwice(5)),
    ),
    (
        "Voters:[1] VotersOutgoing:[] Learners:[] LearnersNext:[9 8 9] AutoLeave:true",
        ConfigurationFault::NotAConfiguration(Violation::ListedTwice(9)),
    ),
    (
        "Voters:[1 2] VotersOutgoing:[4] Learners:[7 4 2] LearnersNext:[] AutoLeave:false",
        ConfigurationFault::NotAConfiguration(Violation::LearnerAndVoter(2)),
    ),
];

// Why a line is not a valid configuration, if it is not.
fn fault_of<S: MemberSet>(alloc: Global, line: &str) -> Option<ConfigurationFault> {
    twice!(
        ConfigurationFault::NoMemory,
        read_configuration::<S>(alloc, line.as_bytes())
    )
    .err()
}

// Whether a line is parsed as the configuration that its saved form describes.
fn is_named<S: MemberSet>(alloc: Global, line: &str) -> bool {
    let Ok(state) = read(alloc, line) else {
        return false;
    };
    match twice!(
        ConfigurationFault::NoMemory,
        valid_configuration::<S>(alloc, &state)
    ) {
        Ok(config) => is_described(alloc, &state, &config) & fault_of::<S>(alloc, line).is_none(),
        Err(_) => false,
    }
}

fn is_faulty<S: MemberSet>(alloc: Global, line: &str, fault: ConfigurationFault) -> bool {
    fault_of::<S>(alloc, line) == Some(fault)
}

#[test]
fn reads_configurations(rt: HostRuntime) {
    for (index, (line, _)) in RESTORED.iter().enumerate() {
        assert!(rt;
            is_named::<TreeIds>(rt.alloc(), *line) & is_named::<InlineIds>(rt.alloc(), *line),
            "row {index}"
        );
    }
}

#[test]
fn refuses_lines_of_no_configuration(rt: HostRuntime) {
    for (index, (line, fault)) in FAULTY.iter().enumerate() {
        assert!(rt;
            is_faulty::<TreeIds>(rt.alloc(), *line, *fault)
                & is_faulty::<InlineIds>(rt.alloc(), *line, *fault),
            "row {index}"
        );
    }
}

// Whether members acknowledge indexes as expected, in a changer whose initial next index is 0. This does not allocate.
fn acknowledges<S: MemberSet>(changer: &mut Changer<S>) -> bool {
    let acked = changer.ack(3, 7);
    let again = changer.ack(3, 6);
    let not_a_member = changer.ack(9, u64::MAX);
    let greatest = changer.ack(3, u64::MAX);
    let progress = Progress {
        matched: 7,
        next: 8,
        learner: false,
    };
    (acked == Ok(progress))
        & (again == Ok(progress))
        & (not_a_member == Err(AckFault::NotMember))
        & (greatest == Err(AckFault::IndexTooLarge))
        & (changer.tracker().progress(3) == Some(progress))
        & (changer.floor() == Floor::Zero)
}

const BEGUN: Shown = (
    "voters=(3) learners=(1)",
    &[
        "1: StateProbe match=0 next=0 learner",
        "3: StateProbe match=0 next=0",
    ],
);

fn begins_with_zero<S: MemberSet>(alloc: Global, state: &ConfState) -> bool {
    match restored::<S>(alloc, state, Floor::Zero) {
        Ok(mut changer) => is_copied(alloc, &changer, BEGUN) & acknowledges(&mut changer),
        Err(_) => false,
    }
}

fn both_begin_with_zero(alloc: Global, line: &str) -> bool {
    match read(alloc, line) {
        Ok(state) => {
            begins_with_zero::<TreeIds>(alloc, &state)
                & begins_with_zero::<InlineIds>(alloc, &state)
        }
        Err(_) => false,
    }
}

#[test]
fn records_acknowledgements(rt: HostRuntime) {
    let line = "Voters:[3] VotersOutgoing:[] Learners:[1] LearnersNext:[] AutoLeave:false";
    assert!(rt; both_begin_with_zero(rt.alloc(), line));
}
