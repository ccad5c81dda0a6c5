//! The modes of the program, over a reader and a writer that do not allocate.
ghost use Rattle.std.specs.Prelude.{IfOk};
ghost use Rattle.dd_file.specs.Gathered.{NothingBuffered};
ghost use Rattle.conf_tool.specs.Ranges.{IsInRange};

use crate::matching::Matching;
use conf_change::{Floor, Violation};
use conf_plan::Strategy;
use conf_session::SessionIds;
use conf_tool::run::{run, run_and_flush, run_pair_and_flush};
use conf_tool::{
    Mode, Options, Origin, Output, PairArguments, PlanInputFault, PlanOptions, PlanOutput, Status,
    ToolFault,
};
use dd_file::blocks::Blocks;
use dd_file::device::{FromRead, Sink, Source, ToWrite};
use plan_input::{IdHint, TextFault};
use quorum_sets::{MemberSet, NoMemory};
use std::alloc::{AllocError, Global};
use test_support::twice;

const CHANGES: &[u8] = b"v1\nv2\nl3\nr1\nr2\n";

const ANSWERS: &[u8] = b"voters=(1)\n\
    voters=(1 2)\n\
    voters=(1 2) learners=(3)\n\
    voters=(2) learners=(3)\n\
    removed all voters\n";

// A script that checks clean, without its last newline and with it, and the script without its expected output.
const UNFINISHED: &[u8] = b"simple\nv1\n----\nvoters=(1)\n1: StateProbe match=0 next=1";

const WHOLE: &[u8] = b"simple\nv1\n----\nvoters=(1)\n1: StateProbe match=0 next=1\n";

const BARE: &[u8] = b"simple\nv1\n----";

const BARE_REPORT: &[u8] = b"1: simple\n\
    + voters=(1)\n\
    + 1: StateProbe match=0 next=1\n\
    1 directives, 1 mismatches\n";

const NONE_DIFFERS: &[u8] = b"1 directives, 0 mismatches\n";

const OLD: &[u8] = b"# c\n\nsimple\nv1 v2\n----\nold\n\nsimple\nv1\n";

const REWRITTEN: &[u8] = b"# c\n\
    \n\
    simple\n\
    v1 v2\n\
    ----\n\
    more than one voter changed without entering joint config\n\
    \n\
    simple\n\
    v1\n\
    ----\n\
    voters=(1)\n\
    1: StateProbe match=0 next=1\n";

// A script whose second change enters a joint configuration, and the script that undoes this change.
const ENTERED: &[u8] = b"simple\n\
    v1\n\
    ----\n\
    voters=(1)\n\
    1: StateProbe match=0 next=1\n\
    \n\
    enter-joint\n\
    r1 r2 r9 v2 v3 v4 v2 v3 v4 l2 l2 r4 r4 l1 l1\n\
    ----\n\
    voters=(3)&&(1) learners=(2) learners_next=(1)\n\
    1: StateProbe match=0 next=1\n\
    2: StateProbe match=0 next=1 learner\n\
    3: StateProbe match=0 next=1\n";

const BACK: &[u8] = b"leave-joint\n\
    ----\n\
    voters=(3) learners=(1 2)\n\
    1: StateProbe match=0 next=1 learner\n\
    2: StateProbe match=0 next=1 learner\n\
    3: StateProbe match=0 next=1\n\
    \n\
    enter-joint autoleave=false\n\
    v1 r2 r3\n\
    ----\n\
    voters=(1)&&(3)\n\
    1: StateProbe match=0 next=1\n\
    3: StateProbe match=0 next=1\n\
    \n\
    leave-joint\n\
    ----\n\
    voters=(1)\n\
    1: StateProbe match=0 next=1\n";

const NO_PLAN: &[u8] = b"# no plan: the earlier configuration has no voter\n";

// The current configuration and the target, and the plan from the one to the other.
const TWO: &[u8] = b"Voters:[1] VotersOutgoing:[2] Learners:[] LearnersNext:[] AutoLeave:true\n\
    Voters:[5] VotersOutgoing:[3 4] Learners:[] LearnersNext:[] AutoLeave:false";

const PLAN: &[u8] = b"leave-joint\n\
    enter-joint autoleave=false r1 v3 v4\n\
    leave-joint\n\
    enter-joint autoleave=false r3 r4 v5\n";

// A pair whose target has no voter.
const TO_EMPTY: &[u8] =
    b"Voters:[1] VotersOutgoing:[] Learners:[] LearnersNext:[] AutoLeave:false\n\
    Voters:[] VotersOutgoing:[] Learners:[] LearnersNext:[] AutoLeave:false\n";

const NO_TARGET: &[u8] = b"# no plan: the target has no voter\n";

// Pairs among comments and blank lines; the target of the second pair has no voter.
const PAIRS: &[u8] = b"# first\n\
    Voters:[1] VotersOutgoing:[] Learners:[] LearnersNext:[] AutoLeave:false\n\
    Voters:[2 1] VotersOutgoing:[] Learners:[] LearnersNext:[] AutoLeave:false\n\n\
    Voters:[1] VotersOutgoing:[] Learners:[] LearnersNext:[] AutoLeave:false\n  # target\n\
    Voters:[] VotersOutgoing:[] Learners:[1] LearnersNext:[] AutoLeave:false\n\
    Voters:[1] VotersOutgoing:[] Learners:[] LearnersNext:[] AutoLeave:false\n\
    {\"learners\":[2],\"voters\":[1],\"voters_outgoing\":null}\n \n";

const PLANS: &[u8] = b"simple v2\n\n# no plan: the target has no voter\n\nsimple l2\n";

// A pair whose target replaces a voter, and a pair in JSON whose target removes one.
const REPLACED: &[u8] =
    b"Voters:[1 2 3] VotersOutgoing:[] Learners:[] LearnersNext:[] AutoLeave:false\n\
    Voters:[1 2 4] VotersOutgoing:[] Learners:[] LearnersNext:[] AutoLeave:false\n\
    {\"voters\":[1,2]}\n{\"voters\":[1]}\n";

const LEARNERS_FIRST: &[u8] =
    b"simple l4\nenter-joint autoleave=false r3 v4\nleave-joint\n\nsimple r2\n";

const ONE_AT_A_TIME: &[u8] = b"simple l4\nsimple v4\nsimple r3\n\nsimple r2\n";

const TABLES: &[u8] =
    b"step                                 1 2 3 4  majority           may be down  catch up  until then\n\
    now                                  V V V .  2 of 3             1\n\
    1 enter-joint autoleave=false r3 v4  V V - +  2 of 3 and 2 of 3  1            4         0\n\
    2 leave-joint                        V V . V  2 of 3             1\n\
    \n\
    step         1 2  majority  may be down  catch up  until then\n\
    now          V V  2 of 2    0\n\
    1 simple r2  V .  1 of 1    0\n";

// A pair whose target removes a voter; its tables with the voter down that stays and with the one that is removed; and
// the JSON of its step.
const REMOVED: &[u8] =
    b"Voters:[1 2] VotersOutgoing:[] Learners:[] LearnersNext:[] AutoLeave:false\n{\"voters\":[1]}";

const STALLED: &[u8] = b"step         1 2  majority  may be down  catch up  until then  besides 1\n\
    now          V V  2 of 2    0                                  stalls\n\
    1 simple r2  V .  1 of 1    0                                  stalls\n";

const STALLED_AT_FIRST: &[u8] =
    b"step         1 2  majority  may be down  catch up  until then  besides 2\n\
    now          V V  2 of 2    0                                  stalls\n\
    1 simple r2  V .  1 of 1    0                                  0\n";

const OBJECT: &[u8] = b"{\"catch_up\":[],\
    \"conf_change\":{\"changes\":[{\"node_id\":2,\"type\":\"ConfChangeRemoveNode\"}],\"transition\":\"ConfChangeTransitionAuto\"},\
    \"conf_state\":{\"auto_leave\":false,\"learners\":[],\"learners_next\":[],\"voters\":[1],\"voters_outgoing\":[]},\
    \"down\":[2],\"may_be_down\":0,\"may_be_down_besides\":0,\"plan\":1,\"stalls\":true,\"step\":1,\"steps\":1,\"until_then\":0}\n";

// A pair with a path, one with nothing to do, and two that have no path by the strategy one-at-a-time.
const FOUR_PAIRS: &[u8] = b"{\"voters\":[1,2]}\n{\"voters\":[1]}\n\
    # the same\n\
    {\"voters\":[1]}\nVoters:[1] VotersOutgoing:[] Learners:[] LearnersNext:[] AutoLeave:false\n\
    {\"voters\":[1]}\n{\"voters\":[2],\"voters_outgoing\":[1]}\n\
    {\"voters\":[1]}\n{\"learners\":[1]}\n";

const OBJECTS: &[u8] = b"{\"catch_up\":[],\
    \"conf_change\":{\"changes\":[{\"node_id\":2,\"type\":\"ConfChangeRemoveNode\"}],\"transition\":\"ConfChangeTransitionAuto\"},\
    \"conf_state\":{\"auto_leave\":false,\"learners\":[],\"learners_next\":[],\"voters\":[1],\"voters_outgoing\":[]},\
    \"may_be_down\":0,\"plan\":1,\"step\":1,\"steps\":1,\"until_then\":0}\n\
    {\"plan\":2,\"steps\":0}\n\
    {\"no_plan\":\"the target is joint\",\"plan\":3}\n\
    {\"no_plan\":\"the target has no voter\",\"plan\":4}\n";

// A list of members, and another form of the same configuration, each with a target.
const LISTED: &[u8] =
    b"{\"members\":[{\"ID\":1},{\"ID\":2},{\"ID\":3}]}\nr3 v4\nvoters=(1 2 3)\nr3 v4\n";

const LISTED_PLANS: &[u8] =
    b"simple l4\nsimple v4\nsimple r3\n\nenter-joint autoleave=false r3 v4\nleave-joint\n";

const LISTED_SHORTEST: &[u8] =
    b"enter-joint autoleave=false r3 v4\nleave-joint\n\nenter-joint autoleave=false r3 v4\nleave-joint\n";

// A pair of which 3 is a member, and one of which it is not.
const WITHOUT_3: &[u8] =
    b"{\"voters\":[1,2,3]}\n{\"voters\":[1,2]}\n{\"voters\":[1,2]}\n\nvoters=(1)";

// Inputs whose last line has an error: it has no target, is not the JSON of a ConfState, or lists an id twice.
const HALF: &[u8] = b"{\"voters\":[1,2]}\n{\"voters\":[1]}\n{\"voters\":[1]}\n";

const BAD_JSON: &[u8] = b"{\"voters\":[1,2]}\n{\"voters\":[1,2]}\n\n{\"voters\":[1.0]}";

const TWICE: &[u8] = b"{\"voters\":[1,2]}\n\
    Voters:[1 1] VotersOutgoing:[] Learners:[] LearnersNext:[] AutoLeave:false";

// A cluster whose member 3 is to be started, and a line that is not an object.
const VIEWS: &[u8] =
    b"{\"conf_state\":{\"voters\":[1,2]},\"target\":{\"voters\":[1,2,3]},\"strategy\":\"learners-first\",\
    \"conf_index\":57,\"lead\":1,\"commit\":60,\"running\":[1,2],\
    \"progress\":[{\"id\":1,\"match\":60,\"recent_active\":true},{\"id\":2,\"match\":60,\"recent_active\":true}]}\n\
    [1]\n";

const ACTIONS: &[u8] =
    b"{\"action\":\"start\",\"ids\":[3]}\n{\"error\":\"not the JSON of an object\"}\n";

/// What is run: a mode with its default options, or `plan` with a strategy, if there is one, an output and the ids that
/// are down.
#[derive(Clone, Copy)]
pub(crate) enum Command {
    Lines,
    Check,
    Rewrite,
    Undo,
    Next,
    Plan(Option<Strategy>, PlanOutput, &'static [u64]),
}

const DEFAULT: Command = Command::Plan(None, PlanOutput::Text(Output::Steps), &[]);

const SHORTEST: Command = Command::Plan(
    Some(Strategy::Shortest),
    PlanOutput::Text(Output::Steps),
    &[],
);

/// A command, its input and its output, and how the run ends.
pub(crate) type Case = (
    Command,
    &'static [u8],
    &'static [u8],
    Result<Status, ToolFault>,
);

const CLEAN: Result<Status, ToolFault> = Ok(Status::Clean);

const DIFFERENT: Result<Status, ToolFault> = Ok(Status::Different);

/// The modes with their default options.
pub(crate) static MODES: [Case; 15] = [
    (Command::Lines, CHANGES, ANSWERS, CLEAN),
    (Command::Check, UNFINISHED, NONE_DIFFERS, CLEAN),
    (Command::Check, BARE, BARE_REPORT, DIFFERENT),
    (Command::Rewrite, UNFINISHED, WHOLE, CLEAN),
    (Command::Rewrite, BARE, WHOLE, CLEAN),
    (Command::Rewrite, OLD, REWRITTEN, CLEAN),
    (
        Command::Check,
        ENTERED,
        b"2 directives, 0 mismatches\n",
        CLEAN,
    ),
    (Command::Rewrite, ENTERED, ENTERED, CLEAN),
    (Command::Undo, ENTERED, BACK, CLEAN),
    (Command::Undo, UNFINISHED, NO_PLAN, DIFFERENT),
    (Command::Undo, BARE, NO_PLAN, DIFFERENT),
    (SHORTEST, TWO, PLAN, CLEAN),
    (SHORTEST, TO_EMPTY, NO_TARGET, DIFFERENT),
    (SHORTEST, PAIRS, PLANS, DIFFERENT),
    (Command::Next, VIEWS, ACTIONS, DIFFERENT),
];

/// `plan` with its options, and inputs with an error.
pub(crate) static PLANNED: [Case; 15] = [
    (DEFAULT, LISTED, LISTED_PLANS, CLEAN),
    (SHORTEST, LISTED, LISTED_SHORTEST, CLEAN),
    (
        Command::Plan(
            Some(Strategy::LearnersFirst),
            PlanOutput::Text(Output::Steps),
            &[],
        ),
        REPLACED,
        LEARNERS_FIRST,
        CLEAN,
    ),
    (
        Command::Plan(
            Some(Strategy::OneAtATime),
            PlanOutput::Text(Output::Steps),
            &[],
        ),
        REPLACED,
        ONE_AT_A_TIME,
        CLEAN,
    ),
    (
        Command::Plan(
            Some(Strategy::Shortest),
            PlanOutput::Text(Output::Table),
            &[],
        ),
        REPLACED,
        TABLES,
        CLEAN,
    ),
    (
        Command::Plan(
            Some(Strategy::Shortest),
            PlanOutput::Text(Output::Table),
            &[1],
        ),
        REMOVED,
        STALLED,
        DIFFERENT,
    ),
    (
        Command::Plan(
            Some(Strategy::OneAtATime),
            PlanOutput::Text(Output::Table),
            &[2, 2],
        ),
        REMOVED,
        STALLED_AT_FIRST,
        DIFFERENT,
    ),
    (
        Command::Plan(
            Some(Strategy::LearnersFirst),
            PlanOutput::Text(Output::Json),
            &[2],
        ),
        REMOVED,
        OBJECT,
        DIFFERENT,
    ),
    (
        Command::Plan(
            Some(Strategy::OneAtATime),
            PlanOutput::Text(Output::Json),
            &[],
        ),
        FOUR_PAIRS,
        OBJECTS,
        DIFFERENT,
    ),
    (
        Command::Plan(
            Some(Strategy::Shortest),
            PlanOutput::Text(Output::Steps),
            &[2],
        ),
        REMOVED,
        b"# no quorum with 2 down: no step can be made\nsimple r2\n",
        DIFFERENT,
    ),
    (
        Command::Plan(
            Some(Strategy::Shortest),
            PlanOutput::Text(Output::Steps),
            &[9, 8],
        ),
        REMOVED,
        b"",
        Err(ToolFault::Configurations(PlanInputFault::NotAMemberAt(2, 8))),
    ),
    (
        Command::Plan(None, PlanOutput::Text(Output::Steps), &[3]),
        WITHOUT_3,
        b"simple r3\n",
        Err(ToolFault::Configurations(PlanInputFault::NotAMemberAt(5, 3))),
    ),
    (
        SHORTEST,
        HALF,
        b"simple r2\n",
        Err(ToolFault::Configurations(PlanInputFault::NoTarget(Origin::Line(3)))),
    ),
    (
        Command::Plan(
            Some(Strategy::Shortest),
            PlanOutput::Text(Output::Json),
            &[],
        ),
        BAD_JSON,
        b"{\"plan\":1,\"steps\":0}\n",
        Err(ToolFault::Configurations(PlanInputFault::BadText(
            Origin::Line(4),
            TextFault::BadJson(IdHint::NONE),
        ))),
    ),
    (
        Command::Plan(
            Some(Strategy::LearnersFirst),
            PlanOutput::Text(Output::Table),
            &[],
        ),
        TWICE,
        b"",
        Err(ToolFault::Configurations(PlanInputFault::BadText(
            Origin::Line(2),
            TextFault::NotAConfiguration(Violation::ListedTwice(1)),
        ))),
    ),
];

fn mode_of(command: Command) -> Mode {
    match command {
        Command::Lines => Mode::Lines,
        Command::Check => Mode::Check,
        Command::Rewrite => Mode::Rewrite,
        Command::Undo => Mode::Undo,
        Command::Next => Mode::Next,
        Command::Plan(_, _, _) => Mode::Plan,
    }
}

// The ids that are down, if there are any.
fn down_of(alloc: Global, ids: &[u64]) -> Result<Option<SessionIds>, NoMemory> {
    if ids.is_empty() {
        Ok(None)
    } else {
        Ok(Some(twice!(NoMemory, SessionIds::of_list(alloc, ids))?))
    }
}

fn plan_options(alloc: Global, command: Command) -> Result<PlanOptions, NoMemory> {
    match command {
        Command::Plan(strategy, output, ids) => Ok(PlanOptions {
            strategy,
            output,
            down: down_of(alloc, ids)?,
        }),
        _ => Ok(PlanOptions::default()),
    }
}

fn options_of(alloc: Global, command: Command) -> Result<Options, NoMemory>
    ensures { IfOk result (λ options. IsInRange options) }
{
    Ok(Options {
        history: 100,
        steps: 1,
        floor: Floor::One,
        plan: plan_options(alloc, command)?,
    })
}

/// Runs a command.
pub(crate) fn run_command<R: Source, W: Sink>(
    alloc: Global,
    command: Command,
    reader: &mut R,
    writer: &mut W,
) -> Result<Status, ToolFault> {
    let options = options_of(alloc, command)?;
    run(alloc, mode_of(command), options, reader, writer)
}

/// Runs a command over blocks, and flushes them.
pub(crate) fn run_and_flush_command<R: Source, W: Sink>(
    alloc: Global,
    command: Command,
    reader: &mut R,
    writer: &mut Blocks<W>,
) -> Result<Status, ToolFault>
    requires { NothingBuffered writer.old }
{
    let options = options_of(alloc, command)?;
    run_and_flush(alloc, mode_of(command), options, reader, writer)
}

// How a run ends, and its writer.
fn outcome(alloc: Global, case: Case) -> (Result<Status, ToolFault>, Matching) {
    let (command, input, output, _) = case;
    let mut writer = ToWrite::new(Matching::with(output));
    let outcome = run_command(alloc, command, &mut FromRead::new(input), &mut writer);
    (outcome, writer.into_inner())
}

// Whether a run ends as expected and writes its output.
fn is_whole(alloc: Global, case: Case) -> bool {
    let (result, writer) = outcome(alloc, case);
    (result == case.3) & writer.is_whole()
}

// Whether a run ends as expected and writes its output. On `NoMemory` it has to write a prefix, and a second run the
// whole.
fn ends(alloc: Global, case: Case) -> bool {
    let (result, writer) = outcome(alloc, case);
    if result == Err(ToolFault::NoMemory) {
        writer.is_prefix() & is_whole(alloc, case)
    } else {
        (result == case.3) & writer.is_whole()
    }
}

#[test]
fn runs_each_mode(rt: HostRuntime) {
    for (index, case) in MODES.iter().enumerate() {
        assert!(rt; ends(rt.alloc(), *case), "row {index}");
    }
}

#[test]
fn runs_plan_with_each_option(rt: HostRuntime) {
    for (index, case) in PLANNED.iter().enumerate() {
        assert!(rt; ends(rt.alloc(), *case), "row {index}");
    }
}

fn blocks_for(alloc: Global, output: &'static [u8]) -> Result<Blocks<ToWrite<Matching>>, AllocError>
    ensures { IfOk result (λ blocks. NothingBuffered blocks) }
{
    twice!(_, Blocks::new(alloc, ToWrite::new(Matching::with(output))))
}

// How a run over blocks ends, and their writer.
fn outcome_over(
    alloc: Global,
    case: Case,
    mut blocks: Blocks<ToWrite<Matching>>,
) -> (Result<Status, ToolFault>, Matching)
    requires { NothingBuffered blocks }
{
    let (command, input, _, _) = case;
    let outcome = run_and_flush_command(alloc, command, &mut FromRead::new(input), &mut blocks);
    (outcome, blocks.into_inner().into_inner())
}

// Whether a run over blocks ends as expected and writes its output, or on `NoMemory` a prefix of it.
fn ends_over(alloc: Global, case: Case, blocks: Blocks<ToWrite<Matching>>) -> bool
    requires { NothingBuffered blocks }
{
    let (result, writer) = outcome_over(alloc, case, blocks);
    if result == Err(ToolFault::NoMemory) {
        writer.is_prefix()
    } else {
        (result == case.3) & writer.is_whole()
    }
}

fn ends_over_blocks(alloc: Global, case: Case) -> bool {
    match blocks_for(alloc, case.2) {
        Ok(blocks) => ends_over(alloc, case, blocks),
        Err(_) => false,
    }
}

#[test]
fn runs_each_mode_over_blocks(rt: HostRuntime) {
    for (index, case) in MODES.iter().enumerate() {
        assert!(rt; ends_over_blocks(rt.alloc(), *case), "row {index}");
    }
}

#[test]
fn runs_plan_with_each_option_over_blocks(rt: HostRuntime) {
    for (index, case) in PLANNED.iter().enumerate() {
        assert!(rt; ends_over_blocks(rt.alloc(), *case), "row {index}");
    }
}

// The values of `--from` and `--to`, the ids that are down, the output of `plan`, and how it ends.
type PairCase = (
    &'static str,
    &'static str,
    &'static [u64],
    &'static [u8],
    Result<Status, ToolFault>,
);

static TEXTS: [PairCase; 7] = [
    (
        "voters=(1 2 3)",
        "r1 v4",
        &[],
        b"enter-joint autoleave=false r1 v4\nleave-joint\n",
        CLEAN,
    ),
    ("voters=(1)&&(1 2)", "u1", &[], b"leave-joint\n", CLEAN),
    ("{\"voters\":[1]}", "r1", &[], NO_TARGET, DIFFERENT),
    (
        "{\"members\":[{\"ID\":1},{\"ID\":2},{\"ID\":3}]}",
        "r3 v4",
        &[3],
        b"simple r3\nsimple l4\nsimple v4\n",
        CLEAN,
    ),
    (
        "voters=(1 2 3)",
        "r1 v4",
        &[4, 5, 1],
        b"",
        Err(ToolFault::Configurations(PlanInputFault::NotAMember(5))),
    ),
    (
        "v1",
        "x",
        &[],
        b"",
        Err(ToolFault::Configurations(PlanInputFault::BadText(
            Origin::From,
            TextFault::UnknownForm,
        ))),
    ),
    (
        "voters=(1)",
        "{}}",
        &[],
        b"",
        Err(ToolFault::Configurations(PlanInputFault::BadText(
            Origin::To,
            TextFault::BadJson(IdHint::NONE),
        ))),
    ),
];

// How `plan` ends for a pair of texts, and the writer of the blocks.
fn pair_outcome(
    alloc: Global,
    case: PairCase,
    mut blocks: Blocks<ToWrite<Matching>>,
) -> (Result<Status, ToolFault>, Matching)
    requires { NothingBuffered blocks }
{
    let (from, to, ids, _, _) = case;
    let texts = PairArguments { from, to };
    let command = Command::Plan(None, PlanOutput::Text(Output::Steps), ids);
    let outcome = match plan_options(alloc, command) {
        Ok(options) => run_pair_and_flush(alloc, options, texts, &mut blocks),
        Err(_) => Err(ToolFault::NoMemory),
    };
    (outcome, blocks.into_inner().into_inner())
}

// Whether `plan` ends as expected for a pair of texts and writes its output, or on `NoMemory` a prefix of it.
fn ends_for_pair(alloc: Global, case: PairCase, blocks: Blocks<ToWrite<Matching>>) -> bool
    requires { NothingBuffered blocks }
{
    let (result, writer) = pair_outcome(alloc, case, blocks);
    if result == Err(ToolFault::NoMemory) {
        writer.is_prefix()
    } else {
        (result == case.4) & writer.is_whole()
    }
}

fn plans_for_texts(alloc: Global, case: PairCase) -> bool {
    match blocks_for(alloc, case.3) {
        Ok(blocks) => ends_for_pair(alloc, case, blocks),
        Err(_) => false,
    }
}

#[test]
fn plans_for_pairs_of_texts(rt: HostRuntime) {
    for (index, case) in TEXTS.iter().enumerate() {
        assert!(rt; plans_for_texts(rt.alloc(), *case), "row {index}");
    }
}
