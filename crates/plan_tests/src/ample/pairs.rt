//! All pairs of configurations of three ids without auto-leave: how many steps the path by each strategy has, compared
//! with a search of all runs.
ghost use Rattle.std.specs.Prelude.{◌≡◌, ◌≤◌, true};
ghost use Rattle.conf_change.specs.Configuration.{is_valid};

use crate::ample::configurations::config_of;
use crate::assertions::holds_at;
use conf_change::{Change, Changer, Config, Kind, Step, StepKind, check, conf_state};
use conf_plan::{NoPath, Path, Strategy, plan_by};
use quorum_sets::{MemberSet, TreeIds};
use test_support::runtime::Runtime;

// Each configuration has a code below this: a digit for the roles of each id.
const CODES: usize = 216;

// More steps than any run needs.
const NOWHERE: usize = 99;

fn put(rt: &impl Runtime, ids: &mut TreeIds, id: u64) {
    ids.insert(id).expect(rt, "an id");
}

// The digits: 0 not a member, 1 an incoming voter, 2 an outgoing voter, 3 both, 4 a learner, 5 an outgoing voter that
// is a next learner.
fn put_as(rt: &impl Runtime, config: &mut Config<TreeIds>, roles: usize, id: u64) {
    if roles == 1 || roles == 3 {
        put(rt, &mut config.incoming, id);
    }
    if roles == 2 || roles == 3 || roles == 5 {
        put(rt, &mut config.outgoing, id);
    }
    if roles == 4 {
        put(rt, &mut config.learners, id);
    }
    if roles == 5 {
        put(rt, &mut config.learners_next, id);
    }
}

fn config_of_code(rt: &impl Runtime, code: usize) -> Config<TreeIds> {
    let mut config = config_of(rt, [&[], &[], &[], &[]], false);
    put_as(rt, &mut config, code % 6, 1);
    put_as(rt, &mut config, code / 6 % 6, 2);
    put_as(rt, &mut config, code / 36 % 6, 3);
    config
}

fn roles_of(config: &Config<TreeIds>, id: u64) -> usize
    ensures { result ≤ 5 }
{
    let votes = config.incoming.contains(id);
    if config.learners_next.contains(id) {
        5
    } else if config.learners.contains(id) {
        4
    } else if config.outgoing.contains(id) {
        if votes { 3 } else { 2 }
    } else if votes {
        1
    } else {
        0
    }
}

fn code_of(config: &Config<TreeIds>) -> usize {
    roles_of(config, 1) + 6 * roles_of(config, 2) + 36 * roles_of(config, 3)
}

// Whether the configuration is valid, and has a voter.
fn is_counted(config: &Config<TreeIds>) -> bool {
    check(config).is_ok() && config.incoming.len() != 0
}

fn changer_at(rt: &impl Runtime, config: &Config<TreeIds>) -> Changer<TreeIds> {
    let state = conf_state(rt.alloc(), config).expect(rt, "a saved configuration");
    Changer::restore(rt.alloc(), &state, 0).expect(rt, "a changer")
}

// The code of the configuration that a step leads to, if the step is accepted.
fn next_code(
    rt: &impl Runtime,
    before: &Changer<TreeIds>,
    kind: StepKind,
    changes: &[Change],
) -> Option<usize> {
    let mut after = Changer::new(rt.alloc(), 0);
    let is_accepted = after.become_next(before, kind, changes).is_ok();
    let code = code_of(after.tracker().config());
    is_accepted.then_some(code)
}

// Adds the configuration that a step leads to, if the step is accepted.
fn add_next(
    rt: &impl Runtime,
    nexts: &mut Vec<usize>,
    before: &Changer<TreeIds>,
    kind: StepKind,
    changes: &[Change],
) {
    if let Some(code) = next_code(rt, before, kind, changes) {
        nexts.push(code).expect(rt, "a code");
    }
}

fn add_change(rt: &impl Runtime, changes: &mut Vec<Change>, digit: usize, id: u64) {
    let kind = match digit {
        1 => Some(Kind::Voter),
        2 => Some(Kind::Learner),
        3 => Some(Kind::Remove),
        _ => None,
    };
    if let Some(kind) = kind {
        changes.push(Change { kind, id }).expect(rt, "a change");
    }
}

// At most one change of each id.
fn changes_of(rt: &impl Runtime, digits: usize) -> Vec<Change> {
    let mut changes = Vec::new(rt.alloc());
    add_change(rt, &mut changes, digits % 4, 1);
    add_change(rt, &mut changes, digits / 4 % 4, 2);
    add_change(rt, &mut changes, digits / 16 % 4, 3);
    changes
}

// The codes of the configurations after each accepted step, except steps that enter with auto-leave.
fn all_nexts(rt: &impl Runtime, before: &Changer<TreeIds>) -> Vec<usize> {
    let mut nexts = Vec::new(rt.alloc());
    add_next(rt, &mut nexts, before, StepKind::Leave, &[]);
    for digits in 0..64 {
        let changes = changes_of(rt, digits);
        add_next(rt, &mut nexts, before, StepKind::Simple, &changes);
        add_next(rt, &mut nexts, before, StepKind::Enter(false), &changes);
    }
    nexts
}

fn add_change_of(
    rt: &impl Runtime,
    nexts: &mut Vec<usize>,
    before: &Changer<TreeIds>,
    kind: Kind,
    id: u64,
) {
    add_next(rt, nexts, before, StepKind::Simple, &[Change { kind, id }]);
}

// The codes of the configurations after leaving a joint one, and after each accepted simple step of one change. Such a
// step makes only learners voters.
fn single_nexts(rt: &impl Runtime, before: &Changer<TreeIds>) -> Vec<usize> {
    let mut nexts = Vec::new(rt.alloc());
    add_next(rt, &mut nexts, before, StepKind::Leave, &[]);
    for id in [1, 2, 3] {
        if before.tracker().config().learners.contains(id) {
            add_change_of(rt, &mut nexts, before, Kind::Voter, id);
        }
        add_change_of(rt, &mut nexts, before, Kind::Learner, id);
        add_change_of(rt, &mut nexts, before, Kind::Remove, id);
    }
    nexts
}

// The configurations, and where the steps of each kind lead from each.
#[derive(Drop)]
struct Graph {
    configs: Vec<Config<TreeIds>>,
    all: Vec<Vec<usize>>,
    single: Vec<Vec<usize>>,
}

fn nexts_of(rt: &impl Runtime, config: &Config<TreeIds>) -> (Vec<usize>, Vec<usize>) {
    if is_counted(config) {
        let changer = changer_at(rt, config);
        (all_nexts(rt, &changer), single_nexts(rt, &changer))
    } else {
        (Vec::new(rt.alloc()), Vec::new(rt.alloc()))
    }
}

fn add_config(rt: &impl Runtime, graph: &mut Graph, config: Config<TreeIds>) {
    let (all, single) = nexts_of(rt, &config);
    graph.configs.push(config).expect(rt, "a configuration");
    graph.all.push(all).expect(rt, "codes");
    graph.single.push(single).expect(rt, "codes");
}

fn graph_of_all(rt: &impl Runtime) -> Graph {
    let mut graph = Graph {
        configs: Vec::new(rt.alloc()),
        all: Vec::new(rt.alloc()),
        single: Vec::new(rt.alloc()),
    };
    for code in 0..CODES {
        add_config(rt, &mut graph, config_of_code(rt, code));
    }
    graph
}

fn add_nexts(distances: &mut Vec<usize>, nexts: &[usize], steps: usize) {
    for next in nexts {
        if let Some(known) = distances.get_mut(*next) {
            if *known > steps {
                *known = steps;
            }
        }
    }
}

// Adds the configurations that are one step away from those at this many steps.
fn add_round(distances: &mut Vec<usize>, edges: &[Vec<usize>], steps: usize)
    requires { steps ≤ 10 }
{
    for (code, nexts) in edges.iter().enumerate() {
        if distances.get(code).copied() == Some(steps) {
            add_nexts(distances, nexts, steps + 1);
        }
    }
}

// The least number of steps from a configuration to each other one.
fn fewest_steps(rt: &impl Runtime, edges: &[Vec<usize>], from: usize) -> Vec<usize> {
    let mut distances = vec![in rt.alloc(); NOWHERE; CODES].expect(rt, "numbers");
    add_nexts(&mut distances, &[from], 0);
    for steps in 0..10 {
        add_round(&mut distances, edges, steps);
    }
    distances
}

fn is_accepted(changer: &mut Changer<TreeIds>, step: Option<&Step>) -> bool {
    match step {
        Some(step) => changer.step(step).is_ok(),
        None => false,
    }
}

fn leads_from(changer: &mut Changer<TreeIds>, target: &Config<TreeIds>, path: &Path) -> bool {
    let mut is_so = true;
    for index in 0..path.len() {
        is_so &= is_accepted(changer, path.step(index));
    }
    is_so & changer.tracker().config().same(target)
}

fn leads(rt: &impl Runtime, now: &Config<TreeIds>, target: &Config<TreeIds>, path: &Path) -> bool {
    leads_from(&mut changer_at(rt, now), target, path)
}

// How many steps the path by a strategy has; `NOWHERE` if it does not lead to the target.
fn steps_by(
    rt: &impl Runtime,
    strategy: Strategy,
    now: &Config<TreeIds>,
    target: &Config<TreeIds>,
) -> Result<usize, NoPath>
    requires now { is_valid now.now ≡ true }
    requires target { is_valid target.now ≡ true }
{
    let path = plan_by(rt.alloc(), strategy, now, target, None)?;
    Ok(if leads(rt, now, target, &path) {
        path.len()
    } else {
        NOWHERE
    })
}

// Whether the paths between two configurations have the right number of steps: the fewest of all runs, at most one
// more, and the fewest of the runs of single changes, if there is such a run.
fn is_pair(
    rt: &impl Runtime,
    now: &Config<TreeIds>,
    target: &Config<TreeIds>,
    fewest: usize,
    fewest_single: usize,
) -> bool
    requires now { is_valid now.now ≡ true }
    requires target { is_valid target.now ≡ true }
{
    let single = if fewest_single == NOWHERE {
        Err(NoPath::JointTarget)
    } else {
        Ok(fewest_single)
    };
    let is_near = match steps_by(rt, Strategy::LearnersFirst, now, target) {
        Ok(steps) => steps.saturating_sub(1) <= fewest,
        Err(_) => false,
    };
    (steps_by(rt, Strategy::Shortest, now, target) == Ok(fewest))
        & is_near
        & (steps_by(rt, Strategy::OneAtATime, now, target) == single)
}

fn are_pairs(rt: &impl Runtime, graph: &Graph, from: usize, now: &Config<TreeIds>) -> bool
    requires now { is_valid now.now ≡ true }
{
    let fewest = fewest_steps(rt, &graph.all, from);
    let fewest_single = fewest_steps(rt, &graph.single, from);
    let mut is_so = true;
    for (code, target) in graph.configs.iter().enumerate() {
        if check(target).is_ok() && target.incoming.len() != 0 {
            let steps = fewest.get(code).copied().unwrap_or(NOWHERE);
            let single = fewest_single.get(code).copied().unwrap_or(NOWHERE);
            is_so &= is_pair(rt, now, target, steps, single);
        }
    }
    is_so
}

#[test]
fn paths_have_the_fewest_steps(rt: HostRuntime) {
    let graph = graph_of_all(&rt);
    for (code, now) in graph.configs.iter().enumerate() {
        if check(now).is_ok() && now.incoming.len() != 0 {
            holds_at(&rt, code, are_pairs(&rt, &graph, code, now));
        }
    }
}
