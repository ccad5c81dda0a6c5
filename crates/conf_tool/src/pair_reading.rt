//! The texts of which the mode `plan` makes its pairs.
ghost use Rattle.std.specs.Prelude.{◌≡◌, true, Ok, IfOk, IfErr};
ghost use Rattle.conf_change.specs.Configuration.{is_valid};
ghost use Rattle.plan_input.specs.Input.{target_in};
ghost use Rattle.conf_tool.specs.Pairs as spec;
ghost use Rattle.conf_tool.specs.Pairs.{is_skipped, strategy_from, current_written, pair_between, pair_from, written_at, IsFaultOf};

use crate::origin::Origin;
use crate::pair::Current;
use crate::plan_input_fault::PlanInputFault;
use crate::plan_options::PlanOptions;
use crate::tool_fault::ToolFault;
use ascii_text::white_space::is_blank;
use conf_change::Config;
use conf_plan::Strategy;
use conf_session::SessionIds;
use dd_file::line_kinds::is_comment;
use plan_input::{TextFault, first_nonmember, read_current, read_target};
use std::alloc::Global;

/// Whether the line is blank or a comment, as in a script.
pub(crate) fn is_skipped(line: &[u8]) -> bool
    ensures { result ≡ is_skipped line.now }
{
    is_blank(line) || is_comment(line)
}

/// The current configuration in the text that is written there, with the strategy of the plan from it.
pub(crate) fn current_of(
    alloc: Global,
    options: &PlanOptions,
    origin: Origin,
    text: &[u8],
) -> Result<Current, ToolFault>
    ensures current { IfOk result (λ current. current_written options.now origin text.now
        ≡ Ok current) }
    ensures valid { IfOk result (λ current. is_valid current.config ≡ true) }
    ensures fault { IfErr result (IsFaultOf (current_written options.now origin text.now)) }
{
    match read_current(alloc, text) {
        Ok(read) => Ok(Current {
            origin,
            strategy: strategy_from(options.strategy, read.is_member_list),
            config: read.config,
        }),
        Err(TextFault::NoMemory) => Err(ToolFault::NoMemory),
        Err(fault) => Err(ToolFault::Configurations(PlanInputFault::BadText(origin, fault))),
    }
}

// The strategy of the plan from a configuration: the one that is given, or else one-at-a-time for a list of members as
// etcdctl prints it, and shortest for any other text.
fn strategy_from(given: Option<Strategy>, is_member_list: bool) -> Strategy
    ensures { result ≡ strategy_from given is_member_list }
{
    match given {
        Some(strategy) => strategy,
        None if is_member_list => Strategy::OneAtATime,
        None => Strategy::Shortest,
    }
}

/// The target in the text that is written there, with which a current configuration is a pair.
pub(crate) fn target_of(
    alloc: Global,
    options: &PlanOptions,
    current: &Current,
    origin: Origin,
    text: &[u8],
) -> Result<Config<SessionIds>, ToolFault>
    requires { is_valid current.now.config ≡ true }
    ensures pair { IfOk result (λ target.
        pair_from options.now origin text.now current.now ≡ Ok (pair_between current.now target)) }
    ensures valid { IfOk result (λ target. is_valid target ≡ true) }
    ensures fault { IfErr result (IsFaultOf (pair_from options.now origin text.now current.now)) }
{
    let target = written_target(alloc, origin, &current.config, text)?;
    match first_nonmember(options.down.as_ref(), &current.config, &target) {
        Some(id) => Err(ToolFault::Configurations(not_member(origin, id))),
        None => Ok(target),
    }
}

// The target in the text that is written there.
fn written_target(
    alloc: Global,
    origin: Origin,
    now: &Config<SessionIds>,
    text: &[u8],
) -> Result<Config<SessionIds>, ToolFault>
    requires { is_valid now.now ≡ true }
    ensures configuration { IfOk result (λ c. written_at origin (target_in now.now text.now)
        ≡ Ok c) }
    ensures valid { IfOk result (λ c. is_valid c ≡ true) }
    ensures fault { IfErr result (IsFaultOf (written_at origin (target_in now.now text.now))) }
{
    match read_target(alloc, now, text) {
        Ok(config) => Ok(config),
        Err(TextFault::NoMemory) => Err(ToolFault::NoMemory),
        Err(fault) => Err(ToolFault::Configurations(PlanInputFault::BadText(origin, fault))),
    }
}

// The error that an id is down and not a member: in the line of the target, or on the command line.
fn not_member(origin: Origin, id: u64) -> PlanInputFault
    ensures { result ≡ spec.not_member origin id }
{
    match origin {
        Origin::Line(line) => PlanInputFault::NotAMemberAt(line, id),
        Origin::From | Origin::To => PlanInputFault::NotAMember(id),
    }
}
