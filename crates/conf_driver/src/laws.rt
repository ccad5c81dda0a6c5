//! Laws of what [`next`](crate::next) answers, whatever it knows. Each is the contract of a function that does nothing.
ghost use Rattle.std.specs.Prelude.{◌≡◌, ◌≢◌, ◌+◌, ◌<◌, ◌≤◌, ◌↔◌, ◌⊎◌, ℕ, true, false, List, length};
ghost use Rattle.quorum_sets.specs.Ids.{Ids, has, is_empty};
ghost use Rattle.conf_change.specs.Configuration.{Configuration, is_member};
ghost use Rattle.conf_change.specs.declared.step.Step.{Step};
ghost use Rattle.conf_plan.specs.OnTheWay.{HasMembersOf, HasQuorumsOf, IsAsTolerant};
ghost use Rattle.conf_plan.specs.OneChangeEach.{one_change_each};
ghost use Rattle.conf_plan.specs.PathBy.{has_path, path_by};
ghost use Rattle.conf_plan.specs.Run.{Gives, IsValidWithVoter};
ghost use Rattle.conf_plan.specs.declared.strategy.Strategy.{Strategy};
ghost use Rattle.conf_plan.specs.declared.strategy.Strategy.TheVariants.{OneAtATime};
ghost use Rattle.conf_driver.specs.declared.action.Action.TheVariants.{Start, Stop, Transfer, Propose, Wait, Done};
ghost use Rattle.conf_driver.specs.declared.action.WaitReason.{WaitReason};
ghost use Rattle.conf_driver.specs.declared.action.WaitReason.TheVariants.{Behind, Unheard};
ghost use Rattle.conf_driver.specs.declared.view.MemberView.{MemberView};
ghost use Rattle.conf_driver.specs.AtTarget.{IsDone};
ghost use Rattle.conf_driver.specs.IdSets.{◌∪◌, ◌∖◌};
ghost use Rattle.conf_driver.specs.Leadership.{MayTakeOver, after_first_step};
ghost use Rattle.conf_driver.specs.Next.{next_of};
ghost use Rattle.conf_driver.specs.Proposals.{CanAnswer, IsFirstOfPath, KeepsQuorum};
ghost use Rattle.conf_driver.specs.Servers.{MayStart, MayStop};
ghost use Rattle.conf_driver.specs.View.{ViewState, heard_from, up_and_caught_up, voter_ids};
ghost use Rattle.conf_driver.specs.Waits.{HasCome, LacksWhatIsNamed};
ghost use Rattle.conf_driver.specs.WayToTarget.{IsWay};

pub mod arrival;

use conf_plan::laws::{
    fewer_uncounted_tolerate_more, next_path_is_shorter, one_change_each_leads, paths_keep_promises,
};
use quorum_sets::laws::most_down_by_counting;
use raft_json::laws::{etcd_carries_out_the_step, proposed_step_leads_alike};

/// A step is proposed only while no change is pending. It is the first of a path that keeps what its strategy promises,
/// and etcd's raft carries it out.
pub fn proposals_are_accepted()
    ensures not_pending { (strategy : Strategy) (target : Configuration) (down : Ids)
        (view : ViewState) (step : Step)
        → next_of strategy target down view ≡ Propose step → view.pending_conf_index ≡ 0 }
    ensures first { (strategy : Strategy) (target : Configuration) (down : Ids) (view : ViewState)
        (step : Step)
        → CanAnswer strategy target view → next_of strategy target down view ≡ Propose step
        → IsFirstOfPath strategy down view.conf_state target step }
{
    etcd_carries_out_the_step();
    one_change_each_leads();
    paths_keep_promises();
    proposed_step_leads_alike();
}

/// Leadership moves only if it has to: from one that does not vote, that loses its vote by the first step, or while a change
/// is pending, from one that is soon to lose it. It moves to a voter that is up and has caught up, and that votes after the
/// first step, or in the first and the last of these cases is an incoming voter. A step is proposed only by a leader that
/// votes after it.
pub fn leadership_moves_to_who_may_lead()
    ensures transfer { (strategy : Strategy) (target : Configuration) (down : Ids)
        (view : ViewState) (id : ℕ)
        → next_of strategy target down view ≡ Transfer id
        → MayTakeOver target down view (after_first_step strategy target down view) id }
    ensures proposal { (strategy : Strategy) (target : Configuration) (down : Ids)
        (view : ViewState) (step : Step)
        → CanAnswer strategy target view → next_of strategy target down view ≡ Propose step
        → has (voter_ids (after_first_step strategy target down view)) view.lead ≡ true }
{
    one_change_each_leads();
    steps_keep_quorums();
}

/// Nothing is kept between two calls, and nothing is done twice: once what was answered is done, the next answer is not
/// to start or to stop again. If a voter led and no change is pending, it is not to move leadership again; otherwise
/// leadership moves twice at most.
pub fn nothing_is_done_twice()
    ensures start { (strategy : Strategy) (target : Configuration) (down : Ids) (view : ViewState)
        (ids others : Ids)
        → next_of strategy target down view ≡ Start ids
        → next_of strategy target down (record view { running = view.running ∪ ids })
        ≢ Start others }
    ensures stop { (strategy : Strategy) (target : Configuration) (down : Ids) (view : ViewState)
        (ids others : Ids)
        → next_of strategy target down view ≡ Stop ids
        → next_of strategy target down (record view { running = view.running ∖ ids })
        ≢ Stop others }
    ensures transfer { (strategy : Strategy) (target : Configuration) (down : Ids)
        (view : ViewState) (id other : ℕ) → has (voter_ids view.conf_state) view.lead ≡ true
        → view.pending_conf_index ≡ 0
        → next_of strategy target down view ≡ Transfer id
        → next_of strategy target down (record view { lead = id }) ≢ Transfer other }
    ensures twice { (strategy : Strategy) (target : Configuration) (down : Ids) (view : ViewState)
        (id other third : ℕ) → next_of strategy target down view ≡ Transfer id
        → next_of strategy target down (record view { lead = id }) ≡ Transfer other
        → next_of strategy target down (record view { lead = other }) ≢ Transfer third }
{}

/// A server is stopped only if it is not a member on any path to the target, each member that is not down knows the
/// configuration in force, and the voters that are heard from are a quorum. One is started only if it is a member of the
/// target, does not run, does not vote, is not down, and was not stopped for good.
pub fn no_server_is_stopped_early()
    ensures stop { (strategy : Strategy) (target : Configuration) (down : Ids) (view : ViewState)
        (ids : Ids) (id : ℕ)
        → next_of strategy target down view ≡ Stop ids → has ids id ≡ true
        → MayStop target down view id }
    ensures start { (strategy : Strategy) (target : Configuration) (down : Ids) (view : ViewState)
        (ids : Ids) (id : ℕ)
        → next_of strategy target down view ≡ Start ids → has ids id ≡ true
        → MayStart target down view id }
{
    one_change_each_leads();
}

/// The answer is that all is done exactly if the target is reached, with all that has to have come with it.
pub fn done_is_done()
    ensures { (strategy : Strategy) (target : Configuration) (down : Ids) (view : ViewState)
        → CanAnswer strategy target view → (next_of strategy target down view ≡ Done)
        ↔ IsDone target down view }
{
    most_down_by_counting();
    one_change_each_leads();
}

/// While a step is made, who is up and has caught up is a quorum before and after it, and no fewer of them may fail than
/// before it or at the target. New voters were learners, and if they are not down, are up and have caught up. The voters
/// after it that are heard from and not down have caught up, and where it enters a joint configuration, all that are not
/// down have.
pub fn steps_keep_quorums()
    ensures { (strategy : Strategy) (target : Configuration) (down : Ids) (view : ViewState)
        (step : Step)
        (after : Configuration) → CanAnswer strategy target view → next_of strategy target down view
        ≡ Propose step
        → Gives view.conf_state step after
        → KeepsQuorum down (heard_from view) (up_and_caught_up down view) view.conf_state target
        after }
{
    fewer_uncounted_tolerate_more();
    most_down_by_counting();
    one_change_each_leads();
    paths_keep_promises();
}

/// After a step that is proposed the path has fewer steps. So while the same ids are down, the steps that are proposed,
/// and those by which raft leaves a joint configuration by itself on the way, are with those that are left at most as
/// many as the first path has. Once they are as many, the target is reached.
pub fn plans_end()
    ensures shorter { (strategy : Strategy) (target : Configuration) (down : Ids) (view : ViewState)
        (step : Step)
        (after : Configuration) → CanAnswer strategy target view → next_of strategy target down view
        ≡ Propose step
        → Gives view.conf_state step after
        → length (one_change_each (path_by strategy down after target))
        < length (one_change_each (path_by strategy down view.conf_state target)) }
    ensures at_most { (strategy : Strategy) (target : Configuration) (down : Ids)
        (now after : Configuration)
        (steps : List Step) → IsValidWithVoter now → IsValidWithVoter target
        → has_path strategy now target ≡ true
        → IsWay strategy target down now steps after
        → length steps + length (one_change_each (path_by strategy down after target))
        ≤ length (one_change_each (path_by strategy down now target)) }
    ensures arrives { (strategy : Strategy) (target : Configuration) (down : Ids)
        (now after : Configuration)
        (steps : List Step) → IsValidWithVoter now → IsValidWithVoter target
        → has_path strategy now target ≡ true
        → IsWay strategy target down now steps after
        → length steps ≡ length (one_change_each (path_by strategy down now target)) → after
        ≡ target }
{
    next_path_is_shorter();
    one_change_each_leads();
}

/// On a way on which the path is made anew before each step, each configuration keeps what paths keep: it tolerates as many
/// failures besides the ids that are down as both ends do, a quorum of both ends is one of it, unless members change one at
/// a time, and each of its members is one of the ends'.
pub fn ways_keep_promises()
    ensures tolerance { (strategy : Strategy) (target : Configuration) (down : Ids)
        (now after : Configuration)
        (steps : List Step) → IsValidWithVoter now → IsValidWithVoter target
        → has_path strategy now target ≡ true
        → IsWay strategy target down now steps after → IsAsTolerant down now target after }
    ensures quorums { (strategy : Strategy) (target : Configuration) (down : Ids)
        (now after : Configuration)
        (steps : List Step) → strategy ≢ OneAtATime → IsValidWithVoter now → IsValidWithVoter target
        → has_path strategy now target ≡ true → IsWay strategy target down now steps after
        → HasQuorumsOf now target after }
    ensures members { (strategy : Strategy) (target : Configuration) (down : Ids)
        (now after : Configuration)
        (steps : List Step) → IsValidWithVoter now → IsValidWithVoter target
        → has_path strategy now target ≡ true
        → IsWay strategy target down now steps after → HasMembersOf now target after }
    ensures valid { (strategy : Strategy) (target : Configuration) (down : Ids)
        (now after : Configuration)
        (steps : List Step) → IsValidWithVoter now → IsValidWithVoter target
        → has_path strategy now target ≡ true
        → IsWay strategy target down now steps after → IsValidWithVoter after }
{
    next_path_is_shorter();
    one_change_each_leads();
    paths_keep_promises();
}

/// A wait names an id at least. Each id that it names lacks what the reason states, and is a member or leads. Once one that
/// was not heard from, or had not caught up, is heard from and has, no wait names it, whatever is known of the others.
pub fn waits_name_who_lacks_what()
    ensures not_empty { (strategy : Strategy) (target : Configuration) (down : Ids)
        (view : ViewState) (why : WaitReason)
        (ids : Ids) → next_of strategy target down view ≡ Wait why ids → is_empty ids ≡ false }
    ensures named { (strategy : Strategy) (target : Configuration) (down : Ids) (view : ViewState)
        (why : WaitReason)
        (ids : Ids) (id : ℕ) → next_of strategy target down view ≡ Wait why ids → has ids id ≡ true
        → LacksWhatIsNamed why down view id }
    ensures members { (strategy : Strategy) (target : Configuration) (down : Ids) (view : ViewState)
        (why : WaitReason)
        (ids : Ids) (id : ℕ) → CanAnswer strategy target view → next_of strategy target down view
        ≡ Wait why ids
        → has ids id ≡ true → (is_member view.conf_state id ≡ true) ⊎ (id ≡ view.lead) }
    ensures over { (strategy : Strategy) (target : Configuration) (down : Ids) (view : ViewState)
        (why why_then : WaitReason)
        (ids ids_then : Ids) (id : ℕ) (progress : List MemberView) → (why ≡ Unheard)
        ⊎ (why ≡ Behind)
        → next_of strategy target down view ≡ Wait why ids → has ids id ≡ true
        → HasCome (record view { progress = progress }) id
        → next_of strategy target down (record view { progress = progress })
        ≡ Wait why_then ids_then
        → has ids_then id ≡ false }
{
    fewer_uncounted_tolerate_more();
    most_down_by_counting();
    one_change_each_leads();
    paths_keep_promises();
}
