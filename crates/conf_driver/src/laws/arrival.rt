//! Laws of how a target is reached: each answer that is carried out brings it nearer, nothing is waited for that no
//! step needs, and if enough voters stay up, it is reached.
ghost use Rattle.std.specs.Prelude.{◌≡◌, ◌≢◌, ◌+◌, ◌<◌, ◌≤◌, ◌↔◌, ◌⊎◌, ◌&&◌, not, ℕ, true, false, List, length};
ghost use Rattle.quorum_sets.specs.Ids.{Ids, has, is_empty, size};
ghost use Rattle.quorum_sets.specs.Tolerance.{commits_without};
ghost use Rattle.conf_change.specs.Configuration.{Configuration, is_member, voters_of};
ghost use Rattle.conf_change.specs.declared.step.Step.{Step};
ghost use Rattle.conf_plan.specs.declared.strategy.Strategy.{Strategy};
ghost use Rattle.conf_driver.specs.declared.action.Action.{Action};
ghost use Rattle.conf_driver.specs.declared.action.Action.TheVariants.{Propose, Wait, Stuck, Done};
ghost use Rattle.conf_driver.specs.declared.action.StuckReason.{StuckReason};
ghost use Rattle.conf_driver.specs.declared.action.StuckReason.TheVariants.{QuorumLost, Stalls, Reused};
ghost use Rattle.conf_driver.specs.declared.action.WaitReason.TheVariants.{Heard};
ghost use Rattle.conf_driver.specs.CarriedOut.{AreAnswered, CarriedOut, IsAnswered};
ghost use Rattle.conf_driver.specs.Hopeful.{IsHopeful};
ghost use Rattle.conf_driver.specs.IdSets.{◌∩◌, ◌∖◌, just};
ghost use Rattle.conf_driver.specs.Leadership.{after_first_step};
ghost use Rattle.conf_driver.specs.MayPropose.{MayPropose};
ghost use Rattle.conf_driver.specs.Moment.{IsMoment, Moment};
ghost use Rattle.conf_driver.specs.Nearer.{left};
ghost use Rattle.conf_driver.specs.Next.{next_of};
ghost use Rattle.conf_driver.specs.Proposals.{CanAnswer};
ghost use Rattle.conf_driver.specs.View.{ViewState, voter_ids};

use crate::laws::{
    leadership_moves_to_who_may_lead, proposals_are_accepted, steps_keep_quorums,
    waits_name_who_lacks_what,
};
use conf_plan::laws::{
    fewer_uncounted_tolerate_more, next_path_is_shorter, one_change_each_leads, paths_keep_promises,
};
use quorum_sets::laws::most_down_by_counting;

/// Each answer that is carried out makes the number `left` smaller, so from any moment on, no more answers are carried
/// out than this number says. Each answer can be, except that all is done, that the target is not reached, and that an
/// id is named as down and heard from. Such an id is down, and the ids that are down are fewer without it.
pub fn answers_bring_done_nearer()
    ensures moment { (strategy : Strategy) (target : Configuration) (down : Ids)
        (now next : Moment) (answer : Action)
        → IsMoment strategy target now → IsAnswered strategy target down now answer next
        → IsMoment strategy target next }
    ensures nearer { (strategy : Strategy) (target : Configuration) (down : Ids)
        (now next : Moment) (answer : Action)
        → IsMoment strategy target now → IsAnswered strategy target down now answer next
        → left strategy target down next < left strategy target down now }
    ensures at_most { (strategy : Strategy) (target : Configuration) (down : Ids)
        (now last : Moment) (answers : List Action)
        → IsMoment strategy target now → AreAnswered strategy target down now answers last
        → length answers + left strategy target down last ≤ left strategy target down now }
    ensures possible { (strategy : Strategy) (target : Configuration) (down : Ids) (now : Moment)
        (answer : Action)
        → IsMoment strategy target now → next_of strategy target down now.view ≡ answer
        → answer ≢ Done
        → ((why : StuckReason) (ids : Ids) → answer ≢ Stuck why ids)
        → ((ids : Ids) → answer ≢ Wait Heard ids)
        → (next : Moment) × CarriedOut down now answer next }
    ensures heard { (strategy : Strategy) (target : Configuration) (down : Ids) (view : ViewState)
        (ids : Ids) (id : ℕ)
        → next_of strategy target down view ≡ Wait Heard ids → has ids id ≡ true
        → size (down ∖ just id) < size down }
{
    fewer_uncounted_tolerate_more();
    most_down_by_counting();
    next_path_is_shorter();
    one_change_each_leads();
    paths_keep_promises();
    waits_name_who_lacks_what();
}

/// A step is proposed exactly if nothing holds it up.
pub fn steps_are_proposed_in_time()
    ensures { (strategy : Strategy) (target : Configuration) (down : Ids) (view : ViewState)
        → CanAnswer strategy target view
        → ((step : Step) × (next_of strategy target down view ≡ Propose step))
        ↔ MayPropose target down view (after_first_step strategy target down view) }
{
    fewer_uncounted_tolerate_more();
    leadership_moves_to_who_may_lead();
    most_down_by_counting();
    one_change_each_leads();
    paths_keep_promises();
    proposals_are_accepted();
    steps_keep_quorums();
}

/// Where the answer is that the target is not reached, that is true. The voters that are not down are no quorum now,
/// which is answered exactly then; or they are a quorum now and none at the target; or the target has ids that do not
/// vote now and were stopped for good.
pub fn stuck_is_true()
    ensures quorum_lost { (strategy : Strategy) (target : Configuration) (down : Ids)
        (view : ViewState) (ids : Ids)
        → CanAnswer strategy target view → (next_of strategy target down view
        ≡ Stuck QuorumLost ids)
        ↔ ((commits_without (voters_of view.conf_state) down ≡ false)
        × (ids ≡ (voter_ids view.conf_state ∩ down))) }
    ensures stalls { (strategy : Strategy) (target : Configuration) (down : Ids) (view : ViewState)
        (ids : Ids)
        → CanAnswer strategy target view → next_of strategy target down view ≡ Stuck Stalls ids
        → (commits_without (voters_of view.conf_state) down ≡ true)
        × (commits_without (voters_of target) down ≡ false) }
    ensures some_reused { (strategy : Strategy) (target : Configuration) (down : Ids)
        (view : ViewState) (ids : Ids)
        → next_of strategy target down view ≡ Stuck Reused ids → is_empty ids ≡ false }
    ensures reused { (strategy : Strategy) (target : Configuration) (down : Ids) (view : ViewState)
        (ids : Ids) (id : ℕ)
        → next_of strategy target down view ≡ Stuck Reused ids → has ids id ≡ true
        → (is_member target id && not (has (voter_ids view.conf_state) id)
        && has view.retired id)
        ≡ true }
{
    fewer_uncounted_tolerate_more();
    most_down_by_counting();
    paths_keep_promises();
}

/// If the voters that are not down are a quorum now, after the change that is pending and at the target, and no member
/// of the target was stopped for good, this stays so while answers are carried out, and none of these is that the
/// target is not reached. Once no answer can be carried out, all is done, or an id is named as down and heard from.
pub fn done_is_reached()
    ensures never_stuck { (strategy : Strategy) (target : Configuration) (down : Ids)
        (now : Moment) (why : StuckReason) (ids : Ids)
        → IsMoment strategy target now → IsHopeful target down now
        → next_of strategy target down now.view ≢ Stuck why ids }
    ensures goes_on { (strategy : Strategy) (target : Configuration) (down : Ids)
        (now next : Moment) (answer : Action)
        → IsMoment strategy target now → IsHopeful target down now
        → IsAnswered strategy target down now answer next
        → IsHopeful target down next }
    ensures ends { (strategy : Strategy) (target : Configuration) (down : Ids) (now last : Moment)
        (answers : List Action)
        → IsMoment strategy target now → IsHopeful target down now
        → AreAnswered strategy target down now answers last
        → ((answer : Action) (next : Moment) → IsAnswered strategy target down last answer next → ⊥)
        → (next_of strategy target down last.view ≡ Done)
        ⊎ ((ids : Ids) × (next_of strategy target down last.view ≡ Wait Heard ids)) }
{
    fewer_uncounted_tolerate_more();
    most_down_by_counting();
    next_path_is_shorter();
    one_change_each_leads();
    paths_keep_promises();
}
