//! Laws of this crate's definitions: what is true of all runs, plans and texts. A run is a list of steps that are
//! accepted one after another. Each law is the contract of a function that does nothing.
ghost use Rattle.std.specs.Prelude.{◌≡◌, ◌+◌, ◌<◌, ◌≤◌, ◌↔◌, ◌⊎◌, ℕ, true, ◌||◌, List, ◌∷◌, ◌++◌, length, map, Ok, Err, Some};
ghost use Rattle.std.specs.List.{All, join_with_byte};
ghost use Rattle.quorum_sets.specs.Ids.{Ids, has};
ghost use Rattle.quorum_sets.specs.Tolerance.{Tolerates};
ghost use Rattle.quorum_sets.specs.Voters.{Voters};
ghost use Rattle.conf_change.specs.Configuration.{Configuration};
ghost use Rattle.conf_change.specs.Changer.{ChangerState};
ghost use Rattle.conf_change.specs.ChangeList.{Denotes};
ghost use Rattle.conf_change.specs.Step.{changes_of};
ghost use Rattle.conf_change.specs.Transition.{steps_for};
ghost use Rattle.conf_change.specs.declared.change.Change.{Change};
ghost use Rattle.conf_change.specs.declared.refused.Refused.{Refused};
ghost use Rattle.conf_change.specs.declared.step.Step.{Step};
ghost use Rattle.conf_change.specs.declared.transition.Transition.{Transition};
ghost use Rattle.conf_plan.specs.declared.strategy.Strategy.{Strategy};
ghost use Rattle.conf_plan.specs.declared.strategy.Strategy.TheVariants.{Shortest};
ghost use Rattle.conf_plan.specs.declared.text.PlanTextFault.{PlanTextFault};
ghost use Rattle.conf_plan.specs.Best.{times_named, is_in, IsBest};
ghost use Rattle.conf_plan.specs.OneChangeEach.{one_change_each, LeadsChangeByChange};
ghost use Rattle.conf_plan.specs.PathBy.{has_path, path_by, KeepsPromises};
ghost use Rattle.conf_plan.specs.Planned.{planned};
ghost use Rattle.conf_plan.specs.PlanSteps.{HasU64Ids, IsPlan};
ghost use Rattle.conf_plan.specs.PlanText.{ParsesToPath, ParsesToPlan, HasPathFault, HasPlanFault, change_text, plan_text};
ghost use Rattle.conf_plan.specs.PlanCode.{path_in, plan_in};
ghost use Rattle.conf_plan.specs.Run.{Gives, IsRun, IsValidWithVoter, Takes, StopsAt, after_steps};

/// A run that starts at a valid configuration with a voter ends at one.
pub fn run_stays_valid()
    ensures { (before after : Configuration) (steps : List Step) → IsValidWithVoter before
        → IsRun before steps after
        → IsValidWithVoter after }
{}

/// The plan from one configuration to another is a run of at most four steps.
pub fn planned_is_run()
    ensures run { (now target : Configuration) → IsValidWithVoter now → IsValidWithVoter target
        → IsRun now (planned now target) target }
    ensures at_most_four { (now target : Configuration) → IsValidWithVoter now
        → IsValidWithVoter target
        → length (planned now target) ≤ 4 }
{}

/// The plan is the best run: the shortest, which preserves the progress of the most members and names each id in the
/// fewest changes.
pub fn planned_is_best()
    ensures { (now target : Configuration) → IsValidWithVoter now → IsValidWithVoter target
        → IsBest now (planned now target) target }
{}

/// Each strategy keeps its promises, whichever ids are down. On every path, no configuration tolerates fewer failures
/// besides these than the weaker end. The shortest path is the plan. The path with learners first is at most one step
/// longer. On these two, a quorum of both ends is a quorum of each configuration on the way. The path that changes one
/// member at a time has the fewest steps of its kind, and does not enter a joint configuration. On the last two, each
/// new voter was a learner with progress, no id that has to catch up is a voter, and the progress that any run to the
/// target preserves is preserved.
pub fn paths_keep_promises()
    ensures shortest { (down : Ids) (now target : Configuration)
        → path_by Shortest down now target ≡ planned now target }
    ensures promises { (strategy : Strategy) (down : Ids) (now target : Configuration)
        → IsValidWithVoter now
        → IsValidWithVoter target
        → has_path strategy now target ≡ true
        → KeepsPromises strategy down now (path_by strategy down now target) target }
{}

/// Each path leads to the target, too, if each change of its simple steps is a step of its own, as it is proposed to
/// etcd's raft. Each configuration on that way has the voters of one on the way of the path, so the quorums and the
/// tolerance that the path keeps are kept there, too. Its members are those of the ends. If each new voter on the path
/// was a learner with progress, and no voter has to catch up, so it is there.
pub fn one_change_each_leads()
    ensures { (strategy : Strategy) (down : Ids) (now target : Configuration) → IsValidWithVoter now
        → IsValidWithVoter target
        → has_path strategy now target ≡ true
        → LeadsChangeByChange now (path_by strategy down now target) target }
{}

/// A path that is made anew after its first step, or after the first change of a simple step, has at most as many steps
/// of one change as were left. So a way on which each step is the first of a path made anew ends, and is no longer than
/// the first path.
pub fn next_path_is_shorter()
    ensures shorter { (strategy : Strategy) (down : Ids) (now next target : Configuration)
        (step : Step)
        (rest : List Step) → IsValidWithVoter now → IsValidWithVoter target
        → has_path strategy now target ≡ true
        → one_change_each (path_by strategy down now target) ≡ step ∷ rest → Gives now step next
        → length (one_change_each (path_by strategy down next target)) ≤ length rest }
    ensures has_path { (strategy : Strategy) (down : Ids) (now next target : Configuration)
        (step : Step)
        (rest : List Step) → has_path strategy now target ≡ true
        → one_change_each (path_by strategy down now target) ≡ step ∷ rest
        → has_path strategy next target ≡ true }
    ensures valid { (now next : Configuration) (step : Step) → IsValidWithVoter now
        → Gives now step next
        → IsValidWithVoter next }
{}

/// If fewer voters are uncounted, at least as many ids may be down.
pub fn fewer_uncounted_tolerate_more()
    ensures { (voters : Voters) (fewer more : Ids) (k : ℕ)
        → ((id : ℕ) → (has voters.incoming id || has voters.outgoing id) ≡ true
        → has fewer id ≡ true
        → has more id ≡ true)
        → Tolerates voters more k → Tolerates voters fewer k }
{}

/// The plan from the end of any run leads back in at most four steps, and in at most three if the run has one step. The
/// step from (1 2 3) to (2 3 4)&&(1 2 3) is undone by leave-joint, enter-joint v1 r4 and leave-joint.
pub fn undo_of_run()
    ensures back { (before after : Configuration) (steps : List Step) → IsValidWithVoter before
        → IsRun before steps after
        → IsRun after (planned after before) before }
    ensures at_most_four { (before after : Configuration) (steps : List Step)
        → IsValidWithVoter before
        → IsRun before steps after
        → length (planned after before) ≤ 4 }
    ensures at_most_three { (before after : Configuration) (steps : List Step)
        → IsValidWithVoter before
        → IsRun before steps after
        → length steps ≡ 1 → length (planned after before) ≤ 3 }
{}

/// After any lists of changes, each applied with its transition, the plan leads back in at most four steps, and in at
/// most three after one list.
pub fn undo_of_changes()
    ensures back { (before after : Configuration) (lists : List (Transition × List Change))
        → IsValidWithVoter before
        → IsRun before (steps_for lists) after
        → IsRun after (planned after before) before }
    ensures at_most_four { (before after : Configuration) (lists : List (Transition × List Change))
        → IsValidWithVoter before → IsRun before (steps_for lists) after
        → length (planned after before) ≤ 4 }
    ensures at_most_three { (before after : Configuration) (lists : List (Transition × List Change))
        → IsValidWithVoter before → IsRun before (steps_for lists) after
        → length lists ≡ 1 → length (planned after before) ≤ 3 }
{}

/// Taking steps is deterministic, and `after_steps` is the result. A changer can take every run from its configuration.
pub fn one_changer_after_steps()
    ensures taken { (before after : ChangerState) (steps : List Step) → (Takes before steps after)
        ↔ (after_steps before steps ≡ Some after) }
    ensures run { (before : ChangerState) (steps : List Step) (target : Configuration)
        → IsRun before.tracker.config steps target
        → (after : ChangerState) × (after_steps before steps ≡ Some after)
        × (after.tracker.config ≡ target) }
{}

/// Steps taken in parts are the steps taken at once: the first ones lead to where the rest goes on, and the rest ends
/// where all of them do. If a part stops, so do all of them, at the same step: it counts the steps of the first part too.
pub fn parts_are_the_whole()
    ensures taken { (before after : ChangerState) (first rest : List Step)
        → (Takes before (first ++ rest) after)
        ↔ ((between : ChangerState) × Takes before first between × Takes between rest after) }
    ensures run { (before after : Configuration) (first rest : List Step)
        → (IsRun before (first ++ rest) after)
        ↔ ((between : Configuration) × IsRun before first between × IsRun between rest after) }
    ensures first_stops { (before after : ChangerState) (first rest : List Step) (number : ℕ)
        (why : Refused)
        → StopsAt before first number why after → StopsAt before (first ++ rest) number why after }
    ensures rest_stops { (before between after : ChangerState) (first rest : List Step) (number : ℕ)
        (why : Refused)
        → Takes before first between → StopsAt between rest number why after
        → StopsAt before (first ++ rest) (length first + number) why after }
{}

/// Each id of the configuration after a run is one of the configuration before it, or is named by a step.
pub fn ids_are_named()
    ensures { (before after : Configuration) (steps : List Step) (id : ℕ) → IsRun before steps after
        → is_in after id ≡ true → (is_in before id ≡ true) ⊎ (0 < times_named id steps) }
{}

/// A text is either parsed as exactly one path or has exactly one error, and the parser returns it. The printed text of
/// a path, of any length, is parsed as its steps alone. The ids that are parsed have 64 bits.
pub fn one_path_per_text()
    ensures ok { (text : List ℕ) (steps : List Step) → (ParsesToPath text steps)
        ↔ (path_in text ≡ Ok steps) }
    ensures err { (text : List ℕ) (fault : PlanTextFault) → (HasPathFault text fault)
        ↔ (path_in text ≡ Err fault) }
    ensures each { (text : List ℕ) → ((steps : List Step) × ParsesToPath text steps)
        ⊎ ((fault : PlanTextFault) × HasPathFault text fault) }
    ensures one { (text : List ℕ) (a b : List Step) → ParsesToPath text a → ParsesToPath text b
        → a ≡ b }
    ensures printed { (steps other : List Step) → All HasU64Ids steps
        → (ParsesToPath (plan_text steps) other)
        ↔ (other ≡ steps) }
    ensures u64_ids { (text : List ℕ) (steps : List Step) → ParsesToPath text steps
        → All HasU64Ids steps }
{}

/// A text is either parsed as exactly one plan, a path of at most four steps, or has exactly one error, and the parser
/// returns it. The printed text of a plan is parsed as the plan, and the printed changes of a step as these changes.
pub fn one_plan_per_text()
    ensures ok { (text : List ℕ) (steps : List Step) → (ParsesToPlan text steps)
        ↔ (plan_in text ≡ Ok steps) }
    ensures err { (text : List ℕ) (fault : PlanTextFault) → (HasPlanFault text fault)
        ↔ (plan_in text ≡ Err fault) }
    ensures each { (text : List ℕ) → ((steps : List Step) × ParsesToPlan text steps)
        ⊎ ((fault : PlanTextFault) × HasPlanFault text fault) }
    ensures one { (text : List ℕ) (a b : List Step) → ParsesToPlan text a → ParsesToPlan text b
        → a ≡ b }
    ensures printed { (steps : List Step) → IsPlan steps → ParsesToPlan (plan_text steps) steps }
    ensures changes { (step : Step) → HasU64Ids step
        → Denotes (join_with_byte 32 (map change_text (changes_of step))) (changes_of step) }
{}
