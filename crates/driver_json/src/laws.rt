//! Laws of this crate's definitions. Each is the contract of a function that does nothing.
ghost use Rattle.std.specs.Prelude.{◌≡◌, codes, Some};
ghost use Rattle.conf_change.specs.ConfState.{lists_of};
ghost use Rattle.conf_change.specs.declared.step.Step.{Step};
ghost use Rattle.conf_driver.specs.Next.{next_of};
ghost use Rattle.conf_driver.specs.Proposals.{CanAnswer};
ghost use Rattle.conf_driver.specs.declared.action.Action.TheVariants.{Propose};
ghost use Rattle.plan_output.specs.Stages.{configuration_after_step};
ghost use Rattle.raft_json.specs.ConfChangeJson.{conf_change_json};
ghost use Rattle.raft_json.specs.ConfStateJson.{conf_state_json};
ghost use Rattle.raft_json.specs.Proposal.{proposed_changes, transition_of};
ghost use Rattle.serde_json.specs.Find.{get};
ghost use Rattle.driver_json.specs.Answer.{proposal_json};
ghost use Rattle.driver_json.specs.declared.question.Question.{Question};

use conf_driver::laws::proposals_are_accepted;

/// The answer to propose a step has what is proposed to etcd for that step, and the configuration after it.
pub fn proposals_are_of_the_step()
    ensures conf_change { (question : Question) (step : Step)
        → CanAnswer question.strategy question.target question.view
        → next_of question.strategy question.target question.down question.view ≡ Propose step
        → get (codes "conf_change") (proposal_json question)
        ≡ Some (conf_change_json (transition_of step)
        (proposed_changes question.view.conf_state step)) }
    ensures conf_state { (question : Question) (step : Step)
        → CanAnswer question.strategy question.target question.view
        → next_of question.strategy question.target question.down question.view ≡ Propose step
        → get (codes "conf_state") (proposal_json question)
        ≡ Some (conf_state_json
        (lists_of (configuration_after_step question.view.conf_state step))) }
{
    proposals_are_accepted();
}
