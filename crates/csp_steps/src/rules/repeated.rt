//! What lets a process that an external choice has already be left out: it is the same term, and no step is a tau.

ghost use Rattle.std.specs.Prelude.{◌≡◌, ◌↔◌, IsTrue, Some, map};
ghost use Rattle.theory_syntax.specs.Value.{Tau};
ghost use Rattle.csp_term.specs.Term.{process_of};
ghost use Rattle.csp_value.specs.Action.{action_of};
ghost use Rattle.csp_steps.specs.Answering.{answered_of, target_of};
ghost use Rattle.csp_steps.specs.Repeating.{AreSameTerm, HasTau};

use crate::rule_step::{RuleStep, Target};
use csp_term::laws::equal_terms;
use csp_term::{Action, AllocHandle, Term};

/// Whether both lead to the same term. Of what is past the limits that is not known.
pub(crate) fn is_same_term<A: AllocHandle>(left: &Target<A>, right: &Target<A>) -> bool
    ensures { IsTrue result ↔ AreSameTerm (target_of left.now) (target_of right.now) }
{
    match left {
        Target::Past => false,
        Target::Within(term) => leads_to(right, term),
    }
}

fn leads_to<A: AllocHandle>(target: &Target<A>, term: &Term<A>) -> bool
    ensures { IsTrue result ↔ (target_of target.now ≡ Some (process_of term.now)) }
{
    match target {
        Target::Past => false,
        Target::Within(own) => equal_terms(own, term),
    }
}

/// Whether one of the steps is a tau.
pub(crate) fn has_tau<A: AllocHandle>(steps: &[RuleStep<A>]) -> bool
    ensures { IsTrue result ↔ HasTau (map answered_of steps.now) }
{
    for step in steps {
        if is_tau(&step.action) {
            return true;
        }
    }
    false
}

fn is_tau<A: AllocHandle>(action: &Action<A>) -> bool
    ensures { IsTrue result ↔ (action_of action.now ≡ Tau) }
{
    match action {
        Action::Tau => true,
        Action::Tick | Action::Event(_) => false,
    }
}
