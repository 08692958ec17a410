//! What a term is stuck by.

ghost use Rattle.std.specs.Prelude.{◌≡◌, ◌↔◌, IsTrue};
ghost use Rattle.theory_semantics.specs.Meaning.Expansions.{FiredFaulty, FiredLarge};
ghost use Rattle.csp_expression.specs.Fault.{cause_of};
ghost use Rattle.csp_fire.specs.Form.{form_of};
ghost use Rattle.theory_runs.specs.Stuck.{stuck_form};
ghost use Rattle.csp_replay.specs.Hindrance.{hindrance_of};

use csp_fire::Form;
use csp_term::{AllocHandle, Fault};

/// What a term is stuck by.
#[derive(Clone, Copy, Debug, PartialEq, Eq)]
pub enum Hindrance {
    /// A rule for it lacks a value, with this cause.
    Fault(Fault),
    /// It is past the limits of a term, or some step leads past them.
    Size,
}

impl Hindrance {
    /// Whether it is what the form shows.
    pub(crate) fn is_shown_by<A: AllocHandle>(self, form: &Form<A>) -> bool
        ensures { IsTrue result ↔ (form_of form.now ≡ stuck_form (hindrance_of self)) }
    {
        match self {
            Hindrance::Fault(fault) => is_faulty(form, fault),
            Hindrance::Size => is_large(form),
        }
    }
}

fn is_faulty<A: AllocHandle>(form: &Form<A>, fault: Fault) -> bool
    ensures { IsTrue result ↔ (form_of form.now ≡ FiredFaulty (cause_of fault)) }
{
    match form {
        Form::Steps(_, _) => false,
        Form::Faulty(cause) => same_fault(*cause, fault),
        Form::Large => false,
    }
}

fn same_fault(one: Fault, other: Fault) -> bool
    ensures { IsTrue result ↔ (cause_of one ≡ cause_of other) }
{
    one.number() == other.number()
}

fn is_large<A: AllocHandle>(form: &Form<A>) -> bool
    ensures { IsTrue result ↔ (form_of form.now ≡ FiredLarge) }
{
    match form {
        Form::Steps(_, _) => false,
        Form::Faulty(_) => false,
        Form::Large => true,
    }
}
