//! What a specification has at the end of a path, and what is lacking of it.

ghost use Rattle.std.specs.Prelude.{◌≡◌, ◌++◌, codes, map, IfOk};
ghost use Rattle.csp_value.specs.Action.{action_of};
ghost use Rattle.verdict.specs.Outcome.{evidence_of};
ghost use Rattle.theory_explanation.specs.Counterparts.{acceptance_line, acceptance_lines, acceptances_text, initials_line, lack_text, set_text};
ghost use Rattle.theory_explanation.specs.Lacking.{lacking};
ghost use Rattle.csp_print.specs.Names.{names_of};
ghost use Rattle.csp_print.specs.Writing.{Writes};
ghost use Rattle.csp_replay.specs.Offers.{offers_listed};

use crate::actions::push_actions;
use crate::marks::push_mark;
use csp_print::Names;
use csp_term::{Action, AllocHandle, Memory};
use std::alloc::AllocError;
use verdict::Evidence;

/// What the specification has where the evidence is: its initials, or its least acceptances and what the offer lacks of
/// each, behind the string. Of deadlock and divergence there is nothing to tell.
pub(crate) fn push_lack<A: AllocHandle>(
    alloc: A,
    names: &Names<'_, A>,
    evidence: &Evidence<A>,
    initials: &[Action<A>],
    acceptances: &[Vec<Action<A>, A>],
    text: &mut String<A>,
) -> Result<(), Memory>
    ensures { Writes result text.old text.new
        (lack_text (names_of names.now) (evidence_of evidence.now) (map action_of initials.now)
        (offers_listed acceptances.now)) }
{
    match evidence {
        Evidence::Event(_) => {
            push_initials(names, initials, text)?;
            Ok(())
        }
        Evidence::Offers(offer) => push_acceptances(alloc, names, offer, acceptances, text),
        Evidence::Deadlock => Ok(()),
        Evidence::Divergence => Ok(()),
    }
}

// All that the specification can do.
fn push_initials<A: AllocHandle>(
    names: &Names<'_, A>,
    initials: &[Action<A>],
    text: &mut String<A>,
) -> Result<(), AllocError>
    ensures { Writes result text.old text.new
        (initials_line (names_of names.now) (map action_of initials.now)) }
{
    push_mark("  there the specification can do no more than ", text)?;
    push_set(names, initials, text)?;
    push_mark("\n", text)
}

// Each acceptance of the specification, and what the offer lacks of it.
fn push_acceptances<A: AllocHandle>(
    alloc: A,
    names: &Names<'_, A>,
    offer: &[Action<A>],
    acceptances: &[Vec<Action<A>, A>],
    text: &mut String<A>,
) -> Result<(), Memory>
    ensures { Writes result text.old text.new
        (acceptances_text (names_of names.now) (map action_of offer.now)
        (offers_listed acceptances.now)) }
{
    if acceptances.is_empty() {
        push_mark("  there no state of the specification is stable\n", text)?;
        return Ok(());
    }
    push_acceptance_lines(alloc, names, offer, acceptances, text)
}

fn push_acceptance_lines<A: AllocHandle>(
    alloc: A,
    names: &Names<'_, A>,
    offer: &[Action<A>],
    acceptances: &[Vec<Action<A>, A>],
    text: &mut String<A>,
) -> Result<(), Memory>
    ensures { Writes result text.old text.new
        (acceptance_lines (names_of names.now) (map action_of offer.now)
        (offers_listed acceptances.now)) }
{
    for acceptance in acceptances {
        push_acceptance(alloc, names, offer, acceptance, text)?;
    }
    Ok(())
}

// An acceptance of the specification, and what the offer lacks of it.
fn push_acceptance<A: AllocHandle>(
    alloc: A,
    names: &Names<'_, A>,
    offer: &[Action<A>],
    acceptance: &[Action<A>],
    text: &mut String<A>,
) -> Result<(), Memory>
    ensures { Writes result text.old text.new
        (acceptance_line (names_of names.now) (map action_of offer.now)
        (map action_of acceptance.now)) }
{
    let lacks = lacking(alloc, offer, acceptance)?;
    push_mark("  there the specification may offer ", text)?;
    push_set(names, acceptance, text)?;
    push_mark(", of which ", text)?;
    push_set(names, &lacks, text)?;
    push_mark(" is lacking\n", text)?;
    Ok(())
}

/// The actions of the acceptance that are not offered.
pub(crate) fn lacking<A: AllocHandle>(
    alloc: A,
    offer: &[Action<A>],
    acceptance: &[Action<A>],
) -> Result<Vec<Action<A>, A>, Memory>
    ensures { IfOk result (λ lacks. map action_of lacks.items
        ≡ lacking (map action_of offer.now) (map action_of acceptance.now)) }
{
    let mut lacks = Vec::new(alloc);
    for action in acceptance {
        if offer.contains(action) {
            continue;
        }
        lacks.push(action.try_copy(alloc)?)?;
    }
    Ok(lacks)
}

/// The actions in `{` and `}`.
pub(crate) fn push_set<A: AllocHandle>(
    names: &Names<'_, A>,
    actions: &[Action<A>],
    text: &mut String<A>,
) -> Result<(), AllocError>
    ensures { Writes result text.old text.new
        (set_text (names_of names.now) (map action_of actions.now)) }
{
    push_mark("{", text)?;
    push_actions(names, actions, text)?;
    push_mark("}", text)
}
