//! What is found of an assertion, as fields.

ghost use Rattle.theory_search.specs.Outcome.{Fails};
ghost use Rattle.theory_objects.specs.Answers.{evidence_fields, found_fields, why_fields};
ghost use Rattle.csp_print.specs.Names.{names_of};
ghost use Rattle.verdict.specs.Outcome.{evidence_of, outcome_of, violation_of, why_of};
ghost use Rattle.explanation_objects.specs.Putting.{Puts};

use crate::actions::{put_action, put_actions, put_trace};
use crate::fields::put_text;
use csp_print::Names;
use csp_term::AllocHandle;
use json::Writer;
use std::alloc::{AllocError, Allocator};
use verdict::{Evidence, Outcome, Shown, Why};

/// Puts what is found: a violation, or why there is no answer.
pub(crate) fn put_found<A: AllocHandle>(
    alloc: A,
    names: &Names<'_, A>,
    found: &Outcome<A>,
    writer: &mut Writer<A>,
) -> Result<(), AllocError>
    ensures { Puts result writer.old writer.new
        (found_fields (names_of names.now) (outcome_of found.now)) }
{
    match found {
        Outcome::Holds | Outcome::Denied => Ok(()),
        Outcome::Fails(shown) => put_violation(alloc, names, shown, writer),
        Outcome::Unknown(why) => put_why(*why, writer),
    }
}

fn put_violation<A: AllocHandle>(
    alloc: A,
    names: &Names<'_, A>,
    shown: &Shown<A>,
    writer: &mut Writer<A>,
) -> Result<(), AllocError>
    ensures { Puts result writer.old writer.new
        (found_fields (names_of names.now) (Fails (violation_of shown.now))) }
{
    let path = shown.path.as_slice();
    put_trace(alloc, names, "trace", path, writer)?;
    put_actions(alloc, names, "path", path, writer)?;
    put_evidence(alloc, names, &shown.evidence, writer)
}

fn put_evidence<A: AllocHandle>(
    alloc: A,
    names: &Names<'_, A>,
    evidence: &Evidence<A>,
    writer: &mut Writer<A>,
) -> Result<(), AllocError>
    ensures { Puts result writer.old writer.new
        (evidence_fields (names_of names.now) (evidence_of evidence.now)) }
{
    match evidence {
        Evidence::Event(action) => {
            put_text("evidence", "event", writer)?;
            put_action(alloc, names, "event", action, writer)
        }
        Evidence::Offers(offers) => {
            put_text("evidence", "offers", writer)?;
            put_actions(alloc, names, "offers", offers.as_slice(), writer)
        }
        Evidence::Deadlock => put_text("evidence", "deadlock", writer),
        Evidence::Divergence => put_text("evidence", "divergence", writer),
    }
}

// Why there is no answer.
fn put_why<A: Allocator>(why: Why, writer: &mut Writer<A>) -> Result<(), AllocError>
    ensures { Puts result writer.old writer.new (why_fields (why_of why)) }
{
    match why {
        Why::Pairs => put_text("reason", "pairs", writer),
        Why::Nodes => put_text("reason", "nodes", writer),
        Why::Term => put_text("reason", "term", writer),
        Why::Fault(fault) => {
            put_text("reason", "fault", writer)?;
            put_text("fault", fault.word(), writer)
        }
        Why::Memory => put_text("reason", "memory", writer),
    }
}
