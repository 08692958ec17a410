//! What is told of the end of a path.

ghost use Rattle.verdict.specs.Outcome.{evidence_of};
ghost use Rattle.theory_explanation.specs.Ends.{end_text};
ghost use Rattle.csp_print.specs.Names.{names_of};
ghost use Rattle.csp_print.specs.Writing.{Writes};

use crate::actions::{push_action, push_actions};
use crate::marks::push_mark;
use csp_print::Names;
use csp_term::AllocHandle;
use std::alloc::AllocError;
use verdict::Evidence;

/// What is wrong at the end of the path, behind the string.
pub(crate) fn push_end<A: AllocHandle>(
    names: &Names<'_, A>,
    evidence: &Evidence<A>,
    text: &mut String<A>,
) -> Result<(), AllocError>
    ensures { Writes result text.old text.new
        (end_text (names_of names.now) (evidence_of evidence.now)) }
{
    match evidence {
        Evidence::Event(action) => {
            push_mark("  then it does ", text)?;
            push_action(names, action, text)?;
            push_mark(", and the specification cannot\n", text)
        }
        Evidence::Offers(offers) => {
            push_mark("  then it may refuse all but {", text)?;
            push_actions(names, offers, text)?;
            push_mark("}, and the specification may not\n", text)
        }
        Evidence::Deadlock => push_mark("  then it can do nothing\n", text),
        Evidence::Divergence => push_mark("  then it goes on with tau for ever:\n", text),
    }
}
