//! Where a path ends as the evidence of a violation says.

ghost use Rattle.std.specs.Prelude.{IfOk};
ghost use Rattle.theory_semantics.specs.Meaning.Violations.{ByDivergence};
ghost use Rattle.theory_runs.specs.Layers.{AreTermsOf};
ghost use Rattle.csp_term.specs.Script.{script_of};
ghost use Rattle.verdict.specs.Outcome.{evidence_of};
ghost use Rattle.csp_replay.specs.Endings.{TellsEnding};
ghost use Rattle.csp_replay.specs.Layer.{terms_of};

use crate::closure::tau_closure;
use crate::evidence::end_of;
use crate::lasso::{Lasso, lasso_from, seeds_of, taus_of};
use crate::layer::Layer;
use csp_term::{AllocHandle, Memory, Script};
use tau_numbers::{number_at, numbers_of};
use verdict::Evidence;

/// Where a term of a layer shows some evidence.
#[derive(Drop)]
pub(crate) enum Ending<A: AllocHandle> {
    /// The one at the place does; where it diverges, by the lasso.
    At(usize, Option<Lasso<A>>),
    /// None does.
    Nowhere,
    /// Taus lead to more terms than were to be looked at.
    TooMany,
}

/// The place of the first term of the layer that shows the evidence. Whether one diverges is looked for among `reach`
/// terms that taus lead to.
pub(crate) fn ending_of<A: AllocHandle>(
    alloc: A,
    script: &Script<A>,
    layer: &Layer<A>,
    evidence: &Evidence<A>,
    reach: usize,
) -> Result<Ending<A>, Memory>
    requires { AreTermsOf (script_of script.now) (terms_of layer.now) }
    ensures { IfOk result (TellsEnding (script_of script.now) (terms_of layer.now)
        (evidence_of evidence.now) reach) }
{
    if let Evidence::Divergence = evidence {
        return diverging(alloc, script, layer, reach);
    }
    let found = end_of(alloc, script, layer, evidence)?;
    match found {
        Some(place) => Ok(Ending::At(place, None)),
        None => Ok(Ending::Nowhere),
    }
}

// The place of the first term of the layer that diverges.
fn diverging<A: AllocHandle>(
    alloc: A,
    script: &Script<A>,
    layer: &Layer<A>,
    reach: usize,
) -> Result<Ending<A>, Memory>
    requires { AreTermsOf (script_of script.now) (terms_of layer.now) }
    ensures { IfOk result (TellsEnding (script_of script.now) (terms_of layer.now) ByDivergence
        reach) }
{
    let seeds = seeds_of(alloc, layer)?;
    let found = tau_closure(alloc, script, seeds, reach)?;
    let Some(closed) = found else {
        return Ok(Ending::TooMany);
    };
    let taus = taus_of(alloc, script, &closed)?;
    let numbers = numbers_of(alloc, closed.len(), &taus)?;
    for place in 0..layer.len() {
        let found = closed.place_of(layer.term(place));
        let Some(start) = found else { unreachable!() };
        if number_at(&numbers, start) == 0 {
            let lasso = lasso_from(alloc, &closed, &taus, &numbers, start)?;
            return Ok(Ending::At(place, Some(lasso)));
        }
    }
    Ok(Ending::Nowhere)
}
