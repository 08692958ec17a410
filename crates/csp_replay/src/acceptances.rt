//! What states offer at least.

ghost use Rattle.std.specs.Prelude.{[], map, IfOk, Contains, ◌↔◌, List};
ghost use Rattle.theory_syntax.specs.Value as pure;
ghost use Rattle.theory_semantics.specs.Meaning.Expansions.{offers_cmp};
ghost use Rattle.theory_semantics.specs.Meaning.Offers.{RisesBy};
ghost use Rattle.theory_search.specs.Acceptances.{IsAcceptanceOfSome};
ghost use Rattle.theory_runs.specs.Acceptances.{AreLeastAcceptances};
ghost use Rattle.theory_runs.specs.Gathering.{Gathers};
ghost use Rattle.theory_runs.specs.Layers.{AreTermsOf};
ghost use Rattle.csp_term.specs.Script.{script_of};
ghost use Rattle.csp_term.specs.Term.{process_of};
ghost use Rattle.csp_replay.specs.Offers.{offers_listed};

use crate::firing::offers_of_term;
use crate::least::least_of;
use csp_term::{Action, AllocHandle, Memory, Script, Term};

/// Acceptances, each as the list of its actions.
pub(crate) type Offers<A> = Vec<Vec<Action<A>, A>, A>;

/// The least acceptances of the states, which are terms of the script: those in which no other lies, sorted, each once.
/// `Memory` says that there is no room to tell.
pub fn least_acceptances_of<A: AllocHandle>(
    alloc: A,
    script: &Script<A>,
    states: &[Term<A>],
) -> Result<Offers<A>, Memory>
    requires closed { AreTermsOf (script_of script.now) (map process_of states.now) }
    ensures { IfOk result (λ offers. AreLeastAcceptances (script_of script.now)
        (map process_of states.now) (offers_listed offers.items)) }
{
    let all = offers_of_states(alloc, script, states)?;
    let least = least_of(alloc, &all)?;
    Ok(sorted_once(least))
}

/// All acceptances of the states.
fn offers_of_states<A: AllocHandle>(
    alloc: A,
    script: &Script<A>,
    states: &[Term<A>],
) -> Result<Offers<A>, Memory>
    requires { AreTermsOf (script_of script.now) (map process_of states.now) }
    ensures { IfOk result (λ all. Gathers []
        (IsAcceptanceOfSome (script_of script.now) (map process_of states.now))
        (offers_listed all.items)) }
{
    let mut all = Vec::new(alloc);
    for state in states {
        let mut offers = offers_of_term(alloc, script, state)?;
        all.append(&mut offers)?;
    }
    Ok(all)
}

/// The acceptances in order, each once.
fn sorted_once<A: AllocHandle>(mut offers: Offers<A>) -> Offers<A>
    ensures rising { RisesBy offers_cmp (offers_listed result.items) }
    ensures same { (xs : List pure.Action) → Contains (offers_listed offers.items) xs
        ↔ Contains (offers_listed result.items) xs }
{
    offers.sort_unstable();
    offers.dedup();
    offers
}
