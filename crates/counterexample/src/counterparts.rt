//! What specifications have along paths.

ghost use Rattle.std.specs.Prelude.{map, IfOk, IfSome, option_map};
ghost use Rattle.theory_semantics.specs.Kinds.Scripts.{IsTermOf};
ghost use Rattle.theory_explanation.specs.Counterexamples.{IsCounterpart, IsCounterpartFor};
ghost use Rattle.csp_value.specs.Action.{action_of};
ghost use Rattle.csp_term.specs.Script.{script_of};
ghost use Rattle.csp_term.specs.Term.{process_of};
ghost use Rattle.counterexample.specs.Counterexample.{counterpart_of, specification_in};

use csp_replay::{Along, initials_of, least_acceptances_of, states_along};
use csp_term::{Action, AllocHandle, Memory, Script, Term};

/// What a specification has along a path, or that it has too many states to tell.
#[derive(Drop)]
pub enum Counterpart<A: AllocHandle> {
    /// Its states, and what the last ones can do and offer.
    Along {
        /// For each beginning of the path, from the empty one on, the states after its trace, each once.
        states: Vec<Vec<Term<A>, A>, A>,
        /// All that some of the last states can do: tick and events, sorted.
        initials: Vec<Action<A>, A>,
        /// The acceptances of the last states in which no other one lies, sorted.
        acceptances: Vec<Vec<Action<A>, A>, A>,
    },
    /// After the trace of some beginning there are more states than were to be told.
    TooManyStates,
}

/// What the specification has along the path, if there is one.
pub(crate) fn counterpart_for<A: AllocHandle>(
    alloc: A,
    script: &Script<A>,
    specification: Option<&Term<A>>,
    path: &[Action<A>],
    most: usize,
) -> Result<Option<Counterpart<A>>, Memory>
    requires { IfSome (specification_in specification) (IsTermOf (script_of script.now)) }
    ensures { IfOk result (λ found. IsCounterpartFor (script_of script.now)
        (specification_in specification.entry) (map action_of path.now) most
        (option_map counterpart_of found)) }
{
    match specification {
        Some(term) => Ok(Some(counterpart_along(alloc, script, term, path, most)?)),
        None => Ok(None),
    }
}

/// What the specification has along the path.
fn counterpart_along<A: AllocHandle>(
    alloc: A,
    script: &Script<A>,
    specification: &Term<A>,
    path: &[Action<A>],
    most: usize,
) -> Result<Counterpart<A>, Memory>
    requires { IsTermOf (script_of script.now) (process_of specification.now) }
    ensures { IfOk result (λ found. IsCounterpart (script_of script.now)
        (process_of specification.now) (map action_of path.now) most (counterpart_of found)) }
{
    let along = states_along(alloc, script, specification, path, most)?;
    let Along::States(states) = along else {
        return Ok(Counterpart::TooManyStates);
    };
    let last = &states[path.len()];
    let initials = initials_of(alloc, script, last)?;
    let acceptances = least_acceptances_of(alloc, script, last)?;
    Ok(Counterpart::Along {
        states,
        initials,
        acceptances,
    })
}
