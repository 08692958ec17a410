//! Where the steps along paths come from.

ghost use Rattle.std.specs.Prelude.{◌≡◌, length, map, suc, IfOk};
ghost use Rattle.theory_explanation.specs.Counterexamples.{AreOriginsAlong};
ghost use Rattle.csp_moves.specs.Way.{lent_action};
ghost use Rattle.csp_value.specs.Action.{action_of};
ghost use Rattle.csp_term.specs.Script.{script_of};
ghost use Rattle.csp_term.specs.Term.{process_of};
ghost use Rattle.counterexample.specs.Counterexample.{origins_listed};

use csp_moves::{LentAction, Origin, origin_of_step};
use csp_term::{Action, AllocHandle, Memory, Script, Term};

/// Where each step of the path comes from, by the states before and behind it. `Memory` says that there is no room to
/// tell.
pub fn origins_along<A: AllocHandle>(
    alloc: A,
    script: &Script<A>,
    path: &[Action<A>],
    states: &[Term<A>],
) -> Result<Vec<Option<Origin<A>>, A>, Memory>
    requires { length states.now ≡ suc (length path.now) }
    ensures { IfOk result (λ origins. AreOriginsAlong (script_of script.now)
        (map action_of path.now) (map process_of states.now) (origins_listed origins.items)) }
{
    let parts = script.parts();
    let mut all = Vec::new(alloc);
    for (place, action) in path.iter().enumerate() {
        let before = &states[place];
        let behind = &states[place + 1];
        let origin = origin_of_step(alloc, parts, before, lent(action), behind)?;
        all.push(origin)?;
    }
    Ok(all)
}

/// The action, whose event is lent.
pub(crate) fn lent<A: AllocHandle>(action: &Action<A>) -> LentAction<'_, A>
    ensures { lent_action result ≡ action_of action.now }
{
    match action {
        Action::Tau => LentAction::Tau,
        Action::Tick => LentAction::Tick,
        Action::Event(event) => LentAction::Event(event),
    }
}
