//! What a state offers.

ghost use Rattle.std.specs.Prelude.{◌≡◌, ◌<◌, IfOk, Some, length, map, slice_get};
ghost use Rattle.theory_semantics.specs.Kinds.Scripts.{IsTermOf};
ghost use Rattle.theory_walk.specs.Moves.{AreTold, IsMenu, moves_in, step_in};
ghost use Rattle.csp_value.specs.Action.{action_of};
ghost use Rattle.csp_term.specs.Script.{script_of, script_of_parts};
ghost use Rattle.csp_term.specs.Term.{process_of};
ghost use Rattle.csp_fire.specs.Form.{step_of};
ghost use Rattle.csp_moves.specs.Way.{lent_action};
ghost use Rattle.state_walk.specs.Walks.{menu_of, move_of, moves_listed};

use csp_fire::{Form, Step, fire};
use csp_moves::{LentAction, Origin, origin_of_step};
use csp_replay::Hindrance;
use csp_term::{Action, AllocHandle, Memory, Script, ScriptParts, Term};

/// A step that can be taken.
#[derive(Drop)]
pub struct Move<A: AllocHandle> {
    /// What is done.
    pub action: Action<A>,
    /// Where that comes from.
    pub origin: Option<Origin<A>>,
    /// The state that it leads to.
    pub target: Term<A>,
}

/// What a state offers.
#[derive(Drop)]
pub enum Menu<A: AllocHandle> {
    /// All its steps, by action and then by target, each once.
    Offers(Vec<Move<A>, A>),
    /// None, since it is stuck by this.
    Stuck(Hindrance),
}

impl<A: AllocHandle> Menu<A> {
    /// The moves, none where the state is stuck.
    pub fn moves(&self) -> &[Move<A>]
        ensures { moves_listed result.now ≡ moves_in (menu_of self.now) }
    {
        match self {
            Menu::Offers(moves) => moves,
            Menu::Stuck(_) => &[],
        }
    }

    /// The move at the place, to keep.
    pub(crate) fn into_move(self, place: usize) -> Move<A>
        requires { place < length (moves_in (menu_of self)) }
        ensures { slice_get (moves_in (menu_of self)) place ≡ Some (move_of result) }
    {
        match self {
            Menu::Offers(moves) => {
                let mut moves = moves;
                moves.swap_remove(place)
            }
            Menu::Stuck(_) => unreachable!(),
        }
    }
}

/// What the term of the script offers. `Memory` says that there is no room to tell.
pub(crate) fn menu_at<A: AllocHandle>(
    alloc: A,
    script: &Script<A>,
    term: &Term<A>,
) -> Result<Menu<A>, Memory>
    requires { IsTermOf (script_of script.now) (process_of term.now) }
    ensures { IfOk result (λ menu. IsMenu (script_of script.now) (process_of term.now)
        (menu_of menu)) }
{
    match fire(alloc, script, term)?.into_form() {
        Form::Steps(steps, _) => {
            let moves = moves_by(alloc, script.parts(), term, steps)?;
            Ok(Menu::Offers(moves))
        }
        Form::Faulty(fault) => Ok(Menu::Stuck(Hindrance::Fault(fault))),
        Form::Large => Ok(Menu::Stuck(Hindrance::Size)),
    }
}

// The steps of the term, and where each comes from.
fn moves_by<A: AllocHandle>(
    alloc: A,
    script: &ScriptParts<A>,
    term: &Term<A>,
    steps: Vec<Step<A>, A>,
) -> Result<Vec<Move<A>, A>, Memory>
    ensures steps { IfOk result (λ moves.
        map step_in (moves_listed moves.items) ≡ map step_of steps.items) }
    ensures told { IfOk result (λ moves. AreTold (script_of_parts script.now)
        (process_of term.now) (moves_listed moves.items)) }
{
    let mut moves = Vec::new(alloc);
    for step in steps {
        let Step { action, target } = step;
        let origin = origin_of_step(alloc, script, term, lent(&action), &target)?;
        moves.push(Move {
            action,
            origin,
            target,
        })?;
    }
    Ok(moves)
}

// The action, whose event is lent.
fn lent<A: AllocHandle>(action: &Action<A>) -> LentAction<'_, A>
    ensures { lent_action result ≡ action_of action.now }
{
    match action {
        Action::Tau => LentAction::Tau,
        Action::Tick => LentAction::Tick,
        Action::Event(event) => LentAction::Event(event),
    }
}
