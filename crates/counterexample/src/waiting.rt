//! The parts of a state that waits.

ghost use Rattle.std.specs.Prelude.{◌++◌, IfOk, map};
ghost use Rattle.theory_semantics.specs.Kinds.Scripts.{IsTermOf};
ghost use Rattle.theory_origins.specs.Origin.{Left, Right};
ghost use Rattle.theory_origins.specs.Parts.{placed_on, placed_parts};
ghost use Rattle.theory_explanation.specs.Counterexamples.{AreWaiting, AreWaitingFor};
ghost use Rattle.csp_term.specs.Script.{script_of};
ghost use Rattle.csp_term.specs.Term.{process_of};
ghost use Rattle.csp_moves.specs.Passage.{side_of};
ghost use Rattle.verdict.specs.Outcome.{evidence_of};
ghost use Rattle.counterexample.specs.Counterexample.{waiting_of};
ghost use Rattle.counterexample.specs.Waiting.{IsOnePart, all_placed_behind};

use crate::standing::{Standing, standing_in};
use crate::ways::longer;
use csp_moves::Side;
use csp_replay::initials_of;
use csp_term::{Action, AllocHandle, Memory, Script, Term};
use verdict::Evidence;

/// A part of a state, and what it can do by itself.
#[derive(Drop)]
pub struct Waiting<A: AllocHandle> {
    /// The sides on the way down to it.
    pub way: Vec<Side, A>,
    /// The part.
    pub process: Term<A>,
    /// The events, and tick, that it can do.
    pub initials: Vec<Action<A>, A>,
}

/// The parts of a state, where by the evidence that waits.
pub(crate) fn waiting_at<A: AllocHandle>(
    alloc: A,
    script: &Script<A>,
    evidence: &Evidence<A>,
    state: &Term<A>,
) -> Result<Vec<Waiting<A>, A>, Memory>
    requires { IsTermOf (script_of script.now) (process_of state.now) }
    ensures { IfOk result (λ ws. AreWaitingFor (script_of script.now) (evidence_of evidence.now)
        (process_of state.now) (map waiting_of ws.items)) }
{
    match evidence {
        Evidence::Event(_) => Ok(Vec::new(alloc)),
        Evidence::Offers(_) => parts_in(alloc, script, &[], state),
        Evidence::Deadlock => parts_in(alloc, script, &[], state),
        Evidence::Divergence => Ok(Vec::new(alloc)),
    }
}

// The parts of the term at the end of the way.
#[cycle(parts)]
fn parts_in<A: AllocHandle>(
    alloc: A,
    script: &Script<A>,
    way: &[Side],
    term: &Term<A>,
) -> Result<Vec<Waiting<A>, A>, Memory>
    requires { IsTermOf (script_of script.now) (process_of term.now) }
    ensures { IfOk result (λ ws. AreWaiting (script_of script.now)
        (all_placed_behind (map side_of way.now) (placed_parts (process_of term.now)))
        (map waiting_of ws.items)) }
{
    match standing_in(term) {
        Standing::Beside(left, right) => parts_of_both(alloc, script, way, left, right),
        Standing::Inside(body) => parts_in(alloc, script, way, body),
        Standing::Alone => one_part(alloc, script, way, term),
    }
}

// The parts of both sides.
#[cycle(parts)]
fn parts_of_both<A: AllocHandle>(
    alloc: A,
    script: &Script<A>,
    way: &[Side],
    left: &Term<A>,
    right: &Term<A>,
) -> Result<Vec<Waiting<A>, A>, Memory>
    requires left { IsTermOf (script_of script.now) (process_of left.now) }
    requires right { IsTermOf (script_of script.now) (process_of right.now) }
    ensures { IfOk result (λ ws. AreWaiting (script_of script.now)
        (all_placed_behind (map side_of way.now)
        (placed_on Left (placed_parts (process_of left.now))
        ++ placed_on Right (placed_parts (process_of right.now)))) (map waiting_of ws.items)) }
{
    let on_left = longer(alloc, way, Side::Left)?;
    let mut all = parts_in(alloc, script, &on_left, left)?;
    let on_right = longer(alloc, way, Side::Right)?;
    let mut others = parts_in(alloc, script, &on_right, right)?;
    all.append(&mut others)?;
    Ok(all)
}

// The term itself.
fn one_part<A: AllocHandle>(
    alloc: A,
    script: &Script<A>,
    way: &[Side],
    term: &Term<A>,
) -> Result<Vec<Waiting<A>, A>, Memory>
    requires { IsTermOf (script_of script.now) (process_of term.now) }
    ensures { IfOk result (λ ws. IsOnePart (script_of script.now) (map side_of way.now)
        (process_of term.now) (map waiting_of ws.items)) }
{
    let mut alone = Vec::new(alloc);
    alone.push(term.try_copy(alloc)?)?;
    let initials = initials_of(alloc, script, &alone)?;
    let way = Vec::from_slice(alloc, way)?;
    let process = term.try_copy(alloc)?;
    let part = Waiting {
        way,
        process,
        initials,
    };
    let mut all = Vec::new(alloc);
    all.push(part)?;
    Ok(all)
}
