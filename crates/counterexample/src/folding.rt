//! Steps that unfold a name, which may be told with the step before.

ghost use Rattle.std.specs.Prelude.{◌≡◌, IfOk, map, option_map};
ghost use Rattle.theory_explanation.specs.Folding.{folded, folds, is_folded, name_text, names_behind, state_behind, then_text, unfoldings, unfolds};
ghost use Rattle.csp_term.specs.Term.{process_of};
ghost use Rattle.csp_moves.specs.Origin.{origin_of};
ghost use Rattle.csp_print.specs.Names.{names_of};
ghost use Rattle.csp_print.specs.Writing.{Writes};
ghost use Rattle.counterexample.specs.Counterexample.{origins_listed};
ghost use Rattle.counterexample.specs.Folding.{equations_listed, kind_of, telling_of};

use crate::kind::{Kind, kind_told};
use crate::marks::push_mark;
use crate::specification::first_few;
use crate::telling::Telling;
use csp_moves::Origin;
use csp_print::Names;
use csp_term::{AllocHandle, EquationId, Term};
use std::alloc::AllocError;

/// Whether the step is told with the one before.
pub(crate) fn is_folded<A: AllocHandle>(telling: Telling, origin: &Option<Origin<A>>) -> bool
    ensures { result ≡ is_folded (telling_of telling) (option_map origin_of origin.now) }
{
    folds(telling) && unfolds(kind_told(origin))
}

// Whether the tau unfolds a name.
fn unfolds(kind: Kind) -> bool
    ensures { result ≡ unfolds (kind_of kind) }
{
    match kind {
        Kind::Unfolding(_) => true,
        Kind::Hiding | Kind::Other => false,
    }
}

// Whether steps that unfold a name are told with the step before, or at the start.
fn folds(telling: Telling) -> bool
    ensures { result ≡ folds (telling_of telling) }
{
    match telling {
        Telling::EachStep => false,
        Telling::Folded | Telling::ByEvents => true,
    }
}

/// The equations that are told with a step that has these steps behind it.
pub(crate) fn folded<A: AllocHandle>(
    alloc: A,
    telling: Telling,
    origins: &[Option<Origin<A>>],
) -> Result<Vec<EquationId, A>, AllocError>
    ensures { IfOk result (λ equations. equations_listed equations.items
        ≡ folded (telling_of telling) (origins_listed origins.now)) }
{
    if folds(telling) {
        return unfoldings(alloc, origins);
    }
    Ok(Vec::new(alloc))
}

// The equations that the first of the steps unfold, up to a step that unfolds none.
fn unfoldings<A: AllocHandle>(
    alloc: A,
    origins: &[Option<Origin<A>>],
) -> Result<Vec<EquationId, A>, AllocError>
    ensures { IfOk result (λ equations. equations_listed equations.items
        ≡ unfoldings (origins_listed origins.now)) }
{
    let mut equations = Vec::new(alloc);
    for place in 0..origins.len() {
        match kind_told(&origins[place]) {
            Kind::Unfolding(equation) => equations.push(equation)?,
            Kind::Hiding => return Ok(equations),
            Kind::Other => return Ok(equations),
        }
    }
    Ok(equations)
}

/// The state that so many steps lead to, of the states behind this one, or the last one.
pub(crate) fn state_behind<'t, A: AllocHandle>(
    count: usize,
    state: &'t Term<A>,
    states: &'t [Term<A>],
) -> &'t Term<A>
    ensures { process_of result.now ≡ state_behind count (process_of state.now)
        (map process_of states.now) }
{
    let few = first_few(states, count);
    match few.last() {
        Some(last) => last,
        None => state,
    }
}

/// What is told behind a step of the names that are unfolded then.
pub(crate) fn push_then<A: AllocHandle>(
    names: &Names<'_, A>,
    equations: &[EquationId],
    text: &mut String<A>,
) -> Result<(), AllocError>
    ensures { Writes result text.old text.new
        (then_text (names_of names.now) (equations_listed equations.now)) }
{
    match equations.split_first() {
        Some((first, others)) => {
            push_name(names, ", then unfolds ", *first, text)?;
            push_names_behind(names, others, text)
        }
        None => Ok(()),
    }
}

// The names, with `, ` before each.
fn push_names_behind<A: AllocHandle>(
    names: &Names<'_, A>,
    equations: &[EquationId],
    text: &mut String<A>,
) -> Result<(), AllocError>
    ensures { Writes result text.old text.new
        (names_behind (names_of names.now) (equations_listed equations.now)) }
{
    for equation in equations {
        push_name(names, ", ", *equation, text)?;
    }
    Ok(())
}

// The name of the equation, behind the mark.
fn push_name<A: AllocHandle>(
    names: &Names<'_, A>,
    mark: &str,
    equation: EquationId,
    text: &mut String<A>,
) -> Result<(), AllocError>
    ensures { Writes result text.old text.new (name_text (names_of names.now) mark.now equation.0) }
{
    push_mark(mark, text)?;
    names.push_equation(equation, text)
}
