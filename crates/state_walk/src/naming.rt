//! Which move a text names.

ghost use Rattle.std.specs.Prelude.{◌≡◌, IfOk, decimal};
ghost use Rattle.theory_walk.specs.Answers.{doing, named, numbered};
ghost use Rattle.theory_walk.specs.Commands.{same};
ghost use Rattle.theory_explanation.specs.Actions.{action_text};
ghost use Rattle.csp_value.specs.Action.{action_of};
ghost use Rattle.csp_print.specs.Names.{names_of};
ghost use Rattle.state_walk.specs.Naming.{IsNamed, IsPlaceOf, one_more};
ghost use Rattle.state_walk.specs.Walks.{moves_listed};

use crate::menu::Move;
use counterexample::{push_action, push_number};
use csp_print::Names;
use csp_term::{Action, AllocHandle};
use std::alloc::AllocError;

/// Which move a text names.
#[derive(Clone, Copy)]
pub(crate) enum Meant {
    /// None.
    Nothing,
    /// The one at this place alone.
    One(usize),
    /// Several.
    Several,
}

/// Which of the moves the text names: by its number, or by what it does.
pub(crate) fn named<A: AllocHandle>(
    alloc: A,
    names: &Names<'_, A>,
    moves: &[Move<A>],
    text: &[u8],
) -> Result<Meant, AllocError>
    ensures { IfOk result (λ found. IsNamed (moves_listed moves.now) found
        (named (names_of names.now) (moves_listed moves.now) text.now)) }
{
    let found = numbered(alloc, moves, text)?;
    match found {
        Some(place) => Ok(Meant::One(place)),
        None => doing(alloc, names, moves, text),
    }
}

// The place of the move whose number the text is.
fn numbered<A: AllocHandle>(
    alloc: A,
    moves: &[Move<A>],
    text: &[u8],
) -> Result<Option<usize>, AllocError>
    ensures { IfOk result (λ found. IsPlaceOf (moves_listed moves.now) found
        (numbered 1 (moves_listed moves.now) text.now)) }
{
    for place in 0..moves.len() {
        let is_it = is_number(alloc, place + 1, text)?;
        if is_it {
            return Ok(Some(place));
        }
    }
    Ok(None)
}

// Which of the moves do what the text says.
fn doing<A: AllocHandle>(
    alloc: A,
    names: &Names<'_, A>,
    moves: &[Move<A>],
    text: &[u8],
) -> Result<Meant, AllocError>
    ensures { IfOk result (λ found. IsNamed (moves_listed moves.now) found
        (doing (names_of names.now) (moves_listed moves.now) text.now)) }
{
    let mut found = Meant::Nothing;
    for place in 0..moves.len() {
        let does = is_action(alloc, names, &moves[place].action, text)?;
        if does {
            found = with_place(found, place);
        }
    }
    Ok(found)
}

// With one more move that is named.
fn with_place(found: Meant, place: usize) -> Meant
    ensures { result ≡ one_more found place }
{
    match found {
        Meant::Nothing => Meant::One(place),
        Meant::One(_) => Meant::Several,
        Meant::Several => Meant::Several,
    }
}

// Whether the text is this number.
fn is_number<A: AllocHandle>(alloc: A, number: usize, text: &[u8]) -> Result<bool, AllocError>
    ensures { IfOk result (λ is. is ≡ same text.now (decimal number)) }
{
    let mut told = String::new(alloc);
    push_number(number, &mut told)?;
    Ok(text == told.as_str().as_bytes())
}

// Whether the text is that of the action.
fn is_action<A: AllocHandle>(
    alloc: A,
    names: &Names<'_, A>,
    action: &Action<A>,
    text: &[u8],
) -> Result<bool, AllocError>
    ensures { IfOk result (λ is. is
        ≡ same text.now (action_text (names_of names.now) (action_of action.now))) }
{
    let mut told = String::new(alloc);
    push_action(names, action, &mut told)?;
    Ok(text == told.as_str().as_bytes())
}
