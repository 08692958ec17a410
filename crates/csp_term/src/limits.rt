//! The limits on the size and the depth of a term.

ghost use Rattle.std.specs.Prelude.{◌≡◌, ◌∷◌, [], ◌+◌, ◌-◌, ◌≤◌, ◌↔◌, IsTrue};
ghost use Rattle.std.specs.Option.{SomeIff};
ghost use Rattle.theory_semantics.specs.Meaning.Limits.{size, depth, fields_depth, fields_size, fits};
ghost use Rattle.csp_term.specs.Field.{field_of, fields_of};
ghost use Rattle.csp_term.specs.Own.{own_depth, own_size};
ghost use Rattle.csp_term.specs.Term.{process_of, process_of_form};

use crate::field::Field;
use crate::term::{Term, TermForm};
use csp_events::{are_pairs_within_depth, room_left_by_pairs};
use csp_expression::{are_within_depth, room_left_by};
use std::alloc::Allocator;

/// The most nodes of a term within the limits.
pub const MAX_SIZE: u32 = 2000;

/// The greatest depth of a term within the limits.
pub const MAX_DEPTH: u32 = 256;

impl<A: Allocator + Copy> Term<A> {
    /// Whether the term is within the limits: at most 2,000 nodes, and at most 256 deep.
    pub fn fits(&self) -> bool
        ensures { result ≡ fits (process_of self.now) }
    {
        // The depth goes first, so that no deep term is gone through to its end.
        self.is_within_depth(MAX_DEPTH) && self.room_left(MAX_SIZE).is_some()
    }

    /// What the term leaves of the room for nodes, `None` where it has more.
    pub fn room_left(&self, room: u32) -> Option<u32>
        ensures { SomeIff result (size (process_of self.now) ≤ room)
            (room - size (process_of self.now)) }
    {
        let rest = self.form.room_left_by_head(room)?;
        match &*self.form {
            TermForm::Stop | TermForm::Skip | TermForm::Omega | TermForm::Call(_, _) => Some(rest),
            TermForm::Prefix(_, _, body)
            | TermForm::Guard(_, body)
            | TermForm::Hiding(body, _)
            | TermForm::Renaming(body, _)
            | TermForm::Replicated(_, _, _, body) => body.room_left(rest),
            TermForm::If(_, left, right)
            | TermForm::Binary(_, left, right)
            | TermForm::GeneralisedParallel(left, _, right)
            | TermForm::AlphabetisedParallel(left, _, _, right)
            | TermForm::SlidingChoice(left, right) => { right.room_left(left.room_left(rest)?) }
        }
    }

    /// Whether the term is at most so deep.
    #[cycle(depth)]
    pub fn is_within_depth(&self, most: u32) -> bool
        ensures { IsTrue result ↔ (depth (process_of self.now) ≤ most) }
    {
        most != 0 && self.form.are_parts_within_depth(most - 1)
    }
}

impl<A: Allocator + Copy> TermForm<A> {
    /// What the form, without the terms in it, leaves of the room for nodes, `None` where it has more.
    fn room_left_by_head(&self, room: u32) -> Option<u32>
        ensures { SomeIff result (own_size (process_of_form self.now) ≤ room)
            (room - own_size (process_of_form self.now)) }
    {
        let rest = room.checked_sub(1)?;
        match self {
            TermForm::Stop
            | TermForm::Skip
            | TermForm::Omega
            | TermForm::Binary(_, _, _)
            | TermForm::SlidingChoice(_, _) => Some(rest),
            TermForm::Call(_, arguments) => room_left_by(arguments, rest),
            TermForm::Prefix(_, fields, _) => room_left_by_fields(fields, rest),
            TermForm::Guard(expression, _)
            | TermForm::If(expression, _, _)
            | TermForm::Replicated(_, _, expression, _) => expression.room_left(rest),
            TermForm::GeneralisedParallel(_, events, _) | TermForm::Hiding(_, events) => {
                events.room_left(rest)
            }
            TermForm::AlphabetisedParallel(_, own, other, _) => {
                other.room_left(own.room_left(rest)?)
            }
            TermForm::Renaming(_, pairs) => room_left_by_pairs(pairs, rest),
        }
    }

    /// Whether the parts of the form are at most so deep.
    #[cycle(depth)]
    fn are_parts_within_depth(&self, most: u32) -> bool
        ensures { IsTrue result ↔ (depth (process_of_form self.now) ≤ 1 + most) }
    {
        if !self.is_head_within_depth(most) {
            return false;
        }
        match self {
            TermForm::Stop | TermForm::Skip | TermForm::Omega | TermForm::Call(_, _) => true,
            TermForm::Prefix(_, _, body)
            | TermForm::Guard(_, body)
            | TermForm::Hiding(body, _)
            | TermForm::Renaming(body, _)
            | TermForm::Replicated(_, _, _, body) => body.is_within_depth(most),
            TermForm::If(_, left, right)
            | TermForm::Binary(_, left, right)
            | TermForm::GeneralisedParallel(left, _, right)
            | TermForm::AlphabetisedParallel(left, _, _, right)
            | TermForm::SlidingChoice(left, right) => {
                left.is_within_depth(most) && right.is_within_depth(most)
            }
        }
    }

    /// Whether the parts of the form that are no terms are at most so deep.
    fn is_head_within_depth(&self, most: u32) -> bool
        ensures { IsTrue result ↔ (own_depth (process_of_form self.now) ≤ most) }
    {
        match self {
            TermForm::Stop
            | TermForm::Skip
            | TermForm::Omega
            | TermForm::Binary(_, _, _)
            | TermForm::SlidingChoice(_, _) => true,
            TermForm::Call(_, arguments) => are_within_depth(arguments, most),
            TermForm::Prefix(_, fields, _) => are_fields_within_depth(fields, most),
            TermForm::Guard(expression, _)
            | TermForm::If(expression, _, _)
            | TermForm::Replicated(_, _, expression, _) => expression.is_within_depth(most),
            TermForm::GeneralisedParallel(_, events, _) | TermForm::Hiding(_, events) => {
                events.is_within_depth(most)
            }
            TermForm::AlphabetisedParallel(_, own, other, _) => {
                own.is_within_depth(most) && other.is_within_depth(most)
            }
            TermForm::Renaming(_, pairs) => are_pairs_within_depth(pairs, most),
        }
    }
}

impl<A: Allocator> Field<A> {
    /// What the field leaves of the room for nodes, `None` where it has more.
    fn room_left(&self, room: u32) -> Option<u32>
        ensures { SomeIff result (fields_size (field_of self.now ∷ []) ≤ room)
            (room - fields_size (field_of self.now ∷ [])) }
    {
        let rest = room.checked_sub(1)?;
        match self {
            Field::Given(expression) | Field::InputFrom(_, expression) => {
                expression.room_left(rest)
            }
            Field::Input(_) => Some(rest),
        }
    }

    /// Whether the field is at most so deep.
    fn is_within_depth(&self, most: u32) -> bool
        ensures { IsTrue result ↔ (fields_depth (field_of self.now ∷ []) ≤ most) }
    {
        if most == 0 {
            return false;
        }
        match self {
            Field::Given(expression) | Field::InputFrom(_, expression) => {
                expression.is_within_depth(most - 1)
            }
            Field::Input(_) => true,
        }
    }
}

/// What the fields together leave of the room.
fn room_left_by_fields<A: Allocator>(fields: &[Field<A>], room: u32) -> Option<u32>
    ensures { SomeIff result (fields_size (fields_of fields.now) ≤ room)
        (room - fields_size (fields_of fields.now)) }
{
    let mut rest = room;
    for field in fields {
        rest = field.room_left(rest)?;
    }
    Some(rest)
}

/// Whether each of the fields is at most so deep.
fn are_fields_within_depth<A: Allocator>(fields: &[Field<A>], most: u32) -> bool
    ensures { IsTrue result ↔ (fields_depth (fields_of fields.now) ≤ most) }
{
    for field in fields {
        if !field.is_within_depth(most) {
            return false;
        }
    }
    true
}
