//! Parts of a term that are to blame.

use csp_expression::{Cause, Expr, Name};
use csp_value::{ChannelId, ConId, Value};
use std::alloc::Allocator;

/// What a field is one of.
#[derive(Clone, Copy, PartialEq, Eq)]
pub enum Owner {
    /// A field of this channel.
    Channel(ChannelId),
    /// A field of this constructor.
    Constructor(ConId),
}

/// What is to blame that a rule lacks a value.
#[derive(Drop)]
pub enum Culprit<A: Allocator> {
    /// The expression has no value, by this cause, though its operands have one. An operator has their values as its
    /// operands.
    Valueless(Expr<A>, Cause),
    /// The value lies outside of the set of the field with this number, counted from 1.
    Outside(Owner, usize, Value<A>),
    /// An internal choice that gives the name the values of this set, which is empty.
    NoChoice(Name, Expr<A>),
    /// A part is of the wrong kind, which none is in a closed, well-kinded term.
    Misfit,
}
