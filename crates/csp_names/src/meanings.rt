//! What names mean.

ghost use Rattle.std.specs.Prelude.{◌≡◌, option_map, Some};
ghost use Rattle.theory_checking.specs.Resolving.{as_channel, as_constructor, as_equation, as_expression};
ghost use Rattle.csp_expression.specs.Expression.{expression_of};
ghost use Rattle.csp_names.specs.Meanings.{meaning_of};

use csp_expression::{DatatypeId, Expr, Name, NametypeId};
use csp_term::EquationId;
use csp_value::{ChannelId, ConId, Value};
use std::alloc::Allocator;

/// What a name is declared as.
#[derive(Clone, Copy)]
pub enum Declared {
    /// A datatype, which stands for the set of its values.
    Datatype(DatatypeId),
    /// A constructor of a datatype.
    Constructor(ConId),
    /// A nametype, which stands for its set.
    Nametype(NametypeId),
    /// A channel.
    Channel(ChannelId),
    /// An equation.
    Equation(EquationId),
}

/// What a name means where it stands.
#[derive(Clone, Copy)]
pub(crate) enum Meaning {
    Declared(Declared),
    Bound(Name),
}

impl Meaning {
    /// The channel, if it is one.
    pub(crate) fn channel(self) -> Option<ChannelId>
        ensures { option_map (λ c. c.0) result ≡ as_channel (Some (meaning_of self)) }
    {
        match self {
            Meaning::Declared(Declared::Channel(channel)) => Some(channel),
            Meaning::Declared(
                Declared::Datatype(_)
                | Declared::Constructor(_)
                | Declared::Nametype(_)
                | Declared::Equation(_),
            )
            | Meaning::Bound(_) => None,
        }
    }

    /// The constructor, if it is one.
    pub(crate) fn constructor(self) -> Option<ConId>
        ensures { option_map (λ k. k.0) result ≡ as_constructor (Some (meaning_of self)) }
    {
        match self {
            Meaning::Declared(Declared::Constructor(constructor)) => Some(constructor),
            Meaning::Declared(
                Declared::Datatype(_)
                | Declared::Nametype(_)
                | Declared::Channel(_)
                | Declared::Equation(_),
            )
            | Meaning::Bound(_) => None,
        }
    }

    /// The equation, if it is one.
    pub(crate) fn equation(self) -> Option<EquationId>
        ensures { option_map (λ q. q.0) result ≡ as_equation (Some (meaning_of self)) }
    {
        match self {
            Meaning::Declared(Declared::Equation(equation)) => Some(equation),
            Meaning::Declared(
                Declared::Datatype(_)
                | Declared::Constructor(_)
                | Declared::Nametype(_)
                | Declared::Channel(_),
            )
            | Meaning::Bound(_) => None,
        }
    }

    /// The expression that the name alone is, if it is one.
    pub(crate) fn expression<A: Allocator>(self, alloc: A) -> Option<Expr<A>>
        ensures { option_map expression_of result ≡ as_expression (Some (meaning_of self)) }
    {
        match self {
            Meaning::Bound(name) => Some(Expr::Name(name)),
            Meaning::Declared(Declared::Constructor(constructor)) => {
                Some(Expr::Literal(Value::Con(constructor, Vec::new(alloc))))
            }
            Meaning::Declared(Declared::Datatype(datatype)) => Some(Expr::Datatype(datatype)),
            Meaning::Declared(Declared::Nametype(nametype)) => Some(Expr::Nametype(nametype)),
            Meaning::Declared(Declared::Channel(_) | Declared::Equation(_)) => None,
        }
    }
}
