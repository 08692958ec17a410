//! Looking at one set.

ghost use Rattle.std.specs.Prelude.{◌≡◌, IfOk, None, is_some};
ghost use Rattle.csp_lex.specs.Places.{place_of};
ghost use Rattle.csp_names.specs.declared.refusals.Refused.TheVariants.{Fault as refused_by};
ghost use Rattle.csp_parse.specs.Expressions.{expression_of};
ghost use Rattle.csp_inference.specs.Solving.{lent_expression};
ghost use Rattle.csp_kinds.specs.Faults.{fault_of_set};
ghost use Rattle.csp_kinds.specs.Looking.{LooksAt, fault_in, listed_members, looked_expression, looked_members, looked_refusal};

use crate::faults::SetFault;
use crate::table::Table;
use csp_expression::Expr;
use csp_lex::Place;
use csp_names::{BoundNames, KindFault, Names, Refused, Scope};
use csp_parse::Expression as RawExpression;
use csp_value::{Memory, SetOf};
use std::alloc::Allocator;

/// What is declared above a set.
#[derive(Clone, Copy)]
pub(crate) struct Above<'s, 't, A: Allocator> {
    pub(crate) names: &'s Names<'t, A>,
    /// How many names are declared above.
    pub(crate) visible: usize,
    pub(crate) table: &'s Table<A>,
}

/// A set that was looked at.
#[derive(Drop)]
pub(crate) enum LookedSet<A: Allocator> {
    /// No name in it is refused. It has members if it has a value.
    Set {
        set: Expr<A>,
        members: Option<SetOf<A>>,
    },
    /// The first fault of a name in it.
    Refused(SetFault),
}

impl<'s, 't, A: Allocator + Copy> Above<'s, 't, A> {
    /// Resolves the set and evaluates it, or finds the first fault of a name in it.
    pub(crate) fn look(&self, alloc: A, set: &RawExpression<'t, A>) -> Result<LookedSet<A>, Memory>
        ensures { IfOk result (LooksAt self.now (expression_of set.now)) }
    {
        let scope = Scope {
            names: self.names,
            visible: self.visible,
            field_sets: &[],
        };
        let bound = BoundNames::new(alloc);
        let resolved = scope.resolve_expression(alloc, &bound, set);
        let Scope {
            names: _names,
            visible: _visible,
            field_sets: _field_sets,
        } = scope;
        match resolved {
            Ok(set) => {
                let members = self.table.members(alloc, &set)?;
                Ok(LookedSet::Set { set, members })
            }
            Err(refused) => Ok(LookedSet::Refused(fault_by(refused)?)),
        }
    }
}

/// The fault that a refusal names.
fn fault_by(refused: Refused) -> Result<SetFault, Memory>
    ensures { IfOk result (λ f. refused ≡ refused_by f.fault f.place) }
{
    match refused {
        Refused::Fault { fault, place } => Ok(SetFault { fault, place }),
        Refused::Memory => Err(Memory),
    }
}

impl<A: Allocator> LookedSet<A> {
    /// The expression of the set, where no name in it is refused.
    pub(crate) fn expression(&self) -> Option<&Expr<A>>
        ensures { lent_expression result ≡ looked_expression self.now }
    {
        match self {
            LookedSet::Set { set, .. } => Some(set),
            LookedSet::Refused(_) => None,
        }
    }

    /// Whether the set has a value.
    pub(crate) fn has_value(&self) -> bool
        ensures { result ≡ is_some (looked_members self.now) }
    {
        match self {
            LookedSet::Set { members, .. } => members.is_some(),
            LookedSet::Refused(_) => false,
        }
    }

    /// The members of the set, if it has a value.
    pub(crate) fn into_members(self) -> Option<SetOf<A>>
        ensures { listed_members result ≡ looked_members self }
    {
        match self {
            LookedSet::Set { members, .. } => members,
            LookedSet::Refused(_) => None,
        }
    }

    /// The fault of the set whose first token is at the place: of a name in it, or that no kinds fit, or that it has no
    /// members that count.
    pub(crate) fn fault(&self, place: Place, fits: bool, counts: bool) -> Option<SetFault>
        ensures { fault_in result ≡ fault_of_set (looked_refusal self.now) (place_of place) fits
            counts }
    {
        match self {
            LookedSet::Refused(fault) => Some(*fault),
            LookedSet::Set { .. } => fault_at(place, fits, counts),
        }
    }
}

/// The fault at the first token of a set in which no name is refused.
fn fault_at(place: Place, fits: bool, counts: bool) -> Option<SetFault>
    ensures { fault_in result ≡ fault_of_set None (place_of place) fits counts }
{
    if !fits {
        Some(SetFault {
            fault: KindFault::WrongKind,
            place,
        })
    } else if !counts {
        Some(SetFault {
            fault: KindFault::BadFieldSet,
            place,
        })
    } else {
        None
    }
}
