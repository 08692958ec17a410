//! The numbers of the kinds of a script's parts.

ghost use Rattle.std.specs.Prelude.{◌≡◌, option_map};
ghost use Rattle.theory_checking.specs.Inference.Equations.{number_of_name};
ghost use Rattle.csp_inference.specs.Numbering.{names_of};

use crate::chain::KindNumber;
use csp_expression::{DatatypeId, Name};
use std::alloc::Allocator;

/// The numbers of the kinds of a script's parts, and of which datatype each constructor is.
#[derive(Drop)]
pub struct Numbering<A: Allocator> {
    /// The datatype of each constructor.
    pub owners: Vec<DatatypeId, A>,
    /// The kind of the members of each nametype.
    pub nametypes: Vec<KindNumber, A>,
    /// The kinds of the fields of each constructor.
    pub constructors: Vec<Vec<KindNumber, A>, A>,
    /// The kinds of the fields of each channel.
    pub channels: Vec<Vec<KindNumber, A>, A>,
    /// The kinds of the parameters of each equation.
    pub parameters: Vec<Vec<KindNumber, A>, A>,
}

/// A bound name with the number of its kind.
#[derive(Clone, Copy)]
pub struct NumberedName {
    /// The bound name.
    pub name: Name,
    /// The number of its kind.
    pub number: KindNumber,
}

/// The number of the first of these names that is the given one, if there is one.
pub(crate) fn number_of_name(names: &[NumberedName], name: Name) -> Option<KindNumber>
    ensures { option_map (λ n. n.0) result ≡ number_of_name (names_of names.now) name.0 }
{
    for named in names {
        if named.name == name {
            return Some(named.number);
        }
    }
    None
}
