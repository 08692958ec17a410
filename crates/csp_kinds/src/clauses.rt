//! The clauses of a datatype.

ghost use Rattle.std.specs.Prelude.{IfOk, map};
ghost use Rattle.csp_parse.specs.Declarations.{clause_of};
ghost use Rattle.csp_kinds.specs.Clauses.{IsNextDatatype, LooksAtClauses};

use crate::faults::{SetFault, first_of};
use crate::fields::look_at_clause;
use crate::fit::Fit;
use crate::looking::Above;
use csp_parse::Clause;
use csp_value::{FieldSet, Memory};
use std::alloc::Allocator;

/// The clauses of a datatype that were looked at so far.
#[derive(Drop)]
pub(crate) struct Clauses<A: Allocator> {
    /// The sets of the fields of each constructor, if each of them has a member.
    pub(crate) sets: Vec<Option<Vec<FieldSet<A>, A>>, A>,
    /// The first fault.
    pub(crate) fault: Option<SetFault>,
}

/// Looks at the clauses of the next datatype, whose constructors are numbered behind those above.
pub(crate) fn look_at_clauses<'t, A: Allocator + Copy>(
    alloc: A,
    above: &Above<'_, 't, A>,
    fit: &mut Fit<A>,
    clauses: &[Clause<'t, A>],
) -> Result<Clauses<A>, Memory>
    requires { IsNextDatatype above.now fit.old (map clause_of clauses.now) }
    ensures { IfOk result (LooksAtClauses above.now fit.old (map clause_of clauses.now) fit.new) }
{
    let first = above.table.types.constructors.len();
    let mut all = Clauses {
        sets: Vec::new(alloc),
        fault: None,
    };
    for (place, clause) in clauses.iter().enumerate() {
        let fields = look_at_clause(alloc, above, fit, first + place, &clause.fields)?;
        all.fault = first_of(all.fault, fields.fault);
        all.sets.push(fields.into_sets(true))?;
    }
    Ok(all)
}
