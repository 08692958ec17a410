//! The datatypes of a tree.

ghost use Rattle.std.specs.Prelude.{◌≡◌, ◌+◌, IfOk, map};
ghost use Rattle.theory_checking.specs.ConstructorRows.{constructor_counts, constructors_declared};
ghost use Rattle.csp_kinds.specs.Members.{counted};
ghost use Rattle.theory_checking.specs.Inference.Items.{numbers_from, rows_from};
ghost use Rattle.csp_expression.specs.Evaluation.{constructors_of};
ghost use Rattle.csp_parse.specs.Declarations.{declaration_of};

use csp_expression::Constructors;
use csp_parse::Declaration;
use csp_value::{ConId, Memory};
use std::alloc::Allocator;

/// The datatypes, whose constructors are numbered one after the other. `Memory` where there is no room for them, or for
/// one that has no constructor.
pub(crate) fn datatypes_of<A: Allocator + Copy>(
    alloc: A,
    declarations: &[Declaration<'_, A>],
) -> Result<Vec<Constructors, A>, Memory>
    ensures { IfOk result (λ all. map constructors_of all.items
        ≡ rows_from 0 (constructor_counts (map declaration_of declarations.now))) }
{
    let mut all = Vec::new(alloc);
    let mut next: u32 = 0;
    for declaration in declarations {
        if let Some(count) = constructor_count(declaration) {
            let row = row_of(next, count)?;
            all.push(row)?;
            next = next_behind(row)?;
        }
    }
    Ok(all)
}

/// How many constructors the declaration declares, if it declares a datatype.
fn constructor_count<A: Allocator>(declaration: &Declaration<'_, A>) -> Option<usize>
    ensures { counted result ≡ constructors_declared (declaration_of declaration.now) }
{
    match declaration {
        Declaration::Datatype { clauses, .. } => Some(clauses.len()),
        _ => None,
    }
}

/// So many constructors, from the first one on.
fn row_of(first: u32, count: usize) -> Result<Constructors, Memory>
    ensures numbers { IfOk result (λ row. constructors_of row ≡ numbers_from first count) }
    ensures next { IfOk result (λ row. row.first.0 + row.following + 1 ≡ first + count) }
{
    let Ok(count) = u32::try_from(count) else {
        return Err(Memory);
    };
    let following = count.checked_sub(1).ok_or(Memory)?;
    Ok(Constructors {
        first: ConId(first),
        following,
    })
}

/// The number of the next constructor.
fn next_behind(row: Constructors) -> Result<u32, Memory>
    ensures { IfOk result (λ next. next ≡ row.first.0 + row.following + 1) }
{
    let last = row.first.0.checked_add(row.following).ok_or(Memory)?;
    last.checked_add(1).ok_or(Memory)
}
