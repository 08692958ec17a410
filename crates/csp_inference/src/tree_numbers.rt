//! The numbers of the kinds of a tree's parts.

ghost use Rattle.std.specs.Prelude.{◌≡◌, ◌+◌, [], IfOk};
ghost use Rattle.theory_checking.specs.ConstructorRows.{constructor_counts};
ghost use Rattle.theory_checking.specs.Inference.Items.{behind_all, numbers_from, numbers_of, next_number, owners_from, rows_from};
ghost use Rattle.theory_checking.specs.Inference.State.{nothing_known};
ghost use Rattle.csp_inference.specs.Equations.{Adds};
ghost use Rattle.csp_inference.specs.Numbering.{numbering_of};
ghost use Rattle.csp_inference.specs.State.{SaysTheSame, state_in};
ghost use Rattle.csp_parse.specs.Declarations.{script_of};
ghost use Rattle.csp_inference.specs.TreeNumbers.{number_rows, owner_numbers, row_numbers};

use crate::chain::KindNumber;
use crate::copies::push_copies;
use crate::counts::{Counts, nametype_count};
use crate::equations::Equations;
use crate::numbering::Numbering;
use csp_expression::DatatypeId;
use csp_parse::Raw;
use csp_value::Memory;
use std::alloc::Allocator;

/// The numbers of the kinds of a tree's nametypes, fields and parameters, in a row from 0, and no equations yet, with
/// the next number. `Memory` where there is no room for them.
pub fn number<A: Allocator + Copy>(
    alloc: A,
    raw: &Raw<'_, A>,
) -> Result<(Numbering<A>, Equations<A>), Memory>
    ensures numbers { IfOk result (λ n. numbering_of n.0
        ≡ numbers_of (owners_from 0 (constructor_counts (script_of raw.now))) (script_of raw.now)) }
    ensures next { IfOk result (λ n. n.1.next ≡ next_number (script_of raw.now)) }
    ensures known { IfOk result (λ n. SaysTheSame nothing_known (state_in n.1.state)) }
{
    let counts = Counts::of(alloc, &raw.declarations)?;
    let owners = owners_of(alloc, &counts.constructors)?;
    let mut equations = Equations::new(alloc);
    let nametypes = numbers_in_a_row(alloc, &mut equations, nametype_count(&raw.declarations))?;
    let constructors = rows_in_a_row(alloc, &mut equations, &counts.constructor_fields)?;
    let channels = rows_in_a_row(alloc, &mut equations, &counts.fields)?;
    let parameters = rows_in_a_row(alloc, &mut equations, &counts.parameters)?;
    let numbering = Numbering {
        owners,
        nametypes,
        constructors,
        channels,
        parameters,
    };
    Ok((numbering, equations))
}

/// The datatype of each constructor, where the datatypes have so many.
fn owners_of<A: Allocator + Copy>(alloc: A, counts: &[usize]) -> Result<Vec<DatatypeId, A>, Memory>
    ensures { IfOk result (λ owners. owner_numbers owners.items ≡ owners_from 0 counts.now) }
{
    let mut owners = Vec::new(alloc);
    let mut datatype: u32 = 0;
    for count in counts {
        push_copies(&mut owners, *count, DatatypeId(datatype))?;
        datatype = datatype.checked_add(1).ok_or(Memory)?;
    }
    Ok(owners)
}

/// So many numbers from the next one on.
fn numbers_in_a_row<A: Allocator + Copy>(
    alloc: A,
    equations: &mut Equations<A>,
    count: usize,
) -> Result<Vec<KindNumber, A>, Memory>
    ensures numbers { IfOk result (λ row. row_numbers row.items
        ≡ numbers_from equations.old.next count) }
    ensures behind { IfOk result (λ _. Adds equations.old equations.new []
        (equations.old.next + count)) }
{
    let mut numbers = Vec::new(alloc);
    for _ in 0..count {
        let number = equations.fresh()?;
        numbers.push(number)?;
    }
    Ok(numbers)
}

/// Rows of so many numbers each, from the next one on.
fn rows_in_a_row<A: Allocator + Copy>(
    alloc: A,
    equations: &mut Equations<A>,
    counts: &[usize],
) -> Result<Vec<Vec<KindNumber, A>, A>, Memory>
    ensures rows { IfOk result (λ rows. number_rows rows.items
        ≡ rows_from equations.old.next counts.now) }
    ensures behind { IfOk result (λ _. Adds equations.old equations.new []
        (behind_all equations.old.next counts.now)) }
{
    let mut rows = Vec::new(alloc);
    for count in counts {
        let row = numbers_in_a_row(alloc, equations, *count)?;
        rows.push(row)?;
    }
    Ok(rows)
}
