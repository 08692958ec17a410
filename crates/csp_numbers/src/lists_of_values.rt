//! The lists of one value of each set, in order, by their numbers.

ghost use Rattle.std.specs.Prelude.{◌≡◌, ◌<◌, ◌-◌, ◌^◌, IfOk, min, Some, length, slice_get};
ghost use Rattle.theory_shapes.specs.Alphabet.{field_lists};
ghost use Rattle.csp_value.specs.Fields.{sets_of};
ghost use Rattle.csp_value.specs.Value.{values_of};
ghost use Rattle.csp_numbers.specs.Choosing.{IsCountWithin};

use csp_term::{AllocHandle, Memory};
use csp_value::{FieldSet, Value};
use smallvec::SmallVec;

/// How many lists there are, or the greatest number where they are more.
fn saturated_count<A: AllocHandle>(sets: &[FieldSet<A>]) -> usize
    ensures { result ≡ min (length (field_lists (sets_of sets.now))) (2 ^ 64 - 1) }
{
    let mut count: usize = 1;
    for set in sets {
        let members = set.members();
        let product = count.saturating_mul(members.len());
        count = product;
    }
    count
}

/// How many lists there are, or `None` where they are more than `most`.
pub(crate) fn count_of_lists<A: AllocHandle>(sets: &[FieldSet<A>], most: usize) -> Option<usize>
    requires { most < 2 ^ 63 }
    ensures { IsCountWithin most (length (field_lists (sets_of sets.now))) result }
{
    let count = saturated_count(sets);
    if count <= most { Some(count) } else { None }
}

/// The list of this number, of so many. As the digits of a number, the last value changes fastest.
pub(crate) fn list_of_number<A: AllocHandle>(
    alloc: A,
    sets: &[FieldSet<A>],
    number: usize,
    count: usize,
) -> Result<SmallVec<Value<A>, 2, A>, Memory>
    requires counted { count ≡ length (field_lists (sets_of sets.now)) }
    requires within { number < count }
    ensures { IfOk result (λ list. slice_get (field_lists (sets_of sets.now)) number
        ≡ Some (values_of list.items)) }
{
    let mut list = SmallVec::new(alloc);
    let mut number = number;
    let mut count = count;
    for set in sets {
        let members = set.members();
        count /= members.len();
        list.push(members[number / count].try_copy(alloc)?)?;
        number %= count;
    }
    Ok(list)
}
