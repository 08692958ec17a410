//! What the fields of a prefix ask for.

ghost use Rattle.std.specs.Prelude.{◌≡◌, ◌∷◌, IfOk};
ghost use Rattle.csp_inference.specs.Equations.{HasNames};
ghost use Rattle.csp_inference.specs.Numbering.{names_of};
ghost use Rattle.csp_inference.specs.Question.{AsksQuestion};
ghost use Rattle.csp_inference.specs.Questions.Fields.{field_question, fields_question, names_behind_field, names_behind_fields};

use crate::chain::{Demand, End, KindNumber};
use crate::equations::Equations;
use crate::numbering::{NumberedName, Numbering};
use csp_expression::{Name, TypeTable};
use csp_term::Field;
use csp_value::Memory;
use std::alloc::Allocator;

/// The name comes before the others, and hides those of them that are the same.
pub(crate) fn bind_name<A: Allocator + Copy>(
    names: &mut Vec<NumberedName, A>,
    name: Name,
    number: KindNumber,
) -> Result<(), Memory>
    ensures { IfOk result (λ _. names_of names.new.items
        ≡ (name.0, number.0) ∷ names_of names.old.items) }
{
    names.insert(0, NumberedName { name, number })?;
    Ok(())
}

impl<A: Allocator + Copy> Equations<A> {
    /// Adds the equations for the fields of a prefix, which are to have the kinds of the numbers in turn, and gives the
    /// names behind their inputs. No kinds fit where there are more fields than numbers, or fewer. `Memory` where there
    /// is no room.
    pub(crate) fn ask_fields(
        &mut self,
        alloc: A,
        types: &TypeTable<A>,
        numbering: &Numbering<A>,
        names: &[NumberedName],
        fields: &[Field<A>],
        numbers: &[KindNumber],
    ) -> Result<Vec<NumberedName, A>, Memory>
        ensures asks { IfOk result (λ _. AsksQuestion self.old self.new
            (fields_question types.now numbering.now names.now fields.now numbers.now)) }
        ensures names { IfOk result (λ inner. HasNames self.new (names_of inner.items)
            (names_behind_fields names.now fields.now numbers.now)) }
    {
        let mut inner = Vec::from_slice(alloc, names)?;
        if fields.len() != numbers.len() {
            self.push_never()?;
            return Ok(inner);
        }
        for (index, field) in fields.iter().enumerate() {
            self.ask_field(types, numbering, &mut inner, field, numbers[index])?;
        }
        Ok(inner)
    }

    /// Adds the equations for one field, and puts the name of an input before the others.
    fn ask_field(
        &mut self,
        types: &TypeTable<A>,
        numbering: &Numbering<A>,
        names: &mut Vec<NumberedName, A>,
        field: &Field<A>,
        number: KindNumber,
    ) -> Result<(), Memory>
        ensures asks { IfOk result (λ _. AsksQuestion self.old self.new
            (field_question types.now numbering.now names.old.items field.now number)) }
        ensures names { IfOk result (λ _. names_of names.new.items
            ≡ names_behind_field names.old.items field.now number) }
    {
        match field {
            Field::Given(value) => {
                let kind = Demand::Plain(End::Open(number));
                self.ask_expression(types, numbering, names, value, kind)
            }
            Field::Input(name) => bind_name(names, *name, number),
            Field::InputFrom(name, set) => {
                let kind = Demand::SetOf(End::Open(number));
                self.ask_expression(types, numbering, names, set, kind)?;
                bind_name(names, *name, number)
            }
        }
    }
}
