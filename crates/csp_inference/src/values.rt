//! What values ask for.

ghost use Rattle.std.specs.Prelude.{IfOk};
ghost use Rattle.csp_inference.specs.Question.{AddsQuestion, AsksQuestion};
ghost use Rattle.csp_inference.specs.Questions.Values.{constructor_question, rising_question, value_question, values_in_turn_question, values_question};

use crate::chain::{Demand, End, KindNumber};
use crate::equations::Equations;
use crate::numbering::Numbering;
use csp_value::{ConId, Memory, Value, is_rising};
use std::alloc::Allocator;

impl<A: Allocator + Copy> Equations<A> {
    /// Adds the equations for a value that is to have the kind, or is `Memory` where there is no room for them.
    #[cycle(ask_value)]
    pub(crate) fn ask_value(
        &mut self,
        numbering: &Numbering<A>,
        value: &Value<A>,
        kind: Demand,
    ) -> Result<(), Memory>
        ensures { IfOk result (λ _. AsksQuestion self.old self.new
            (value_question numbering.now value.now kind)) }
    {
        match value {
            Value::Int(_) => self.push(Demand::Plain(End::Int), kind),
            Value::Bool(_) => self.push(Demand::Plain(End::Bool), kind),
            Value::Con(constructor, fields) => {
                self.ask_constructor(numbering, *constructor, fields, kind)
            }
            Value::Seq(items) => {
                let number = self.push_sequence(kind)?;
                self.ask_values(numbering, items, Demand::Plain(End::Open(number)))
            }
            Value::Set(set) => {
                let members = set.members();
                let number = self.push_set(kind)?;
                self.ask_values(numbering, members, Demand::Plain(End::Open(number)))?;
                self.ask_rising(members)
            }
        }
    }

    /// Adds the equations for values that are all to have the kind.
    #[cycle(ask_value)]
    fn ask_values(
        &mut self,
        numbering: &Numbering<A>,
        values: &[Value<A>],
        kind: Demand,
    ) -> Result<(), Memory>
        ensures { IfOk result (λ _. AsksQuestion self.old self.new
            (values_question numbering.now values.now kind)) }
    {
        for value in values {
            self.ask_value(numbering, value, kind)?;
        }
        Ok(())
    }

    /// Adds an equation that no kinds solve, where the members of a set do not rise.
    fn ask_rising(&mut self, members: &[Value<A>]) -> Result<(), Memory>
        ensures { IfOk result (λ _. AddsQuestion self.old self.new (rising_question members.now)) }
    {
        if is_rising(members) {
            Ok(())
        } else {
            self.push_never()
        }
    }

    /// Adds the equations for a constructor with these fields that is to have the kind.
    #[cycle(ask_value)]
    fn ask_constructor(
        &mut self,
        numbering: &Numbering<A>,
        constructor: ConId,
        fields: &[Value<A>],
        kind: Demand,
    ) -> Result<(), Memory>
        ensures { IfOk result (λ _. AsksQuestion self.old self.new
            (constructor_question numbering.now constructor fields.now kind)) }
    {
        let Some(datatype) = numbering.owners.get(constructor.0 as usize) else {
            return self.push_never();
        };
        self.push(Demand::Plain(End::Datatype(*datatype)), kind)?;
        let Some(numbers) = numbering.constructors.get(constructor.0 as usize) else {
            return self.push_never();
        };
        self.ask_values_in_turn(numbering, fields, numbers)
    }

    /// Adds the equations for values that are to have the kinds of the numbers in turn. No kinds fit where there are
    /// more values than numbers, or fewer.
    #[cycle(ask_value)]
    fn ask_values_in_turn(
        &mut self,
        numbering: &Numbering<A>,
        values: &[Value<A>],
        numbers: &[KindNumber],
    ) -> Result<(), Memory>
        ensures { IfOk result (λ _. AsksQuestion self.old self.new
            (values_in_turn_question numbering.now values.now numbers.now)) }
    {
        if values.len() != numbers.len() {
            return self.push_never();
        }
        for (index, value) in values.iter().enumerate() {
            let kind = Demand::Plain(End::Open(numbers[index]));
            self.ask_value(numbering, value, kind)?;
        }
        Ok(())
    }
}
