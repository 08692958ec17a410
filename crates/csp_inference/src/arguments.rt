//! What expressions in the places of fields and parameters ask for.

ghost use Rattle.std.specs.Prelude.{◌≤◌, IfOk, length};
ghost use Rattle.csp_inference.specs.Question.{AsksQuestion};
ghost use Rattle.csp_inference.specs.Questions.Arguments.{arguments_question, leading_arguments_question};

use crate::chain::{Demand, End, KindNumber};
use crate::equations::Equations;
use crate::numbering::{NumberedName, Numbering};
use csp_expression::{Expr, TypeTable};
use csp_value::Memory;
use std::alloc::Allocator;

impl<A: Allocator + Copy> Equations<A> {
    /// Adds the equations for expressions that are to have the kinds of the numbers in turn. No kinds fit where there
    /// are more expressions than numbers, or fewer. `Memory` where there is no room.
    #[cycle(ask_expression)]
    pub(crate) fn ask_all(
        &mut self,
        types: &TypeTable<A>,
        numbering: &Numbering<A>,
        names: &[NumberedName],
        expressions: &[Expr<A>],
        numbers: &[KindNumber],
    ) -> Result<(), Memory>
        ensures { IfOk result (λ _. AsksQuestion self.old self.new
            (arguments_question types.now numbering.now names.now expressions.now numbers.now)) }
    {
        if expressions.len() != numbers.len() {
            self.push_never()?;
            return Ok(());
        }
        self.ask_each(types, numbering, names, expressions, numbers)?;
        Ok(())
    }

    /// The same where there may be more numbers.
    pub(crate) fn ask_first(
        &mut self,
        types: &TypeTable<A>,
        numbering: &Numbering<A>,
        names: &[NumberedName],
        expressions: &[Expr<A>],
        numbers: &[KindNumber],
    ) -> Result<(), Memory>
        ensures { IfOk result (λ _. AsksQuestion self.old self.new
            (leading_arguments_question types.now numbering.now names.now expressions.now
            numbers.now)) }
    {
        if numbers.len() < expressions.len() {
            self.push_never()?;
            return Ok(());
        }
        self.ask_each(types, numbering, names, expressions, numbers)?;
        Ok(())
    }

    /// Adds the equations for expressions that are to have the kinds of the first numbers in turn.
    #[cycle(ask_expression)]
    fn ask_each(
        &mut self,
        types: &TypeTable<A>,
        numbering: &Numbering<A>,
        names: &[NumberedName],
        expressions: &[Expr<A>],
        numbers: &[KindNumber],
    ) -> Result<(), Memory>
        requires { length expressions.now ≤ length numbers.now }
        ensures { IfOk result (λ _. AsksQuestion self.old self.new
            (leading_arguments_question types.now numbering.now names.now expressions.now
            numbers.now)) }
    {
        for (index, expression) in expressions.iter().enumerate() {
            let kind = Demand::Plain(End::Open(numbers[index]));
            self.ask_expression(types, numbering, names, expression, kind)?;
        }
        Ok(())
    }
}
