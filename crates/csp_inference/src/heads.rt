//! What the heads of calls and prefixes ask for.

ghost use Rattle.std.specs.Prelude.{IfOk};
ghost use Rattle.csp_inference.specs.Equations.{HasNames};
ghost use Rattle.csp_inference.specs.Numbering.{names_of};
ghost use Rattle.csp_inference.specs.Question.{AsksQuestion};
ghost use Rattle.csp_inference.specs.Questions.Heads.{call_question, names_in_body, prefix_question};

use crate::equations::Equations;
use crate::numbering::{NumberedName, Numbering};
use csp_expression::{Expr, TypeTable};
use csp_term::{ChannelId, EquationId, Field};
use csp_value::Memory;
use std::alloc::Allocator;

impl<A: Allocator + Copy> Equations<A> {
    /// Adds the equations for a call with its arguments, or is `Memory` where there is no room for them.
    pub(crate) fn ask_call(
        &mut self,
        types: &TypeTable<A>,
        numbering: &Numbering<A>,
        names: &[NumberedName],
        called: EquationId,
        arguments: &[Expr<A>],
    ) -> Result<(), Memory>
        ensures { IfOk result (λ _. AsksQuestion self.old self.new
            (call_question types.now numbering.now names.now called arguments.now)) }
    {
        let Some(numbers) = numbering.parameters.get(called.0 as usize) else {
            self.push_never()?;
            return Ok(());
        };
        self.ask_all(types, numbering, names, arguments, numbers)?;
        Ok(())
    }

    /// Adds the equations for the fields of a prefix, and gives the names behind its inputs. `Memory` where there is no
    /// room.
    pub(crate) fn ask_prefix(
        &mut self,
        alloc: A,
        types: &TypeTable<A>,
        numbering: &Numbering<A>,
        names: &[NumberedName],
        channel: ChannelId,
        fields: &[Field<A>],
    ) -> Result<Vec<NumberedName, A>, Memory>
        ensures asks { IfOk result (λ _. AsksQuestion self.old self.new
            (prefix_question types.now numbering.now names.now channel fields.now)) }
        ensures names { IfOk result (λ inner. HasNames self.new (names_of inner.items)
            (names_in_body numbering.now names.now channel fields.now)) }
    {
        let Some(numbers) = numbering.channels.get(channel.0 as usize) else {
            self.push_never()?;
            return Ok(Vec::from_slice(alloc, names)?);
        };
        self.ask_fields(alloc, types, numbering, names, fields, numbers)
    }
}
