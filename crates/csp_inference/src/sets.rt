//! What the sets of nametypes and fields ask for.

ghost use Rattle.std.specs.Prelude.{IfOk};
ghost use Rattle.csp_inference.specs.Question.{AsksQuestion};
ghost use Rattle.csp_inference.specs.Questions.Sets.{copies_question, set_question};

use crate::chain::{Demand, End, KindNumber};
use crate::equations::Equations;
use crate::numbering::Numbering;
use csp_expression::{Expr, TypeTable};
use csp_value::Memory;
use std::alloc::Allocator;

impl<A: Allocator + Copy> Equations<A> {
    /// Adds the equations for a set whose members have the kind of the number, or is `Memory` where there is no room
    /// for them.
    pub fn ask_set(
        &mut self,
        types: &TypeTable<A>,
        numbering: &Numbering<A>,
        set: &Expr<A>,
        members: KindNumber,
    ) -> Result<(), Memory>
        ensures { IfOk result (λ _. AsksQuestion self.old self.new
            (set_question types.now numbering.now set.now members)) }
    {
        self.ask_expression(
            types,
            numbering,
            &[],
            set,
            Demand::SetOf(End::Open(members)),
        )?;
        Ok(())
    }

    /// The same for a set that several channels have for a field, each with a number of its own. `Memory` where there
    /// is no room.
    pub fn ask_copies(
        &mut self,
        types: &TypeTable<A>,
        numbering: &Numbering<A>,
        set: &Expr<A>,
        numbers: &[KindNumber],
    ) -> Result<(), Memory>
        ensures { IfOk result (λ _. AsksQuestion self.old self.new
            (copies_question types.now numbering.now set.now numbers.now)) }
    {
        for members in numbers {
            self.ask_set(types, numbering, set, *members)?;
        }
        Ok(())
    }
}
