//! What the equations and the assertions of a script ask for.

ghost use Rattle.std.specs.Prelude.{◌≡◌, IfOk, length, map};
ghost use Rattle.theory_checking.specs.Inference.Items.{numbered};
ghost use Rattle.csp_inference.specs.Numbering.{names_of};
ghost use Rattle.csp_inference.specs.Question.{AsksQuestion};
ghost use Rattle.csp_inference.specs.Questions.Items.{assertion_question, equation_question, specification_question};

use crate::chain::KindNumber;
use crate::equations::Equations;
use crate::numbering::{NumberedName, Numbering};
use csp_expression::Name;
use csp_term::{Assertion, Equation, ScriptParts, Term};
use csp_value::Memory;
use std::alloc::Allocator;

/// The parameters with the numbers of their kinds.
fn number_parameters<A: Allocator + Copy>(
    alloc: A,
    parameters: &[Name],
    numbers: &[KindNumber],
) -> Result<Vec<NumberedName, A>, Memory>
    requires { length parameters.now ≡ length numbers.now }
    ensures { IfOk result (λ names. names_of names.items
        ≡ numbered (map (λ x. x.0) parameters.now) (map (λ n. n.0) numbers.now)) }
{
    let mut names = Vec::new(alloc);
    for index in 0..parameters.len() {
        let name = parameters[index];
        let number = numbers[index];
        names.push(NumberedName { name, number })?;
    }
    Ok(names)
}

impl<A: Allocator + Copy> Equations<A> {
    /// Adds the equations for an equation of the script whose parameters have the kinds of the numbers. No kinds fit
    /// where there are more parameters than numbers, or fewer. `Memory` where there is no room.
    pub fn ask_equation(
        &mut self,
        alloc: A,
        script: &ScriptParts<A>,
        numbering: &Numbering<A>,
        equation: &Equation<A>,
        numbers: &[KindNumber],
    ) -> Result<(), Memory>
        ensures { IfOk result (λ _. AsksQuestion self.old self.new
            (equation_question script.now numbering.now equation.now numbers.now)) }
    {
        if equation.parameters.len() != numbers.len() {
            self.push_never()?;
            return Ok(());
        }
        let names = number_parameters(alloc, &equation.parameters, numbers)?;
        self.ask_process(alloc, script, numbering, &names, &equation.body)?;
        Ok(())
    }

    /// Adds the equations for the one or two processes of an assertion, or is `Memory` where there is no room for them.
    pub fn ask_assertion(
        &mut self,
        alloc: A,
        script: &ScriptParts<A>,
        numbering: &Numbering<A>,
        assertion: &Assertion<A>,
    ) -> Result<(), Memory>
        ensures { IfOk result (λ _. AsksQuestion self.old self.new
            (assertion_question script.now numbering.now assertion.now)) }
    {
        self.ask_specification(alloc, script, numbering, assertion.property.specification())?;
        self.ask_process(alloc, script, numbering, &[], &assertion.implementation)?;
        Ok(())
    }

    /// Adds the equations for the specification of an assertion, if it has one.
    fn ask_specification(
        &mut self,
        alloc: A,
        script: &ScriptParts<A>,
        numbering: &Numbering<A>,
        specification: Option<&Term<A>>,
    ) -> Result<(), Memory>
        ensures { IfOk result (λ _. AsksQuestion self.old self.new
            (specification_question script.now numbering.now specification.entry)) }
    {
        match specification {
            Some(specification) => {
                self.ask_process(alloc, script, numbering, &[], specification)
            }
            None => Ok(()),
        }
    }
}
