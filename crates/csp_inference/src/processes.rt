//! What processes ask for.

ghost use Rattle.std.specs.Prelude.{IfOk};
ghost use Rattle.csp_inference.specs.Question.{AsksQuestion};
ghost use Rattle.csp_inference.specs.Questions.Processes.{process_question};

use crate::chain::{Demand, End};
use crate::equations::Equations;
use crate::fields::bind_name;
use crate::numbering::{NumberedName, Numbering};
use csp_term::{ScriptParts, Term, TermForm};
use csp_value::Memory;
use std::alloc::Allocator;

impl<A: Allocator + Copy> Equations<A> {
    /// Adds the equations for a process, where the names have the kinds of their numbers, or is `Memory` where there is
    /// no room for them.
    pub fn ask_process(
        &mut self,
        alloc: A,
        script: &ScriptParts<A>,
        numbering: &Numbering<A>,
        names: &[NumberedName],
        process: &Term<A>,
    ) -> Result<(), Memory>
        ensures { IfOk result (λ _. AsksQuestion self.old self.new
            (process_question script.now numbering.now names.now process.now)) }
    {
        let types = &script.types;
        match process.form() {
            TermForm::Stop | TermForm::Skip | TermForm::Omega => Ok(()),
            TermForm::Call(called, arguments) => {
                self.ask_call(types, numbering, names, *called, arguments)
            }
            TermForm::Prefix(channel, fields, body) => {
                let inner = self.ask_prefix(alloc, types, numbering, names, *channel, fields)?;
                self.ask_process(alloc, script, numbering, &inner, body)
            }
            TermForm::Guard(condition, body) => {
                let kind = Demand::Plain(End::Bool);
                self.ask_expression(types, numbering, names, condition, kind)?;
                self.ask_process(alloc, script, numbering, names, body)
            }
            TermForm::If(condition, first, second) => {
                let kind = Demand::Plain(End::Bool);
                self.ask_expression(types, numbering, names, condition, kind)?;
                self.ask_process(alloc, script, numbering, names, first)?;
                self.ask_process(alloc, script, numbering, names, second)
            }
            TermForm::Binary(_, left, right) => {
                self.ask_process(alloc, script, numbering, names, left)?;
                self.ask_process(alloc, script, numbering, names, right)
            }
            TermForm::GeneralisedParallel(left, shared, right) => {
                self.ask_process(alloc, script, numbering, names, left)?;
                self.ask_event_set(types, numbering, names, shared)?;
                self.ask_process(alloc, script, numbering, names, right)
            }
            TermForm::AlphabetisedParallel(left, own, other, right) => {
                self.ask_process(alloc, script, numbering, names, left)?;
                self.ask_event_set(types, numbering, names, own)?;
                self.ask_event_set(types, numbering, names, other)?;
                self.ask_process(alloc, script, numbering, names, right)
            }
            TermForm::Hiding(body, hidden) => {
                self.ask_process(alloc, script, numbering, names, body)?;
                self.ask_event_set(types, numbering, names, hidden)
            }
            TermForm::Renaming(body, pairs) => {
                self.ask_process(alloc, script, numbering, names, body)?;
                self.ask_pairs(script, numbering, names, pairs)
            }
            TermForm::Replicated(_, name, set, body) => {
                let number = self.fresh()?;
                let kind = Demand::SetOf(End::Open(number));
                self.ask_expression(types, numbering, names, set, kind)?;
                let mut inner = Vec::from_slice(alloc, names)?;
                bind_name(&mut inner, *name, number)?;
                self.ask_process(alloc, script, numbering, &inner, body)
            }
            TermForm::SlidingChoice(left, right) => {
                self.ask_process(alloc, script, numbering, names, left)?;
                self.ask_process(alloc, script, numbering, names, right)
            }
        }
    }
}
