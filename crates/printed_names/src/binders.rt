//! What binds names: parameters, inputs and replicated forms.

ghost use Rattle.std.specs.Prelude.{◌∷◌, ◌++◌, [], map};
ghost use Rattle.theory_checking.specs.Names.{bound_by_fields, bound_in, bound_in_declaration, bound_in_property, spellings};
ghost use Rattle.csp_parse.specs.Declarations.{declaration_of, property_of};
ghost use Rattle.csp_parse.specs.Processes.{field_of, process_of};
ghost use Rattle.printed_names.specs.Binding.{Meets};

use crate::bound_names::BoundNames;
use csp_parse::{Declaration, Field, Process, Property};
use csp_value::Memory;
use std::alloc::Allocator;

impl<'t, A: Allocator + Copy> BoundNames<'t, A> {
    /// Adds what the declaration binds: its parameters, and what its processes bind.
    pub(crate) fn add_declaration(&mut self, declaration: &Declaration<'t, A>) -> Result<(), Memory>
        ensures { Meets result self.old self.new
            (spellings (bound_in_declaration (declaration_of declaration.now))) }
    {
        match declaration {
            Declaration::Equation {
                parameters,
                body,
                ..
            } => {
                self.add_all(parameters)?;
                self.add_process(body)
            }
            Declaration::Assertion {
                property,
                implementation,
                ..
            } => {
                self.add_property(property)?;
                self.add_process(implementation)
            }
            Declaration::Datatype { .. }
            | Declaration::Nametype { .. }
            | Declaration::Channels { .. } => Ok(()),
        }
    }

    /// Adds what the specification binds, where there is one.
    fn add_property(&mut self, property: &Property<'t, A>) -> Result<(), Memory>
        ensures { Meets result self.old self.new
            (spellings (bound_in_property (property_of property.now))) }
    {
        match property {
            Property::Refinement { specification, .. } => self.add_process(specification),
            Property::DeadlockFree | Property::DivergenceFree => Ok(()),
        }
    }

    /// Adds what the process binds.
    #[cycle(add_process)]
    fn add_process(&mut self, process: &Process<'t, A>) -> Result<(), Memory>
        ensures { Meets result self.old self.new (spellings (bound_in (process_of process.now))) }
    {
        match process {
            Process::Stop | Process::Skip | Process::Call(_, _) => Ok(()),
            Process::Prefix(_, fields, body) => {
                self.add_fields(fields)?;
                self.add_process(body)
            }
            Process::Guard(_, body) => self.add_process(body),
            Process::If(_, first, second) => self.add_both(first, second),
            Process::Infix(_, left, right) => self.add_both(left, right),
            Process::GeneralisedParallel(left, _, right) => self.add_both(left, right),
            Process::AlphabetisedParallel(left, _, _, right) => self.add_both(left, right),
            Process::Hiding(body, _) => self.add_process(body),
            Process::Renaming(body, _) => self.add_process(body),
            Process::Replicated(_, name, _, body) => {
                self.add(name.text)?;
                self.add_process(body)
            }
        }
    }

    /// Adds what two processes bind, the left one first.
    #[cycle(add_process)]
    fn add_both(&mut self, left: &Process<'t, A>, right: &Process<'t, A>) -> Result<(), Memory>
        ensures { Meets result self.old self.new
            (spellings (bound_in (process_of left.now) ++ bound_in (process_of right.now))) }
    {
        self.add_process(left)?;
        self.add_process(right)
    }

    /// Adds the names of inputs.
    fn add_fields(&mut self, fields: &[Field<'t, A>]) -> Result<(), Memory>
        ensures { Meets result self.old self.new
            (spellings (bound_by_fields (map field_of fields.now))) }
    {
        for field in fields {
            self.add_field(field)?;
        }
        Ok(())
    }

    /// Adds the name of an input.
    fn add_field(&mut self, field: &Field<'t, A>) -> Result<(), Memory>
        ensures { Meets result self.old self.new
            (spellings (bound_by_fields (field_of field.now ∷ []))) }
    {
        match field {
            Field::Given(_) => Ok(()),
            Field::Input(name) => self.add(name.text),
            Field::InputFrom(name, _) => self.add(name.text),
        }
    }
}
