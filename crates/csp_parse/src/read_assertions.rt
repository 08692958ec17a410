//! Reading assertions.

ghost use Rattle.theory_syntax.specs.Models.{model_of};
ghost use Rattle.csp_parse.specs.Declarations.{declaration_of};
ghost use Rattle.csp_parse.specs.Processes.{process_in};

use crate::declarations::{Declaration, Property};
use crate::parsers::Parser;
use crate::processes::Process;
use crate::stops::Stopped;
use csp_lex::{Keyword, Sign};
use std::alloc::Allocator;
use theory_syntax::Model;

impl<'t, 'a, A: Allocator + Copy> Parser<'t, 'a, A> {
    ghost use Rattle.theory_reader.specs.Forms as form;
    ghost use Rattle.csp_parse.specs.Reading.{Reads, Shortens};

    /// An assertion, whose keyword is next.
    pub(crate) fn assertion(&mut self) -> Result<Declaration<'a, A>, Stopped>
        ensures reads { Reads form.OfAssertion declaration_of self.old result self.new }
        ensures shorter { Shortens self.old result self.new }
    {
        let Some(first) = self.next() else {
            return Err(Stopped::Here);
        };
        self.word(Keyword::Assert)?;
        let (negated, process) = self.first_side()?;
        if self.is_at(Sign::Colon) {
            self.sign(Sign::Colon)?;
            let property = self.freedom()?;
            return Ok(Declaration::Assertion {
                place: first.place,
                negated,
                property,
                implementation: process,
            });
        }
        let model = self.model()?;
        let implementation = self.process()?;
        Ok(Declaration::Assertion {
            place: first.place,
            negated,
            property: Property::Refinement {
                model,
                specification: process,
            },
            implementation,
        })
    }

    /// Whether the assertion is negated, and its first process.
    fn first_side(&mut self) -> Result<(bool, Box<Process<'a, A>, A>), Stopped>
        ensures reads { Reads form.OfFirstSide (λ r. (r.0, process_in r.1)) self.old result
            self.new }
        ensures shorter { Shortens self.old result self.new }
    {
        if self.is_at_word(Keyword::Not) {
            self.word(Keyword::Not)?;
            let process = self.process()?;
            return Ok((true, process));
        }
        let process = self.process()?;
        Ok((false, process))
    }

    fn model(&mut self) -> Result<Model, Stopped>
        ensures reads { Reads form.OfModel model_of self.old result self.new }
        ensures shorter { Shortens self.old result self.new }
    {
        if self.is_at(Sign::Traces) {
            self.sign(Sign::Traces)?;
            return Ok(Model::Traces);
        }
        self.sign(Sign::Failures)?;
        Ok(Model::Failures)
    }
}
