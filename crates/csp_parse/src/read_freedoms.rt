//! Reading what an assertion of freedom asks, behind its colon.
//!
//! Its words are no keywords: they are names that are spelled so.

ghost use Rattle.csp_parse.specs.Declarations.{property_of};

use crate::declarations::Property;
use crate::parsers::Parser;
use crate::stops::Stopped;
use csp_lex::Sign;
use std::alloc::Allocator;

impl<'t, 'a, A: Allocator + Copy> Parser<'t, 'a, A> {
    ghost use Rattle.theory_reader.specs.Forms as form;
    ghost use Rattle.csp_parse.specs.Reading.{Reads, Shortens};

    /// A freedom, in its square brackets.
    pub(crate) fn freedom(&mut self) -> Result<Property<'a, A>, Stopped>
        ensures reads { Reads form.OfFreedom property_of self.old result self.new }
        ensures shorter { Shortens self.old result self.new }
    {
        self.sign(Sign::OpenSquare)?;
        if self.is_at_spelling("divergence") {
            self.divergence_free()?;
            return Ok(Property::DivergenceFree);
        }
        self.deadlock_free()?;
        Ok(Property::DeadlockFree)
    }

    /// `divergence free` and the closing bracket.
    fn divergence_free(&mut self) -> Result<(), Stopped>
        ensures reads { Reads form.DivergenceFree (λ _. tt) self.old result self.new }
        ensures shorter { Shortens self.old result self.new }
    {
        self.spelling("divergence")?;
        self.spelling("free")?;
        self.sign(Sign::CloseSquare)
    }

    /// `deadlock free` and its end.
    fn deadlock_free(&mut self) -> Result<(), Stopped>
        ensures reads { Reads form.DeadlockFree (λ _. tt) self.old result self.new }
        ensures shorter { Shortens self.old result self.new }
    {
        self.spelling("deadlock")?;
        self.spelling("free")?;
        self.freedom_end()
    }

    /// The closing bracket, perhaps with `[F]` in front.
    fn freedom_end(&mut self) -> Result<(), Stopped>
        ensures reads { Reads form.FreedomEnd (λ _. tt) self.old result self.new }
        ensures shorter { Shortens self.old result self.new }
    {
        if self.is_at(Sign::CloseSquare) {
            return self.sign(Sign::CloseSquare);
        }
        self.sign(Sign::OpenSquare)?;
        self.spelling("F")?;
        self.double_end()
    }

    /// Two closing brackets, written as one or as two.
    fn double_end(&mut self) -> Result<(), Stopped>
        ensures reads { Reads form.DoubleEnd (λ _. tt) self.old result self.new }
        ensures shorter { Shortens self.old result self.new }
    {
        if self.is_at(Sign::CloseRenaming) {
            return self.sign(Sign::CloseRenaming);
        }
        self.sign(Sign::CloseSquare)?;
        self.sign(Sign::CloseSquare)
    }
}
