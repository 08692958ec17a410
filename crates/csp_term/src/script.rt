//! The parts of scripts: their types, channels, equations and assertions.

ghost use Rattle.std.specs.Prelude.{◌≡◌};
ghost use Rattle.std.specs.String.{string_bytes};

use crate::assertion::Assertion;
use crate::term::Term;
use csp_events::Channel;
use csp_expression::{Name, TypeTable};
use csp_value::{Memory, TryCopy, copy_all};
use std::alloc::Allocator;
use theory_syntax::Unfolding;

/// A constructor of a datatype with its spelling.
#[derive(Drop)]
#[derive_where(PartialEq, Eq, PartialOrd, Ord, Hash)]
pub struct Constructor<A: Allocator> {
    /// The name as it is printed.
    pub spelling: String<A>,
}

/// `name(parameters) = body`
#[derive(Drop)]
#[derive_where(PartialEq, Eq, PartialOrd, Ord, Hash)]
pub struct Equation<A: Allocator> {
    /// The bound names of its parameters, in order.
    pub parameters: Vec<Name, A>,
    /// The process that it defines.
    pub body: Term<A>,
}

/// The parts of a script, each in the order of the text. Nothing is said of their kinds.
#[derive(Drop)]
#[derive_where(PartialEq, Eq, PartialOrd, Ord, Hash)]
pub struct ScriptParts<A: Allocator> {
    /// The datatypes and the nametypes, by their numbers.
    pub types: TypeTable<A>,
    /// The constructors of all datatypes, by their numbers.
    pub constructors: Vec<Constructor<A>, A>,
    /// The channels, by their numbers.
    pub channels: Vec<Channel<A>, A>,
    /// The equations, by their numbers.
    pub equations: Vec<Equation<A>, A>,
    /// The assertions.
    pub assertions: Vec<Assertion<A>, A>,
    /// How the names of the equations are read.
    pub unfolds: Unfolding,
}

impl<A: Allocator + Copy> TryCopy<A> for Constructor<A> {
    ghost is_copy = { λ c copy. string_bytes copy.spelling ≡ string_bytes c.spelling };

    fn try_copy(&self, alloc: A) -> Result<Constructor<A>, Memory> {
        let spelling = String::from_str(alloc, self.spelling.as_str())?;
        Ok(Constructor { spelling })
    }
}

impl<A: Allocator + Copy> TryCopy<A> for Equation<A> {
    ghost use Rattle.csp_term.specs.Script.{equation_of};

    ghost is_copy = { λ e copy. equation_of copy ≡ equation_of e };

    fn try_copy(&self, alloc: A) -> Result<Equation<A>, Memory> {
        Ok(Equation {
            parameters: Vec::from_slice(alloc, self.parameters.as_slice())?,
            body: self.body.try_copy(alloc)?,
        })
    }
}

impl<A: Allocator + Copy> TryCopy<A> for ScriptParts<A> {
    ghost use Rattle.csp_term.specs.Script.{script_of_parts};

    ghost is_copy = { λ s copy. script_of_parts copy ≡ script_of_parts s };

    fn try_copy(&self, alloc: A) -> Result<ScriptParts<A>, Memory> {
        Ok(ScriptParts {
            types: self.types.try_copy(alloc)?,
            constructors: copy_all(alloc, self.constructors.as_slice())?,
            channels: copy_all(alloc, self.channels.as_slice())?,
            equations: copy_all(alloc, self.equations.as_slice())?,
            assertions: copy_all(alloc, self.assertions.as_slice())?,
            unfolds: self.unfolds,
        })
    }
}
