//! The spellings of a script's names, and the types by which values are told.

ghost use Rattle.std.specs.Prelude.{◌≡◌};
ghost use Rattle.theory_search.specs.Printing.{name_at};
ghost use Rattle.csp_expression.specs.Evaluation.{table_of};
ghost use Rattle.theory_notation.specs.Names.{with_types};
ghost use Rattle.csp_print.specs.Names.{names_of, spellings_of};
ghost use Rattle.csp_print.specs.Writing.{Writes};

use csp_expression::{DatatypeId, Name, NametypeId, TypeTable};
use csp_term::EquationId;
use csp_value::{ChannelId, ConId};
use std::alloc::{AllocError, Allocator};

/// The spellings of a script's names, each class in the order of its numbers, and perhaps its types.
#[derive(Drop)]
pub struct Names<'t, A: Allocator> {
    /// The channels.
    pub channels: Vec<&'t str, A>,
    /// The constructors of all datatypes.
    pub constructors: Vec<&'t str, A>,
    /// The datatypes.
    pub datatypes: Vec<&'t str, A>,
    /// The nametypes.
    pub nametypes: Vec<&'t str, A>,
    /// The equations.
    pub equations: Vec<&'t str, A>,
    /// The bound names: parameters, inputs and replicated names.
    pub bound: Vec<&'t str, A>,
    /// The types by which a closed expression is told by its value. Without them all is told as it is written.
    pub types: Option<TypeTable<A>>,
}

impl<'t, A: Allocator> Names<'t, A> {
    /// The names, with types by which values are told.
    pub fn with_types(self, types: TypeTable<A>) -> Names<'t, A>
        ensures { names_of result ≡ with_types (table_of types) (names_of self.entry) }
    {
        let mut names = self;
        names.types = Some(types);
        names
    }
}

impl<A: Allocator> Names<'_, A> {
    /// The spelling of the channel, behind the string. One that there is none of has no text.
    pub fn push_channel(&self, channel: ChannelId, text: &mut String<A>) -> Result<(), AllocError>
        ensures { Writes result text.old text.new (name_at (names_of self.now).channels channel.0) }
    {
        push_spelling(&self.channels, channel.0, text)
    }

    /// The spelling of the constructor, behind the string. One that there is none of has no text.
    pub fn push_constructor(
        &self,
        constructor: ConId,
        text: &mut String<A>,
    ) -> Result<(), AllocError>
        ensures { Writes result text.old text.new
            (name_at (names_of self.now).constructors constructor.0) }
    {
        push_spelling(&self.constructors, constructor.0, text)
    }

    /// The spelling of the datatype, behind the string. One that there is none of has no text.
    pub fn push_datatype(
        &self,
        datatype: DatatypeId,
        text: &mut String<A>,
    ) -> Result<(), AllocError>
        ensures { Writes result text.old text.new
            (name_at (names_of self.now).datatypes datatype.0) }
    {
        push_spelling(&self.datatypes, datatype.0, text)
    }

    /// The spelling of the nametype, behind the string. One that there is none of has no text.
    pub fn push_nametype(
        &self,
        nametype: NametypeId,
        text: &mut String<A>,
    ) -> Result<(), AllocError>
        ensures { Writes result text.old text.new
            (name_at (names_of self.now).nametypes nametype.0) }
    {
        push_spelling(&self.nametypes, nametype.0, text)
    }

    /// The spelling of the equation, behind the string. One that there is none of has no text.
    pub fn push_equation(
        &self,
        equation: EquationId,
        text: &mut String<A>,
    ) -> Result<(), AllocError>
        ensures { Writes result text.old text.new
            (name_at (names_of self.now).equations equation.0) }
    {
        push_spelling(&self.equations, equation.0, text)
    }

    /// The spelling of the bound name, behind the string. One that there is none of has no text.
    pub fn push_bound(&self, name: Name, text: &mut String<A>) -> Result<(), AllocError>
        ensures { Writes result text.old text.new (name_at (names_of self.now).bound name.0) }
    {
        push_spelling(&self.bound, name.0, text)
    }
}

// The spelling of this number.
fn push_spelling<A: Allocator>(
    spellings: &[&str],
    number: u32,
    text: &mut String<A>,
) -> Result<(), AllocError>
    ensures { Writes result text.old text.new (name_at (spellings_of spellings.now) number) }
{
    match spellings.get(number as usize) {
        Some(spelling) => text.push_str(spelling),
        None => Ok(()),
    }
}
