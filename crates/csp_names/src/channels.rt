//! Channels and equations by their names, and how many fields and parameters they have.

ghost use Rattle.std.specs.Prelude.{◌≡◌};
ghost use Rattle.theory_checking.specs.Sites.{AsEquation, AsEvent, AsProductions};
ghost use Rattle.csp_parse.specs.Names.{name_of};
ghost use Rattle.csp_names.specs.Names.{agree, suffice};
ghost use Rattle.csp_names.specs.Walks.{CountsFields, NamesChannel, NamesEquation, ResolvesChannel, ResolvesEquation};

use crate::bound_names::BoundNames;
use crate::refusals::{KindFault, Refused};
use crate::scope::Scope;
use csp_parse::Name as RawName;
use csp_term::EquationId;
use csp_value::ChannelId;
use std::alloc::Allocator;

/// Whether so many are given as are declared, where that is known.
pub(crate) fn counts_agree(declared: Option<usize>, given: usize) -> bool
    ensures { result ≡ agree declared given }
{
    match declared {
        Some(declared) => declared == given,
        None => true,
    }
}

/// Whether no more are given than are declared, where that is known.
fn count_suffices(declared: Option<usize>, given: usize) -> bool
    ensures { result ≡ suffice declared given }
{
    match declared {
        Some(declared) => declared >= given,
        None => true,
    }
}

impl<'n, 't, A: Allocator + Copy> Scope<'n, 't, A> {
    /// The channel of an event with so many fields.
    pub(crate) fn resolve_channel(
        &self,
        bound: &BoundNames<'t, A>,
        name: RawName<'t>,
        fields: usize,
    ) -> Result<ChannelId, Refused>
        ensures { ResolvesChannel self.now bound.now (AsEvent fields) (name_of name.entry) result }
    {
        let channel = self.channel(bound, name)?;
        if counts_agree(self.names.field_count(channel), fields) {
            Ok(channel)
        } else {
            Err(Refused::at(KindFault::WrongCount, name.place))
        }
    }

    /// The channel of which so many first fields are given.
    pub(crate) fn resolve_produced(
        &self,
        bound: &BoundNames<'t, A>,
        name: RawName<'t>,
        fields: usize,
    ) -> Result<ChannelId, Refused>
        ensures { ResolvesChannel self.now bound.now (AsProductions fields) (name_of name.entry)
            result }
    {
        let channel = self.channel(bound, name)?;
        if count_suffices(self.names.field_count(channel), fields) {
            Ok(channel)
        } else {
            Err(Refused::at(KindFault::WrongCount, name.place))
        }
    }

    /// The equation of a call with so many arguments.
    pub(crate) fn resolve_equation(
        &self,
        bound: &BoundNames<'t, A>,
        name: RawName<'t>,
        arguments: usize,
    ) -> Result<EquationId, Refused>
        ensures { ResolvesEquation self.now bound.now arguments (name_of name.entry) result }
    {
        let equation = self.equation(bound, name)?;
        if counts_agree(self.names.parameter_count(equation), arguments) {
            Ok(equation)
        } else {
            Err(Refused::at(KindFault::WrongCount, name.place))
        }
    }

    /// The channel that the name means.
    pub(crate) fn channel(
        &self,
        bound: &BoundNames<'t, A>,
        name: RawName<'t>,
    ) -> Result<ChannelId, Refused>
        ensures { NamesChannel self.now bound.now (name_of name.entry) result }
    {
        match self.meaning(bound, name) {
            Some(meaning) => match meaning.channel() {
                Some(channel) => Ok(channel),
                None => Err(Refused::at(KindFault::WrongKind, name.place)),
            },
            None => Err(Refused::at(KindFault::UnknownName, name.place)),
        }
    }

    /// The equation that the name means.
    fn equation(&self, bound: &BoundNames<'t, A>, name: RawName<'t>) -> Result<EquationId, Refused>
        ensures { NamesEquation self.now bound.now (name_of name.entry) result }
    {
        match self.meaning(bound, name) {
            Some(meaning) => match meaning.equation() {
                Some(equation) => Ok(equation),
                None => Err(Refused::at(KindFault::WrongKind, name.place)),
            },
            None => Err(Refused::at(KindFault::UnknownName, name.place)),
        }
    }

    /// How many fields the channel has that the name means, if it means one.
    pub(crate) fn field_count(&self, bound: &BoundNames<'t, A>, name: RawName<'t>) -> Option<usize>
        ensures { CountsFields self.now bound.now (name_of name.entry) result }
    {
        let channel = self.meaning(bound, name)?.channel()?;
        self.names.field_count(channel)
    }
}
