//! Processes and the names in them.

ghost use Rattle.std.specs.Prelude.{map};
ghost use Rattle.theory_text.specs.Raw.{RawAlphabetisedParallel, RawCall, RawGeneralisedParallel, RawGuard, RawHiding, RawIf, RawInfix, RawPrefix, RawRenaming, RawReplicated};
ghost use Rattle.csp_parse.specs.EventSets.{event_set_of};
ghost use Rattle.csp_parse.specs.Events.{pair_of};
ghost use Rattle.csp_parse.specs.Expressions.{expression_of, expressions_of};
ghost use Rattle.csp_parse.specs.Names.{name_of};
ghost use Rattle.csp_parse.specs.Processes.{field_of, infix_of, process_of, replicator_of};
ghost use Rattle.csp_names.specs.Walks.{ResolvesProcess};

use crate::bound_names::BoundNames;
use crate::refusals::Refused;
use crate::resolve_fields::release_fields;
use crate::scope::Scope;
use crate::terms::{joined, term};
use csp_parse::{
    EventSet as RawEventSet, Expression as RawExpression, Field as RawField, Infix,
    Name as RawName, Pair as RawPair, Process as RawProcess,
};
use csp_term::{Term, TermForm};
use std::alloc::Allocator;
use theory_syntax::ReplicatedOperator;

impl<'n, 't, A: Allocator + Copy> Scope<'n, 't, A> {
    /// The process that is written, or the first fault of a name in it.
    #[cycle(resolve_process)]
    pub(crate) fn resolve_process(
        &self,
        alloc: A,
        bound: &mut BoundNames<'t, A>,
        process: &RawProcess<'t, A>,
    ) -> Result<Term<A>, Refused>
        ensures { ResolvesProcess self.now bound.old bound.new (process_of process.now) result }
    {
        match process {
            RawProcess::Stop => term(alloc, TermForm::Stop),
            RawProcess::Skip => term(alloc, TermForm::Skip),
            RawProcess::Call(name, arguments) => self.resolve_call(alloc, bound, *name, arguments),
            RawProcess::Prefix(channel, fields, body) => {
                self.resolve_prefix(alloc, bound, *channel, fields, body)
            }
            RawProcess::Guard(condition, body) => self.resolve_guard(alloc, bound, condition, body),
            RawProcess::If(condition, first, second) => {
                self.resolve_if(alloc, bound, condition, first, second)
            }
            RawProcess::Infix(operator, left, right) => {
                self.resolve_infix(alloc, bound, *operator, left, right)
            }
            RawProcess::GeneralisedParallel(left, shared, right) => {
                self.resolve_generalised(alloc, bound, left, shared, right)
            }
            RawProcess::AlphabetisedParallel(left, own, other, right) => {
                self.resolve_alphabetised(alloc, bound, left, own, other, right)
            }
            RawProcess::Hiding(body, hidden) => self.resolve_hiding(alloc, bound, body, hidden),
            RawProcess::Renaming(body, pairs) => self.resolve_renaming(alloc, bound, body, pairs),
            RawProcess::Replicated(operator, name, set, body) => {
                self.resolve_replicated(alloc, bound, *operator, *name, set, body)
            }
        }
    }

    /// `P(e, ..)`
    fn resolve_call(
        &self,
        alloc: A,
        bound: &mut BoundNames<'t, A>,
        name: RawName<'t>,
        arguments: &[RawExpression<'t, A>],
    ) -> Result<Term<A>, Refused>
        ensures { ResolvesProcess self.now bound.old bound.new
            (RawCall (name_of name.entry) (expressions_of arguments.now)) result }
    {
        let equation = self.resolve_equation(bound, name, arguments.len())?;
        let arguments = self.resolve_expressions(alloc, bound, arguments)?;
        term(alloc, TermForm::Call(equation, arguments))
    }

    /// `c!e?x -> P`
    #[cycle(resolve_process)]
    fn resolve_prefix(
        &self,
        alloc: A,
        bound: &mut BoundNames<'t, A>,
        channel: RawName<'t>,
        fields: &[RawField<'t, A>],
        body: &RawProcess<'t, A>,
    ) -> Result<Term<A>, Refused>
        ensures { ResolvesProcess self.now bound.old bound.new
            (RawPrefix (name_of channel.entry) (map field_of fields.now) (process_of body.now))
            result }
    {
        let channel = self.resolve_channel(bound, channel, fields.len())?;
        let resolved = self.resolve_fields(alloc, bound, fields)?;
        let body = self.resolve_process(alloc, bound, body)?;
        release_fields(bound, fields)?;
        term(alloc, TermForm::Prefix(channel, resolved, body))
    }

    /// `e & P`
    #[cycle(resolve_process)]
    fn resolve_guard(
        &self,
        alloc: A,
        bound: &mut BoundNames<'t, A>,
        condition: &RawExpression<'t, A>,
        body: &RawProcess<'t, A>,
    ) -> Result<Term<A>, Refused>
        ensures { ResolvesProcess self.now bound.old bound.new
            (RawGuard (expression_of condition.now) (process_of body.now)) result }
    {
        let condition = self.resolve_expression(alloc, bound, condition)?;
        let body = self.resolve_process(alloc, bound, body)?;
        term(alloc, TermForm::Guard(condition, body))
    }

    /// `if e then P else Q`
    #[cycle(resolve_process)]
    fn resolve_if(
        &self,
        alloc: A,
        bound: &mut BoundNames<'t, A>,
        condition: &RawExpression<'t, A>,
        first: &RawProcess<'t, A>,
        second: &RawProcess<'t, A>,
    ) -> Result<Term<A>, Refused>
        ensures { ResolvesProcess self.now bound.old bound.new
            (RawIf (expression_of condition.now) (process_of first.now) (process_of second.now))
            result }
    {
        let condition = self.resolve_expression(alloc, bound, condition)?;
        let first = self.resolve_process(alloc, bound, first)?;
        let second = self.resolve_process(alloc, bound, second)?;
        term(alloc, TermForm::If(condition, first, second))
    }

    /// An operator between two processes.
    #[cycle(resolve_process)]
    fn resolve_infix(
        &self,
        alloc: A,
        bound: &mut BoundNames<'t, A>,
        operator: Infix,
        left: &RawProcess<'t, A>,
        right: &RawProcess<'t, A>,
    ) -> Result<Term<A>, Refused>
        ensures { ResolvesProcess self.now bound.old bound.new
            (RawInfix (infix_of operator) (process_of left.now) (process_of right.now)) result }
    {
        let left = self.resolve_process(alloc, bound, left)?;
        let right = self.resolve_process(alloc, bound, right)?;
        term(alloc, joined(operator, left, right))
    }

    /// `P [| X |] Q`
    #[cycle(resolve_process)]
    fn resolve_generalised(
        &self,
        alloc: A,
        bound: &mut BoundNames<'t, A>,
        left: &RawProcess<'t, A>,
        shared: &RawEventSet<'t, A>,
        right: &RawProcess<'t, A>,
    ) -> Result<Term<A>, Refused>
        ensures { ResolvesProcess self.now bound.old bound.new
            (RawGeneralisedParallel (process_of left.now) (event_set_of shared.now)
            (process_of right.now)) result }
    {
        let left = self.resolve_process(alloc, bound, left)?;
        let shared = self.resolve_event_set(alloc, bound, shared)?;
        let right = self.resolve_process(alloc, bound, right)?;
        term(alloc, TermForm::GeneralisedParallel(left, shared, right))
    }

    /// `P [X || Y] Q`
    #[cycle(resolve_process)]
    fn resolve_alphabetised(
        &self,
        alloc: A,
        bound: &mut BoundNames<'t, A>,
        left: &RawProcess<'t, A>,
        own: &RawEventSet<'t, A>,
        other: &RawEventSet<'t, A>,
        right: &RawProcess<'t, A>,
    ) -> Result<Term<A>, Refused>
        ensures { ResolvesProcess self.now bound.old bound.new
            (RawAlphabetisedParallel (process_of left.now) (event_set_of own.now)
            (event_set_of other.now) (process_of right.now)) result }
    {
        let left = self.resolve_process(alloc, bound, left)?;
        let own = self.resolve_event_set(alloc, bound, own)?;
        let other = self.resolve_event_set(alloc, bound, other)?;
        let right = self.resolve_process(alloc, bound, right)?;
        term(
            alloc,
            TermForm::AlphabetisedParallel(left, own, other, right),
        )
    }

    /// `P \ X`
    #[cycle(resolve_process)]
    fn resolve_hiding(
        &self,
        alloc: A,
        bound: &mut BoundNames<'t, A>,
        body: &RawProcess<'t, A>,
        hidden: &RawEventSet<'t, A>,
    ) -> Result<Term<A>, Refused>
        ensures { ResolvesProcess self.now bound.old bound.new
            (RawHiding (process_of body.now) (event_set_of hidden.now)) result }
    {
        let body = self.resolve_process(alloc, bound, body)?;
        let hidden = self.resolve_event_set(alloc, bound, hidden)?;
        term(alloc, TermForm::Hiding(body, hidden))
    }

    /// `P[[c <- d, ..]]`
    #[cycle(resolve_process)]
    fn resolve_renaming(
        &self,
        alloc: A,
        bound: &mut BoundNames<'t, A>,
        body: &RawProcess<'t, A>,
        pairs: &[RawPair<'t, A>],
    ) -> Result<Term<A>, Refused>
        ensures { ResolvesProcess self.now bound.old bound.new
            (RawRenaming (process_of body.now) (map pair_of pairs.now)) result }
    {
        let body = self.resolve_process(alloc, bound, body)?;
        let pairs = self.resolve_pairs(alloc, bound, pairs)?;
        term(alloc, TermForm::Renaming(body, pairs))
    }

    /// `[] x:S @ P`, where the set stands outside the scope of the name.
    #[cycle(resolve_process)]
    fn resolve_replicated(
        &self,
        alloc: A,
        bound: &mut BoundNames<'t, A>,
        operator: ReplicatedOperator,
        name: RawName<'t>,
        set: &RawExpression<'t, A>,
        body: &RawProcess<'t, A>,
    ) -> Result<Term<A>, Refused>
        ensures { ResolvesProcess self.now bound.old bound.new
            (RawReplicated (replicator_of operator) (name_of name.entry) (expression_of set.now)
            (process_of body.now)) result }
    {
        self.check_undeclared(name)?;
        let set = self.resolve_expression(alloc, bound, set)?;
        let bound_name = bound.bind(name)?;
        let body = self.resolve_process(alloc, bound, body)?;
        bound.release(name)?;
        term(alloc, TermForm::Replicated(operator, bound_name, set, body))
    }
}
