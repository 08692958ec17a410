//! Processes, as they are written.

ghost use Rattle.std.specs.Prelude.{◌≡◌, IfOk, IfErr, map};
ghost use Rattle.csp_lex.specs.Tokens.{sign_of};
ghost use Rattle.csp_parse.specs.Processes.{infix_of, replicator_of};
ghost use Rattle.theory_reader.specs.Reader as reader;
ghost use Rattle.theory_reader.specs.Reader.{replicator_sign};

use crate::event_sets::EventSet;
use crate::events::Pair;
use crate::expressions::Expression;
use crate::names::Name;
use crate::stops::Stopped;
use csp_lex::Sign;
use std::alloc::Allocator;
use theory_syntax::{ProcessOperator, ReplicatedOperator};

/// A field of a prefix.
#[derive(Drop)]
pub enum Field<'a, A: Allocator> {
    /// `.e`, `!e`
    Given(Expression<'a, A>),
    /// `?x`
    Input(Name<'a>),
    /// `?x:S`
    InputFrom(Name<'a>, Expression<'a, A>),
}

/// An operator between processes.
#[derive(Clone, Copy)]
pub enum Infix {
    /// One that a term of two processes has.
    Operator(ProcessOperator),
    /// `[>`
    Sliding,
}

/// How an operator between processes is written.
pub(crate) fn infix_sign(operator: Infix) -> Sign
    ensures { sign_of result ≡ reader.infix_sign (infix_of operator) }
{
    match operator {
        Infix::Operator(ProcessOperator::ExternalChoice) => Sign::Box,
        Infix::Operator(ProcessOperator::InternalChoice) => Sign::Internal,
        Infix::Operator(ProcessOperator::Sequential) => Sign::Semicolon,
        Infix::Operator(ProcessOperator::Interleaving) => Sign::TripleBar,
        Infix::Operator(ProcessOperator::Interrupt) => Sign::Interrupt,
        Infix::Sliding => Sign::Sliding,
    }
}

/// How an operator over a set is written.
pub(crate) fn replicated_sign(operator: ReplicatedOperator) -> Sign
    ensures { sign_of result ≡ replicator_sign (replicator_of operator) }
{
    match operator {
        ReplicatedOperator::ExternalChoice => Sign::Box,
        ReplicatedOperator::InternalChoice => Sign::Internal,
        ReplicatedOperator::Interleaving => Sign::TripleBar,
    }
}

/// A process as it is written. Brackets leave no mark.
#[derive(Drop)]
pub enum Process<'a, A: Allocator> {
    /// `STOP`
    Stop,
    /// `SKIP`
    Skip,
    /// A call, where one without arguments is the bare name.
    Call(Name<'a>, Vec<Expression<'a, A>, A>),
    /// `c!e?x -> P`
    Prefix(Name<'a>, Vec<Field<'a, A>, A>, Box<Process<'a, A>, A>),
    /// `e & P`
    Guard(Expression<'a, A>, Box<Process<'a, A>, A>),
    /// `if e then P else Q`
    If(Expression<'a, A>, Box<Process<'a, A>, A>, Box<Process<'a, A>, A>),
    /// An operator with its left and its right operand.
    Infix(Infix, Box<Process<'a, A>, A>, Box<Process<'a, A>, A>),
    /// `P [| X |] Q`
    GeneralisedParallel(Box<Process<'a, A>, A>, EventSet<'a, A>, Box<Process<'a, A>, A>),
    /// `P [X || Y] Q`
    AlphabetisedParallel(
        Box<Process<'a, A>, A>,
        EventSet<'a, A>,
        EventSet<'a, A>,
        Box<Process<'a, A>, A>,
    ),
    /// `P \ X`
    Hiding(Box<Process<'a, A>, A>, EventSet<'a, A>),
    /// `P[[c <- d, ..]]`
    Renaming(Box<Process<'a, A>, A>, Vec<Pair<'a, A>, A>),
    /// `[] x:S @ P`
    Replicated(ReplicatedOperator, Name<'a>, Expression<'a, A>, Box<Process<'a, A>, A>),
}

impl<'a, A: Allocator + Copy> Process<'a, A> {
    ghost use Rattle.theory_text.specs.Raw.{RawStop, RawSkip, RawCall, RawPrefix, RawGuard, RawIf, RawInfix, RawGeneralisedParallel, RawAlphabetisedParallel, RawHiding, RawRenaming, RawReplicated};
    ghost use Rattle.csp_parse.specs.declared.stops.Stopped.TheVariants.{Memory};
    ghost use Rattle.csp_parse.specs.Events.{pair_of};
    ghost use Rattle.csp_parse.specs.EventSets.{event_set_of};
    ghost use Rattle.csp_parse.specs.Expressions.{expression_of, expressions_of};
    ghost use Rattle.csp_parse.specs.Names.{name_of};
    ghost use Rattle.csp_parse.specs.Processes.{field_of, process_in, process_of};

    // Alone, so that no other function holds a process in its own place, which makes proofs long.
    fn boxed(self, alloc: A) -> Result<Box<Process<'a, A>, A>, Stopped>
        ensures makes { IfOk result (λ p. process_in p ≡ process_of self.entry) }
        ensures stops { IfErr result (λ stopped. stopped ≡ Memory) }
    {
        let process = Box::new(alloc, self)?;
        Ok(process)
    }

    /// `STOP`
    pub(crate) fn stop(alloc: A) -> Result<Box<Process<'a, A>, A>, Stopped>
        ensures makes { IfOk result (λ p. process_in p ≡ RawStop) }
        ensures stops { IfErr result (λ stopped. stopped ≡ Memory) }
    {
        Process::Stop.boxed(alloc)
    }

    /// `SKIP`
    pub(crate) fn skip(alloc: A) -> Result<Box<Process<'a, A>, A>, Stopped>
        ensures makes { IfOk result (λ p. process_in p ≡ RawSkip) }
        ensures stops { IfErr result (λ stopped. stopped ≡ Memory) }
    {
        Process::Skip.boxed(alloc)
    }

    /// `P(e, ..)`
    pub(crate) fn call(
        alloc: A,
        name: Name<'a>,
        arguments: Vec<Expression<'a, A>, A>,
    ) -> Result<Box<Process<'a, A>, A>, Stopped>
        ensures makes { IfOk result (λ p. process_in p ≡ RawCall (name_of name.entry)
            (expressions_of arguments.entry.items)) }
        ensures stops { IfErr result (λ stopped. stopped ≡ Memory) }
    {
        Process::Call(name, arguments).boxed(alloc)
    }

    /// `c!e?x -> P`
    pub(crate) fn prefix(
        alloc: A,
        channel: Name<'a>,
        fields: Vec<Field<'a, A>, A>,
        body: Box<Process<'a, A>, A>,
    ) -> Result<Box<Process<'a, A>, A>, Stopped>
        ensures makes { IfOk result (λ p. process_in p ≡ RawPrefix (name_of channel.entry)
            (map field_of fields.entry.items) (process_in body.entry)) }
        ensures stops { IfErr result (λ stopped. stopped ≡ Memory) }
    {
        Process::Prefix(channel, fields, body).boxed(alloc)
    }

    /// `e & P`
    pub(crate) fn guard(
        alloc: A,
        condition: Expression<'a, A>,
        body: Box<Process<'a, A>, A>,
    ) -> Result<Box<Process<'a, A>, A>, Stopped>
        ensures makes { IfOk result (λ p. process_in p ≡ RawGuard (expression_of condition.entry)
            (process_in body.entry)) }
        ensures stops { IfErr result (λ stopped. stopped ≡ Memory) }
    {
        Process::Guard(condition, body).boxed(alloc)
    }

    /// `if e then P else Q`
    pub(crate) fn conditional(
        alloc: A,
        condition: Expression<'a, A>,
        first: Box<Process<'a, A>, A>,
        second: Box<Process<'a, A>, A>,
    ) -> Result<Box<Process<'a, A>, A>, Stopped>
        ensures makes { IfOk result (λ p. process_in p ≡ RawIf (expression_of condition.entry)
            (process_in first.entry) (process_in second.entry)) }
        ensures stops { IfErr result (λ stopped. stopped ≡ Memory) }
    {
        Process::If(condition, first, second).boxed(alloc)
    }

    /// An operator between two processes.
    pub(crate) fn joined(
        alloc: A,
        operator: Infix,
        left: Box<Process<'a, A>, A>,
        right: Box<Process<'a, A>, A>,
    ) -> Result<Box<Process<'a, A>, A>, Stopped>
        ensures makes { IfOk result (λ p. process_in p ≡ RawInfix (infix_of operator)
            (process_in left.entry) (process_in right.entry)) }
        ensures stops { IfErr result (λ stopped. stopped ≡ Memory) }
    {
        Process::Infix(operator, left, right).boxed(alloc)
    }

    /// `P [| X |] Q`
    pub(crate) fn generalised(
        alloc: A,
        left: Box<Process<'a, A>, A>,
        shared: EventSet<'a, A>,
        right: Box<Process<'a, A>, A>,
    ) -> Result<Box<Process<'a, A>, A>, Stopped>
        ensures makes { IfOk result (λ p. process_in p ≡ RawGeneralisedParallel
            (process_in left.entry) (event_set_of shared.entry) (process_in right.entry)) }
        ensures stops { IfErr result (λ stopped. stopped ≡ Memory) }
    {
        Process::GeneralisedParallel(left, shared, right).boxed(alloc)
    }

    /// `P [X || Y] Q`
    pub(crate) fn alphabetised(
        alloc: A,
        left: Box<Process<'a, A>, A>,
        of_left: EventSet<'a, A>,
        of_right: EventSet<'a, A>,
        right: Box<Process<'a, A>, A>,
    ) -> Result<Box<Process<'a, A>, A>, Stopped>
        ensures makes { IfOk result (λ p. process_in p ≡ RawAlphabetisedParallel
            (process_in left.entry) (event_set_of of_left.entry) (event_set_of of_right.entry)
            (process_in right.entry)) }
        ensures stops { IfErr result (λ stopped. stopped ≡ Memory) }
    {
        Process::AlphabetisedParallel(left, of_left, of_right, right).boxed(alloc)
    }

    /// `P \ X`
    pub(crate) fn hiding(
        alloc: A,
        body: Box<Process<'a, A>, A>,
        hidden: EventSet<'a, A>,
    ) -> Result<Box<Process<'a, A>, A>, Stopped>
        ensures makes { IfOk result (λ p. process_in p ≡ RawHiding (process_in body.entry)
            (event_set_of hidden.entry)) }
        ensures stops { IfErr result (λ stopped. stopped ≡ Memory) }
    {
        Process::Hiding(body, hidden).boxed(alloc)
    }

    /// `P[[c <- d, ..]]`
    pub(crate) fn renaming(
        alloc: A,
        body: Box<Process<'a, A>, A>,
        pairs: Vec<Pair<'a, A>, A>,
    ) -> Result<Box<Process<'a, A>, A>, Stopped>
        ensures makes { IfOk result (λ p. process_in p ≡ RawRenaming (process_in body.entry)
            (map pair_of pairs.entry.items)) }
        ensures stops { IfErr result (λ stopped. stopped ≡ Memory) }
    {
        Process::Renaming(body, pairs).boxed(alloc)
    }

    /// `[] x:S @ P`
    pub(crate) fn replicated(
        alloc: A,
        operator: ReplicatedOperator,
        name: Name<'a>,
        set: Expression<'a, A>,
        body: Box<Process<'a, A>, A>,
    ) -> Result<Box<Process<'a, A>, A>, Stopped>
        ensures makes { IfOk result (λ p. process_in p ≡ RawReplicated (replicator_of operator)
            (name_of name.entry) (expression_of set.entry) (process_in body.entry)) }
        ensures stops { IfErr result (λ stopped. stopped ≡ Memory) }
    {
        Process::Replicated(operator, name, set, body).boxed(alloc)
    }
}
