//! What stands where an operand or an expression begins.

ghost use Rattle.std.specs.Prelude.{◌≡◌, IfOk, IfErr, map};
ghost use Rattle.theory_text.specs.Raw.{RawPrefix, RawGuard};
ghost use Rattle.theory_reader.specs.Forms.{StartOperand};
ghost use Rattle.csp_parse.specs.Expressions.{expression_of};
ghost use Rattle.csp_parse.specs.Names.{name_of};
ghost use Rattle.csp_parse.specs.Processes.{field_of, process_in};
ghost use Rattle.csp_parse.specs.Starts.{start_of};
ghost use Rattle.csp_parse.specs.declared.stops.Stopped.TheVariants.{Memory};

use crate::expressions::Expression;
use crate::names::Name;
use crate::processes::{Field, Process};
use crate::stops::Stopped;
use std::alloc::Allocator;

/// What stands where an operand or an expression begins.
#[derive(Drop)]
pub(crate) enum Start<'a, A: Allocator> {
    /// A name, perhaps in brackets: an atom, or a call without arguments.
    Name(Name<'a>),
    /// An expression that is no name, and no guard.
    Expression(Expression<'a, A>),
    /// A process that renamings and hidings may follow.
    Base(Box<Process<'a, A>, A>),
    /// A prefix, or a process with a guard.
    Operand(Box<Process<'a, A>, A>),
}

impl<'a, A: Allocator + Copy> Start<'a, A> {
    /// A prefix, which is no base: renamings and hidings follow it in brackets only.
    pub(crate) fn prefix(
        alloc: A,
        channel: Name<'a>,
        fields: Vec<Field<'a, A>, A>,
        body: Box<Process<'a, A>, A>,
    ) -> Result<Start<'a, A>, Stopped>
        ensures makes { IfOk result (λ s. start_of s ≡ StartOperand
            (RawPrefix (name_of channel.entry) (map field_of fields.entry.items)
            (process_in body.entry))) }
        ensures stops { IfErr result (λ stopped. stopped ≡ Memory) }
    {
        let prefix = Process::prefix(alloc, channel, fields, body)?;
        Ok(Start::Operand(prefix))
    }

    /// A process with a guard, which is no base either.
    pub(crate) fn guard(
        alloc: A,
        condition: Expression<'a, A>,
        body: Box<Process<'a, A>, A>,
    ) -> Result<Start<'a, A>, Stopped>
        ensures makes { IfOk result (λ s. start_of s ≡ StartOperand
            (RawGuard (expression_of condition.entry) (process_in body.entry))) }
        ensures stops { IfErr result (λ stopped. stopped ≡ Memory) }
    {
        let guard = Process::guard(alloc, condition, body)?;
        Ok(Start::Operand(guard))
    }
}

/// What stands in brackets where an operand or an expression begins.
#[derive(Drop)]
pub(crate) enum Inner<'a, A: Allocator> {
    /// A name, perhaps in brackets: an expression, or a call without arguments.
    Name(Name<'a>),
    /// What with the brackets is an expression, and no name.
    Expression(Expression<'a, A>),
    Process(Box<Process<'a, A>, A>),
}
