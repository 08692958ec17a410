//! Reading what stands where an operand or an expression begins.

ghost use Rattle.std.specs.Prelude.{◌≡◌};
ghost use Rattle.theory_text.specs.Raw.{RawUse};
ghost use Rattle.theory_reader.specs.Reader.{is_prefix, is_operator};
ghost use Rattle.csp_parse.specs.Expressions.{expression_of, expressions_in};
ghost use Rattle.csp_parse.specs.Names.{name_of};
ghost use Rattle.csp_parse.specs.Starts.{start_of, inner_of};

use crate::expressions::Expression;
use crate::levels::{Level, comparison};
use crate::names::Name;
use crate::parsers::Parser;
use crate::processes::Process;
use crate::starts::{Inner, Start};
use crate::stops::Stopped;
use csp_lex::{Keyword, Sign};
use std::alloc::Allocator;

impl<'t, 'a, A: Allocator + Copy> Parser<'t, 'a, A> {
    ghost use Rattle.theory_reader.specs.Forms as form;
    ghost use Rattle.csp_parse.specs.Reading.{next_of, Reads, Shortens, Keeps};

    /// An operand, or an expression without a guard sign behind it.
    #[cycle(process)]
    pub(crate) fn start(&mut self) -> Result<Start<'a, A>, Stopped>
        ensures reads { Reads form.OfStart start_of self.old result self.new }
        ensures shorter { Shortens self.old result self.new }
    {
        if self.is_at_word(Keyword::Stop) {
            return self.stop();
        }
        if self.is_at_word(Keyword::Skip) {
            return self.skip();
        }
        if self.is_at_name() {
            return self.start_of_name();
        }
        if self.is_at(Sign::OpenRound) {
            return self.start_of_brackets();
        }
        self.start_of_expression()
    }

    /// `STOP`
    fn stop(&mut self) -> Result<Start<'a, A>, Stopped>
        ensures reads { Reads form.StopStart start_of self.old result self.new }
        ensures shorter { Shortens self.old result self.new }
    {
        self.word(Keyword::Stop)?;
        let stop = Process::stop(self.alloc)?;
        Ok(Start::Base(stop))
    }

    /// `SKIP`
    fn skip(&mut self) -> Result<Start<'a, A>, Stopped>
        ensures reads { Reads form.SkipStart start_of self.old result self.new }
        ensures shorter { Shortens self.old result self.new }
    {
        self.word(Keyword::Skip)?;
        let skip = Process::skip(self.alloc)?;
        Ok(Start::Base(skip))
    }

    /// What begins with an expression.
    #[cycle(process)]
    fn start_of_expression(&mut self) -> Result<Start<'a, A>, Stopped>
        ensures reads { Reads form.StartOfExpression start_of self.old result self.new }
        ensures shorter { Shortens self.old result self.new }
    {
        let expression = self.expression(Level::Disjunction)?;
        self.guarded(expression)
    }

    /// What begins with a name, which is next.
    #[cycle(process)]
    fn start_of_name(&mut self) -> Result<Start<'a, A>, Stopped>
        ensures reads { Reads form.StartOfName start_of self.old result self.new }
        ensures shorter { Shortens self.old result self.new }
    {
        let name = self.name()?;
        self.start_behind_name(name)
    }

    /// What begins with a name, behind it.
    #[cycle(process)]
    fn start_behind_name(&mut self, name: Name<'a>) -> Result<Start<'a, A>, Stopped>
        ensures reads { Reads (form.StartBehindName (name_of name.entry)) start_of self.old result
            self.new }
        ensures shorter { Keeps self.old result self.new }
    {
        if self.is_at(Sign::OpenRound) {
            return self.call_of(name);
        }
        if self.is_at_prefix() {
            return self.prefix_of(name);
        }
        self.start_from_name(name)
    }

    /// The call of this name, whose arguments are next.
    fn call_of(&mut self, name: Name<'a>) -> Result<Start<'a, A>, Stopped>
        ensures reads { Reads (form.CallOf (name_of name.entry)) start_of self.old result self.new }
        ensures shorter { Shortens self.old result self.new }
    {
        let arguments = self.arguments()?;
        let call = Process::call(self.alloc, name, arguments)?;
        Ok(Start::Base(call))
    }

    /// The prefix of this channel, whose fields are next.
    #[cycle(process)]
    fn prefix_of(&mut self, channel: Name<'a>) -> Result<Start<'a, A>, Stopped>
        ensures reads { Reads (form.PrefixOf (name_of channel.entry)) start_of self.old result
            self.new }
        ensures shorter { Shortens self.old result self.new }
    {
        let values = self.dotted()?;
        self.prefix_behind(channel, values)
    }

    /// The prefix of this channel, behind the fields that are given with a dot.
    #[cycle(process)]
    fn prefix_behind(
        &mut self,
        channel: Name<'a>,
        values: Vec<Expression<'a, A>, A>,
    ) -> Result<Start<'a, A>, Stopped>
        ensures reads { Reads (form.PrefixBehind (name_of channel.entry)
            (expressions_in values.entry.items)) start_of self.old result self.new }
        ensures shorter { Shortens self.old result self.new }
    {
        let fields = self.fields_behind(values)?;
        let body = self.operand_behind(Sign::Arrow)?;
        Start::prefix(self.alloc, channel, fields, body)
    }

    /// The arguments of a call, in brackets.
    fn arguments(&mut self) -> Result<Vec<Expression<'a, A>, A>, Stopped>
        ensures reads { Reads form.Arguments (λ r. expressions_in r.items) self.old result
            self.new }
        ensures shorter { Shortens self.old result self.new }
    {
        let first = self.expression_behind(Sign::OpenRound, Level::Disjunction)?;
        let arguments = self.listed(Level::Disjunction, first)?;
        self.sign(Sign::CloseRound)?;
        Ok(arguments)
    }

    /// What begins with a name, perhaps in brackets, that is no call with arguments and no channel.
    #[cycle(process)]
    fn start_from_name(&mut self, name: Name<'a>) -> Result<Start<'a, A>, Stopped>
        ensures reads { Reads (form.StartFromName (name_of name.entry)) start_of self.old result
            self.new }
        ensures shorter { Keeps self.old result self.new }
    {
        if !self.is_at_operator() && !self.is_at(Sign::Guard) {
            return Ok(Start::Name(name));
        }
        let expression = self.expression_of_name(name)?;
        self.guarded(expression)
    }

    /// The expression that begins with a name, perhaps in brackets.
    fn expression_of_name(&mut self, name: Name<'a>) -> Result<Expression<'a, A>, Stopped>
        ensures reads { Reads (form.ExpressionFrom (RawUse (name_of name.entry))) expression_of
            self.old result self.new }
        ensures shorter { Keeps self.old result self.new }
    {
        self.expression_from(Expression::Use(name))
    }

    /// What begins with an opening bracket, which is next.
    #[cycle(process)]
    fn start_of_brackets(&mut self) -> Result<Start<'a, A>, Stopped>
        ensures reads { Reads form.StartOfBrackets start_of self.old result self.new }
        ensures shorter { Shortens self.old result self.new }
    {
        let inner = self.bracketed_inner()?;
        match inner {
            Inner::Name(name) => self.start_from_name(name),
            Inner::Expression(atom) => self.start_from_atom(atom),
            Inner::Process(process) => Ok(Start::Base(process)),
        }
    }

    /// What stands in brackets, and the brackets.
    #[cycle(process)]
    fn bracketed_inner(&mut self) -> Result<Inner<'a, A>, Stopped>
        ensures reads { Reads form.BracketedInner inner_of self.old result self.new }
        ensures shorter { Shortens self.old result self.new }
    {
        self.sign(Sign::OpenRound)?;
        let inner = self.inner()?;
        self.sign(Sign::CloseRound)?;
        Ok(inner)
    }

    /// What begins with an atom.
    #[cycle(process)]
    fn start_from_atom(&mut self, atom: Expression<'a, A>) -> Result<Start<'a, A>, Stopped>
        ensures reads { Reads (form.StartFromAtom (expression_of atom.entry)) start_of self.old
            result self.new }
        ensures shorter { Keeps self.old result self.new }
    {
        let expression = self.expression_from(atom)?;
        self.guarded(expression)
    }

    /// What stands behind an opening bracket.
    #[cycle(process)]
    fn inner(&mut self) -> Result<Inner<'a, A>, Stopped>
        ensures reads { Reads form.OfInner inner_of self.old result self.new }
        ensures shorter { Shortens self.old result self.new }
    {
        if self.is_at_process() {
            let process = self.process()?;
            return Ok(Inner::Process(process));
        }
        if self.is_at_name() {
            return self.inner_of_name();
        }
        let start = self.start()?;
        self.inner_from(start)
    }

    /// What stands behind an opening bracket and begins with a name, which is next.
    #[cycle(process)]
    fn inner_of_name(&mut self) -> Result<Inner<'a, A>, Stopped>
        ensures reads { Reads form.InnerOfName inner_of self.old result self.new }
        ensures shorter { Shortens self.old result self.new }
    {
        let name = self.name()?;
        if self.is_at(Sign::Dot) {
            return self.inner_of_dotted(name);
        }
        let start = self.start_behind_name(name)?;
        self.inner_from(start)
    }

    /// What stands behind an opening bracket and begins with a name, behind which a dot is next: a constructor with its
    /// fields, or a process that begins with a prefix.
    #[cycle(process)]
    fn inner_of_dotted(&mut self, name: Name<'a>) -> Result<Inner<'a, A>, Stopped>
        ensures reads { Reads (form.InnerOfDotted (name_of name.entry)) inner_of self.old result
            self.new }
        ensures shorter { Keeps self.old result self.new }
    {
        let values = self.dotted()?;
        if !self.is_at_prefix() {
            return Ok(Inner::Expression(Expression::Constructor(name, values)));
        }
        let prefix = self.prefix_behind(name, values)?;
        self.inner_process(prefix)
    }

    /// What stands behind an opening bracket and begins so.
    #[cycle(process)]
    fn inner_from(&mut self, start: Start<'a, A>) -> Result<Inner<'a, A>, Stopped>
        ensures reads { Reads (form.InnerFrom (start_of start.entry)) inner_of self.old result
            self.new }
        ensures shorter { Keeps self.old result self.new }
    {
        match start {
            Start::Name(name) => self.inner_from_name(name),
            Start::Expression(expression) => Ok(Inner::Expression(expression)),
            Start::Base(base) => self.inner_process(Start::Base(base)),
            Start::Operand(operand) => self.inner_process(Start::Operand(operand)),
        }
    }

    /// The process behind an opening bracket that begins so.
    #[cycle(process)]
    fn inner_process(&mut self, start: Start<'a, A>) -> Result<Inner<'a, A>, Stopped>
        ensures reads { Reads (form.InnerFromStart (start_of start.entry)) inner_of self.old result
            self.new }
        ensures shorter { Keeps self.old result self.new }
    {
        let process = self.process_from(start)?;
        Ok(Inner::Process(process))
    }

    /// What stands behind an opening bracket and begins with a name, perhaps in brackets.
    #[cycle(process)]
    fn inner_from_name(&mut self, name: Name<'a>) -> Result<Inner<'a, A>, Stopped>
        ensures reads { Reads (form.InnerFromName (name_of name.entry)) inner_of self.old result
            self.new }
        ensures shorter { Keeps self.old result self.new }
    {
        if self.is_at(Sign::CloseRound) {
            return Ok(Inner::Name(name));
        }
        self.inner_process(Start::Name(name))
    }

    /// An expression, or with `&` behind it the process that it guards.
    #[cycle(process)]
    fn guarded(&mut self, expression: Expression<'a, A>) -> Result<Start<'a, A>, Stopped>
        ensures reads { Reads (form.GuardOf (expression_of expression.entry)) start_of self.old
            result self.new }
        ensures shorter { Keeps self.old result self.new }
    {
        if !self.is_at(Sign::Guard) {
            return Ok(Start::Expression(expression));
        }
        let body = self.operand_behind(Sign::Guard)?;
        Start::guard(self.alloc, expression, body)
    }

    /// Whether the next token goes on with a prefix behind its channel: a field or the arrow.
    fn is_at_prefix(&self) -> bool
        ensures { result ≡ is_prefix (next_of self.now) }
    {
        self.is_at(Sign::Dot)
            || self.is_at(Sign::Output)
            || self.is_at(Sign::Input)
            || self.is_at(Sign::Arrow)
    }

    /// Whether the next token is an operator between expressions.
    fn is_at_operator(&self) -> bool
        ensures { result ≡ is_operator (next_of self.now) }
    {
        let Some(kind) = self.kind() else {
            return false;
        };
        comparison(kind).is_some()
            || Level::Product.operator(kind).is_some()
            || Level::Sum.operator(kind).is_some()
            || Level::Conjunction.operator(kind).is_some()
            || Level::Disjunction.operator(kind).is_some()
    }
}
