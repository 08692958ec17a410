//! Reading processes.

ghost use Rattle.std.specs.Prelude.{◌≡◌};
ghost use Rattle.std.specs.Option.{option_map};
ghost use Rattle.csp_lex.specs.Tokens.{keyword_of, sign_of};
ghost use Rattle.theory_reader.specs.Reader.{begins_process, is_suffix, infix_at, replicator_at};
ghost use Rattle.csp_parse.specs.Expressions.{expression_of};
ghost use Rattle.csp_parse.specs.Processes.{infix_of, replicator_of, process_in};
ghost use Rattle.csp_parse.specs.Starts.{start_of};

use crate::expressions::Expression;
use crate::levels::Level;
use crate::names::Name;
use crate::parsers::Parser;
use crate::processes::{Infix, Process, infix_sign, replicated_sign};
use crate::starts::Start;
use crate::stops::Stopped;
use csp_lex::{Keyword, Sign, TokenKind};
use std::alloc::Allocator;
use theory_syntax::{ProcessOperator, ReplicatedOperator};

impl<'t, 'a, A: Allocator + Copy> Parser<'t, 'a, A> {
    ghost use Rattle.theory_reader.specs.Forms as form;
    ghost use Rattle.csp_parse.specs.Reading.{next_of, Reads, Shortens, Keeps};

    /// A process.
    #[cycle(process)]
    pub(crate) fn process(&mut self) -> Result<Box<Process<'a, A>, A>, Stopped>
        ensures reads { Reads form.OfProcess process_in self.old result self.new }
        ensures shorter { Shortens self.old result self.new }
    {
        if self.is_at_word(Keyword::If) {
            return self.conditional();
        }
        if let Some(replicator) = self.next_replicator() {
            return self.replicated(replicator);
        }
        let start = self.start()?;
        self.process_from(start)
    }

    /// A conditional process, whose `if` is next.
    #[cycle(process)]
    fn conditional(&mut self) -> Result<Box<Process<'a, A>, A>, Stopped>
        ensures reads { Reads form.Conditional process_in self.old result self.new }
        ensures shorter { Shortens self.old result self.new }
    {
        let condition = self.condition()?;
        let first = self.process_behind_word(Keyword::Then)?;
        let second = self.process_behind_word(Keyword::Else)?;
        Process::conditional(self.alloc, condition, first, second)
    }

    /// `if`, and an expression behind it.
    fn condition(&mut self) -> Result<Expression<'a, A>, Stopped>
        ensures reads { Reads form.OfCondition expression_of self.old result self.new }
        ensures shorter { Shortens self.old result self.new }
    {
        self.word(Keyword::If)?;
        self.expression(Level::Disjunction)
    }

    /// This keyword, and a process behind it.
    #[cycle(process)]
    fn process_behind_word(&mut self, keyword: Keyword) -> Result<Box<Process<'a, A>, A>, Stopped>
        ensures reads { Reads (form.ProcessBehindWord (keyword_of keyword)) process_in self.old
            result self.new }
        ensures shorter { Shortens self.old result self.new }
    {
        self.word(keyword)?;
        self.process()
    }

    /// This sign, and a process behind it.
    #[cycle(process)]
    pub(crate) fn process_behind(&mut self, sign: Sign) -> Result<Box<Process<'a, A>, A>, Stopped>
        ensures reads { Reads (form.ProcessBehind (sign_of sign)) process_in self.old result
            self.new }
        ensures shorter { Shortens self.old result self.new }
    {
        self.sign(sign)?;
        self.process()
    }

    /// A replicated process, whose operator is next.
    #[cycle(process)]
    fn replicated(
        &mut self,
        replicator: ReplicatedOperator,
    ) -> Result<Box<Process<'a, A>, A>, Stopped>
        ensures reads { Reads (form.ReplicatedOver (replicator_of replicator)) process_in self.old
            result self.new }
        ensures shorter { Shortens self.old result self.new }
    {
        let written = replicated_sign(replicator);
        let name = self.name_behind(written)?;
        let set = self.expression_behind(Sign::Colon, Level::Atom)?;
        let body = self.process_behind(Sign::At)?;
        Process::replicated(self.alloc, replicator, name, set, body)
    }

    /// The process that begins so.
    #[cycle(process)]
    pub(crate) fn process_from(
        &mut self,
        start: Start<'a, A>,
    ) -> Result<Box<Process<'a, A>, A>, Stopped>
        ensures reads { Reads (form.ProcessFrom (start_of start.entry)) process_in self.old result
            self.new }
        ensures shorter { Keeps self.old result self.new }
    {
        match start {
            Start::Name(name) => {
                let base = Process::call(self.alloc, name, Vec::new(self.alloc))?;
                self.process_from_base(base)
            }
            Start::Expression(_) => Err(Stopped::Here),
            Start::Base(base) => self.process_from_base(base),
            Start::Operand(operand) => self.process_from_operand(operand),
        }
    }

    /// The process that begins with a base.
    #[cycle(process)]
    fn process_from_base(
        &mut self,
        base: Box<Process<'a, A>, A>,
    ) -> Result<Box<Process<'a, A>, A>, Stopped>
        ensures reads { Reads (form.FromBase (process_in base.entry)) process_in self.old result
            self.new }
        ensures shorter { Keeps self.old result self.new }
    {
        if self.is_at_suffix() {
            let renamed = self.renamed(base)?;
            return self.hidden(renamed);
        }
        self.process_from_operand(base)
    }

    /// The renamings of a process.
    fn renamed(&mut self, base: Box<Process<'a, A>, A>) -> Result<Box<Process<'a, A>, A>, Stopped>
        ensures reads { Reads (form.RenamedFrom (process_in base.entry)) process_in self.old result
            self.new }
        ensures shorter { Keeps self.old result self.new }
    {
        let mut process = base;
        while self.is_at(Sign::OpenRenaming) {
            self.sign(Sign::OpenRenaming)?;
            let pairs = self.pairs()?;
            self.sign(Sign::CloseRenaming)?;
            process = Process::renaming(self.alloc, process, pairs)?;
        }
        Ok(process)
    }

    /// The hidings of a process.
    fn hidden(&mut self, renamed: Box<Process<'a, A>, A>) -> Result<Box<Process<'a, A>, A>, Stopped>
        ensures reads { Reads (form.HiddenFrom (process_in renamed.entry)) process_in self.old
            result self.new }
        ensures shorter { Keeps self.old result self.new }
    {
        let mut process = renamed;
        while self.is_at(Sign::Hiding) {
            let set = self.event_set_behind(Sign::Hiding)?;
            process = Process::hiding(self.alloc, process, set)?;
        }
        Ok(process)
    }

    /// The process that begins with an operand.
    #[cycle(process)]
    fn process_from_operand(
        &mut self,
        first: Box<Process<'a, A>, A>,
    ) -> Result<Box<Process<'a, A>, A>, Stopped>
        ensures reads { Reads (form.FromOperand (process_in first.entry)) process_in self.old result
            self.new }
        ensures shorter { Keeps self.old result self.new }
    {
        if let Some(operator) = self.next_infix() {
            return self.chain(operator, first);
        }
        if self.is_at(Sign::OpenShared) {
            return self.generalised(first);
        }
        if self.is_at(Sign::OpenSquare) {
            return self.alphabetised(first);
        }
        Ok(first)
    }

    /// The rest of a parallel process over shared events, behind its left side.
    #[cycle(process)]
    fn generalised(
        &mut self,
        left: Box<Process<'a, A>, A>,
    ) -> Result<Box<Process<'a, A>, A>, Stopped>
        ensures reads { Reads (form.GeneralisedFrom (process_in left.entry)) process_in self.old
            result self.new }
        ensures shorter { Keeps self.old result self.new }
    {
        let shared = self.event_set_behind(Sign::OpenShared)?;
        let right = self.operand_behind(Sign::CloseShared)?;
        Process::generalised(self.alloc, left, shared, right)
    }

    /// The rest of a parallel process over two alphabets, behind its left side.
    #[cycle(process)]
    fn alphabetised(
        &mut self,
        left: Box<Process<'a, A>, A>,
    ) -> Result<Box<Process<'a, A>, A>, Stopped>
        ensures reads { Reads (form.AlphabetisedFrom (process_in left.entry)) process_in self.old
            result self.new }
        ensures shorter { Keeps self.old result self.new }
    {
        let of_left = self.event_set_behind(Sign::OpenSquare)?;
        let of_right = self.event_set_behind(Sign::DoubleBar)?;
        let right = self.operand_behind(Sign::CloseSquare)?;
        Process::alphabetised(self.alloc, left, of_left, of_right, right)
    }

    /// A chain of one operator, which is next, behind its first operand.
    #[cycle(process)]
    fn chain(
        &mut self,
        operator: Infix,
        first: Box<Process<'a, A>, A>,
    ) -> Result<Box<Process<'a, A>, A>, Stopped>
        ensures reads { Reads (form.ChainOver (infix_of operator) (process_in first.entry))
            process_in self.old result self.new }
        ensures shorter { Keeps self.old result self.new }
    {
        let written = infix_sign(operator);
        let second = self.operand_behind(written)?;
        let mut chain = Process::joined(self.alloc, operator, first, second)?;
        while self.is_at(written) {
            let operand = self.operand_behind(written)?;
            chain = Process::joined(self.alloc, operator, chain, operand)?;
        }
        Ok(chain)
    }

    /// An operand.
    #[cycle(process)]
    fn operand(&mut self) -> Result<Box<Process<'a, A>, A>, Stopped>
        ensures reads { Reads form.OfOperand process_in self.old result self.new }
        ensures shorter { Shortens self.old result self.new }
    {
        match self.start()? {
            Start::Name(name) => Process::call(self.alloc, name, Vec::new(self.alloc)),
            Start::Expression(_) => Err(Stopped::Here),
            Start::Base(process) => Ok(process),
            Start::Operand(process) => Ok(process),
        }
    }

    /// This sign, and an operand behind it.
    #[cycle(process)]
    pub(crate) fn operand_behind(&mut self, sign: Sign) -> Result<Box<Process<'a, A>, A>, Stopped>
        ensures reads { Reads (form.OperandBehind (sign_of sign)) process_in self.old result
            self.new }
        ensures shorter { Shortens self.old result self.new }
    {
        self.sign(sign)?;
        self.operand()
    }

    /// Whether the next token begins a process that is no operand: `if`, or an operator over a set.
    pub(crate) fn is_at_process(&self) -> bool
        ensures { result ≡ begins_process (next_of self.now) }
    {
        match self.next_replicator() {
            Some(_) => true,
            None => self.is_at_word(Keyword::If),
        }
    }

    /// Whether the next token begins a renaming or a hiding, which go on with a base.
    fn is_at_suffix(&self) -> bool
        ensures { result ≡ is_suffix (next_of self.now) }
    {
        self.is_at(Sign::OpenRenaming) || self.is_at(Sign::Hiding)
    }

    /// The operator between processes that the next token is, if it is one.
    fn next_infix(&self) -> Option<Infix>
        ensures { option_map infix_of result ≡ infix_at (next_of self.now) }
    {
        match self.kind()? {
            TokenKind::Sign(Sign::Box) => Some(Infix::Operator(ProcessOperator::ExternalChoice)),
            TokenKind::Sign(Sign::Internal) => Some(Infix::Operator(
                ProcessOperator::InternalChoice,
            )),
            TokenKind::Sign(Sign::Semicolon) => Some(Infix::Operator(ProcessOperator::Sequential)),
            TokenKind::Sign(Sign::TripleBar) => Some(Infix::Operator(
                ProcessOperator::Interleaving,
            )),
            TokenKind::Sign(Sign::Interrupt) => Some(Infix::Operator(ProcessOperator::Interrupt)),
            TokenKind::Sign(Sign::Sliding) => Some(Infix::Sliding),
            _ => None,
        }
    }

    /// The operator over a set that the next token is, if it is one.
    fn next_replicator(&self) -> Option<ReplicatedOperator>
        ensures { option_map replicator_of result ≡ replicator_at (next_of self.now) }
    {
        match self.kind()? {
            TokenKind::Sign(Sign::Box) => Some(ReplicatedOperator::ExternalChoice),
            TokenKind::Sign(Sign::Internal) => Some(ReplicatedOperator::InternalChoice),
            TokenKind::Sign(Sign::TripleBar) => Some(ReplicatedOperator::Interleaving),
            _ => None,
        }
    }
}
