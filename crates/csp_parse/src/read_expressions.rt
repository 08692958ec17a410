//! Reading expressions.

ghost use Rattle.std.specs.Prelude.{◌≡◌, IfOk, IfErr};
ghost use Rattle.theory_syntax.specs.Operators.{unary_of, binary_of};
ghost use Rattle.theory_text.specs.Raw.{RawApply, RawCombine, RawRange};
ghost use Rattle.csp_parse.specs.declared.stops.Stopped.TheVariants.{Memory};
ghost use Rattle.csp_parse.specs.Expressions.{expression_of, expressions_in};

use crate::expressions::Expression;
use crate::levels::{Level, binary_function, comparison, unary_function};
use crate::parsers::Parser;
use crate::stops::Stopped;
use csp_lex::{Keyword, Sign, TokenKind};
use std::alloc::Allocator;
use theory_syntax::{BinaryOperator, UnaryOperator};

impl<'t, 'a, A: Allocator + Copy> Parser<'t, 'a, A> {
    ghost use Rattle.std.specs.Prelude.{[], ◌∷◌};
    ghost use Rattle.csp_lex.specs.Tokens.{keyword_of, sign_of};
    ghost use Rattle.theory_reader.specs.Forms as form;
    ghost use Rattle.csp_parse.specs.Levels.{level_of};
    ghost use Rattle.csp_parse.specs.Reading.{Reads, Shortens, Keeps};

    /// An expression of a level.
    #[cycle(expression)]
    pub(crate) fn expression(&mut self, level: Level) -> Result<Expression<'a, A>, Stopped>
        ensures reads { Reads (form.AtLevel (level_of level)) expression_of self.old result
            self.new }
        ensures shorter { Shortens self.old result self.new }
    {
        match level {
            Level::Atom => self.atom(),
            Level::Negation => self.negation(),
            Level::Comparison => {
                let first = self.expression(Level::Sum)?;
                self.compared(first)
            }
            Level::Disjunction => self.chain_of(Level::Disjunction, Level::Conjunction),
            Level::Conjunction => self.chain_of(Level::Conjunction, Level::Negation),
            Level::Sum => self.chain_of(Level::Sum, Level::Product),
            Level::Product => self.chain_of(Level::Product, Level::Atom),
        }
    }

    /// This sign, and an expression of a level behind it.
    #[cycle(expression)]
    pub(crate) fn expression_behind(
        &mut self,
        sign: Sign,
        level: Level,
    ) -> Result<Expression<'a, A>, Stopped>
        ensures reads { Reads (form.Behind (sign_of sign) (level_of level)) expression_of self.old
            result self.new }
        ensures shorter { Shortens self.old result self.new }
    {
        self.sign(sign)?;
        self.expression(level)
    }

    /// A chain of a level, whose operands are of the next stronger one.
    #[cycle(expression)]
    fn chain_of(&mut self, level: Level, operands: Level) -> Result<Expression<'a, A>, Stopped>
        ensures reads { Reads (form.ChainOf (level_of level) (level_of operands)) expression_of
            self.old result self.new }
        ensures shorter { Shortens self.old result self.new }
    {
        let first = self.expression(operands)?;
        self.chained(level, first)
    }

    /// The rest of a chain, behind its first operand.
    #[cycle(expression)]
    pub(crate) fn chained(
        &mut self,
        level: Level,
        first: Expression<'a, A>,
    ) -> Result<Expression<'a, A>, Stopped>
        ensures reads { Reads (form.Chained (level_of level) (expression_of first.entry))
            expression_of self.old result self.new }
        ensures shorter { Keeps self.old result self.new }
    {
        let mut chain = first;
        while let Some(kind) = self.kind() {
            let Some(operator) = level.operator(kind) else {
                break;
            };
            chain = self.operation(operator, chain, level.stronger())?;
        }
        Ok(chain)
    }

    /// The rest of a comparison, behind its first operand.
    #[cycle(expression)]
    pub(crate) fn compared(
        &mut self,
        first: Expression<'a, A>,
    ) -> Result<Expression<'a, A>, Stopped>
        ensures reads { Reads (form.Compared (expression_of first.entry)) expression_of self.old
            result self.new }
        ensures shorter { Keeps self.old result self.new }
    {
        let Some(kind) = self.kind() else {
            return Ok(first);
        };
        let Some(operator) = comparison(kind) else {
            return Ok(first);
        };
        self.operation(operator, first, Level::Sum)
    }

    /// An operation with the operator that the next token is, behind its first operand.
    #[cycle(expression)]
    fn operation(
        &mut self,
        operator: BinaryOperator,
        first: Expression<'a, A>,
        level: Level,
    ) -> Result<Expression<'a, A>, Stopped>
        ensures reads { Reads (form.Operation (binary_of operator) (expression_of first.entry)
            (level_of level)) expression_of self.old result self.new }
        ensures shorter { Shortens self.old result self.new }
    {
        self.pass()?;
        let second = self.expression(level)?;
        combined(self.alloc, operator, first, second)
    }

    /// `not` any number of times, and a comparison.
    #[cycle(expression)]
    fn negation(&mut self) -> Result<Expression<'a, A>, Stopped>
        ensures reads { Reads form.OfNegation expression_of self.old result self.new }
        ensures shorter { Shortens self.old result self.new }
    {
        if !self.is_at_word(Keyword::Not) {
            return self.expression(Level::Comparison);
        }
        self.word(Keyword::Not)?;
        let operand = self.negation()?;
        applied(self.alloc, UnaryOperator::Not, operand)
    }

    /// An expression without operators around it.
    #[cycle(expression)]
    fn atom(&mut self) -> Result<Expression<'a, A>, Stopped>
        ensures reads { Reads form.OfAtom expression_of self.old result self.new }
        ensures shorter { Shortens self.old result self.new }
    {
        let Some(kind) = self.kind() else {
            return Err(Stopped::Here);
        };
        match kind {
            TokenKind::Number(value) => {
                self.pass()?;
                Ok(Expression::Number(value))
            }
            TokenKind::Keyword(keyword) => self.atom_of_word(keyword),
            TokenKind::Sign(sign) => self.atom_of_sign(sign),
            TokenKind::Name => {
                let name = self.name()?;
                Ok(Expression::Use(name))
            }
        }
    }

    /// The atom that begins with this keyword.
    #[cycle(expression)]
    fn atom_of_word(&mut self, keyword: Keyword) -> Result<Expression<'a, A>, Stopped>
        ensures reads { Reads (form.AtomOfWord (keyword_of keyword)) expression_of self.old result
            self.new }
        ensures shorter { Shortens self.old result self.new }
    {
        if let Some(operator) = unary_function(keyword) {
            self.word(keyword)?;
            let operand = self.bracketed()?;
            return applied(self.alloc, operator, operand);
        }
        if let Some(operator) = binary_function(keyword) {
            self.word(keyword)?;
            let (first, second) = self.two_arguments()?;
            return combined(self.alloc, operator, first, second);
        }
        self.constant(keyword)
    }

    /// The constant that this keyword is.
    fn constant(&mut self, keyword: Keyword) -> Result<Expression<'a, A>, Stopped>
        ensures reads { Reads (form.Constant (keyword_of keyword)) expression_of self.old result
            self.new }
        ensures shorter { Shortens self.old result self.new }
    {
        match keyword {
            Keyword::True => {
                self.word(Keyword::True)?;
                Ok(Expression::Truth(true))
            }
            Keyword::False => {
                self.word(Keyword::False)?;
                Ok(Expression::Truth(false))
            }
            Keyword::Bool => {
                self.word(Keyword::Bool)?;
                Ok(Expression::Booleans)
            }
            _ => Err(Stopped::Here),
        }
    }

    /// An expression in brackets.
    #[cycle(expression)]
    fn bracketed(&mut self) -> Result<Expression<'a, A>, Stopped>
        ensures reads { Reads form.Bracketed expression_of self.old result self.new }
        ensures shorter { Shortens self.old result self.new }
    {
        let inner = self.expression_behind(Sign::OpenRound, Level::Disjunction)?;
        self.sign(Sign::CloseRound)?;
        Ok(inner)
    }

    /// An atom in round brackets: an expression, or a constructor with its fields.
    #[cycle(expression)]
    fn round(&mut self) -> Result<Expression<'a, A>, Stopped>
        ensures reads { Reads form.Round expression_of self.old result self.new }
        ensures shorter { Shortens self.old result self.new }
    {
        self.sign(Sign::OpenRound)?;
        let inner = self.enclosed()?;
        self.sign(Sign::CloseRound)?;
        Ok(inner)
    }

    /// What is an atom with round brackets around it.
    #[cycle(expression)]
    fn enclosed(&mut self) -> Result<Expression<'a, A>, Stopped>
        ensures reads { Reads form.Enclosed expression_of self.old result self.new }
        ensures shorter { Shortens self.old result self.new }
    {
        if !self.is_at_name() {
            return self.expression(Level::Disjunction);
        }
        let name = self.name()?;
        if !self.is_at(Sign::Dot) {
            return self.expression_from(Expression::Use(name));
        }
        let fields = self.dotted()?;
        Ok(Expression::Constructor(name, fields))
    }

    /// Atoms with a dot before each.
    #[cycle(expression)]
    pub(crate) fn dotted(&mut self) -> Result<Vec<Expression<'a, A>, A>, Stopped>
        ensures reads { Reads (form.Dotted []) (λ r. expressions_in r.items) self.old result
            self.new }
        ensures shorter { Keeps self.old result self.new }
    {
        let mut fields = Vec::new(self.alloc);
        while self.is_at(Sign::Dot) {
            let field = self.expression_behind(Sign::Dot, Level::Atom)?;
            fields.push(field)?;
        }
        Ok(fields)
    }

    /// Two expressions in brackets.
    #[cycle(expression)]
    fn two_arguments(&mut self) -> Result<(Expression<'a, A>, Expression<'a, A>), Stopped>
        ensures reads { Reads form.TwoArguments (λ r. (expression_of r.0, expression_of r.1))
            self.old result self.new }
        ensures shorter { Shortens self.old result self.new }
    {
        let first = self.expression_behind(Sign::OpenRound, Level::Disjunction)?;
        let second = self.expression_behind(Sign::Comma, Level::Disjunction)?;
        self.sign(Sign::CloseRound)?;
        Ok((first, second))
    }

    /// The atom that begins with this sign.
    #[cycle(expression)]
    fn atom_of_sign(&mut self, sign: Sign) -> Result<Expression<'a, A>, Stopped>
        ensures reads { Reads (form.AtomOfSign (sign_of sign)) expression_of self.old result
            self.new }
        ensures shorter { Shortens self.old result self.new }
    {
        match sign {
            Sign::Minus => self.signed(Sign::Minus, UnaryOperator::Negate),
            Sign::Hash => self.signed(Sign::Hash, UnaryOperator::Length),
            Sign::OpenRound => self.round(),
            Sign::Less => self.sequence(),
            Sign::OpenBrace => self.set(),
            _ => Err(Stopped::Here),
        }
    }

    /// This sign, and an atom behind it that the sign's operator is applied to.
    #[cycle(expression)]
    fn signed(&mut self, sign: Sign, operator: UnaryOperator) -> Result<Expression<'a, A>, Stopped>
        ensures reads { Reads (form.Signed (sign_of sign) (unary_of operator)) expression_of
            self.old result self.new }
        ensures shorter { Shortens self.old result self.new }
    {
        let operand = self.expression_behind(sign, Level::Atom)?;
        applied(self.alloc, operator, operand)
    }

    /// A sequence.
    #[cycle(expression)]
    fn sequence(&mut self) -> Result<Expression<'a, A>, Stopped>
        ensures reads { Reads form.Sequence expression_of self.old result self.new }
        ensures shorter { Shortens self.old result self.new }
    {
        self.sign(Sign::Less)?;
        if self.is_at(Sign::Greater) {
            self.sign(Sign::Greater)?;
            return Ok(Expression::Sequence(Vec::new(self.alloc)));
        }
        let first = self.expression(Level::Sum)?;
        let items = self.listed(Level::Sum, first)?;
        self.sign(Sign::Greater)?;
        Ok(Expression::Sequence(items))
    }

    /// A set.
    #[cycle(expression)]
    fn set(&mut self) -> Result<Expression<'a, A>, Stopped>
        ensures reads { Reads form.OfSet expression_of self.old result self.new }
        ensures shorter { Shortens self.old result self.new }
    {
        self.sign(Sign::OpenBrace)?;
        if !self.is_at(Sign::CloseBrace) {
            return self.members();
        }
        self.sign(Sign::CloseBrace)?;
        Ok(Expression::Set(Vec::new(self.alloc)))
    }

    /// What stands behind the opening brace of a set that is not empty.
    #[cycle(expression)]
    fn members(&mut self) -> Result<Expression<'a, A>, Stopped>
        ensures reads { Reads form.Members expression_of self.old result self.new }
        ensures shorter { Shortens self.old result self.new }
    {
        let first = self.expression(Level::Disjunction)?;
        if self.is_at(Sign::Range) {
            return self.range(first);
        }
        let members = self.listed(Level::Disjunction, first)?;
        self.sign(Sign::CloseBrace)?;
        Ok(Expression::Set(members))
    }

    /// The rest of a set from one number to another, behind the first one.
    #[cycle(expression)]
    fn range(&mut self, first: Expression<'a, A>) -> Result<Expression<'a, A>, Stopped>
        ensures reads { Reads (form.Range (expression_of first.entry)) expression_of self.old result
            self.new }
        ensures shorter { Shortens self.old result self.new }
    {
        let last = self.expression_behind(Sign::Range, Level::Disjunction)?;
        self.sign(Sign::CloseBrace)?;
        ranged(self.alloc, first, last)
    }

    /// A list of expressions of a level, behind its first one.
    #[cycle(expression)]
    pub(crate) fn listed(
        &mut self,
        level: Level,
        first: Expression<'a, A>,
    ) -> Result<Vec<Expression<'a, A>, A>, Stopped>
        ensures reads { Reads (form.Listed (level_of level) (expression_of first.entry ∷ []))
            (λ r. expressions_in r.items) self.old result self.new }
        ensures shorter { Keeps self.old result self.new }
    {
        let mut items = Vec::new(self.alloc);
        items.push(first)?;
        while self.is_at(Sign::Comma) {
            let item = self.expression_behind(Sign::Comma, level)?;
            items.push(item)?;
        }
        Ok(items)
    }

    /// The rest of an expression that begins with an atom.
    #[cycle(expression)]
    pub(crate) fn expression_from(
        &mut self,
        atom: Expression<'a, A>,
    ) -> Result<Expression<'a, A>, Stopped>
        ensures reads { Reads (form.ExpressionFrom (expression_of atom.entry)) expression_of
            self.old result self.new }
        ensures shorter { Keeps self.old result self.new }
    {
        let product = self.chained(Level::Product, atom)?;
        let sum = self.chained(Level::Sum, product)?;
        let comparison = self.compared(sum)?;
        let conjunction = self.chained(Level::Conjunction, comparison)?;
        self.chained(Level::Disjunction, conjunction)
    }
}

/// An operator on an expression.
fn applied<'a, A: Allocator>(
    alloc: A,
    operator: UnaryOperator,
    operand: Expression<'a, A>,
) -> Result<Expression<'a, A>, Stopped>
    ensures makes { IfOk result (λ e. expression_of e
        ≡ RawApply (unary_of operator) (expression_of operand.entry)) }
    ensures stops { IfErr result (λ stopped. stopped ≡ Memory) }
{
    let operand = Box::new(alloc, operand)?;
    Ok(Expression::Apply(operator, operand))
}

/// An operator on two expressions.
fn combined<'a, A: Allocator + Copy>(
    alloc: A,
    operator: BinaryOperator,
    left: Expression<'a, A>,
    right: Expression<'a, A>,
) -> Result<Expression<'a, A>, Stopped>
    ensures makes { IfOk result (λ e. expression_of e
        ≡ RawCombine (binary_of operator) (expression_of left.entry) (expression_of right.entry)) }
    ensures stops { IfErr result (λ stopped. stopped ≡ Memory) }
{
    let left = Box::new(alloc, left)?;
    let right = Box::new(alloc, right)?;
    Ok(Expression::Combine(operator, left, right))
}

/// The numbers from one to another.
fn ranged<'a, A: Allocator + Copy>(
    alloc: A,
    from: Expression<'a, A>,
    to: Expression<'a, A>,
) -> Result<Expression<'a, A>, Stopped>
    ensures makes { IfOk result (λ e. expression_of e
        ≡ RawRange (expression_of from.entry) (expression_of to.entry)) }
    ensures stops { IfErr result (λ stopped. stopped ≡ Memory) }
{
    let from = Box::new(alloc, from)?;
    let to = Box::new(alloc, to)?;
    Ok(Expression::Range(from, to))
}
