//! What expressions ask for.

ghost use Rattle.std.specs.Prelude.{IfOk};
ghost use Rattle.csp_inference.specs.Question.{AddsQuestion, AsksQuestion};
ghost use Rattle.csp_inference.specs.Questions.Expressions.{constructed_question, datatype_question, expression_question, expressions_question, name_question, nametype_question};

use crate::chain::{Demand, End};
use crate::equations::Equations;
use crate::numbering::{NumberedName, Numbering, number_of_name};
use crate::operators::{left_operand, operand, right_operand};
use csp_expression::{DatatypeId, Expr, Name, NametypeId, TypeTable};
use csp_value::{ConId, Memory};
use std::alloc::Allocator;

impl<A: Allocator + Copy> Equations<A> {
    /// Adds the equations for an expression that is to have the kind, where the names have the kinds of their numbers,
    /// or is `Memory` where there is no room for them.
    #[cycle(ask_expression)]
    pub fn ask_expression(
        &mut self,
        types: &TypeTable<A>,
        numbering: &Numbering<A>,
        names: &[NumberedName],
        expression: &Expr<A>,
        kind: Demand,
    ) -> Result<(), Memory>
        ensures { IfOk result (λ _. AsksQuestion self.old self.new
            (expression_question types.now numbering.now names.now expression.now kind)) }
    {
        match expression {
            Expr::Literal(value) => self.ask_value(numbering, value, kind),
            Expr::Name(name) => self.ask_name(names, *name, kind),
            Expr::Apply(operator, part) => {
                let number = self.push_unary(*operator, kind)?;
                self.ask_expression(types, numbering, names, part, operand(*operator, number))
            }
            Expr::Combine(operator, left, right) => {
                let number = self.push_binary(*operator, kind)?;
                let left_kind = left_operand(*operator, number);
                self.ask_expression(types, numbering, names, left, left_kind)?;
                let right_kind = right_operand(*operator, number);
                self.ask_expression(types, numbering, names, right, right_kind)
            }
            Expr::Sequence(items) => {
                let number = self.push_sequence(kind)?;
                let item = Demand::Plain(End::Open(number));
                self.ask_expressions(types, numbering, names, items, item)
            }
            Expr::Set(members) => {
                let number = self.push_set(kind)?;
                let member = Demand::Plain(End::Open(number));
                self.ask_expressions(types, numbering, names, members, member)
            }
            Expr::Range(from, to) => {
                self.push(Demand::SetOf(End::Int), kind)?;
                self.ask_expression(types, numbering, names, from, Demand::Plain(End::Int))?;
                self.ask_expression(types, numbering, names, to, Demand::Plain(End::Int))
            }
            Expr::Booleans => self.push(Demand::SetOf(End::Bool), kind),
            Expr::Datatype(datatype) => self.ask_datatype(types, *datatype, kind),
            Expr::Nametype(nametype) => self.ask_nametype(numbering, *nametype, kind),
            Expr::Constructor(constructor, fields) => {
                self.ask_constructed(types, numbering, names, *constructor, fields, kind)
            }
        }
    }

    /// Adds the equations for expressions that are all to have the kind.
    #[cycle(ask_expression)]
    fn ask_expressions(
        &mut self,
        types: &TypeTable<A>,
        numbering: &Numbering<A>,
        names: &[NumberedName],
        expressions: &[Expr<A>],
        kind: Demand,
    ) -> Result<(), Memory>
        ensures { IfOk result (λ _. AsksQuestion self.old self.new
            (expressions_question types.now numbering.now names.now expressions.now kind)) }
    {
        for expression in expressions {
            self.ask_expression(types, numbering, names, expression, kind)?;
        }
        Ok(())
    }

    /// Adds the equations for a constructor with these fields that is to have the kind.
    #[cycle(ask_expression)]
    fn ask_constructed(
        &mut self,
        types: &TypeTable<A>,
        numbering: &Numbering<A>,
        names: &[NumberedName],
        constructor: ConId,
        fields: &[Expr<A>],
        kind: Demand,
    ) -> Result<(), Memory>
        ensures { IfOk result (λ _. AsksQuestion self.old self.new
            (constructed_question types.now numbering.now names.now constructor fields.now kind)) }
    {
        let Some(datatype) = numbering.owners.get(constructor.0 as usize) else {
            return self.push_never();
        };
        self.push(Demand::Plain(End::Datatype(*datatype)), kind)?;
        let Some(numbers) = numbering.constructors.get(constructor.0 as usize) else {
            return self.push_never();
        };
        self.ask_all(types, numbering, names, fields, numbers)
    }

    /// Adds the equation for a bound name that is to have the kind.
    fn ask_name(&mut self, names: &[NumberedName], name: Name, kind: Demand) -> Result<(), Memory>
        ensures { IfOk result (λ _. AddsQuestion self.old self.new
            (name_question names.now name kind)) }
    {
        match number_of_name(names, name) {
            Some(number) => self.push(Demand::Plain(End::Open(number)), kind),
            None => self.push_never(),
        }
    }

    /// Adds the equation for the set of a datatype's values, which is to have the kind.
    fn ask_datatype(
        &mut self,
        types: &TypeTable<A>,
        datatype: DatatypeId,
        kind: Demand,
    ) -> Result<(), Memory>
        ensures { IfOk result (λ _. AddsQuestion self.old self.new
            (datatype_question types.now datatype kind)) }
    {
        match types.datatypes.get(datatype.0 as usize) {
            Some(_) => self.push(Demand::SetOf(End::Datatype(datatype)), kind),
            None => self.push_never(),
        }
    }

    /// Adds the equation for the set that a nametype names, which is to have the kind.
    fn ask_nametype(
        &mut self,
        numbering: &Numbering<A>,
        nametype: NametypeId,
        kind: Demand,
    ) -> Result<(), Memory>
        ensures { IfOk result (λ _. AddsQuestion self.old self.new
            (nametype_question numbering.now nametype kind)) }
    {
        match numbering.nametypes.get(nametype.0 as usize) {
            Some(number) => self.push(Demand::SetOf(End::Open(*number)), kind),
            None => self.push_never(),
        }
    }
}
