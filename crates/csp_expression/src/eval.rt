//! The value of an expression.

ghost use Rattle.theory_syntax.specs.Expression as pure;
ghost use Rattle.theory_syntax.specs.Expression.{ConstructorOf, to_expressions};
ghost use Rattle.theory_syntax.specs.Operators.{binary_of, unary_of};
ghost use Rattle.theory_semantics.specs.Meaning.Evaluation.{apply, combine, given_values, in_field_set, range_of, value, values};
ghost use Rattle.theory_semantics.specs.Meaning.Substitution.{put_expression};
ghost use Rattle.csp_expression.specs.Closed.{IsClosedExpression};
ghost use Rattle.csp_expression.specs.Bindings.{bindings_of, puts};
ghost use Rattle.std.specs.Prelude.{◌≡◌, true};
ghost use Rattle.csp_value.specs.Fields.{field_values, sets_of};
ghost use Rattle.csp_value.specs.Value.{value_of};
ghost use Rattle.csp_expression.specs.Given.{given};
ghost use Rattle.csp_expression.specs.Evaluation.{Answers, Gives, GivesAll, IsAnswer, Sees, only_reads, only_reads_operand, seen_value, table_of};
ghost use Rattle.csp_expression.specs.Expression.{expression_of};

use crate::cause::Cause;
use crate::eval_fault::EvalFault;
use crate::expr::Expr;
use crate::no_value::NoValue;
use crate::seen::Seen;
use crate::substitution::{Binding, bound};
use crate::types::TypeTable;
use crate::{arithmetic, comparison, connectives, constructors, ranges, sequences, sets};
use csp_value::{ConId, FieldSet, Value};
use std::alloc::Allocator;
use theory_syntax::{BinaryOperator, UnaryOperator};

impl<A: Allocator + Copy> Expr<A> {
    /// The value of the closed, well-kinded expression in the given allocator, or the first fault from left to right
    /// for which it has none. `and` and `or` look at their right side only where the left one does not decide. `Memory`
    /// says nothing of the value.
    pub fn eval(&self, alloc: A, types: &TypeTable<A>) -> Result<Value<A>, EvalFault>
        requires closed { IsClosedExpression (table_of types.now) (expression_of self.now) }
        ensures { Answers result (value (table_of types.now) (expression_of self.now)) }
    {
        match self.find_value(alloc, types) {
            Ok(value) => Ok(value),
            Err(NoValue::Memory) => Err(EvalFault::Memory),
            Err(NoValue::Cause(cause)) => match cause.fault() {
                Some(fault) => Err(EvalFault::Fault(fault)),
                None => unreachable!(),
            },
        }
    }

    /// The same for any expression: a name that no value was put in for, and an operand of the wrong kind, are the
    /// cause `Kind`. `Memory` says nothing of the value.
    #[tactic(auto, using(theory_semantics::proofs::Putting::put_nothing_in_expression))]
    pub fn find_value(&self, alloc: A, types: &TypeTable<A>) -> Result<Value<A>, NoValue>
        ensures { Gives result (value (table_of types.now) (expression_of self.now)) }
    {
        Ok(self.look(alloc, types, &[])?.into_value(alloc)?)
    }

    /// The same for the expression with the values of the bindings put in. The value is lent where it lies in the
    /// expression or in a binding, and nothing is copied that is only read.
    #[cycle(eval)]
    pub fn look<'e>(
        &'e self,
        alloc: A,
        types: &TypeTable<A>,
        bindings: &[Binding<'e, A>],
    ) -> Result<Seen<'e, A>, NoValue>
        ensures { Sees result (value (table_of types.now)
            (put_expression (bindings_of bindings.now) (expression_of self.now))) }
    {
        match self {
            Expr::Literal(value) => Ok(Seen::Lent(value)),
            Expr::Name(name) => match bound(*name, bindings) {
                Some(value) => Ok(Seen::Lent(value)),
                None => Err(NoValue::Cause(Cause::Kind)),
            },
            Expr::Apply(operator, operand) => {
                let operand = operand.look(alloc, types, bindings)?;
                apply(alloc, *operator, operand)
            }
            Expr::Combine(operator, left, right) => {
                let left = left.look(alloc, types, bindings)?;
                if connectives::decides(*operator, left.value()) {
                    return Ok(left);
                }
                let right = right.look(alloc, types, bindings)?;
                Ok(Seen::Made(combine(alloc, *operator, left, right)?))
            }
            Expr::Sequence(items) => {
                let values = look_at_all(alloc, items, types, bindings)?;
                Ok(Seen::Made(sequences::sequence(values)?))
            }
            Expr::Set(members) => {
                let values = look_at_all(alloc, members, types, bindings)?;
                Ok(Seen::Made(sets::set_of_values(values)?))
            }
            Expr::Range(from, to) => {
                let from = from.look(alloc, types, bindings)?;
                let to = to.look(alloc, types, bindings)?;
                Ok(Seen::Made(range(alloc, from, to)?))
            }
            Expr::Booleans => Ok(Seen::Made(ranges::booleans(alloc)?)),
            Expr::Datatype(datatype) => Ok(Seen::Made(ranges::datatype(alloc, types, *datatype)?)),
            Expr::Nametype(nametype) => Ok(Seen::Made(ranges::nametype(alloc, types, *nametype)?)),
            Expr::Constructor(constructor, fields) => {
                look_at_constructor(alloc, *constructor, fields, types, bindings)
            }
        }
    }

    /// The same for a given field, whose value has to lie in its set: one that does not is the cause `Range`.
    pub fn look_within<'e>(
        &'e self,
        alloc: A,
        types: &TypeTable<A>,
        bindings: &[Binding<'e, A>],
        set: &FieldSet<A>,
    ) -> Result<Seen<'e, A>, NoValue>
        ensures { Sees result (given (table_of types.now)
            (put_expression (bindings_of bindings.now) (expression_of self.now))
            (field_values set.now)) }
    {
        let seen = self.look(alloc, types, bindings)?;
        within(seen, set)
    }

    /// The value of a given field, which has to lie in its set: one that does not is the cause `Range`.
    #[tactic(auto, using(theory_semantics::proofs::Putting::put_nothing_in_expression))]
    pub fn find_within(
        &self,
        alloc: A,
        types: &TypeTable<A>,
        set: &FieldSet<A>,
    ) -> Result<Value<A>, NoValue>
        ensures { Gives result (given (table_of types.now) (expression_of self.now)
            (field_values set.now)) }
    {
        Ok(self.look_within(alloc, types, &[], set)?.into_value(alloc)?)
    }
}

/// The constructor with the values of its fields, or the first cause.
#[cycle(eval)]
fn look_at_constructor<'e, A: Allocator + Copy>(
    alloc: A,
    constructor: ConId,
    fields: &'e [Expr<A>],
    types: &TypeTable<A>,
    bindings: &[Binding<'e, A>],
) -> Result<Seen<'e, A>, NoValue>
    ensures { Sees result (value (table_of types.now)
        (ConstructorOf constructor.0
        (to_expressions (puts (bindings_of bindings.now) fields.now)))) }
{
    let sets = constructors::field_sets(types, constructor)?;
    let values = look_at_fields(alloc, fields, sets, types, bindings)?;
    Ok(Seen::Made(constructors::constructed(constructor, sets, values)?))
}

/// The value of each given field with the values of the bindings put in, in order, or the first cause.
#[cycle(eval)]
fn look_at_fields<'e, A: Allocator + Copy>(
    alloc: A,
    fields: &'e [Expr<A>],
    sets: &[FieldSet<A>],
    types: &TypeTable<A>,
    bindings: &[Binding<'e, A>],
) -> Result<Vec<Value<A>, A>, NoValue>
    ensures { GivesAll result (given_values (table_of types.now)
        (to_expressions (puts (bindings_of bindings.now) fields.now)) (sets_of sets.now)) }
{
    let mut all = Vec::new(alloc);
    for (place, field) in fields.iter().enumerate() {
        let Some(set) = sets.get(place) else {
            return Err(NoValue::Cause(Cause::Kind));
        };
        let seen = field.look(alloc, types, bindings)?;
        let given = within(seen, set)?;
        all.push(given.into_value(alloc)?)?;
    }
    Ok(all)
}

/// The value where it lies in the set, else the cause `Range`.
fn within<'e, A: Allocator + Copy>(
    seen: Seen<'e, A>,
    set: &FieldSet<A>,
) -> Result<Seen<'e, A>, NoValue>
    ensures { Sees result (in_field_set (field_values set.now) (seen_value seen.entry)) }
{
    if set.contains(seen.value()) {
        Ok(seen)
    } else {
        Err(NoValue::Cause(Cause::Range))
    }
}

/// The value of each expression with the values of the bindings put in, in order, or the first cause.
#[cycle(eval)]
fn look_at_all<'e, A: Allocator + Copy>(
    alloc: A,
    expressions: &'e [Expr<A>],
    types: &TypeTable<A>,
    bindings: &[Binding<'e, A>],
) -> Result<Vec<Value<A>, A>, NoValue>
    ensures { GivesAll result (values (table_of types.now)
        (to_expressions (puts (bindings_of bindings.now) expressions.now))) }
{
    let mut all = Vec::new(alloc);
    for expression in expressions {
        let seen = expression.look(alloc, types, bindings)?;
        all.push(seen.into_value(alloc)?)?;
    }
    Ok(all)
}

/// `{e..f}`
fn range<'e, A: Allocator + Copy>(
    alloc: A,
    from: Seen<'e, A>,
    to: Seen<'e, A>,
) -> Result<Value<A>, NoValue>
    ensures { Gives result (range_of (seen_value from.entry) (seen_value to.entry)) }
{
    ranges::range(alloc, from.value(), to.value())
}

/// What the operator makes of the operand's value.
fn apply<'e, A: Allocator + Copy>(
    alloc: A,
    operator: UnaryOperator,
    operand: Seen<'e, A>,
) -> Result<Seen<'e, A>, NoValue>
    ensures { Sees result (apply (unary_of operator) (seen_value operand.entry)) }
{
    match operator {
        UnaryOperator::Head => Ok(sequences::head(operand)?),
        UnaryOperator::Tail => tail(alloc, operand),
        _ => Ok(Seen::Made(read_operand(operator, operand.value())?)),
    }
}

/// `tail(e)`
fn tail<'e, A: Allocator + Copy>(alloc: A, operand: Seen<'e, A>) -> Result<Seen<'e, A>, NoValue>
    ensures { Sees result (apply pure.Tail (seen_value operand.entry)) }
{
    let operand = operand.into_value(alloc)?;
    Ok(Seen::Made(sequences::tail(operand)?))
}

/// What an operator makes of its operand's value that only reads it.
fn read_operand<A: Allocator + Copy>(
    operator: UnaryOperator,
    operand: &Value<A>,
) -> Result<Value<A>, Cause>
    requires { only_reads_operand (unary_of operator) ≡ true }
    ensures { IsAnswer result (apply (unary_of operator) (value_of operand.now)) }
{
    match operator {
        UnaryOperator::Negate => arithmetic::negate(operand),
        UnaryOperator::Not => connectives::negation(operand),
        UnaryOperator::Length => sequences::length(operand),
        UnaryOperator::IsNull => sequences::is_null(operand),
        UnaryOperator::Card => sets::card(operand),
        _ => unreachable!(),
    }
}

/// What the operator makes of the operands' values.
fn combine<'e, A: Allocator + Copy>(
    alloc: A,
    operator: BinaryOperator,
    left: Seen<'e, A>,
    right: Seen<'e, A>,
) -> Result<Value<A>, NoValue>
    ensures { Gives result (combine (binary_of operator) (seen_value left.entry)
        (seen_value right.entry)) }
{
    match operator {
        BinaryOperator::Concatenate => concatenation(alloc, left, right),
        BinaryOperator::Union => union(alloc, left, right),
        BinaryOperator::Intersection => intersection(alloc, left, right),
        BinaryOperator::Difference => difference(alloc, left, right),
        _ => Ok(read(operator, left.value(), right.value())?),
    }
}

/// `e^f`
fn concatenation<'e, A: Allocator + Copy>(
    alloc: A,
    left: Seen<'e, A>,
    right: Seen<'e, A>,
) -> Result<Value<A>, NoValue>
    ensures { Gives result (combine pure.Concatenate (seen_value left.entry)
        (seen_value right.entry)) }
{
    let left = left.into_value(alloc)?;
    let right = right.into_value(alloc)?;
    sequences::concatenate(left, right)
}

/// `union(e, f)`
fn union<'e, A: Allocator + Copy>(
    alloc: A,
    left: Seen<'e, A>,
    right: Seen<'e, A>,
) -> Result<Value<A>, NoValue>
    ensures { Gives result (combine pure.Union (seen_value left.entry) (seen_value right.entry)) }
{
    let left = left.into_value(alloc)?;
    let right = right.into_value(alloc)?;
    sets::union(left, right)
}

/// `inter(e, f)`
fn intersection<'e, A: Allocator + Copy>(
    alloc: A,
    left: Seen<'e, A>,
    right: Seen<'e, A>,
) -> Result<Value<A>, NoValue>
    ensures { Gives result (combine pure.Intersection (seen_value left.entry)
        (seen_value right.entry)) }
{
    let left = left.into_value(alloc)?;
    Ok(sets::intersection(left, right.value())?)
}

/// `diff(e, f)`
fn difference<'e, A: Allocator + Copy>(
    alloc: A,
    left: Seen<'e, A>,
    right: Seen<'e, A>,
) -> Result<Value<A>, NoValue>
    ensures { Gives result (combine pure.Difference (seen_value left.entry)
        (seen_value right.entry)) }
{
    let left = left.into_value(alloc)?;
    Ok(sets::difference(left, right.value())?)
}

/// What an operator makes of its operands' values that only reads them.
fn read<A: Allocator + Copy>(
    operator: BinaryOperator,
    left: &Value<A>,
    right: &Value<A>,
) -> Result<Value<A>, Cause>
    requires { only_reads (binary_of operator) ≡ true }
    ensures { IsAnswer result (combine (binary_of operator) (value_of left.now)
        (value_of right.now)) }
{
    match operator {
        BinaryOperator::Add => arithmetic::add(left, right),
        BinaryOperator::Subtract => arithmetic::subtract(left, right),
        BinaryOperator::Multiply => arithmetic::multiply(left, right),
        BinaryOperator::Modulus => arithmetic::remainder(left, right),
        BinaryOperator::Equals => comparison::equals(left, right),
        BinaryOperator::Differs => comparison::differs(left, right),
        BinaryOperator::LessThan => comparison::less_than(left, right),
        BinaryOperator::AtMost => comparison::at_most(left, right),
        BinaryOperator::GreaterThan => comparison::greater_than(left, right),
        BinaryOperator::AtLeast => comparison::at_least(left, right),
        BinaryOperator::And => connectives::conjunction(left, right),
        BinaryOperator::Or => connectives::disjunction(left, right),
        BinaryOperator::IsElement => sequences::is_element(left, right),
        BinaryOperator::IsMember => sets::is_member(left, right),
        _ => unreachable!(),
    }
}
