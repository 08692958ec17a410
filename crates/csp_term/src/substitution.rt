//! Putting values in for names. Nothing is evaluated.

ghost use Rattle.std.specs.Prelude.{◌≡◌, ◌∷◌, [], IfOk, IsErrOf, IsFalse, IsTrue};
ghost use Rattle.theory_syntax.specs.Expression.{to_expressions};
ghost use Rattle.theory_syntax.specs.Process.{Call, Guard, Prefix};
ghost use Rattle.theory_semantics.specs.Meaning.Substitution.{behind, bind, put, put_expression, put_fields, without};
ghost use Rattle.theory_semantics.specs.Meaning.Limits.{fits};
ghost use Rattle.csp_value.specs.Value.{value_of};
ghost use Rattle.csp_expression.specs.Bindings.{bindings_of};
ghost use Rattle.csp_expression.specs.Expression.{expression_of, expressions_of};
ghost use Rattle.csp_term.specs.Field.{field_of, fields_of};
ghost use Rattle.csp_term.specs.Term.{process_of, process_of_form};

use crate::field::Field;
use crate::hiding::{put_in_hiding, put_in_renaming};
use crate::name::EquationId;
use crate::operands::{
    put_in_alphabetised, put_in_binary, put_in_conditional, put_in_generalised, put_in_sliding,
};
use crate::replicated::put_in_replicated;
use crate::term::{Term, TermForm};
use csp_expression::{Binding, Expr, Name, put_in_all};
use csp_value::{ChannelId, Memory, Value};
use std::alloc::Allocator;
use thiserror::Error;

/// Why a term with values put in is not answered.
#[derive(Clone, Copy, Debug, PartialEq, Eq, Error)]
pub enum TermFault {
    /// Memory was refused, and nothing is said of the term's size.
    #[error("T01 out of memory")]
    Memory,
    /// The term would be past the limits: over 2,000 nodes, or deeper than 256.
    #[error("T02 the term is past the limits")]
    TooLarge,
}

impl From<Memory> for TermFault {
    ghost use Rattle.csp_term.specs.declared.substitution.TermFault.TheVariants.{Memory as no_memory};

    ghost from_gives = { λ _ e. e ≡ no_memory };

    fn from(_refused: Memory) -> TermFault {
        TermFault::Memory
    }
}

impl<A: Allocator + Copy> Field<A> {
    /// The field with the values put in. An input binds its name behind it, and not in its own set.
    fn put_in(&self, alloc: A, bindings: &[Binding<'_, A>]) -> Result<Field<A>, Memory>
        ensures { IfOk result (λ put. field_of put ∷ []
            ≡ put_fields (bindings_of bindings.now) (field_of self.now ∷ [])) }
    {
        match self {
            Field::Given(value) => Ok(Field::Given(value.put_in(alloc, bindings)?)),
            Field::Input(name) => Ok(Field::Input(*name)),
            Field::InputFrom(name, set) => {
                Ok(Field::InputFrom(*name, set.put_in(alloc, bindings)?))
            }
        }
    }

    /// Takes out of the bindings what the field hides: those of the name that it binds, if it is an input.
    fn hide(&self, bindings: &mut Vec<Binding<'_, A>, A>)
        ensures { bindings_of bindings.new.items ≡ behind (bindings_of bindings.old.items)
            (field_of self.now ∷ []) }
    {
        match self {
            Field::Given(_) => {}
            Field::Input(name) => take_out(*name, bindings),
            Field::InputFrom(name, _) => take_out(*name, bindings),
        }
    }
}

/// Takes the bindings of the name out.
fn take_out<A: Allocator + Copy>(name: Name, bindings: &mut Vec<Binding<'_, A>, A>)
    ensures { bindings_of bindings.new.items ≡ without name.0 (bindings_of bindings.old.items) }
{
    bindings.retain(|binding| binding.name != name);
}

/// The bindings without those of the name.
pub(crate) fn without<'v, A: Allocator + Copy>(
    alloc: A,
    name: Name,
    bindings: &[Binding<'v, A>],
) -> Result<Vec<Binding<'v, A>, A>, Memory>
    ensures { IfOk result (λ left. bindings_of left.items
        ≡ without name.0 (bindings_of bindings.now)) }
{
    let mut left = Vec::from_slice(alloc, bindings)?;
    take_out(name, &mut left);
    Ok(left)
}

/// The name with its value, in front of the bindings of other names. `Memory` where there is no room.
pub fn bind<'v, A: Allocator + Copy>(
    alloc: A,
    name: Name,
    value: &'v Value<A>,
    bindings: &[Binding<'v, A>],
) -> Result<Vec<Binding<'v, A>, A>, Memory>
    ensures { IfOk result (λ bound. bindings_of bound.items
        ≡ bind name.0 (value_of value.now) (bindings_of bindings.now)) }
{
    let mut bound = without(alloc, name, bindings)?;
    bound.insert(0, Binding { name, value })?;
    Ok(bound)
}

/// The fields with the values put in, and the bindings that are left behind them.
fn put_in_fields<'v, A: Allocator + Copy>(
    alloc: A,
    fields: &[Field<A>],
    bindings: &[Binding<'v, A>],
) -> Result<(Vec<Field<A>, A>, Vec<Binding<'v, A>, A>), Memory>
    ensures fields { IfOk result (λ put. fields_of put.0.items
        ≡ put_fields (bindings_of bindings.now) (fields_of fields.now)) }
    ensures left { IfOk result (λ put. bindings_of put.1.items
        ≡ behind (bindings_of bindings.now) (fields_of fields.now)) }
{
    let mut left = Vec::from_slice(alloc, bindings)?;
    let mut all = Vec::new(alloc);
    for field in fields {
        all.push(field.put_in(alloc, &left)?)?;
        field.hide(&mut left);
    }
    Ok((all, left))
}

impl<A: Allocator + Copy> Term<A> {
    /// The term with the values put in, whatever its size. A name that an input or a replicated operator binds hides an
    /// outer one. `Memory` where there is no room.
    #[cycle(put_term)]
    pub fn put_in(&self, alloc: A, bindings: &[Binding<'_, A>]) -> Result<Term<A>, Memory>
        ensures { IfOk result (λ t. process_of t ≡ put (bindings_of bindings.now)
            (process_of self.now)) }
    {
        let form = (*self.form).put_in(alloc, bindings)?;
        Term::new(alloc, form)
    }
}

impl<A: Allocator + Copy> TermForm<A> {
    /// The form with the values put in.
    #[cycle(put_term)]
    fn put_in(&self, alloc: A, bindings: &[Binding<'_, A>]) -> Result<TermForm<A>, Memory>
        ensures { IfOk result (λ form. process_of_form form
            ≡ put (bindings_of bindings.now) (process_of_form self.now)) }
    {
        match self {
            TermForm::Stop => Ok(TermForm::Stop),
            TermForm::Skip => Ok(TermForm::Skip),
            TermForm::Omega => Ok(TermForm::Omega),
            TermForm::Call(called, arguments) => put_in_call(alloc, *called, arguments, bindings),
            TermForm::Prefix(channel, fields, body) => {
                put_in_prefix(alloc, *channel, fields, body, bindings)
            }
            TermForm::Guard(condition, body) => {
                put_in_guard(alloc, condition, body.put_in(alloc, bindings)?, bindings)
            }
            TermForm::If(condition, first, second) => {
                let first = first.put_in(alloc, bindings)?;
                put_in_conditional(alloc, second, first, condition, bindings)
            }
            TermForm::Binary(operator, left, right) => {
                let left = left.put_in(alloc, bindings)?;
                put_in_binary(alloc, *operator, right, left, bindings)
            }
            TermForm::GeneralisedParallel(left, shared, right) => {
                let left = left.put_in(alloc, bindings)?;
                put_in_generalised(alloc, right, left, shared, bindings)
            }
            TermForm::AlphabetisedParallel(left, own, other, right) => {
                let left = left.put_in(alloc, bindings)?;
                put_in_alphabetised(alloc, right, left, own, other, bindings)
            }
            TermForm::Hiding(body, hidden) => {
                put_in_hiding(alloc, body.put_in(alloc, bindings)?, hidden, bindings)
            }
            TermForm::Renaming(body, pairs) => put_in_renaming(alloc, body, pairs, bindings),
            TermForm::Replicated(operator, name, set, body) => {
                put_in_replicated(alloc, *operator, *name, body, set, bindings)
            }
            TermForm::SlidingChoice(left, right) => {
                let left = left.put_in(alloc, bindings)?;
                put_in_sliding(alloc, right, left, bindings)
            }
        }
    }
}

/// The call with the values put into its arguments.
fn put_in_call<A: Allocator + Copy>(
    alloc: A,
    equation: EquationId,
    arguments: &[Expr<A>],
    bindings: &[Binding<'_, A>],
) -> Result<TermForm<A>, Memory>
    ensures { IfOk result (λ form. process_of_form form
        ≡ put (bindings_of bindings.now)
        (Call equation.0 (to_expressions (expressions_of arguments.now)))) }
{
    Ok(TermForm::Call(equation, put_in_all(alloc, arguments, bindings)?))
}

/// The prefix with the values put in. What an input binds hides an outer name in the fields behind it and in the body.
#[cycle(put_term)]
fn put_in_prefix<A: Allocator + Copy>(
    alloc: A,
    channel: ChannelId,
    fields: &[Field<A>],
    body: &Term<A>,
    bindings: &[Binding<'_, A>],
) -> Result<TermForm<A>, Memory>
    ensures { IfOk result (λ form. process_of_form form
        ≡ put (bindings_of bindings.now)
        (Prefix channel.0 (fields_of fields.now) (process_of body.now))) }
{
    let (fields, left) = put_in_fields(alloc, fields, bindings)?;
    Ok(TermForm::Prefix(channel, fields, body.put_in(alloc, &left)?))
}

/// The guarded process with the values put in. They are in the body already.
fn put_in_guard<A: Allocator + Copy>(
    alloc: A,
    condition: &Expr<A>,
    body: Term<A>,
    bindings: &[Binding<'_, A>],
) -> Result<TermForm<A>, Memory>
    ensures { IfOk result (λ form. process_of_form form
        ≡ Guard (put_expression (bindings_of bindings.now) (expression_of condition.now))
        (process_of body)) }
{
    Ok(TermForm::Guard(condition.put_in(alloc, bindings)?, body))
}

impl<A: Allocator + Copy> Term<A> {
    /// The term with the values put in, where it is then within the limits. `TooLarge` comes only where it is not, and
    /// `Memory` says nothing of its size. A term that is past the limits itself is refused before anything is built, so
    /// that nothing is built deeper than they allow but for the values.
    #[tactic(auto, using(crate::proofs::Growing::stays_large))]
    pub fn subst(&self, alloc: A, bindings: &[Binding<'_, A>]) -> Result<Term<A>, TermFault>
        ensures put { IfOk result (λ t. process_of t ≡ put (bindings_of bindings.now)
            (process_of self.now)) }
        ensures within { IfOk result (λ t. IsTrue (fits (process_of t))) }
        ensures too_large { IsErrOf result TermFault.TooLarge
            → IsFalse (fits (put (bindings_of bindings.now) (process_of self.now))) }
    {
        if !self.fits() {
            return Err(TermFault::TooLarge);
        }
        let put = self.put_in(alloc, bindings)?;
        if !put.fits() {
            return Err(TermFault::TooLarge);
        }
        Ok(put)
    }
}
