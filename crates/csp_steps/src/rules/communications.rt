//! The communications that the fields of a prefix allow over their field sets.
//!
//! They are gone through in the order of the definitions: an input takes its values in turn, and the later fields are
//! looked at for each. So the first cause is found, and what is evaluated is read where it lies.

ghost use Rattle.std.specs.Prelude.{◌≡◌, ◌++◌, ◌∷◌, [], IfOk};
ghost use Rattle.theory_syntax.specs.Process.{Given, Input, InputFrom};
ghost use Rattle.theory_semantics.specs.Meaning.Substitution.{bind};
ghost use Rattle.csp_value.specs.Value.{value_of, values_of};
ghost use Rattle.csp_expression.specs.Bindings.{bindings_of};
ghost use Rattle.csp_expression.specs.Expression.{expression_of};
ghost use Rattle.csp_term.specs.Field.{fields_of};
ghost use Rattle.csp_steps.specs.Communicating.{FindsBehind, FindsField, lent_values};
ghost use Rattle.csp_value.specs.Fields.{sets_of};

use crate::rule_step::RuleStep;
use crate::rules::settled::put_in_place;
use csp_expression::{Binding, Expr, NoValue};
use csp_term::{
    Action, AllocHandle, Cause, ChannelId, Event, Field, Memory, Name, ScriptParts, Term, bind,
};
use csp_value::{FieldSet, Value};
use smallvec::SmallVec;

/// What stays the same while the fields of a prefix are gone through.
#[derive(Clone, Copy)]
pub(crate) struct Walk<'w, A: AllocHandle> {
    pub(crate) alloc: A,
    pub(crate) script: &'w ScriptParts<A>,
    pub(crate) channel: ChannelId,
    pub(crate) body: &'w Term<A>,
}

/// The values of the fields so far, and what the inputs among them stand for.
#[derive(Drop)]
pub(crate) struct Front<'v, A: AllocHandle> {
    values: Vec<&'v Value<A>, A>,
    bindings: Vec<Binding<'v, A>, A>,
}

impl<'v, A: AllocHandle> Front<'v, A> {
    /// The front under these bindings, with no value.
    pub(crate) fn under(alloc: A, bindings: &[Binding<'v, A>]) -> Result<Front<'v, A>, Memory>
        ensures values { IfOk result (λ f. lent_values f.values.items ≡ []) }
        ensures bindings { IfOk result (λ f. bindings_of f.bindings.items
            ≡ bindings_of bindings.now) }
    {
        Ok(Front {
            values: Vec::new(alloc),
            bindings: Vec::from_slice(alloc, bindings)?,
        })
    }

    /// The front with one more value, that of a given field.
    fn with_given(&self, alloc: A, value: &'v Value<A>) -> Result<Front<'v, A>, Memory>
        ensures values { IfOk result (λ f. lent_values f.values.items
            ≡ lent_values self.now.values.items ++ value_of value.now ∷ []) }
        ensures bindings { IfOk result (λ f. bindings_of f.bindings.items
            ≡ bindings_of self.now.bindings.items) }
    {
        let mut values = Vec::from_slice(alloc, self.values.as_slice())?;
        values.push(value)?;
        Ok(Front {
            values,
            bindings: Vec::from_slice(alloc, self.bindings.as_slice())?,
        })
    }

    /// The front with one more value, for which the name stands from here on.
    fn with_input(&self, alloc: A, name: Name, value: &'v Value<A>) -> Result<Front<'v, A>, Memory>
        ensures values { IfOk result (λ f. lent_values f.values.items
            ≡ lent_values self.now.values.items ++ value_of value.now ∷ []) }
        ensures bindings { IfOk result (λ f. bindings_of f.bindings.items
            ≡ bind name.0 (value_of value.now) (bindings_of self.now.bindings.items)) }
    {
        let mut values = Vec::from_slice(alloc, self.values.as_slice())?;
        values.push(value)?;
        Ok(Front {
            values,
            bindings: bind(alloc, name, value, &self.bindings)?,
        })
    }
}

/// Looks for what the fields allow over their sets, behind the front.
#[cycle(fields)]
pub(crate) fn look_for<'v, A: AllocHandle>(
    walk: &Walk<'v, A>,
    front: &Front<'v, A>,
    fields: &'v [Field<A>],
    sets: &'v [FieldSet<A>],
    found: Vec<RuleStep<A>, A>,
) -> Result<Vec<RuleStep<A>, A>, NoValue>
    ensures { FindsBehind walk.now front.now (fields_of fields.now) (sets_of sets.now) found
        result }
{
    match (fields.split_first(), sets.split_first()) {
        (None, None) => reach(walk, front, found),
        (Some((field, fields)), Some((set, sets))) => match field {
            Field::Given(value) => given(walk, front, value, set, fields, sets, found),
            Field::Input(name) => inputs(walk, front, *name, set, fields, sets, found),
            Field::InputFrom(name, from) => {
                inputs_from(walk, front, *name, from, set, fields, sets, found)
            }
        },
        _ => Err(NoValue::Cause(Cause::Kind)),
    }
}

// Where a value is made on the way, what is lent for longer is lent again (`&*`), for as long as that value lives.

/// A given value has to lie in its field set.
#[cycle(fields)]
fn given<'v, A: AllocHandle>(
    walk: &Walk<'v, A>,
    front: &Front<'v, A>,
    value: &'v Expr<A>,
    set: &'v FieldSet<A>,
    fields: &'v [Field<A>],
    sets: &'v [FieldSet<A>],
    found: Vec<RuleStep<A>, A>,
) -> Result<Vec<RuleStep<A>, A>, NoValue>
    ensures { FindsField walk.now front.now (Given (expression_of value.now)) set.now fields.now
        sets.now found result }
{
    let seen = (&*value).look(walk.alloc, &walk.script.types, &front.bindings)?;
    if !set.contains(seen.value()) {
        return Err(NoValue::Cause(Cause::Range));
    }
    let front = (&*front).with_given(walk.alloc, seen.value())?;
    look_for(&*walk, &front, &*fields, &*sets, found)
}

/// An input takes each value of its field set in turn.
#[cycle(fields)]
fn inputs<'v, A: AllocHandle>(
    walk: &Walk<'v, A>,
    front: &Front<'v, A>,
    name: Name,
    set: &'v FieldSet<A>,
    fields: &'v [Field<A>],
    sets: &'v [FieldSet<A>],
    found: Vec<RuleStep<A>, A>,
) -> Result<Vec<RuleStep<A>, A>, NoValue>
    ensures { FindsField walk.now front.now (Input name.0) set.now fields.now sets.now found
        result }
{
    let mut found = found;
    for value in set.members() {
        let front = front.with_input(walk.alloc, name, value)?;
        found = look_for(walk, &front, fields, sets, found)?;
    }
    Ok(found)
}

/// An input from a set takes each value of it in turn that lies in the field set.
#[cycle(fields)]
fn inputs_from<'v, A: AllocHandle>(
    walk: &Walk<'v, A>,
    front: &Front<'v, A>,
    name: Name,
    from: &'v Expr<A>,
    set: &'v FieldSet<A>,
    fields: &'v [Field<A>],
    sets: &'v [FieldSet<A>],
    found: Vec<RuleStep<A>, A>,
) -> Result<Vec<RuleStep<A>, A>, NoValue>
    ensures { FindsField walk.now front.now (InputFrom name.0 (expression_of from.now)) set.now
        fields.now sets.now found result }
{
    let mut found = found;
    let seen = (&*from).look(walk.alloc, &walk.script.types, &front.bindings)?;
    let Value::Set(chosen) = seen.value() else {
        return Err(NoValue::Cause(Cause::Kind));
    };
    for value in chosen.members() {
        if set.contains(value) {
            let front = (&*front).with_input(walk.alloc, name, value)?;
            found = look_for(&*walk, &front, &*fields, &*sets, found)?;
        }
    }
    Ok(found)
}

/// The step by the values of all fields.
fn reach<A: AllocHandle>(
    walk: &Walk<'_, A>,
    front: &Front<'_, A>,
    found: Vec<RuleStep<A>, A>,
) -> Result<Vec<RuleStep<A>, A>, NoValue>
    ensures { FindsBehind walk.now front.now [] [] found result }
{
    let mut found = found;
    let fields = event_fields(walk.alloc, &front.values)?;
    let channel = walk.channel;
    let action = Action::Event(Event { channel, fields });
    let target = put_in_place(walk.alloc, walk.script, &front.bindings, walk.body)?;
    found.push(RuleStep { action, target })?;
    Ok(found)
}

/// A copy of each value, in order.
fn event_fields<A: AllocHandle>(
    alloc: A,
    values: &[&Value<A>],
) -> Result<SmallVec<Value<A>, 2, A>, Memory>
    ensures { IfOk result (λ fields. values_of fields.items ≡ lent_values values.now) }
{
    let mut fields = SmallVec::new(alloc);
    for value in values {
        fields.push(value.try_copy(alloc)?)?;
    }
    Ok(fields)
}
