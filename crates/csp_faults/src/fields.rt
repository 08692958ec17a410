//! What is to blame in the fields of a prefix.

ghost use Rattle.std.specs.Prelude.{◌≡◌, ◌+◌, ◌<◌, ◌^◌, IfOk, filter, length};
ghost use Rattle.theory_syntax.specs.Value.{has_value};
ghost use Rattle.theory_faults.specs.Events.{bindings_behind, fields_culprit, own_field_culprit, prefix_culprit};
ghost use Rattle.csp_value.specs.Fields.{field_values, sets_of};
ghost use Rattle.csp_value.specs.Value.{values_of};
ghost use Rattle.csp_expression.specs.Bindings.{bindings_of};
ghost use Rattle.csp_expression.specs.Evaluation.{table_of};
ghost use Rattle.csp_term.specs.Field.{field_of, fields_of};
ghost use Rattle.csp_term.specs.Script.{script_of_parts};
ghost use Rattle.csp_faults.specs.Culprit.{Finds};
ghost use Rattle.csp_faults.specs.Fields.{culprit_behind, behind_of};

use crate::asked::{members, members_culprit};
use crate::culprit::{Culprit, Owner};
use crate::declared::channel_sets;
use crate::expressions::expression_culprit;
use crate::given::Place;
use csp_expression::{Binding, TypeTable};
use csp_term::{AllocHandle, ChannelId, Field, Memory, Name, ScriptParts, bind};
use csp_value::{FieldSet, Value, copy_values};

/// What stays the same while the fields of a prefix are gone through.
#[derive(Clone, Copy)]
struct Walk<'w, A: AllocHandle> {
    alloc: A,
    types: &'w TypeTable<A>,
    channel: ChannelId,
}

/// The name that an input binds, and the values that it takes, in order.
#[derive(Drop)]
struct Taken<A: AllocHandle> {
    name: Name,
    values: Vec<Value<A>, A>,
}

/// What is to blame in the fields of a closed prefix.
pub(crate) fn prefix_culprit<A: AllocHandle>(
    alloc: A,
    script: &ScriptParts<A>,
    channel: ChannelId,
    fields: &[Field<A>],
) -> Result<Option<Culprit<A>>, Memory>
    ensures { Finds result (prefix_culprit (script_of_parts script.now) channel.0
        (fields_of fields.now)) }
{
    match channel_sets(script, channel) {
        Some(sets) => {
            let types = &script.types;
            let walk = Walk {
                alloc,
                types,
                channel,
            };
            walk.fields_culprit(0, &[], fields, sets)
        }
        None => Ok(Some(Culprit::Misfit)),
    }
}

impl<'w, A: AllocHandle> Walk<'w, A> {
    /// What is to blame in the fields, before which so many stand, with the values of the inputs among those.
    #[cycle(fields)]
    fn fields_culprit<'v>(
        &self,
        before: usize,
        bindings: &[Binding<'v, A>],
        fields: &[Field<A>],
        sets: &[FieldSet<A>],
    ) -> Result<Option<Culprit<A>>, Memory>
        requires { before + length sets.now < 2 ^ 64 }
        ensures { Finds result (fields_culprit (table_of self.now.types.now) self.now.channel.0
            before (bindings_of bindings.now) (fields_of fields.now) (sets_of sets.now)) }
    {
        match (fields.split_first(), sets.split_first()) {
            (None, None) => Ok(None),
            (Some((field, fields)), Some((set, sets))) => {
                let found = self.own_culprit(before, bindings, field, set)?;
                if found.is_some() {
                    return Ok(found);
                }
                self.culprit_behind(before + 1, bindings, field, set, fields, sets)
            }
            _ => Ok(Some(Culprit::Misfit)),
        }
    }

    /// What is to blame in the fields behind the field, for one of its values.
    #[cycle(fields)]
    fn culprit_behind<'v>(
        &self,
        before: usize,
        bindings: &[Binding<'v, A>],
        field: &Field<A>,
        set: &FieldSet<A>,
        fields: &[Field<A>],
        sets: &[FieldSet<A>],
    ) -> Result<Option<Culprit<A>>, Memory>
        requires { before + length sets.now < 2 ^ 64 }
        ensures { Finds result (culprit_behind (table_of self.now.types.now) self.now.channel.0
            before (bindings_behind (table_of self.now.types.now) (bindings_of bindings.now)
            (field_of field.now) (field_values set.now)) (fields_of fields.now)
            (sets_of sets.now)) }
    {
        let taken = self.taken(bindings, field, set)?;
        let Some(taken) = taken else {
            return self.fields_culprit(before, bindings, fields, sets);
        };
        for value in &taken.values {
            let bound = bind(self.alloc, taken.name, value, &*bindings)?;
            let found = self.fields_culprit(before, &bound, fields, sets)?;
            if found.is_some() {
                return Ok(found);
            }
        }
        Ok(None)
    }

    /// What is to blame in the field itself.
    fn own_culprit(
        &self,
        before: usize,
        bindings: &[Binding<'_, A>],
        field: &Field<A>,
        set: &FieldSet<A>,
    ) -> Result<Option<Culprit<A>>, Memory>
        requires { before + 1 < 2 ^ 64 }
        ensures { Finds result (own_field_culprit (table_of self.now.types.now) self.now.channel.0
            before (bindings_of bindings.now) (field_of field.now) (field_values set.now)) }
    {
        match field {
            Field::Given(given) => {
                let given = given.put_in(self.alloc, bindings)?;
                let found = expression_culprit(self.alloc, self.types, &given)?;
                let owner = Owner::Channel(self.channel);
                let place = Place { owner, before, set };
                place.or_outside(self.alloc, self.types, &given, found)
            }
            Field::Input(_) => Ok(None),
            Field::InputFrom(_, from) => {
                let from = from.put_in(self.alloc, bindings)?;
                members_culprit(self.alloc, self.types, &from)
            }
        }
    }

    /// The values that the field takes, if it is an input.
    fn taken(
        &self,
        bindings: &[Binding<'_, A>],
        field: &Field<A>,
        set: &FieldSet<A>,
    ) -> Result<Option<Taken<A>>, Memory>
        ensures { IfOk result (λ taken. behind_of (bindings_of bindings.now) taken
            ≡ bindings_behind (table_of self.now.types.now) (bindings_of bindings.now)
            (field_of field.now) (field_values set.now)) }
    {
        match field {
            Field::Given(_) => Ok(None),
            Field::Input(name) => {
                let values = copy_values(self.alloc, set.members())?;
                Ok(Some(Taken {
                    name: *name,
                    values,
                }))
            }
            Field::InputFrom(name, from) => {
                let from = from.put_in(self.alloc, bindings)?;
                let values = members(self.alloc, self.types, &from)?;
                let values = within(self.alloc, set, &values)?;
                Ok(Some(Taken {
                    name: *name,
                    values,
                }))
            }
        }
    }
}

/// Copies of the values that lie in the field's set.
fn within<A: AllocHandle>(
    alloc: A,
    set: &FieldSet<A>,
    values: &[Value<A>],
) -> Result<Vec<Value<A>, A>, Memory>
    ensures { IfOk result (λ within. values_of within.items
        ≡ filter (λ v. has_value (field_values set.now) v) (values_of values.now)) }
{
    let mut within = Vec::new(alloc);
    for value in values {
        if set.contains(value) {
            within.push(value.try_copy(alloc)?)?;
        }
    }
    Ok(within)
}
