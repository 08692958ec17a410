//! The types so far.

ghost use Rattle.std.specs.Prelude.{◌≡◌, ◌∷◌, [], IfOk, OnOk, map};
ghost use Rattle.std.specs.Result.{result_ok};
ghost use Rattle.theory_semantics.specs.Meaning.Events.{elements};
ghost use Rattle.csp_expression.specs.Evaluation.{table_of};
ghost use Rattle.csp_expression.specs.Expression.{expression_of};
ghost use Rattle.csp_names.specs.Scopes.{known_sets};
ghost use Rattle.csp_kinds.specs.Looking.{AddsConstructors, AddsMembers, HasMembers, listed_members};

use csp_expression::{ConstructorFields, Expr, NoValue, TypeTable};
use csp_value::{FieldSet, Memory, SetOf, Value};
use std::alloc::Allocator;

/// The datatypes of a tree, and its nametypes and constructors so far.
#[derive(Drop)]
pub(crate) struct Table<A: Allocator> {
    pub(crate) types: TypeTable<A>,
    /// Whether the set of each nametype has a value.
    pub(crate) valued: Vec<bool, A>,
    /// Whether the set of each field of each constructor has a member.
    pub(crate) filled: Vec<bool, A>,
}

impl<A: Allocator + Copy> Table<A> {
    /// The members of the set, if it has a value. It has none where it uses a nametype without a
    /// value, or a constructor of which some field has no value.
    pub(crate) fn members(&self, alloc: A, set: &Expr<A>) -> Result<Option<SetOf<A>>, Memory>
        ensures { IfOk result (HasMembers self.now (expression_of set.now)) }
    {
        if self.has_all(set) {
            members_of(alloc, &self.types, set)
        } else {
            Ok(None)
        }
    }

    /// Adds the nametype whose set has these members, or no value.
    pub(crate) fn push(&mut self, alloc: A, members: Option<SetOf<A>>) -> Result<(), Memory>
        ensures { OnOk result (AddsMembers self.old (listed_members members) self.new) }
    {
        self.valued.push(members.is_some())?;
        match members {
            Some(members) => self.types.nametypes.push(members)?,
            None => self
                .types
                .nametypes
                .push(SetOf::from_values(Vec::new(alloc)))?,
        }
        Ok(())
    }
}

impl<A: Allocator + Copy> Table<A> {
    /// Adds constructors, of which each has these field sets, or one without a member.
    pub(crate) fn push_constructors(
        &mut self,
        alloc: A,
        constructors: Vec<Option<Vec<FieldSet<A>, A>>, A>,
    ) -> Result<(), Memory>
        ensures { OnOk result (AddsConstructors self.old (map known_sets constructors.items)
            self.new) }
    {
        for constructor in constructors {
            self.push_constructor(alloc, constructor)?;
        }
        Ok(())
    }

    /// Adds the constructor that has these field sets, or one without a member.
    fn push_constructor(
        &mut self,
        alloc: A,
        sets: Option<Vec<FieldSet<A>, A>>,
    ) -> Result<(), Memory>
        ensures { OnOk result (AddsConstructors self.old (known_sets sets ∷ []) self.new) }
    {
        self.filled.push(sets.is_some())?;
        let sets = match sets {
            Some(sets) => sets,
            None => Vec::new(alloc),
        };
        self.types.constructors.push(ConstructorFields { sets })?;
        Ok(())
    }
}

/// The members of the set, if it has a value.
fn members_of<A: Allocator + Copy>(
    alloc: A,
    types: &TypeTable<A>,
    set: &Expr<A>,
) -> Result<Option<SetOf<A>>, Memory>
    ensures { IfOk result (λ found. listed_members found
        ≡ result_ok (elements (table_of types.now) (expression_of set.now))) }
{
    match set.find_value(alloc, types) {
        Ok(Value::Set(members)) => Ok(Some(members)),
        Err(NoValue::Memory) => Err(Memory),
        Ok(_) | Err(NoValue::Cause(_)) => Ok(None),
    }
}
