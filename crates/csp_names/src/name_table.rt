//! The first pass: each name is declared once.

ghost use Rattle.std.specs.Prelude.{◌≡◌, ◌+◌, ◌∷◌, [], length, map, IfErr, IfOk, OnOk, replicate};
ghost use Rattle.theory_checking.specs.DeclaredRows.{numbered_rows};
ghost use Rattle.theory_checking.specs.Names.{ChannelName, clause_names, ConstructorName, declared, EquationName};
ghost use Rattle.csp_parse.specs.Declarations.{clause_of, declaration_of, script_of};
ghost use Rattle.csp_parse.specs.Names.{name_of};
ghost use Rattle.csp_names.specs.declared.refusals.Refused.TheVariants.{Memory as no_room};
ghost use Rattle.csp_names.specs.FirstPass.{AddsDeclaration, AddsNames, AreNamesOf, clause_counts, IsFirstPassRefusal, row_of};

use crate::meanings::Declared;
use crate::names::Names;
use crate::refusals::{KindFault, Refused};
use csp_expression::{DatatypeId, NametypeId};
use csp_parse::{Clause as RawClause, Declaration as RawDeclaration, Name as RawName, Raw};
use csp_term::EquationId;
use csp_value::{ChannelId, ConId};
use indexmap::IndexMap;
use std::alloc::Allocator;

/// The names so far, and the next number of each class that has no list of its own.
#[derive(Drop)]
struct NameTable<'t, A: Allocator> {
    names: Names<'t, A>,
    datatypes: u32,
    nametypes: u32,
}

/// The names that a script declares, or the first one that is declared again, with its place. `Memory` says nothing of
/// the script.
pub fn names_of<'t, A: Allocator + Copy>(
    alloc: A,
    raw: &Raw<'t, A>,
) -> Result<Names<'t, A>, Refused>
    ensures names { IfOk result (λ names. AreNamesOf names (script_of raw.now)) }
    ensures refusal { IfErr result (λ refused. IsFirstPassRefusal (script_of raw.now) refused) }
{
    let mut table = NameTable {
        names: Names {
            table: IndexMap::new(alloc),
            parameters: Vec::new(alloc),
            constructors: Vec::new(alloc),
            fields: Vec::new(alloc),
        },
        datatypes: 0,
        nametypes: 0,
    };
    for declaration in &raw.declarations {
        table.add_declaration(declaration)?;
    }
    let NameTable { names, .. } = table;
    Ok(names)
}

/// How many names the declaration declares.
pub fn declared_count<A: Allocator>(declaration: &RawDeclaration<'_, A>) -> usize
    ensures { result ≡ length (declared (declaration_of declaration.now)) }
{
    match declaration {
        RawDeclaration::Datatype { clauses, .. } => 1 + clauses.len(),
        RawDeclaration::Channels { names, .. } => names.len(),
        RawDeclaration::Nametype { .. } | RawDeclaration::Equation { .. } => 1,
        RawDeclaration::Assertion { .. } => 0,
    }
}

impl<'t, A: Allocator + Copy> NameTable<'t, A> {
    /// Adds the names of a declaration.
    fn add_declaration(&mut self, declaration: &RawDeclaration<'t, A>) -> Result<(), Refused>
        ensures { AddsDeclaration self.old self.new (declaration_of declaration.now) result }
    {
        match declaration {
            RawDeclaration::Datatype { name, clauses } => {
                let number = next_number(&mut self.datatypes)?;
                self.names
                    .add(*name, Declared::Datatype(DatatypeId(number)))?;
                self.names.add_constructors(clauses)
            }
            RawDeclaration::Nametype { name, .. } => {
                let number = next_number(&mut self.nametypes)?;
                self.names
                    .add(*name, Declared::Nametype(NametypeId(number)))
            }
            RawDeclaration::Channels { names, domains } => {
                self.names.add_channels(names, domains.len())
            }
            RawDeclaration::Equation {
                name,
                parameters,
                ..
            } => self.names.add_equation(*name, parameters.len()),
            RawDeclaration::Assertion { .. } => Ok(()),
        }
    }
}

impl<'t, A: Allocator + Copy> Names<'t, A> {
    /// Adds a name, which may not be there yet.
    fn add(&mut self, name: RawName<'t>, declared: Declared) -> Result<(), Refused>
        ensures { AddsNames self.old self.new (row_of (name_of name.entry) declared ∷ [])
            (name_of name.entry ∷ []) [] [] [] result }
    {
        let text = name.text.as_bytes();
        if self.table.contains_key(text) {
            return Err(Refused::at(KindFault::DeclaredTwice, name.place));
        }
        self.table.insert(text, declared)?;
        Ok(())
    }

    /// Adds the constructors of a datatype, with their numbers of fields.
    fn add_constructors(&mut self, clauses: &[RawClause<'t, A>]) -> Result<(), Refused>
        ensures { AddsNames self.old self.new
            (numbered_rows ConstructorName (length self.old.constructors.items)
            (clause_names (map clause_of clauses.now))) (clause_names (map clause_of clauses.now))
            [] (clause_counts (map clause_of clauses.now)) [] result }
    {
        for clause in clauses {
            let number = number_of(self.constructors.len())?;
            self.add(clause.name, Declared::Constructor(ConId(number)))?;
            self.constructors.push(clause.fields.len())?;
        }
        Ok(())
    }

    /// Adds channels, each of so many fields.
    fn add_channels(&mut self, channels: &[RawName<'t>], fields: usize) -> Result<(), Refused>
        ensures { AddsNames self.old self.new
            (numbered_rows ChannelName (length self.old.fields.items) (map name_of channels.now))
            (map name_of channels.now) [] [] (replicate (length channels.now) fields) result }
    {
        for name in channels {
            let number = number_of(self.fields.len())?;
            self.add(*name, Declared::Channel(ChannelId(number)))?;
            self.fields.push(fields)?;
        }
        Ok(())
    }

    /// Adds an equation of so many parameters.
    fn add_equation(&mut self, name: RawName<'t>, parameters: usize) -> Result<(), Refused>
        ensures { AddsNames self.old self.new
            (numbered_rows EquationName (length self.old.parameters.items)
            (name_of name.entry ∷ [])) (name_of name.entry ∷ []) (parameters ∷ []) [] [] result }
    {
        let number = number_of(self.parameters.len())?;
        self.add(name, Declared::Equation(EquationId(number)))?;
        self.parameters.push(parameters)?;
        Ok(())
    }
}

/// The number, which is one more from then on. It is `Memory` where there is no further one.
fn next_number(next: &mut u32) -> Result<u32, Refused>
    ensures number { IfOk result (λ n. n ≡ next.old) }
    ensures more { OnOk result (next.new ≡ next.old + 1) }
    ensures room { IfErr result (λ refused. refused ≡ no_room) }
{
    let number = *next;
    *next = number.checked_add(1).ok_or(Refused::Memory)?;
    Ok(number)
}

/// So many as a number. It is `Memory` where there is no such one.
fn number_of(count: usize) -> Result<u32, Refused>
    ensures number { IfOk result (λ n. n ≡ count) }
    ensures room { IfErr result (λ refused. refused ≡ no_room) }
{
    match u32::try_from(count) {
        Ok(number) => Ok(number),
        Err(_) => Err(Refused::Memory),
    }
}
