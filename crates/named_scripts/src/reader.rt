//! From a text to its script and names.

ghost use Rattle.std.specs.Prelude.{◌≡◌, ◌∷◌, ◌++◌, [], map, IfOk, IfErr, OnOk};
ghost use Rattle.theory_syntax.specs.Process.{ByTau};
ghost use Rattle.theory_syntax.specs.Readings.{reading};
ghost use Rattle.theory_notation.specs.Names.{names_in, with_types};
ghost use Rattle.csp_expression.specs.Evaluation.{table_of};
ghost use Rattle.csp_parse.specs.Declarations as raw;
ghost use Rattle.csp_term.specs.Script.{script_of};
ghost use Rattle.csp_print.specs.Names.{names_of};
ghost use Rattle.program.specs.Reading.{IsRefusalOf};
ghost use Rattle.program.specs.Running.{names_read};
ghost use Rattle.csp_lex.specs.Places.{place_of};
ghost use Rattle.named_scripts.specs.Naming.{IsNamedText, assertion_places, labels_of};

use csp_expression::TypeTable;
use csp_kinds::check;
use csp_lex::{Place, tokens};
use csp_parse::{Declaration, Raw, parse};
use csp_print::Names;
use csp_term::{Memory, Script, TryCopy};
use printed_names::names_of;
use program::Refusal;
use std::alloc::{AllocError, Allocator};

/// A checked script, with the names of its text.
#[derive(Drop)]
pub struct NamedScript<'t, A: Allocator> {
    /// The script.
    pub script: Script<A>,
    /// The spellings of its names, and its types, by which values are told.
    pub names: Names<'t, A>,
    /// Where its assertions begin, in their order.
    pub places: Vec<Place, A>,
}

impl<'t, A: Allocator> NamedScript<'t, A> {
    /// The same with the names of its equations unfolded at once, where that is asked for.
    pub fn as_asked(self, at_once: bool) -> NamedScript<'t, A>
        ensures script { let read = names_read at_once in
            (script_of self.entry.script).unfolds ≡ ByTau
            → script_of result.script ≡ reading read (script_of self.entry.script) }
        ensures labels { labels_of result ≡ labels_of self.entry }
    {
        if at_once {
            let NamedScript {
                script,
                names,
                places,
            } = self;
            let script = script.at_once();
            NamedScript {
                script,
                names,
                places,
            }
        } else {
            self
        }
    }
}

/// The script that the text is, with its names.
///
/// The tokens are looked at first (`Text`), then the grammar (`Grammar`), then names and kinds (`Kinds`). `Memory`
/// comes where memory was refused, and says nothing of the text.
pub fn read<'t, A: Allocator + Copy>(
    alloc: A,
    text: &'t [u8],
) -> Result<NamedScript<'t, A>, Refusal>
    ensures named { IfOk result (λ named. IsNamedText text.now (script_of named.script)
        (labels_of named)) }
    ensures refused { IfErr result (λ why. IsRefusalOf text.now why) }
{
    let list = tokens(alloc, text)?;
    let tree = parse(alloc, &list)?;
    let script = check(alloc, &tree)?;
    let Ok(names) = telling_names(alloc, &tree, script.types()) else {
        return Err(Refusal::Memory);
    };
    let Ok(places) = assertion_places(alloc, &tree) else {
        return Err(Refusal::Memory);
    };
    Ok(NamedScript {
        script,
        names,
        places,
    })
}

// The names of the tree, by which values are told with these types.
fn telling_names<'t, A: Allocator + Copy>(
    alloc: A,
    tree: &Raw<'t, A>,
    types: &TypeTable<A>,
) -> Result<Names<'t, A>, Memory>
    ensures { IfOk result (λ names. names_of names
        ≡ with_types (table_of types.now) (names_in (raw.script_of tree.now))) }
{
    let names = names_of(alloc, tree)?;
    Ok(names.with_types(types.try_copy(alloc)?))
}

// Where the assertions of the tree begin.
fn assertion_places<A: Allocator + Copy>(
    alloc: A,
    tree: &Raw<'_, A>,
) -> Result<Vec<Place, A>, AllocError>
    ensures { IfOk result (λ places. map place_of places.items
        ≡ assertion_places (raw.script_of tree.now)) }
{
    let mut places = Vec::new(alloc);
    for declaration in &tree.declarations {
        push_place(declaration, &mut places)?;
    }
    Ok(places)
}

// The place of the declaration, behind the others, if it is an assertion.
fn push_place<A: Allocator>(
    declaration: &Declaration<'_, A>,
    places: &mut Vec<Place, A>,
) -> Result<(), AllocError>
    ensures { let more = assertion_places (raw.declaration_of declaration.now ∷ []) in
        OnOk result (map place_of places.new.items ≡ map place_of places.old.items ++ more) }
{
    match declaration {
        Declaration::Assertion { place, .. } => {
            places.push(*place)?;
            Ok(())
        }
        Declaration::Datatype { .. }
        | Declaration::Nametype { .. }
        | Declaration::Channels { .. }
        | Declaration::Equation { .. } => Ok(()),
    }
}
