//! What the comparisons mean: two terms, tables of types, equations, assertions or scripts are equal exactly where those
//! that they stand for are, whichever allocator holds them. The order of two terms is that of the definitions. That of
//! two others than assertions ties exactly where they stand for the same, and is one order for all that do. What stands
//! for the same has one hash.

ghost use Rattle.std.specs.Prelude.{◌≡◌, ◌↔◌, IsTrue};
ghost use Rattle.std.specs.List.{fold};
ghost use Rattle.std.specs.declared.cmp.Ordering.TheVariants.{Equal as Tie};
ghost use Rattle.theory_syntax.specs.Order.{process_cmp};
ghost use Rattle.csp_term.specs.Term.{process_of};
ghost use Rattle.csp_expression.specs.Evaluation.{table_of};
ghost use Rattle.csp_term.specs.Script.{assertion_of, equation_of, script_of, script_of_parts};

use crate::assertion::Assertion;
use crate::checked_script::Script;
use crate::script::{Equation, ScriptParts};
use crate::term::Term;
use csp_expression::TypeTable;
use std::alloc::Allocator;
use std::cmp::Ordering;
use std::hash::{Hash, Hasher};

/// Whether two terms stand for the same process.
pub fn equal_terms<A: Allocator>(left: &Term<A>, right: &Term<A>) -> bool
    ensures { IsTrue result ↔ (process_of left.now ≡ process_of right.now) }
{
    left == right
}

/// Whether two assertions ask the same.
pub fn equal_assertions<A: Allocator>(left: &Assertion<A>, right: &Assertion<A>) -> bool
    ensures { IsTrue result ↔ (assertion_of left.now ≡ assertion_of right.now) }
{
    left == right
}

/// Whether two scripts are the same in all their parts.
pub fn equal_scripts<A: Allocator>(left: &Script<A>, right: &Script<A>) -> bool
    ensures { IsTrue result ↔ (script_of left.now ≡ script_of right.now) }
{
    equal_parts(left.parts(), right.parts())
}

/// Whether two scripts have the same parts.
pub fn equal_parts<A: Allocator>(left: &ScriptParts<A>, right: &ScriptParts<A>) -> bool
    ensures { IsTrue result ↔ (script_of_parts left.now ≡ script_of_parts right.now) }
{
    left == right
}

/// The order of two terms is that of their processes.
pub fn compare_terms<A: Allocator>(left: &Term<A>, right: &Term<A>) -> Ordering
    ensures { result ≡ process_cmp (process_of left.now) (process_of right.now) }
{
    left.cmp(right)
}

/// Feeds the term to the hasher, which is then as any term that stands for the same process leaves it.
pub fn hash_term<A: Allocator, H: Hasher>(term: &Term<A>, hasher: &mut H)
    ensures { (other : Term A) → process_of other ≡ process_of term.now
        → hasher.new ≡ fold H.write hasher.old (⟦<Term<A> as Hash>⟧.hash_input other) }
{
    term.hash(hasher);
}

/// Whether two tables have the same types.
pub fn equal_types<A: Allocator>(left: &TypeTable<A>, right: &TypeTable<A>) -> bool
    ensures { IsTrue result ↔ (table_of left.now ≡ table_of right.now) }
{
    left == right
}

/// The order of two tables, `Equal` exactly where they have the same types. Any two that stand for the same as these
/// are in the same order.
pub fn compare_types<A: Allocator>(left: &TypeTable<A>, right: &TypeTable<A>) -> Ordering
    ensures tie { (result ≡ Tie) ↔ (table_of left.now ≡ table_of right.now) }
    ensures order { (l r : TypeTable A) → table_of l ≡ table_of left.now
        → table_of r ≡ table_of right.now → result ≡ ⟦<TypeTable<A> as Ord>⟧.cmp l r }
{
    left.cmp(right)
}

/// Feeds the table to the hasher, which is then as any table with the same types leaves it.
pub fn hash_types<A: Allocator, H: Hasher>(types: &TypeTable<A>, hasher: &mut H)
    ensures { (other : TypeTable A) → table_of other ≡ table_of types.now
        → hasher.new ≡ fold H.write hasher.old (⟦<TypeTable<A> as Hash>⟧.hash_input other) }
{
    types.hash(hasher);
}

/// Whether two equations have the same parameters and the same body.
pub fn equal_equations<A: Allocator>(left: &Equation<A>, right: &Equation<A>) -> bool
    ensures { IsTrue result ↔ (equation_of left.now ≡ equation_of right.now) }
{
    left == right
}

/// The order of two equations, `Equal` exactly where they have the same parameters and the same body. Any two that
/// stand for the same as these are in the same order.
pub fn compare_equations<A: Allocator>(left: &Equation<A>, right: &Equation<A>) -> Ordering
    ensures tie { (result ≡ Tie) ↔ (equation_of left.now ≡ equation_of right.now) }
    ensures order { (l r : Equation A) → equation_of l ≡ equation_of left.now
        → equation_of r ≡ equation_of right.now → result ≡ ⟦<Equation<A> as Ord>⟧.cmp l r }
{
    left.cmp(right)
}

/// Feeds the equation to the hasher, which is then as any equation with the same parameters and the same body leaves it.
pub fn hash_equation<A: Allocator, H: Hasher>(equation: &Equation<A>, hasher: &mut H)
    ensures { (other : Equation A) → equation_of other ≡ equation_of equation.now
        → hasher.new ≡ fold H.write hasher.old (⟦<Equation<A> as Hash>⟧.hash_input other) }
{
    equation.hash(hasher);
}

/// The order of two scripts, `Equal` exactly where they are the same in all their parts. Any two that stand for the
/// same as these are in the same order.
pub fn compare_scripts<A: Allocator>(left: &Script<A>, right: &Script<A>) -> Ordering
    ensures tie { (result ≡ Tie) ↔ (script_of left.now ≡ script_of right.now) }
    ensures order { (l r : ScriptParts A) → script_of_parts l ≡ script_of left.now
        → script_of_parts r ≡ script_of right.now → result ≡ ⟦<ScriptParts<A> as Ord>⟧.cmp l r }
{
    compare_parts(left.parts(), right.parts())
}

/// The order of the parts of two scripts, `Equal` exactly where they are the same. Any two that stand for the same as
/// these are in the same order.
pub fn compare_parts<A: Allocator>(left: &ScriptParts<A>, right: &ScriptParts<A>) -> Ordering
    ensures tie { (result ≡ Tie) ↔ (script_of_parts left.now ≡ script_of_parts right.now) }
    ensures order { (l r : ScriptParts A) → script_of_parts l ≡ script_of_parts left.now
        → script_of_parts r ≡ script_of_parts right.now
        → result ≡ ⟦<ScriptParts<A> as Ord>⟧.cmp l r }
{
    left.cmp(right)
}

/// Feeds the parts of the script to the hasher, which is then as those of any script that is the same leave it.
pub fn hash_script<A: Allocator, H: Hasher>(script: &Script<A>, hasher: &mut H)
    ensures { (other : ScriptParts A) → script_of_parts other ≡ script_of script.now
        → hasher.new ≡ fold H.write hasher.old (⟦<ScriptParts<A> as Hash>⟧.hash_input other) }
{
    script.parts().hash(hasher);
}
