//! Scripts whose kinds fit.

ghost use Rattle.std.specs.Prelude.{◌≡◌, All, IfOk, map};
ghost use Rattle.std.specs.String.{string_bytes};
ghost use Rattle.theory_syntax.specs.Readings.{at_once};
ghost use Rattle.theory_semantics.specs.Kinds.Scripts.{IsCheckedScript};
ghost use Rattle.csp_expression.specs.Evaluation.{table_of};
ghost use Rattle.csp_events.specs.Channels.{field_sets_of};
ghost use Rattle.csp_term.specs.Script.{HasSidesOf, assertion_of, equation_of, script_of, script_of_parts};

use crate::assertion::Assertion;
use crate::script::{Constructor, Equation, ScriptParts};
use csp_events::Channel;
use csp_expression::TypeTable;
use csp_value::{Memory, TryCopy};
use std::alloc::Allocator;
use std::marker::Model;
use theory_syntax::Unfolding;

/// A script that is checked: some kinds fit it, which is a fact of the type. A clause sees it as the script that it
/// stands for.
#[derive(Drop)]
pub struct Script<A: Allocator> {
    parts: ScriptParts<A>,
}

impl<A: Allocator> Model for Script<A> {
    ghost use Rattle.theory_syntax.specs.Process.{Script};
    ghost use Rattle.theory_syntax.specs.Codes.Coding.{coded};
    ghost use Rattle.theory_syntax.specs.Codes.Processes.{coding_script};
    ghost use Rattle.theory_semantics.specs.Kinds.Scripts.{IsCheckedScript};
    ghost use Rattle.csp_term.specs.Script.{script_of_parts};

    ghost Value = { Script };

    ghost coded = { coded coding_script };

    ghost view = { λ s. script_of_parts s.parts };

    ghost invariant = { λ s. IsCheckedScript (script_of_parts s.parts) };
}

impl<A: Allocator> Script<A> {
    /// The script of these parts, whose kinds fit.
    pub fn new(parts: ScriptParts<A>) -> Script<A>
        requires checked { IsCheckedScript (script_of_parts parts) }
        ensures { script_of result ≡ script_of_parts parts }
    {
        Script { parts }
    }

    /// The script whose names are unfolded at once.
    pub fn at_once(self) -> Script<A>
        ensures { script_of result ≡ at_once (script_of self) }
    {
        let mut parts = self.parts;
        parts.unfolds = Unfolding::AtOnce;
        Script { parts }
    }

    /// All parts.
    pub fn parts(&self) -> &ScriptParts<A>
        ensures value { script_of_parts result.now ≡ script_of self.now }
        ensures checked { IsCheckedScript (script_of self.now) }
    {
        &self.parts
    }

    /// The datatypes and the nametypes.
    pub fn types(&self) -> &TypeTable<A>
        ensures { table_of result.now ≡ (script_of self.now).types }
    {
        &self.parts.types
    }

    /// The constructors of all datatypes, by their numbers.
    pub fn constructors(&self) -> &[Constructor<A>]
        ensures { map (λ c. string_bytes c.spelling) result.now
            ≡ (script_of self.now).constructor_names }
    {
        self.parts.constructors.as_slice()
    }

    /// The channels, by their numbers.
    pub fn channels(&self) -> &[Channel<A>]
        ensures names { map (λ c. string_bytes c.spelling) result.now
            ≡ (script_of self.now).channel_names }
        ensures sets { map field_sets_of result.now ≡ (script_of self.now).channels }
    {
        self.parts.channels.as_slice()
    }

    /// The equations, by their numbers.
    pub fn equations(&self) -> &[Equation<A>]
        ensures { map equation_of result.now ≡ (script_of self.now).equations }
    {
        self.parts.equations.as_slice()
    }

    /// The assertions, in the order of the text. Each side that one has is a term of the script.
    pub fn assertions(&self) -> &[Assertion<A>]
        ensures value { map assertion_of result.now ≡ (script_of self.now).assertions }
        ensures sides { All (HasSidesOf (script_of self.now)) result.now }
    {
        self.parts.assertions.as_slice()
    }
}

impl<A: Allocator + Copy> TryCopy<A> for Script<A> {
    ghost use Rattle.csp_term.specs.Script.{script_of};

    ghost is_copy = { λ s copy. script_of copy ≡ script_of s };

    fn try_copy(&self, alloc: A) -> Result<Script<A>, Memory> {
        let parts = self.parts.try_copy(alloc)?;
        Ok(Script { parts })
    }
}
