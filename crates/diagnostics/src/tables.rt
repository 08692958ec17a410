//! Tables of advice.

ghost use Rattle.std.specs.Prelude.{◌≡◌, option_map};
ghost use Rattle.std.specs.List.{list_all};
ghost use Rattle.diagnostics.specs.Advice.{applies, first_advice};

use crate::conditions::{Condition, meets};
use crate::places::Surroundings;

/// A row of a table of advice: a sentence for places around which all of these conditions are met.
#[derive(Clone, Copy)]
pub struct Advice {
    /// The conditions.
    pub when: &'static [Condition],
    /// The sentence, in which `{here}` stands for the token at the place and `{before}` for the one before it.
    pub text: &'static str,
}

/// The sentence of the first row of the table whose conditions are all met, if there is one.
pub fn first_advice(table: &[Advice], around: &Surroundings<'_>) -> Option<&'static str>
    ensures { option_map (λ text. text.now) result ≡ first_advice table.now around.now }
{
    for advice in table {
        if applies(advice, around) {
            return Some(advice.text);
        }
    }
    None
}

/// Whether all conditions of the row are met.
fn applies(advice: &Advice, around: &Surroundings<'_>) -> bool
    ensures { result ≡ applies advice.now around.now }
{
    advice
        .when
        .iter()
        .all(|condition| meets(around, *condition))
}
