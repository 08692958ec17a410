//! The tables of advice.

ghost use Rattle.std.specs.Prelude.{◌≡◌, map};
ghost use Rattle.diagnostics.specs.Advice.{table_faults};

use crate::faults::Fault;
use crate::grammar_tables::{
    calls, comparisons, constants, ends, events, keywords, mixed, nested, notation, operands,
    operators, patterns, sets, values, words,
};
use crate::kind_tables::{
    BAD_SET, TOO_MANY, TWICE, WRONG_COUNT, unknown_processes, unknown_values, wrong_kinds,
};
use crate::places::Surroundings;
use crate::tables::{Advice, first_advice};
use csp_names::KindFault;
use csp_parse::GrammarFault;

/// A table of advice on a fault.
#[derive(Clone, Copy)]
pub struct AdviceTable {
    /// The fault.
    pub fault: Fault,
    /// The rows, of which the first that applies counts.
    pub rows: &'static [Advice],
}

/// All tables of advice. Of those on one fault the first that has something counts. Which rows they have is data, of
/// which the contract says nothing.
pub fn advice_tables() -> [AdviceTable; 22]
    ensures { map (λ table. table.fault) result ≡ table_faults }
{
    let unexpected = Fault::Grammar(GrammarFault::UnexpectedToken);
    let unknown = Fault::Kinds(KindFault::UnknownName);
    [
        on(unexpected, words::rows()),
        on(unexpected, sets::rows()),
        on(unexpected, calls::rows()),
        on(unexpected, patterns::rows()),
        on(unexpected, keywords::rows()),
        on(unexpected, operands::rows()),
        on(unexpected, events::rows()),
        on(unexpected, constants::rows()),
        on(unexpected, notation::rows()),
        on(unexpected, values::rows()),
        on(unexpected, operators::rows()),
        on(unexpected, comparisons::rows()),
        on(Fault::Grammar(GrammarFault::Nested), nested::rows()),
        on(Fault::Grammar(GrammarFault::UnexpectedEnd), ends::rows()),
        on(Fault::Grammar(GrammarFault::MixedOperators), mixed::rows()),
        on(unknown, unknown_processes::rows()),
        on(unknown, unknown_values::rows()),
        on(Fault::Kinds(KindFault::DeclaredTwice), TWICE),
        on(Fault::Kinds(KindFault::WrongKind), wrong_kinds::rows()),
        on(Fault::Kinds(KindFault::WrongCount), WRONG_COUNT),
        on(Fault::Kinds(KindFault::BadFieldSet), BAD_SET),
        on(Fault::Kinds(KindFault::TooManyEvents), TOO_MANY),
    ]
}

fn on(fault: Fault, rows: &'static [Advice]) -> AdviceTable
    ensures fault { result.fault ≡ fault }
    ensures rows { result.rows.now ≡ rows.entry.now }
{
    AdviceTable { fault, rows }
}

/// What the tables on the fault have for the tokens around a place.
pub(crate) fn advice_at(fault: Fault, around: &Surroundings<'_>) -> Option<&'static str> {
    for table in advice_tables() {
        if table.fault == fault
            && let Some(text) = first_advice(table.rows, around)
        {
            return Some(text);
        }
    }
    None
}
