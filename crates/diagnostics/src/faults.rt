//! The refusals of a text.

ghost use Rattle.std.specs.Prelude.{◌≡◌, IfOk, flat_map};
ghost use Rattle.std.specs.String.{string_bytes};
ghost use Rattle.diagnostics.specs.Faults.{list_line};

use csp_lex::{Place, TextFault};
use csp_names::KindFault;
use csp_parse::GrammarFault;
use std::alloc::{AllocError, Allocator};

/// What is wrong with a text that is no checked script.
#[derive(Clone, Copy, Debug, PartialEq, Eq)]
pub enum Fault {
    /// The text has no tokens.
    Text(TextFault),
    /// Its tokens are no script.
    Grammar(GrammarFault),
    /// Its names, sets or kinds are those of no script.
    Kinds(KindFault),
}

/// The refusal of a text by a fault at a place.
#[derive(Clone, Copy, Debug, PartialEq, Eq)]
pub struct Refusal {
    /// The fault.
    pub fault: Fault,
    /// The place.
    pub place: Place,
}

impl Fault {
    ghost use Rattle.diagnostics.specs.Faults.{fault_number, fault_rule};

    /// Every fault, in the order of the numbers.
    pub const ALL: [Fault; 15] = [
        Fault::Text(TextFault::NoToken),
        Fault::Text(TextFault::OpenComment),
        Fault::Text(TextFault::LargeNumber),
        Fault::Text(TextFault::NotUtf8),
        Fault::Text(TextFault::LongText),
        Fault::Grammar(GrammarFault::UnexpectedToken),
        Fault::Grammar(GrammarFault::Nested),
        Fault::Grammar(GrammarFault::UnexpectedEnd),
        Fault::Grammar(GrammarFault::MixedOperators),
        Fault::Kinds(KindFault::UnknownName),
        Fault::Kinds(KindFault::DeclaredTwice),
        Fault::Kinds(KindFault::WrongKind),
        Fault::Kinds(KindFault::WrongCount),
        Fault::Kinds(KindFault::BadFieldSet),
        Fault::Kinds(KindFault::TooManyEvents),
    ];

    /// The number of the refusal, as it is printed.
    pub fn number(self) -> &'static str
        ensures { result.now ≡ fault_number self }
    {
        match self {
            Fault::Text(fault) => fault.number(),
            Fault::Grammar(fault) => fault.number(),
            Fault::Kinds(fault) => fault.number(),
        }
    }

    /// The rule that is broken, as a sentence.
    pub fn rule(self) -> &'static str
        ensures { result.now ≡ fault_rule self }
    {
        match self {
            Fault::Text(fault) => text_rule(fault),
            Fault::Grammar(fault) => grammar_rule(fault),
            Fault::Kinds(fault) => kind_rule(fault),
        }
    }
}

ghost use Rattle.diagnostics.specs.Rules.{grammar_rule, kind_rule, text_rule};

fn text_rule(fault: TextFault) -> &'static str
    ensures { result.now ≡ text_rule fault }
{
    match fault {
        TextFault::NoToken => "no token begins with this character",
        TextFault::OpenComment => "this comment has no end",
        TextFault::LargeNumber => "a number is at most 2147483647",
        TextFault::NotUtf8 => "the text is not UTF-8 from here on",
        TextFault::LongText => "a script has at most 65536 bytes",
    }
}

fn grammar_rule(fault: GrammarFault) -> &'static str
    ensures { result.now ≡ grammar_rule fault }
{
    match fault {
        GrammarFault::UnexpectedToken => "this token cannot stand here",
        GrammarFault::Nested => "a declaration nests at most 100 levels",
        GrammarFault::UnexpectedEnd => "the text ends within a declaration",
        GrammarFault::MixedOperators => "brackets have to say what this operator joins",
    }
}

fn kind_rule(fault: KindFault) -> &'static str
    ensures { result.now ≡ kind_rule fault }
{
    match fault {
        KindFault::UnknownName => "this name means nothing here",
        KindFault::DeclaredTwice => "this name is declared already",
        KindFault::WrongKind => "this is of another kind than its place asks for",
        KindFault::WrongCount => "this has another number of parts than its declaration",
        KindFault::BadFieldSet => "this set has no value, or is the empty set of a field",
        KindFault::TooManyEvents => "all channels together have at most 4096 events",
    }
}

/// A line for each refusal: its number, and the rule. It is an error where memory is refused.
pub fn refusal_list<A: Allocator + Copy>(alloc: A) -> Result<String<A>, AllocError>
    ensures { IfOk result (λ list. string_bytes list ≡ flat_map list_line Fault.ALL) }
{
    let mut list = String::new(alloc);
    for fault in Fault::ALL {
        let line = list_line(alloc, fault)?;
        list.push_str(&line)?;
    }
    Ok(list)
}

fn list_line<A: Allocator>(alloc: A, fault: Fault) -> Result<String<A>, AllocError>
    ensures { IfOk result (λ line. string_bytes line ≡ list_line fault) }
{
    let (number, rule) = (fault.number(), fault.rule());
    format!(in alloc; "  {number}  {rule}\n")
}
