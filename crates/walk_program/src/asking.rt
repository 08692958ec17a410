//! The walk that the settings ask for.

ghost use Rattle.std.specs.Prelude.{◌≡◌, IfErr, IfOk, false, option_map};
ghost use Rattle.csp_print.specs.Names.{names_of};
ghost use Rattle.csp_term.specs.Script.{assertion_of, script_of};
ghost use Rattle.csp_term.specs.Term.{process_of};
ghost use Rattle.program.specs.Given.{sent};
ghost use Rattle.walk_program.specs.Asking.{request_of, side_of};
ghost use Rattle.walk_program.specs.Lines.{left};
ghost use Rattle.walk_program.specs.Walking.{IsUnwalked, IsWalked};

use crate::going::walk_from;
use crate::stop::Stop;
use csp_settling::settled_assertion;
use csp_term::{AllocHandle, Assertion, Term};
use named_scripts::NamedScript;
use report::Sink;
use std::io::Read;
use walk_settings::Settings;

/// Walks through the side of the assertion that the settings ask for, by the lines of the input. With names at once it is
/// settled first.
pub(crate) fn walk_asked<A: AllocHandle, I: Read, O: Sink>(
    alloc: A,
    settings: &Settings<'_>,
    named: &NamedScript<'_, A>,
    input: &mut I,
    out: &mut O,
) -> Result<(), Stop>
    requires { O.has_failed out.old ≡ false }
    ensures walked { let request = request_of settings.now in
        let it = script_of named.now.script in
        let names = names_of named.now.names in
        let read = left I.remaining input.old input.new in
        let output = sent O.taken O.has_failed out.old out.new in
        IfOk result (λ _. IsWalked request it names read output) }
    ensures stopped { let request = request_of settings.now in
        let it = script_of named.now.script in
        let names = names_of named.now.names in
        let read = left I.remaining input.old input.new in
        let output = sent O.taken O.has_failed out.old out.new in
        IfErr result (λ why. IsUnwalked request it names read why output) }
{
    let place = settings.assertion - 1;
    let assertions = named.script.assertions();
    if assertions.len() <= place {
        return Err(Stop::NoAssertion);
    }
    let written = &assertions[place];
    let asked = settled_assertion(alloc, named.script.parts(), written)?;
    let Some(start) = side_of(settings.specification, &asked) else {
        return Err(Stop::NoSpecification);
    };
    walk_from(alloc, settings, named, start, input, out)
}

// The specification of the assertion, if it has one, or the implementation.
fn side_of<A: AllocHandle>(specification: bool, assertion: &Assertion<A>) -> Option<&Term<A>>
    ensures { option_map (λ t. process_of t.now) result
        ≡ side_of specification (assertion_of assertion.now) }
{
    if specification {
        assertion.property.specification()
    } else {
        Some(&assertion.implementation)
    }
}
