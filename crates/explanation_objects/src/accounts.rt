//! Accounts, as fields.

ghost use Rattle.std.specs.Prelude.{◌∷◌, codes, map, option_map};
ghost use Rattle.theory_explanation.specs.Accounts as pure;
ghost use Rattle.theory_objects.specs.Accounts.{account_fields, run_fields, side_fields, stuck_fields};
ghost use Rattle.theory_objects.specs.Fields.{text_field};
ghost use Rattle.csp_value.specs.Action.{action_of};
ghost use Rattle.csp_term.specs.Term.{process_of};
ghost use Rattle.csp_print.specs.Names.{names_of};
ghost use Rattle.verdict.specs.Outcome.{violation_of};
ghost use Rattle.counterexample.specs.Counterexample.{counterexample_of, origins_listed};
ghost use Rattle.explanation.specs.Accounts.{account_of};
ghost use Rattle.explanation.specs.Sides.{side_run_of};
ghost use Rattle.explanation_objects.specs.Putting.{Puts};

use crate::fields::put_text;
use crate::loops::put_looping;
use crate::steps::put_run;
use crate::waiting::put_waiting;
use counterexample::Counterexample;
use csp_print::Names;
use csp_term::AllocHandle;
use explanation::{Account, SideRun, ToldRun};
use json::Writer;
use std::alloc::AllocError;
use verdict::Shown;

/// Puts what the account tells.
pub(crate) fn put_account<A: AllocHandle>(
    alloc: A,
    names: &Names<'_, A>,
    account: &Account<A>,
    writer: &mut Writer<A>,
) -> Result<(), AllocError>
    ensures { Puts result writer.old writer.new
        (account_fields (names_of names.now) (account_of account.now)) }
{
    match account {
        Account::Bare => Ok(()),
        Account::Shown(shown, told) => put_counterexample(alloc, names, shown, told, writer),
        Account::WideEnd => Ok(()),
        Account::Stuck(_, run) => put_stuck(alloc, names, run, writer),
    }
}

// The run of the violation, and the loop that it ends in, or the parts that wait there.
fn put_counterexample<A: AllocHandle>(
    alloc: A,
    names: &Names<'_, A>,
    shown: &Shown<A>,
    told: &Counterexample<A>,
    writer: &mut Writer<A>,
) -> Result<(), AllocError>
    ensures { Puts result writer.old writer.new
        (account_fields (names_of names.now)
        (pure.Shown (violation_of shown.now) (counterexample_of told.now))) }
{
    put_run(
        alloc,
        names,
        &shown.path,
        &told.states,
        &told.origins,
        writer,
    )?;
    put_looping(alloc, names, &told.looping, writer)?;
    put_waiting(alloc, names, &told.waiting, writer)
}

// The run of a side, if there is one.
fn put_stuck<A: AllocHandle>(
    alloc: A,
    names: &Names<'_, A>,
    run: &Option<SideRun<A>>,
    writer: &mut Writer<A>,
) -> Result<(), AllocError>
    ensures { Puts result writer.old writer.new
        (stuck_fields (names_of names.now) (option_map side_run_of run.now)) }
{
    match run {
        Some(run) => put_side(alloc, names, run, writer),
        None => Ok(()),
    }
}

// The side, and its run.
fn put_side<A: AllocHandle>(
    alloc: A,
    names: &Names<'_, A>,
    run: &SideRun<A>,
    writer: &mut Writer<A>,
) -> Result<(), AllocError>
    ensures { Puts result writer.old writer.new
        (side_fields (names_of names.now) (side_run_of run.now)) }
{
    match run {
        SideRun::Implementation(told) => put_told(alloc, names, "implementation", told, writer),
        SideRun::Specification(told) => put_told(alloc, names, "specification", told, writer),
    }
}

fn put_told<A: AllocHandle>(
    alloc: A,
    names: &Names<'_, A>,
    side: &str,
    told: &ToldRun<A>,
    writer: &mut Writer<A>,
) -> Result<(), AllocError>
    ensures { let path = map action_of told.now.run.path.items in
        let states = map process_of told.now.run.states.items in
        let run = run_fields (names_of names.now) path states
        (origins_listed told.now.origins.items) in
        Puts result writer.old writer.new (text_field (codes "side") side.now ∷ run) }
{
    put_text("side", side, writer)?;
    let run = &told.run;
    put_run(alloc, names, &run.path, &run.states, &told.origins, writer)
}
