//! The steps of small shapes.

use crate::shapes::{
    A_SKIP, A_STOP, B_STOP, SKIP, STOP, hidden, hidden_beside, interleaved, parts, renamed,
    synchronised,
};
use csp_rows::{ActionId, Change, PartId, Shape, Step, keep_shape, shape_steps};
use std::alloc::Global;
use std::process::Abort;
use std::test::Fail;

/// Writes what is done behind the text.
fn write_action(text: &mut String, action: ActionId) -> Result<(), Fail> {
    match action {
        ActionId::Tau => text.push_str("tau")?,
        ActionId::Tick => text.push_str("tick")?,
        ActionId::Event(event) if event.0 == 0 => text.push_str("a")?,
        ActionId::Event(_) => text.push_str("b")?,
    }
    Ok(())
}

/// Writes the changes behind the text.
fn write_changes(text: &mut String, changes: &[Change]) -> Result<(), Fail> {
    for change in changes {
        let hole = change.hole;
        let part = change.part.0;
        write!(text, " {hole}:={part}")?;
    }
    Ok(())
}

/// Writes the step behind the text: the action, and the changes of the holes.
fn write_step(text: &mut String, step: Step, pool: &[Change]) -> Result<(), Fail> {
    write_action(text, step.action)?;
    match step.changes {
        None => text.push_str(" leaves")?,
        Some(run) => {
            let changes = pool.get(run.from..run.to).ok_or("no run of the pool")?;
            write_changes(text, changes)?;
        }
    }
    text.push_str(";")?;
    Ok(())
}

/// Whether these are the steps of the shape with the parts in its holes, in turn, and whether all keep the shape.
fn has_steps(
    rt: &impl Abort,
    alloc: Global,
    shape: &Shape<Global>,
    row: &[PartId],
    expected: &str,
    kept: bool,
) -> Result<(), Fail> {
    let parts = parts(alloc)?;
    let mut pool = Vec::new(alloc);
    let steps = shape_steps(alloc, shape, row, &parts, &mut pool)?;
    let mut text = String::new(alloc);
    for step in &steps {
        write_step(&mut text, *step, &pool)?;
    }
    assert!(rt; text.as_str() == expected, "{text}");
    assert!(rt; keep_shape(&steps) == kept, "{expected}");
    Ok(())
}

#[test]
fn small_shapes_have_the_steps_of_the_definitions(rt: HostRuntime) -> Result<(), Fail> {
    let alloc = rt.alloc();
    let sides = interleaved(alloc)?;
    has_steps(
        &rt,
        alloc,
        &sides,
        &[A_STOP, B_STOP],
        "a 0:=1;b 1:=1;",
        true,
    )?;
    has_steps(&rt, alloc, &sides, &[SKIP, STOP], "tau 0:=0;", true)?;
    has_steps(
        &rt,
        alloc,
        &sides,
        &[PartId::OMEGA, PartId::OMEGA],
        "tick leaves;",
        false,
    )?;
    has_steps(
        &rt,
        alloc,
        &synchronised(alloc)?,
        &[A_STOP, A_SKIP],
        "a 0:=1 1:=2;",
        true,
    )?;
    has_steps(
        &rt,
        alloc,
        &hidden(alloc)?,
        &[STOP, A_STOP],
        "tau 1:=1;",
        true,
    )?;
    has_steps(
        &rt,
        alloc,
        &hidden_beside(alloc)?,
        &[SKIP, STOP],
        "tau leaves;",
        false,
    )?;
    has_steps(&rt, alloc, &renamed(alloc)?, &[A_STOP], "b 0:=1;", true)?;
    Ok(())
}
