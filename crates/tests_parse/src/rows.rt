//! The walk over all tables: what texts are read as, and what goes on with them. What is not so is told with its text.

use crate::follows::{self, Beginning};
use crate::texts::{read, repeated};
use crate::{
    declaration_beginnings, declarations, expression_beginnings, expressions, mixed,
    operand_beginnings, out_of_place, process_beginnings, processes, refusals,
    refused_declarations,
};
use std::alloc::Global;
use std::process::Abort;
use std::test::Fail;

/// A text, and its tree or its refusal.
pub(crate) type Row = (&'static str, &'static str);

/// Where a row may stand: the text before it and behind it, and what is shown before its tree and behind it.
pub(crate) type Surroundings = (&'static str, &'static str, &'static str, &'static str);

/// A name, where the rows stand, and the rows.
pub(crate) type Subject = (&'static str, &'static [Surroundings], &'static [Row]);

/// For rows that are whole texts.
pub(crate) const ALONE: &[Surroundings] = &[("", "", "", "")];

/// The row is read so where it stands.
fn is_read_so(
    rt: &impl Abort,
    alloc: Global,
    subject: &str,
    around: &Surroundings,
    row: &Row,
) -> Result<(), Fail> {
    let text = repeated(alloc, around.0, row.0, 1, around.1)?;
    let expected = repeated(alloc, around.2, row.1, 1, around.3)?;
    let answer = read(alloc, &text)?;
    assert!(rt;
        answer.as_str() == expected.as_str(),
        "{subject}: `{text}` is read as `{answer}`"
    );
    Ok(())
}

fn are_read_so(
    rt: &impl Abort,
    alloc: Global,
    subject: &Subject,
    around: &Surroundings,
) -> Result<(), Fail> {
    for row in subject.2 {
        is_read_so(rt, alloc, subject.0, around, row)?;
    }
    Ok(())
}

fn subject_is_read_so(rt: &impl Abort, alloc: Global, subject: &Subject) -> Result<(), Fail> {
    for around in subject.1 {
        are_read_so(rt, alloc, subject, around)?;
    }
    Ok(())
}

#[test]
fn texts_are_read_so(rt: HostRuntime) -> Result<(), Fail> {
    for subject in [
        expressions::subject(),
        processes::subject(),
        declarations::subject(),
        refusals::subject(),
        refused_declarations::subject(),
        out_of_place::subject(),
    ] {
        subject_is_read_so(&rt, rt.alloc(), subject)?;
    }
    Ok(())
}

fn beginnings_go_on_so(
    rt: &impl Abort,
    alloc: Global,
    beginnings: &[Beginning],
) -> Result<(), Fail> {
    for beginning in beginnings {
        let wrong = follows::first_wrong(alloc, beginning)?;
        assert!(rt; wrong.is_none(), "`{}` {wrong:?}", beginning.0);
    }
    Ok(())
}

fn operators_go_on_so(rt: &impl Abort, alloc: Global) -> Result<(), Fail> {
    for first in mixed::firsts() {
        let wrong = mixed::first_wrong(alloc, first)?;
        assert!(rt; wrong.is_none(), "`{}` {wrong:?}", first.0);
    }
    Ok(())
}

#[test]
fn texts_go_on_so(rt: HostRuntime) -> Result<(), Fail> {
    for beginnings in [
        declaration_beginnings::declarations(),
        expression_beginnings::expressions(),
        operand_beginnings::operands(),
        operand_beginnings::brackets(),
        process_beginnings::processes(),
        process_beginnings::renamings_and_hidings(),
    ] {
        beginnings_go_on_so(&rt, rt.alloc(), beginnings)?;
    }
    operators_go_on_so(&rt, rt.alloc())
}
