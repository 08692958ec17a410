//! The advice of each row of the tables, and a script that is told it.
//!
//! A table here is one text: what is told, and below it the scripts that are told so, a line each, one for each row of
//! the product's tables that tells it; then an empty line, and what is told next. So a row that is added, lost, reworded
//! or never met is seen.

mod calls;
mod characters;
mod comparisons;
mod constants;
mod declarations;
mod ends;
mod events;
mod keywords;
mod mixed;
mod nested;
mod notation;
mod operands;
mod operators;
mod patterns;
mod sets;
mod unknown_processes;
mod unknown_values;
mod values;
mod words;
mod wrong_kinds;

use crate::messages::{message_on, refusal_of};
use csp_lex::tokens;
use diagnostics::{Advice, AdviceTable, Fault, advice_tables, first_advice, surroundings_at};
use std::alloc::{AllocError, Global};
use std::test::Fail;

/// What is told, and the scripts that are told so.
const TABLES: [&str; 19] = [
    words::ROWS,
    sets::ROWS,
    calls::ROWS,
    patterns::ROWS,
    keywords::ROWS,
    operands::ROWS,
    events::ROWS,
    constants::ROWS,
    notation::ROWS,
    values::ROWS,
    operators::ROWS,
    comparisons::ROWS,
    nested::ROWS,
    ends::ROWS,
    mixed::ROWS,
    unknown_processes::ROWS,
    unknown_values::ROWS,
    declarations::ROWS,
    wrong_kinds::ROWS,
];

/// A row of the product's tables, and the fault that it is on.
#[derive(Clone, Copy)]
struct Row {
    fault: Fault,
    advice: Advice,
}

/// All rows of the product's tables.
fn all_rows(alloc: Global) -> Result<Vec<Row>, AllocError> {
    let mut rows = Vec::new(alloc);
    for table in advice_tables() {
        add_rows(&mut rows, table)?;
    }
    Ok(rows)
}

fn add_rows(rows: &mut Vec<Row>, table: AdviceTable) -> Result<(), AllocError> {
    for advice in table.rows {
        rows.push(Row {
            fault: table.fault,
            advice: *advice,
        })?;
    }
    Ok(())
}

/// The place of the first row that the script meets, if it meets one.
fn row_met(alloc: Global, rows: &[Row], script: &str) -> Result<Option<usize>, Fail> {
    let list = tokens(alloc, script.as_bytes())?;
    let Some(refusal) = refusal_of(alloc, script.as_bytes())? else {
        return Ok(None);
    };
    let around = surroundings_at(alloc, &list.tokens, refusal.place)?;
    for (place, row) in rows.iter().enumerate() {
        if row.fault == refusal.fault && first_advice(&[row.advice], &around).is_some() {
            return Ok(Some(place));
        }
    }
    Ok(None)
}

/// Adds the message on the script, where what is told in it is something else.
fn compare(
    alloc: Global,
    script: &str,
    advice: &str,
    wrong: &mut String,
) -> Result<(), AllocError> {
    let message = message_on(alloc, script.as_bytes())?;
    let told = format!(in alloc; "\nhelp: {advice}\n")?;
    if !message.ends_with(told.as_str()) {
        let note = format!(in alloc; "\n{script}\n--\n{message}and not{told}")?;
        wrong.push_str(&note)?;
    }
    Ok(())
}

/// Goes over the scripts that are told one advice, and adds the places of the rows that they meet.
fn go_over(
    alloc: Global,
    told: &str,
    rows: &[Row],
    met: &mut Vec<usize>,
    wrong: &mut String,
) -> Result<(), Fail> {
    let Some((advice, scripts)) = told.split_once("\n") else {
        return Err(Fail::new("an advice without a script"));
    };
    for script in scripts.lines() {
        compare(alloc, script, advice, wrong)?;
        if let Some(place) = row_met(alloc, rows, script)? {
            met.push(place)?;
        }
    }
    Ok(())
}

#[test]
fn each_row_of_advice_is_told(rt: HostRuntime) -> Result<(), Fail> {
    let rows = all_rows(rt.alloc())?;
    let mut met = Vec::new(rt.alloc());
    let mut wrong = String::new(rt.alloc());
    for table in TABLES {
        for told in table.split("\n\n") {
            go_over(rt.alloc(), told, &rows, &mut met, &mut wrong)?;
        }
    }
    for (place, row) in rows.iter().enumerate() {
        let times = met.iter().filter(|other| **other == place).count();
        if times != 1 {
            let note = format!(in rt.alloc(); "\nmet {times} times: {}", row.advice.text)?;
            wrong.push_str(&note)?;
        }
    }
    assert!(rt; wrong.is_empty(), "{wrong}");
    Ok(())
}
