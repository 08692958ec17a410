//! Processes without a graph of at most so many states.

use crate::implementations::implementation;
use crate::scripts::script;
use csp_term::Fault;
use state_graph::{Stop, Unobserved, graph_of};
use std::alloc::{AllocError, Global};
use std::test::Fail;

struct Refusal {
    definitions: &'static str,
    process: &'static str,
    most: usize,
    why: &'static str,
}

static REFUSALS: &[Refusal] = &[
    Refusal {
        definitions: "",
        process: "STOP",
        most: 0,
        why: "more states",
    },
    Refusal {
        definitions: "",
        process: "a -> STOP",
        most: 1,
        why: "more states",
    },
    Refusal {
        definitions: "UP(n) = UP(n+1)",
        process: "UP(0)",
        most: 9,
        why: "more states",
    },
    Refusal {
        definitions: "",
        process: "d!2 -> STOP",
        most: 9,
        why: "fault range",
    },
    Refusal {
        definitions: "",
        process: "a -> STOP [] b -> (|~| x:{} @ STOP)",
        most: 9,
        why: "fault choice",
    },
    Refusal {
        definitions: "P = P ; SKIP",
        process: "P",
        most: 10000,
        why: "a term too large",
    },
];

/// Why there may be no graph, and how that is told.
static STOPS: &[(Stop, &str)] = &[
    (Stop::States, "more states"),
    (Stop::Fault(Fault::Modulus), "fault modulus"),
    (Stop::Term, "a term too large"),
    (Stop::Memory, "out of memory"),
];

/// Hands out the table.
fn stops() -> &'static [(Stop, &'static str)] {
    STOPS
}

/// Hands out the table.
fn refusals() -> &'static [Refusal] {
    REFUSALS
}

fn is_told(alloc: Global, stop: Stop, text: &str) -> Result<bool, AllocError> {
    Ok(format!(in alloc; "{stop}")?.as_str() == text)
}

/// Whether the process has no graph because of this.
fn is_refused(alloc: Global, row: &Refusal) -> Result<bool, Fail> {
    let script = script(alloc, row.definitions, row.process)?;
    match graph_of(
        alloc,
        &script,
        implementation(&script)?,
        row.most,
        &Unobserved,
    ) {
        Ok(_) => Ok(false),
        Err(stop) => Ok(is_told(alloc, stop, row.why)?),
    }
}

#[test]
fn graphs_are_refused_with_the_reason(rt: HostRuntime) -> Result<(), Fail> {
    for row in refusals() {
        assert!(rt;
            is_refused(rt.alloc(), row)?,
            "{} in {}",
            row.process,
            row.most
        );
    }
    for (stop, text) in stops() {
        assert!(rt; is_told(rt.alloc(), *stop, *text)?, "{text}");
    }
    Ok(())
}
