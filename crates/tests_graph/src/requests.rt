//! Graphs whose requests for memory are refused in turn: at the first of them, then at the second, until none is
//! refused. That is told, or the graph has all its states and steps.

use crate::implementations::implementation;
use csp_kinds::check;
use csp_lex::{TokenList, tokens};
use csp_parse::parse;
use csp_term::Script;
use refusing_memory::RefusesOnce;
use state_graph::{Stop, Unobserved, graph_of};
use std::alloc::Global;
use std::process::Abort;
use std::test::Fail;

/// A process with the states and steps of its graph: what is in work by both sides, by one, or by none.
const TEXT: &str = "channel a, b\nassert STOP [T= a -> STOP ||| b -> STOP\n";

const STATES: usize = 4;

const STEPS: usize = 4;

/// Memory that refuses one request, or none.
type OneRefused<'m> = &'m RefusesOnce<Global>;

/// More requests than the graph takes.
const MANY: u64 = 3000;

/// So many memories, of which the first refuses the first request, the next one the next.
fn sparse(alloc: Global) -> Result<Vec<RefusesOnce<Global>>, Fail> {
    let mut memories = Vec::new(alloc);
    for request in 0..MANY {
        memories.push(RefusesOnce::new(alloc, request))?;
    }
    Ok(memories)
}

/// The script of the tokens, in the memory.
fn script<'m>(
    memory: OneRefused<'m>,
    list: &TokenList<'_, Global>,
) -> Result<Script<OneRefused<'m>>, Fail> {
    let Ok(raw) = parse(memory, list) else {
        return Err(Fail::new("no tree"));
    };
    match check(memory, &raw) {
        Ok(script) => Ok(script),
        Err(_) => Err(Fail::new("no script")),
    }
}

/// How many states and steps the graph has, `None` where memory was refused.
fn counts<'m>(
    memory: OneRefused<'m>,
    script: &Script<OneRefused<'m>>,
) -> Result<Option<(usize, usize)>, Fail> {
    match graph_of(memory, script, implementation(script)?, 9, &Unobserved) {
        Ok(graph) => Ok(Some((graph.states.len(), graph.steps))),
        Err(Stop::Memory) => Ok(None),
        Err(_) => Err(Fail::new("another reason")),
    }
}

/// How many requests the graph makes, of which each was refused in turn.
fn requests_of<'m>(
    rt: &impl Abort,
    ample: OneRefused<'m>,
    sparse: &'m [RefusesOnce<Global>],
    list: &TokenList<'_, Global>,
) -> Result<usize, Fail> {
    let script = script(ample, list)?;
    for (request, memory) in sparse.iter().enumerate() {
        let counts = counts(memory, &script)?;
        let has_refused = memory.has_refused();
        match counts {
            Some((states, steps)) => {
                assert!(rt;
                    states == STATES && steps == STEPS,
                    "{states} states, {steps} steps"
                )
            }
            None => assert!(rt; has_refused, "nothing was refused"),
        }
        if !has_refused {
            return Ok(request);
        }
    }
    Err(Fail::new("requests without end"))
}

#[test]
fn a_graph_that_is_refused_memory_says_so(rt: HostRuntime) -> Result<(), Fail> {
    let list = tokens(rt.alloc(), TEXT.as_bytes())?;
    let (ample, sparse) = (RefusesOnce::new(rt.alloc(), u64::MAX), sparse(rt.alloc())?);
    let requests = requests_of(&rt, &ample, &sparse, &list)?;
    assert!(rt; requests > 20, "{requests}");
    Ok(())
}
