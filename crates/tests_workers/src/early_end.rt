//! A round of which a worker did a part, and ended early: `finish` does the rest.

ghost use Rattle.std.specs.Prelude.{◌≡◌, IsTrue};
ghost use Rattle.theory_search.specs.Terms.{AreTermsOf};
ghost use Rattle.csp_term.specs.Script.{script_of};
ghost use Rattle.numbered_rows.specs.Levels.{level_of};

use crate::levels::unfinished;
use crate::posts::Refusing;
use crate::scripts::{SEVENTY_ROWS, script};
use crate::seen::Seen;
use crate::seventy_rows::{at_second_level, limits, seen_alone};
use claim_board::Cause;
use csp_term::Script;
use explore::{Locked, finish};
use numbered_rows::Level;
use pair_store::{Closed, PutFault, Store};
use std::alloc::Global;
use std::sync::{Mutex, Wait};
use std::test::Fail;

/// The number of a put that is never made, of a level of seventy rows.
const NO_PUT: u64 = 3;

// Whether the store is of the search that `at_second_level` opens.
fn is_for(script: &Script<Global>, store: &Store<'_, Global>) -> bool
    ensures { IsTrue result → store.now.script ≡ script_of script.now }
{
    match script.assertions().first() {
        Some(assertion) => store.asked(script, assertion, &limits()),
        None => false,
    }
}

// What a worker sees in the end that does its part of a level over a store under a lock, up to the put of that number,
// which is refused.
fn put_until<'s, R: Wait + Sync>(
    alloc: Global,
    rt: &R,
    level: &Level<Global>,
    script: &Script<Global>,
    store: &Mutex<Store<'s, Global>>,
    refused: u64,
) -> Result<Option<Cause>, Fail>
    requires { AreTermsOf (script_of script.now) (level_of level.now) }
{
    let locked = Locked { rt, store };
    let post = Refusing::new(&locked, refused, PutFault::Memory);
    seen_alone(alloc, level, script, &post)
}

// The cause that a worker sees in the end whose put of that number is refused, and the store as it leaves it.
fn left_by_a_worker<'s, R: Wait + Sync>(
    alloc: Global,
    rt: &R,
    script: &Script<Global>,
    store: Store<'s, Global>,
    refused: u64,
) -> Result<(Option<Cause>, Store<'s, Global>), Fail>
    requires { store.script ≡ script_of script.now }
{
    let level = unfinished(alloc, script, &store)?;
    let lock = Mutex::new(store);
    let cause = put_until(alloc, rt, &level, script, &lock, refused)?;
    Ok((cause, lock.into_inner()))
}

// What is seen of the search once `finish` has done the rest of its level.
fn finished(
    alloc: Global,
    script: &Script<Global>,
    store: &mut Store<'_, Global>,
) -> Result<Seen, Fail> {
    if !is_for(script, store) {
        return Err(Fail::new("another search"));
    }
    match finish(alloc, script, store)? {
        Closed::Next => Ok(Seen::of(alloc, alloc, store)?),
        Closed::Ended => Err(Fail::new("the search has ended")),
    }
}

// The cause that the worker of a round saw, whose put of that number was refused, and what is seen of the search once
// `finish` has done the rest.
fn ended_round<R: Wait + Sync>(
    alloc: Global,
    rt: &R,
    script: &Script<Global>,
    refused: u64,
) -> Result<(Option<Cause>, Seen), Fail> {
    let store = at_second_level(alloc, script)?;
    let (cause, mut store) = left_by_a_worker(alloc, rt, script, store, refused)?;
    Ok((cause, finished(alloc, script, &mut store)?))
}

#[test]
fn what_a_worker_leaves_is_finished(rt: HostRuntime) -> Result<(), Fail> {
    let script = script(rt.alloc(), SEVENTY_ROWS)?;
    let (cause, whole) = ended_round(rt.alloc(), &rt, &script, NO_PUT)?;
    assert_eq!(rt; cause, None);
    assert_eq!(rt; whole.unfinished(), 1);
    for refused in 0..NO_PUT {
        let (cause, ended) = ended_round(rt.alloc(), &rt, &script, refused)?;
        assert_eq!(rt; cause, Some(Cause::Memory));
        assert!(rt; ended.is_same(&whole), "at {refused}");
    }
    Ok(())
}
