//! A thread with a large stack.

ghost use Rattle.program.specs.declared.stack.Stack.TheVariants as stack;

use crate::stack::Stack;
use explore::STACK;
use std::snapshot::Snapshot;
use std::thread::{Builder, Promise, Threads};

/// What the work answers on a large stack, in a thread of its own; or where there is no such thread, on the stack that
/// is there. The work is told which one it has.
pub fn on_large_stack<
    R: Threads,
    T: Send + Drop + 'static,
    F: Fn(Stack) -> T + Copy + Send + Drop + 'static,
>(rt: &R, work: F) -> T
    requires { F.IsAlwaysCallable work }
    ensures { (stack : Stack) × F.post work stack result }
{
    answer_of(rt, Called(work))
}

// The answer of the work by a thread, or where there is none, by this one.
fn answer_of<R: Threads, T: Send + Drop + 'static, W: Work<T> + Copy + Send + Drop + 'static>(
    rt: &R,
    work: W,
) -> T
    requires { W.can_work work }
    ensures { (stack : Stack) × W.answers work stack result }
{
    let promise = OnLarge(Snapshot::of(&work));
    let large = move || -> T
        requires { W.can_work work }
        ensures { W.answers work stack.Large result }
    { work.work(Stack::Large) };
    match Builder::new()
        .stack_size(STACK)
        .spawn_with(rt, promise, large)
    {
        Ok(thread) => thread.join(rt),
        Err(_) => work.work(Stack::Found),
    }
}

// Work on a stack. A bound on a closure cannot be one of a promise, so that this trait stands between.
trait Work<T> {
    ghost use Rattle.program.specs.declared.stack.Stack.{Stack};

    // The work may be done.
    ghost can_work: { Self → Type 0 };

    // The answer may be that of the work on the stack.
    ghost answers: { Self → Stack → T → Type 0 };

    fn work(self, stack: Stack) -> T
        requires { can_work self }
        ensures { answers self stack result };
}

// Work that is a call.
#[derive(Clone, Copy, Drop)]
struct Called<F>(F);

impl<T, F: Fn(Stack) -> T + Drop> Work<T> for Called<F> {
    ghost can_work = { λ called. F.IsAlwaysCallable called.0 };

    ghost answers = { λ called stack answer. F.post called.0 stack answer };

    fn work(self, stack: Stack) -> T {
        (self.0)(stack)
    }
}

// What a thread with a large stack promises of the work.
#[derive(Drop)]
struct OnLarge<W>(Snapshot<W>);

impl<T, W: Work<T>> Promise<T> for OnLarge<W> {
    ghost use Rattle.program.specs.declared.stack.Stack.TheVariants as stack;

    ghost kept_by = { λ promise answer. W.answers promise.0.value stack.Large answer };
}
