// On what two operations conflict: the first reason in the order thread, variable, lock, fork/join.
ghost use Rattle.std.specs.Prelude.{◌≡◌};
ghost use Rattle.graph.specs.Conflict as Conflict;
ghost use Rattle.reasons.specs.Why.{reason_of};

use crate::Reason;
use record::{Event, Op};

// Whether an operation reads or writes a variable.
#[tactic(auto, unfolding(graph::specs::Conflict::accesses))]
fn accesses(op: Op) -> bool
    ensures { result ≡ Conflict.accesses op }
{
    matches!(op, Op::Read { .. } | Op::Write { .. })
}

#[tactic(auto, unfolding(graph::specs::Conflict::writes))]
fn writes(op: Op) -> bool
    ensures { result ≡ Conflict.writes op }
{
    matches!(op, Op::Write { .. })
}

// Whether it touches a lock.
#[tactic(auto, unfolding(graph::specs::Conflict::locks))]
fn locks(op: Op) -> bool
    ensures { result ≡ Conflict.locks op }
{
    matches!(
        op,
        Op::Acquire { .. }
            | Op::Release { .. }
            | Op::Prewait { .. }
            | Op::Postwait { .. }
            | Op::Notify { .. }
    )
}

// Whether two operations touch the same variable and at least one writes.
#[tactic(auto, unfolding(graph::specs::Conflict::same_variable))]
fn same_variable(a: Event, b: Event) -> bool
    ensures { result ≡ Conflict.same_variable a b }
{
    accesses(a.op)
        && accesses(b.op)
        && (writes(a.op) || writes(b.op))
        && a.op.target() == b.op.target()
}

// Whether they touch the same lock.
#[tactic(auto, unfolding(graph::specs::Conflict::same_lock))]
fn same_lock(a: Event, b: Event) -> bool
    ensures { result ≡ Conflict.same_lock a b }
{
    locks(a.op) && locks(b.op) && a.op.target() == b.op.target()
}

// Whether the first forks or joins the thread of the other.
#[tactic(auto, unfolding(graph::specs::Conflict::governs, graph::specs::Conflict::forks, graph::specs::Conflict::joins))]
fn governs(a: Event, b: Event) -> bool
    ensures { result ≡ Conflict.governs a b }
{
    match a.op {
        Op::Fork { child } | Op::Join { child } => child == b.thread,
        _ => false,
    }
}

// The reason for which `a`, which stands before `b`, conflicts with it. Where each forks or joins the other's thread, the number is `a`'s target.
pub fn reason_of(a: Event, b: Event) -> Reason
    ensures { result ≡ reason_of a b }
{
    if a.thread == b.thread {
        Reason::Thread(a.thread)
    } else if same_variable(a, b) {
        Reason::Variable(a.op.target())
    } else if same_lock(a, b) {
        Reason::Lock(a.op.target())
    } else if !governs(a, b) && governs(b, a) {
        Reason::ForkJoin(b.op.target())
    } else {
        Reason::ForkJoin(a.op.target())
    }
}
