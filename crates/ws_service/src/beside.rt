//! The program runs, and its workers work beside it.

ghost use Rattle.std.specs.Prelude.{◌≡◌, ◌<◌, length, All, Some, false};
ghost use denote.Param.Send.{IsSync};
ghost use Rattle.ws_service.specs.Programs.{HasRun};
ghost use Rattle.ws_service.specs.Works.{AreDone};

use crate::desk::{Work, all_done};
use crate::program::{RunEnd, give_up_program, run_program};
use cdp_edge::Sink;
use cdp_edge_server::{Bell, Clock};
use cdp_host_turns::{Hosted, Lock, Worker};
use std::alloc::Global;
use std::snapshot::Snapshot;
use std::sync::Wait;
use std::thread;
use std::thread::{Promise, Threads};

/// A pass that runs the program of a lock.
#[derive(Drop)]
pub struct Runner<'l, 'b, H: Hosted<B>, B, D: Bell> {
    /// The lock of the history.
    pub lock: &'l Lock<H, B>,
    /// The bell that it rings where another waits for something, and at which it waits.
    pub bell: &'b D,
    /// Its pass.
    pub pass: Worker<H, B>,
}

// ---- a task, and works beside it

/// Whether a thread could be made for the works beside a task.
#[derive(Clone, Copy)]
enum Start {
    /// They are done at the same time.
    Made,
    /// They are done afterwards.
    Refused,
}

/// What a thread does itself, with works beside it.
trait Task: Drop {
    /// What comes of it.
    type Output;

    /// It may begin so.
    ghost can: { Self → Type 0 };

    /// What it was, and what came of it.
    ghost gives: { Self → Self.Output → Type 0 };

    /// Does it.
    fn run(self, start: Start) -> Self::Output
        requires { can self }
        ensures { gives self result };
}

/// The works as they were before they were done.
#[derive(Drop)]
struct Begun<W>(Snapshot<Vec<W>>);

impl<W: Work> Promise<Vec<W>> for Begun<W> {
    ghost use Rattle.ws_service.specs.Works.{AreDone};

    ghost kept_by = { λ begun works. AreDone W.does begun.0.value.items works.items };
}

/// Does a task, and all works beside it, in threads of their own. Where no thread can be made for the works, the task is
/// told so, and they are done after it.
fn beside<T: Task<Output = A>, A, W: Work, R: Threads + Wait + Sync>(
    rt: &R,
    task: T,
    works: Vec<W>,
) -> (A, Vec<W>)
    requires can { T.can task }
    requires some { 0 < length works.items }
    requires ready { All (λ work. W.can work) works.items }
    ensures gives { T.gives task result.0 }
    ensures works { AreDone W.does works.items result.1.items }
{
    thread::scope(
        thread::scope_env(),
        rt,
        move |scope| -> (A, Vec<W>)
            requires { IsSync R.row × T.can task × (0 < length works.items) × All (λ work. W.can work) works.items }
            ensures { T.gives task result.0 × AreDone W.does works.items result.1.items }
        {
            let begun = Begun(Snapshot::of(&works));
            let started = scope.spawn_with(
                begun,
                move || -> Vec<W>
                    requires { IsSync R.row × (0 < length works.items) × All (λ work. W.can work) works.items }
                    ensures { AreDone W.does works.items result.items }
                { all_done(rt, works) },
            );
            match started {
                Ok(workers) => {
                    let given = task.run(Start::Made);
                    (given, workers.join(rt))
                }
                Err(refused) => {
                    let given = task.run(Start::Refused);
                    (given, (refused.value)())
                }
            }
        },
    )
}

// ---- a closure as a task

/// A closure that is lent, as a task.
#[derive(Drop)]
struct Lent<'a, F> {
    f: &'a mut F,
}

impl<'a, F: FnMut(Start) -> A, A> Task for Lent<'a, F> {
    type Output = (&'a mut F, A);

    ghost use Rattle.std.specs.Prelude.{◌≡◌};

    ghost can = { λ t. (start : _) → F.pre t.f.now start };

    ghost gives = { λ t r. (r.0.ghost_name ≡ t.f.ghost_name) × ((start : _) × F.step t.f.now start r.1 r.0.now) };

    fn run(self, start: Start) -> (&'a mut F, A) {
        let Lent { f } = self;
        let given = f(start);
        (f, given)
    }
}

/// Uses a reference that came back, which ties it to the one that was lent.
fn take_back<T>(x: &mut T)
    ensures { x.new ≡ x.old }
{}

/// Calls a closure, and does all works beside it, which come back. Where no thread can be made for the works, the closure
/// is told so, and they are done after it.
fn beside_mut<F: FnMut(Start) -> A, A, W: Work, R: Threads + Wait + Sync>(
    rt: &R,
    f: &mut F,
    works: Vec<W>,
) -> (A, Vec<W>)
    requires can { (start : _) → F.pre f.old start }
    requires some { 0 < length works.items }
    requires ready { All (λ work. W.can work) works.items }
    ensures step { (start : _) × F.step f.old start result.0 f.new }
    ensures works { AreDone W.does works.items result.1.items }
{
    let ((f, given), works) = beside(rt, Lent { f }, works);
    take_back(f);
    (given, works)
}

/// Runs a program to its end, and does all works beside it, which come back. Where no thread can be made for the works,
/// the program is shut before its first turn, as where there is no memory for its lines.
pub fn run_beside<
    H: Hosted<B> + Send,
    B: Send + Sync,
    D: Bell + Sync,
    O: Sink + Send,
    C: Clock + Send,
    W: Work,
    R: Threads + Wait + Sync,
>(
    rt: &R,
    alloc: Global,
    runner: &mut Runner<'_, '_, H, B, D>,
    out: &mut O,
    clock: &mut C,
    works: Vec<W>,
) -> (RunEnd, Vec<W>)
    requires lock { runner.old.pass.lock ≡ runner.old.lock.now }
    requires free { runner.old.pass.in_turn ≡ false }
    requires some { 0 < length works.items }
    requires ready { All (λ work. W.can work) works.items }
    // The program was run, and the sink took what it prints.
    ensures runs { HasRun H.debugs (C.moment clock.old) runner.old.pass runner.new.pass (record { content = O.content out.old; faults = O.faults out.old }) (record { content = O.content out.new; faults = O.faults out.new }) (Some result.0) }
    ensures lock { runner.new.lock.now ≡ runner.old.lock.now }
    // Each work was done, in its place.
    ensures works { AreDone W.does works.items result.1.items }
{
    beside_mut(
        rt,
        &mut |start: Start| -> RunEnd
            requires { (runner.now.pass.lock ≡ runner.now.lock.now) × (runner.now.pass.in_turn ≡ false) }
            ensures lock { runner.exit.now.lock.now ≡ runner.entry.now.lock.now }
            ensures runs { HasRun H.debugs (C.moment clock.entry.now) runner.entry.now.pass runner.exit.now.pass (record { content = O.content out.entry.now; faults = O.faults out.entry.now }) (record { content = O.content out.exit.now; faults = O.faults out.exit.now }) (Some result) }
        {
            match start {
                Start::Made => run_program(
                    rt,
                    alloc,
                    runner.lock,
                    runner.bell,
                    &mut runner.pass,
                    out,
                    clock,
                ),
                Start::Refused => give_up_program(rt, runner.lock, runner.bell, &mut runner.pass),
            }
        },
        works,
    )
}
