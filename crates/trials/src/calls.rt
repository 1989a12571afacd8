// Calls of the arbiter that a scenario cannot make.
use anyhow::ensure;
use arbiter::{Arbiter, System};
use cluster::Job;
use model::{Refusal, Task};
use order::{Entry, Level};
use std::fmt::Display;

const BLANK: Entry<u32> = Entry { mark: 0, task: 0 };

const TASKS: [Task; 2] = [
    Task {
        cluster: 0,
        parameter: 3,
    },
    Task {
        cluster: 0,
        parameter: 4,
    },
];

// Both tasks on one processor.
const SYSTEM: System<'static> = System {
    clusters: 1,
    cluster_size: 1,
    tasks: &TASKS,
};

// A question and its answer, or the refusal.
fn show<T: Display + Drop>(
    rt: &HostRuntime,
    question: &str,
    answer: Result<T, Refusal>,
) -> anyhow::Result<()> {
    match answer {
        Ok(answer) => println!(rt; "{question}: {answer}")?,
        Err(refusal) => println!(rt; "{question}: {refusal}")?,
    }
    Ok(())
}

// The number of a task's condition, or the refusal.
fn condition(arbiter: &Arbiter<'_, Level>, task: u8) -> Result<u8, Refusal> {
    arbiter.condition(&SYSTEM, task).map(u8::from)
}

// Questions, before and after a release.
pub(super) fn questions(rt: &HostRuntime) -> anyhow::Result<()> {
    let mut jobs = [Job::IDLE; 2];
    let mut places = [BLANK; 2];
    let mut arbiter = Arbiter::<Level>::new(&mut jobs, &mut places);
    println!(rt; "# questions")?;
    ensure!(arbiter.set_up(&SYSTEM).is_ok(), "refused");
    show(rt, "scheduled on 0", arbiter.scheduled(&SYSTEM, 0))?;
    let _ = arbiter.release(&SYSTEM, 0, 0);
    let _ = arbiter.release(&SYSTEM, 1, 0);
    show(rt, "scheduled on 0", arbiter.scheduled(&SYSTEM, 0))?;
    show(rt, "scheduled on 1", arbiter.scheduled(&SYSTEM, 1))?;
    show(rt, "condition of 1", condition(&arbiter, 1))?;
    let _ = arbiter.finish(&SYSTEM, 1);
    show(rt, "condition of 1", condition(&arbiter, 1))?;
    show(rt, "scheduled on 0", arbiter.scheduled(&SYSTEM, 0))?;
    show(rt, "condition of 2", condition(&arbiter, 2))
}

// Memory that is too small for the tasks: 3 comes before every other number.
pub(super) fn small(rt: &HostRuntime) -> anyhow::Result<()> {
    let mut jobs = [Job::IDLE; 1];
    let mut places = [BLANK; 2];
    let mut arbiter = Arbiter::<Level>::new(&mut jobs, &mut places);
    println!(rt; "# memory too small")?;
    let set_up = arbiter.set_up(&SYSTEM).map(|_| "ok");
    show(rt, "set-up", set_up)?;
    show(rt, "release", arbiter.release(&SYSTEM, 9, 0))?;
    show(rt, "scheduled on 9", arbiter.scheduled(&SYSTEM, 9))?;
    show(rt, "condition of 9", condition(&arbiter, 9))
}
