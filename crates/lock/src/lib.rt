// Locks: one interface with its laws, three kinds that keep them, and a plain value that is any of
// them.
#![tactic(auto)]

ghost use Rattle.std.specs.Prelude.{◌≡◌, ◌≤◌, true};
ghost use Rattle.task_set.specs.Sets.{bits, tasks};
ghost use Rattle.lock.specs.Numbers.{refusal_number};
ghost use Rattle.lock.specs.Model.{LockModel, outcome, took, crowd, made_of, written, count_of};
ghost use Rattle.lock.specs.Laws.{Laws};
ghost use Rattle.lock.specs.Waits.{after, step_outcome, after_all, turns_to_grant as turns_until, WaitsBounded, Live};
ghost use Rattle.lock.specs.Views.{outcome_of};
ghost use Rattle.lock.specs.Rules.{Rules};
ghost use Rattle.lock.specs.Examples.{ExamplesHold};

mod any;
mod kind;
mod places;
mod queue;
mod reader_writer;
mod row;
#[cfg(test)]
mod tests;

pub use any::{AnyLock, largest};
pub use kind::Kind;
pub use places::{Mutex, Replicas};
pub use reader_writer::ReaderWriter;
use task_set::TaskSet;

/// Why a call is turned away.
#[derive(Clone, Copy, PartialEq, Eq, Debug)]
pub enum Refusal {
    /// The kind number is not one that is known.
    NoSuchKind = 7,
    /// The count does not fit the kind.
    CountUnfit = 8,
    /// The buffer is shorter than the list.
    BufferTooShort = 19,
}

impl From<Refusal> for u8 {
    ghost from_gives = { λ refusal number. number ≡ refusal_number refusal };

    fn from(refusal: Refusal) -> u8 {
        refusal as u8
    }
}

/// What a request is answered that is not declined.
#[derive(Clone, Copy, PartialEq, Eq, Debug)]
pub enum Reply {
    Granted,
    Waits,
}

/// What a completion is answered that is not declined.
#[derive(Clone, Copy, PartialEq, Eq, Debug)]
pub struct Completion {
    /// Whom it grants.
    pub granted: TaskSet,
    /// Whether a turn ended.
    pub ends_turn: bool,
}

impl Completion {
    // One that ends a turn.
    fn ending(granted: TaskSet) -> Completion
        ensures { outcome_of (Some result) ≡ took (bits granted.bits) true }
    {
        Completion {
            granted,
            ends_turn: true,
        }
    }
}

/// What changes a lock.
#[derive(Clone, Copy, PartialEq, Eq, Debug)]
pub enum Step {
    /// By a task, for a mode.
    Request { task: u8, mode: u8 },
    /// By a task.
    Completion { task: u8 },
}

/// A lock: tasks hold it or wait for it. The laws hold of every value that set-up and the lock's
/// own steps make. From any other value of its type each call still ends and does what its contract
/// says.
pub trait Lock: Copy {
    ghost Model: { Type 0 };

    ghost view: { Self → Model };

    ghost model: { LockModel Model };

    /// An empty lock by its kind number and its count, for a number of processors.
    // Numbers, since a rule asks for 7 and 8 where they are no kind or no fit count; a struct of them
    // would be made at each call and taken apart at once.
    fn set_up(kind: u8, count: u8, processors: u8) -> Result<Self, Refusal>
        ensures { made_of view result ≡ model.start kind count processors };

    // A mode is a number: what it means is the kind's own.
    /// Whether a mode fits.
    fn fits(&self, mode: u8) -> bool
        ensures { result ≡ model.fits (view self.now) mode };

    // Two numbers: a struct of them would be made at each call and taken apart at once.
    /// A request by a task for a mode. It is declined, with no answer, where the task holds or
    /// waits already or is above 63, or the mode does not fit; then nothing changes.
    fn request(&mut self, task: u8, mode: u8) -> Option<Reply>
        ensures after { view self.new ≡ model.requested (view self.old) task mode }
        ensures reply { result ≡ model.reply (view self.old) task mode };

    /// A completion by a task. It is declined, with no answer, where the task does not hold; then
    /// nothing changes.
    fn complete(&mut self, task: u8) -> Option<Completion>
        ensures after { view self.new ≡ model.completed (view self.old) task }
        ensures outcome { outcome_of result ≡ outcome model (view self.old) task };

    /// Who holds.
    fn holders(&self) -> TaskSet
        ensures { bits result.bits ≡ tasks (model.holds (view self.now)) };

    /// Writes the waiting, in the lock's own order, to the front of `buffer`, and answers how many
    /// they are. A buffer that is too short stays as it was.
    fn waiting(&self, buffer: &mut [u8]) -> Result<usize, Refusal>
        ensures count { result ≡ count_of (model.list (view self.now)) buffer.old }
        ensures writes { buffer.new ≡ written (model.list (view self.now)) buffer.old };

    ghost lawful: { Laws model };
}

// Takes one step, and answers as a completion does: nothing for a request.
fn advance<L: Lock>(lock: &mut L, step: Step) -> Option<Completion>
    ensures after { L.view lock.new ≡ after L.model (L.view lock.old) step }
    ensures outcome { outcome_of result ≡ step_outcome L.model (L.view lock.old) step }
{
    // A step is data of a list, which laws speak of: a closure could be anything.
    match step {
        Step::Request { task, mode } => {
            let _reply = lock.request(task, mode);
            None
        }
        Step::Completion { task } => lock.complete(task),
    }
}

// Takes the steps of a list.
fn advance_all<L: Lock>(lock: &mut L, steps: &[Step])
    ensures { L.view lock.new ≡ after_all L.model (L.view lock.old) steps.now }
{
    for step in steps {
        let _completion = advance(lock, *step);
    }
}

// Takes the steps of a list, and counts the turns that end up to the one that grants a task.
fn turns_of<L: Lock>(lock: &mut L, task: u8, steps: &[Step]) -> usize
    ensures after { L.view lock.new ≡ after_all L.model (L.view lock.old) steps.now }
    ensures turns { result ≡ turns_until L.model (L.view lock.old) task steps.now }
{
    let mut turns = 0;
    // By place: the steps after it are a part of the slice, and `split_first` needs a loop by hand.
    for (i, step) in steps.iter().enumerate() {
        let Some(completion) = advance(lock, *step) else {
            continue;
        };
        if completion.ends_turn {
            turns += 1;
        }
        if completion.granted.contains(task) {
            advance_all(lock, &steps[i + 1..]);
            break;
        }
    }
    turns
}

/// Makes a request and then the steps of a list, and counts the turns that end from the request to
/// its grant.
pub fn turns_to_grant<L: Lock>(lock: &mut L, task: u8, mode: u8, steps: &[Step]) -> usize
    ensures after { L.view lock.new ≡ after_all L.model (L.model.requested (L.view lock.old) task mode) steps.now }
    ensures turns { result ≡ turns_until L.model (L.model.requested (L.view lock.old) task mode) task steps.now }
    ensures bound { L.model.sound (L.view lock.old) → L.model.reply (L.view lock.old) task mode ≡ Some Reply.Waits → result ≤ L.model.limit (L.view lock.old) mode (crowd L.model (L.view lock.old)) }
    ensures always { WaitsBounded L.model }
    ensures live { Live L.model }
{
    let _reply = lock.request(task, mode);
    turns_of(lock, task, steps)
}

/// The last kind number. The rules of the kinds 1 to this one hold, and the examples come out as
/// they say.
pub fn last_kind() -> u8
    ensures rules { Rules result }
    ensures examples { ExamplesHold }
{
    3
}
