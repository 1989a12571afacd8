// The arbiter's words, as types of the code.
#![tactic(auto)]

ghost use Rattle.std.specs.Prelude.{◌≡◌, Some};
ghost use Rattle.model.specs.Words.{holds, runs};
ghost use Rattle.model.specs.Numbers.{condition_number, refusal_number, event_task, event_kind};
ghost use Rattle.model.specs.Text.{accepted_text, refusal_text};

use std::fmt;

/// What set-up is told of a task.
#[derive(Clone, Copy)]
pub struct Task {
    pub cluster: u8,
    pub parameter: u32,
}

// The pair of a request stands in three variants: a struct for it would add a name and save nothing.
/// What the job of a task is at; a request has its resource and its mode.
#[derive(Clone, Copy, PartialEq, Eq, Debug)]
pub enum Condition {
    /// No pending job.
    Idle,
    Computing,
    /// Needs a resource, its request is not issued.
    Wanting { resource: u8, mode: u8 },
    /// Issued, not granted.
    Waiting { resource: u8, mode: u8 },
    Holding { resource: u8, mode: u8 },
    /// Finished, still pending.
    Done,
}

/// What changes a system: the events of its jobs.
#[derive(Clone, Copy, PartialEq, Eq, Debug)]
pub enum Event {
    Release { task: u8, instant: u32 },
    Finish { task: u8 },
}

// An enum and no `()`: it prints its own word in a trace.
/// What an accepted event answers.
#[derive(Clone, Copy, PartialEq, Eq, Debug)]
pub enum Answer {
    Accepted,
}

/// Why a call or a set-up is turned away.
#[derive(Clone, Copy, PartialEq, Eq, Debug)]
pub enum Refusal {
    ClusterCount,
    ClusterSize,
    TaskCount,
    MemoryTooSmall,
    ClusterAbsent,
    ParameterUnfit,
    NoSuchTask,
    AlreadyPending,
    NotPending,
    NotScheduled,
    NoSuchCluster,
}

impl Event {
    /// The number of the kind of a release.
    pub const RELEASE: u8 = 4;

    /// The number of the kind of a finish.
    pub const FINISH: u8 = 7;

    /// The task whose event it is.
    pub fn task(self) -> u8
        ensures { result ≡ event_task self }
    {
        match self {
            Event::Release { task, .. } | Event::Finish { task } => task,
        }
    }

    // A method and no `From`: the number says the kind alone, and an event is more than its kind.
    /// The number of its kind.
    pub fn kind(self) -> u8
        ensures { result ≡ event_kind self }
    {
        match self {
            Event::Release { .. } => Event::RELEASE,
            Event::Finish { .. } => Event::FINISH,
        }
    }
}

impl Condition {
    /// Whether the job holds a resource.
    pub fn holds(self) -> bool
        ensures { result ≡ holds self }
    {
        matches!(self, Condition::Holding { .. })
    }

    /// Whether the job can use a processor.
    pub fn runs(self) -> bool
        ensures { result ≡ runs self }
    {
        matches!(self, Condition::Computing | Condition::Holding { .. })
    }
}

/// The number of the condition.
impl From<Condition> for u8 {
    ghost from_gives = { λ condition number. number ≡ condition_number condition };

    fn from(condition: Condition) -> u8 {
        match condition {
            Condition::Idle => 0,
            Condition::Computing => 1,
            Condition::Wanting { .. } => 2,
            Condition::Waiting { .. } => 3,
            Condition::Holding { .. } => 4,
            Condition::Done => 5,
        }
    }
}

/// The number of the refusal.
impl From<Refusal> for u8 {
    ghost from_gives = { λ refusal number. number ≡ refusal_number refusal };

    fn from(refusal: Refusal) -> u8 {
        match refusal {
            Refusal::ClusterCount => 1,
            Refusal::ClusterSize => 2,
            Refusal::TaskCount | Refusal::MemoryTooSmall => 3,
            Refusal::ClusterAbsent => 5,
            Refusal::ParameterUnfit => 6,
            Refusal::NoSuchTask => 10,
            Refusal::AlreadyPending => 13,
            Refusal::NotPending => 14,
            Refusal::NotScheduled => 15,
            Refusal::NoSuchCluster => 18,
        }
    }
}

impl fmt::Display for Answer {
    ghost output = { λ answer. Some (accepted_text answer) };

    fn fmt<W: fmt::Write>(&self, f: &mut fmt::Formatter<W>) -> fmt::Result {
        match self {
            Answer::Accepted => write!(f, "ok"),
        }
    }
}

/// `no` and the number of the refusal.
impl fmt::Display for Refusal {
    ghost output = { λ refusal. Some (refusal_text refusal) };

    fn fmt<W: fmt::Write>(&self, f: &mut fmt::Formatter<W>) -> fmt::Result {
        write!(f, "no{}", u8::from(*self))
    }
}
