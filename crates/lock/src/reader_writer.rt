// A phase-fair reader-writer lock: readers and writers take turns, and all waiting readers share
// one.
ghost use Rattle.std.specs.Prelude.{◌≡◌, ◌<◌, ◌≤◌, ◌++◌, length, drop};
ghost use Rattle.task_set.specs.Sets.{bits, members};
ghost use Rattle.lock.specs.Words.{first};
ghost use Rattle.lock.specs.Numbers.{access_of};
ghost use Rattle.lock.specs.PhaseFair.{Rw, rw, holds_in, rw_room, asked_in, reply_in, next_writer};
ghost use Rattle.lock.specs.Views.{row, reads, phase_of, rw_view};
ghost use Rattle.lock.specs.RwLaws.{rw-lawful};

use super::kind::Kind;
use super::queue::Queue;
use super::row::set_of_first;
use super::{Completion, Lock, Refusal, Reply};
use task_set::TaskSet;

// Who holds: nobody, a set of readers, or a writer.
#[derive(Clone, Copy)]
pub(crate) enum Phase {
    Idle,
    Reading(TaskSet),
    Writing(u8),
}

// What a request asks for.
#[derive(Clone, Copy, PartialEq, Eq, Debug)]
pub(crate) enum Access {
    Read,
    Write,
}

// A mode is the number of an access; any other is unfit.
impl TryFrom<u8> for Access {
    type Error = ();

    ghost try_from_gives = { λ mode result. result ≡ access_of mode };

    fn try_from(mode: u8) -> Result<Access, ()> {
        match mode {
            1 => Ok(Access::Read),
            2 => Ok(Access::Write),
            _ => Err(()),
        }
    }
}

/// Any number of readers holds, or one writer. Mode 1 reads, mode 2 writes.
#[derive(Clone, Copy)]
pub struct ReaderWriter {
    phase: Phase,
    writers: Queue,
    readers: TaskSet,
}

// Writes the tasks of a set to the front of `buffer`, the least first.
fn write_tasks(set: TaskSet, buffer: &mut [u8])
    requires { length (members set) ≤ length buffer.old }
    ensures { buffer.new ≡ members set ++ drop (length (members set)) buffer.old }
{
    // By an index: once a loan by `iter_mut` is over, the check does not know what was written.
    for (i, task) in set.into_iter().enumerate() {
        buffer[i] = task;
    }
}

impl ReaderWriter {
    // Whether a task holds.
    fn held_by(&self, task: u8) -> bool
        ensures { result ≡ holds_in (phase_of self.now.phase) task }
    {
        match self.phase {
            Phase::Idle => false,
            Phase::Reading(readers) => readers.contains(task),
            Phase::Writing(writer) => writer == task,
        }
    }

    // Whether a task may join: it is one, there is room, and it neither holds nor waits.
    fn has_room_for(&self, task: u8) -> bool
        ensures { result ≡ rw_room (rw_view self.now) task }
    {
        task < 64
            && self.writers.as_slice().len() < 64
            && !self.held_by(task)
            && !self.writers.contains(task)
            && !self.readers.contains(task)
    }

    // A rule of the project: the steps are a match on the phase together with the event, arm by arm.
    // A request that is not declined, by the phase and what it asks for.
    fn ask(&mut self, task: u8, access: Access) -> Reply
        requires { (task < 64) × (length (row self.old.writers) < 64) }
        ensures after { rw_view self.new ≡ asked_in (phase_of self.old.phase) (row self.old.writers) (bits self.old.readers.bits) task (reads access) }
        ensures reply { result ≡ reply_in (phase_of self.old.phase) (row self.old.writers) (reads access) }
    {
        match (self.phase, access) {
            (Phase::Idle, Access::Read) => {
                self.phase = Phase::Reading(TaskSet::new().with(task));
                Reply::Granted
            }
            (Phase::Idle, Access::Write) => {
                self.phase = Phase::Writing(task);
                Reply::Granted
            }
            (Phase::Reading(readers), Access::Read) => {
                if self.writers.as_slice().is_empty() {
                    self.phase = Phase::Reading(readers.with(task));
                    Reply::Granted
                } else {
                    self.readers = self.readers.with(task);
                    Reply::Waits
                }
            }
            (Phase::Writing(_), Access::Read) => {
                self.readers = self.readers.with(task);
                Reply::Waits
            }
            (Phase::Reading(_), Access::Write) => {
                self.writers.push(task);
                Reply::Waits
            }
            (Phase::Writing(_), Access::Write) => {
                self.writers.push(task);
                Reply::Waits
            }
        }
    }

    // The longest-waiting writer's turn: the set of that writer.
    fn next(&mut self) -> TaskSet
        ensures after { rw_view self.new ≡ next_writer (row self.old.writers) (bits self.old.readers.bits) }
        ensures granted { bits result.bits ≡ first (row self.old.writers) }
    {
        let writers = self.writers.as_slice();
        let granted = set_of_first(writers);
        self.phase = if writers.is_empty() {
            Phase::Idle
        } else {
            Phase::Writing(self.writers.remove(0))
        };
        granted
    }
}

impl Lock for ReaderWriter {
    ghost Model = { Rw };

    ghost view = { rw_view };

    ghost model = { rw };

    ghost lawful = { rw-lawful };

    fn set_up(kind: u8, count: u8, _processors: u8) -> Result<ReaderWriter, Refusal> {
        Kind::ReaderWriter.accept(kind, count == 0)?;
        Ok(ReaderWriter {
            phase: Phase::Idle,
            writers: Queue::new(),
            readers: TaskSet::new(),
        })
    }

    fn fits(&self, mode: u8) -> bool {
        Access::try_from(mode).is_ok()
    }

    fn request(&mut self, task: u8, mode: u8) -> Option<Reply> {
        let access = Access::try_from(mode).ok()?;
        if !self.has_room_for(task) {
            return None;
        }
        Some(self.ask(task, access))
    }

    fn complete(&mut self, task: u8) -> Option<Completion> {
        match self.phase {
            Phase::Reading(readers) if readers.contains(task) => {
                let others = readers.without(task);
                if others.is_empty() {
                    Some(Completion::ending(self.next()))
                } else {
                    self.phase = Phase::Reading(others);
                    Some(Completion {
                        granted: TaskSet::new(),
                        ends_turn: false,
                    })
                }
            }
            Phase::Writing(writer) if writer == task => {
                let readers = self.readers;
                if readers.is_empty() {
                    Some(Completion::ending(self.next()))
                } else {
                    self.phase = Phase::Reading(readers);
                    self.readers = TaskSet::new();
                    Some(Completion::ending(readers))
                }
            }
            Phase::Idle | Phase::Reading(_) | Phase::Writing(_) => None,
        }
    }

    fn holders(&self) -> TaskSet {
        match self.phase {
            Phase::Idle => TaskSet::new(),
            // Made anew from its number, which tells the check that it has 64 bits.
            Phase::Reading(readers) => TaskSet::from(readers.bits),
            Phase::Writing(writer) => TaskSet::new().with(writer),
        }
    }

    fn waiting(&self, buffer: &mut [u8]) -> Result<usize, Refusal> {
        let writers = self.writers.as_slice();
        let count = writers.len() + self.readers.len();
        if count > buffer.len() {
            return Err(Refusal::BufferTooShort);
        }
        let (front, others) = buffer.split_at_mut(writers.len());
        front.copy_from_slice(writers);
        write_tasks(self.readers, others);
        Ok(count)
    }
}
