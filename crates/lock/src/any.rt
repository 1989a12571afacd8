// A plain value that is a lock of any kind.
ghost use Rattle.std.specs.Prelude.{◌≤◌};
ghost use Rattle.lock.specs.Kinds.{Any, any};
ghost use Rattle.lock.specs.Views.{any_view};
ghost use Rattle.lock.specs.SumLaws.{any-lawful};

use super::kind::Kind;
use super::places::{Mutex, Replicas};
use super::reader_writer::ReaderWriter;
use super::{Completion, Lock, Refusal, Reply};
use task_set::TaskSet;

// Each call is passed on by a match and not by a `dyn`: a lock value is plain, it is copied out,
// called and stored back, and there is no heap to box it in.

/// A lock of kind 1, 2 or 3.
#[derive(Clone, Copy)]
pub enum AnyLock {
    Mutex(Mutex),
    ReaderWriter(ReaderWriter),
    Replicas(Replicas),
}

/// The bytes that a lock of any kind takes.
pub fn largest() -> usize
    ensures { result ≤ 160 }
{
    size_of::<AnyLock>()
}

impl Lock for AnyLock {
    ghost Model = { Any };

    ghost view = { any_view };

    ghost model = { any };

    ghost lawful = { any-lawful };

    fn set_up(kind: u8, count: u8, processors: u8) -> Result<AnyLock, Refusal> {
        match Kind::try_from(kind)? {
            Kind::Mutex => Mutex::set_up(kind, count, processors).map(AnyLock::Mutex),
            Kind::ReaderWriter => {
                ReaderWriter::set_up(kind, count, processors).map(AnyLock::ReaderWriter)
            }
            Kind::Replicas => Replicas::set_up(kind, count, processors).map(AnyLock::Replicas),
        }
    }

    fn fits(&self, mode: u8) -> bool {
        match self {
            AnyLock::Mutex(lock) => lock.fits(mode),
            AnyLock::ReaderWriter(lock) => lock.fits(mode),
            AnyLock::Replicas(lock) => lock.fits(mode),
        }
    }

    fn request(&mut self, task: u8, mode: u8) -> Option<Reply> {
        match self {
            AnyLock::Mutex(lock) => lock.request(task, mode),
            AnyLock::ReaderWriter(lock) => lock.request(task, mode),
            AnyLock::Replicas(lock) => lock.request(task, mode),
        }
    }

    fn complete(&mut self, task: u8) -> Option<Completion> {
        match self {
            AnyLock::Mutex(lock) => lock.complete(task),
            AnyLock::ReaderWriter(lock) => lock.complete(task),
            AnyLock::Replicas(lock) => lock.complete(task),
        }
    }

    fn holders(&self) -> TaskSet {
        match self {
            AnyLock::Mutex(lock) => lock.holders(),
            AnyLock::ReaderWriter(lock) => lock.holders(),
            AnyLock::Replicas(lock) => lock.holders(),
        }
    }

    fn waiting(&self, buffer: &mut [u8]) -> Result<usize, Refusal> {
        match self {
            AnyLock::Mutex(lock) => lock.waiting(buffer),
            AnyLock::ReaderWriter(lock) => lock.waiting(buffer),
            AnyLock::Replicas(lock) => lock.waiting(buffer),
        }
    }
}
