// Places in a row: the first in a queue hold, and the others wait, by issue. Mutex and replicas are
// this row, with one place and with several.
ghost use Rattle.std.specs.Prelude.{◌≡◌, ℕ, Result};
ghost use Rattle.lock.specs.declared.Refusal.{Refusal};
ghost use Rattle.lock.specs.Model.{made_of};
ghost use Rattle.lock.specs.Fifo.{Fifo, fifo, fifo_empty, mutex, replicas, Begins};
ghost use Rattle.lock.specs.Views.{row_view};
ghost use Rattle.lock.specs.FifoLaws.{fifo-lawful, mutex-begins, replicas-begins};

use super::kind::Kind;
use super::queue::Queue;
use super::row::{place_in, set_of, set_of_first};
use super::{Completion, Lock, Refusal, Reply};
use task_set::TaskSet;

/// How many places a row has, and how it is set up.
pub trait Places: Copy {
    ghost start: { ℕ → ℕ → ℕ → Result Fifo Refusal };

    ghost places: { Self → ℕ };

    /// The places by a kind number and a count, for a number of processors.
    fn set_up(kind: u8, count: u8, processors: u8) -> Result<Self, Refusal>
        ensures { made_of (λ p. fifo_empty (places p)) result ≡ start kind count processors };

    /// How many there are.
    fn count(self) -> u8
        ensures { result ≡ places self };

    ghost begins: { Begins start };
}

/// The place of a mutex.
#[derive(Clone, Copy)]
pub struct OnePlace;

impl Places for OnePlace {
    ghost start = { mutex.start };

    ghost places = { λ _. 1 };

    ghost begins = { mutex-begins };

    fn set_up(kind: u8, count: u8, _processors: u8) -> Result<OnePlace, Refusal> {
        Kind::Mutex.accept(kind, count == 0)?;
        Ok(OnePlace)
    }

    fn count(self) -> u8 {
        1
    }
}

/// A place for each replica.
#[derive(Clone, Copy)]
pub struct PlacePerReplica {
    replicas: u8,
}

impl Places for PlacePerReplica {
    ghost start = { replicas.start };

    ghost places = { λ p. p.replicas };

    ghost begins = { replicas-begins };

    fn set_up(kind: u8, count: u8, processors: u8) -> Result<PlacePerReplica, Refusal> {
        Kind::Replicas.accept(kind, count >= 1 && count <= processors)?;
        Ok(PlacePerReplica { replicas: count })
    }

    fn count(self) -> u8 {
        self.replicas
    }
}

/// As many hold as there are places; the others wait by issue.
#[derive(Clone, Copy)]
pub struct Row<P> {
    places: P,
    queue: Queue,
}

/// At most one holds; the others wait by issue.
pub type Mutex = Row<OnePlace>;

/// At most as many hold as there are replicas; the others wait by issue.
pub type Replicas = Row<PlacePerReplica>;

impl<P: Places> Lock for Row<P> {
    ghost Model = { Fifo };

    ghost view = { row_view P.places };

    ghost model = { fifo P.start };

    ghost lawful = { fifo-lawful P.start P.begins };

    fn set_up(kind: u8, count: u8, processors: u8) -> Result<Row<P>, Refusal> {
        let places = P::set_up(kind, count, processors)?;
        Ok(Row {
            places,
            queue: Queue::new(),
        })
    }

    // One mode: an enum of it would tell nothing.
    fn fits(&self, mode: u8) -> bool {
        mode == 0
    }

    fn request(&mut self, task: u8, mode: u8) -> Option<Reply> {
        let taken = self.queue.as_slice().len();
        if !self.fits(mode) || task >= 64 || taken >= 64 || self.queue.contains(task) {
            return None;
        }
        self.queue.push(task);
        if taken < usize::from(self.places.count()) {
            Some(Reply::Granted)
        } else {
            Some(Reply::Waits)
        }
    }

    fn complete(&mut self, task: u8) -> Option<Completion> {
        let (holding, waiting) = self.queue.split(self.places.count());
        let at = place_in(holding, task)?;
        let granted = set_of_first(waiting);
        self.queue.remove(at);
        Some(Completion::ending(granted))
    }

    fn holders(&self) -> TaskSet {
        let (holding, _) = self.queue.split(self.places.count());
        set_of(holding)
    }

    fn waiting(&self, buffer: &mut [u8]) -> Result<usize, Refusal> {
        let (_, waiting) = self.queue.split(self.places.count());
        let count = waiting.len();
        if count > buffer.len() {
            return Err(Refusal::BufferTooShort);
        }
        buffer[..count].copy_from_slice(waiting);
        Ok(count)
    }
}
