// Sets of tasks. A task is a number from 0 to 63, and a set of tasks is a 64-bit number with bit t
// for task t.
#![tactic(auto)]

ghost use Rattle.std.specs.Prelude.{◌≡◌, not, ◌&&◌, ◌||◌, bit_or, nat_lt};
ghost use Rattle.std.specs.Iterator.{YieldsFirst, item_count};
ghost use Rattle.task_set.specs.Sets.{bits, bit, tally, someone, nobody, few, less, members};

#[cfg(test)]
mod tests;

/// A set of tasks.
#[derive(Clone, Copy, PartialEq, Eq, Debug)]
pub struct TaskSet {
    /// Bit t says whether task t is in the set.
    pub bits: u64,
}

impl TaskSet {
    /// The set of nobody.
    pub fn new() -> TaskSet
        ensures number { result.bits ≡ 0 }
        ensures tasks { bits result.bits ≡ nobody }
    {
        TaskSet { bits: 0 }
    }

    /// The set with a task more. A number above 63 is no task and changes nothing.
    pub fn with(self, task: u8) -> TaskSet
        ensures number { result.bits ≡ bit_or self.bits (bit task) }
        ensures tasks { bits result.bits ≡ (λ u. bits self.bits u || few task u) }
    {
        if task < 64 {
            TaskSet {
                bits: self.bits | (1 << task),
            }
        } else {
            self
        }
    }

    /// The set without a task.
    pub fn without(self, task: u8) -> TaskSet
        ensures { bits result.bits ≡ less (bits self.bits) task }
    {
        if task < 64 {
            TaskSet {
                bits: self.bits & !(1 << task),
            }
        } else {
            self
        }
    }

    /// Whether a task is in the set. A number above 63 never is.
    pub fn contains(self, task: u8) -> bool
        ensures member { result ≡ bits self.bits task }
        ensures task { result ≡ (nat_lt task 64 && bits self.bits task) }
    {
        task < 64 && (self.bits >> task) & 1 == 1
    }

    /// Whether nobody is in the set.
    pub fn is_empty(self) -> bool
        ensures { result ≡ not (someone 64 (bits self.bits)) }
    {
        self.bits == 0
    }

    /// How many tasks the set has.
    pub fn len(self) -> usize
        ensures { result ≡ tally 64 (bits self.bits) }
    {
        self.bits.count_ones() as usize
    }
}

impl From<u64> for TaskSet {
    ghost from_gives = { λ number set. set.bits ≡ number };

    fn from(number: u64) -> TaskSet {
        TaskSet { bits: number }
    }
}

impl From<TaskSet> for u64 {
    ghost from_gives = { λ set number. number ≡ set.bits };

    fn from(set: TaskSet) -> u64 {
        set.bits
    }
}

/// The tasks of a set, ascending.
#[derive(Clone, Copy)]
pub struct Tasks {
    rest: TaskSet,
}

impl Iterator for Tasks {
    type Item = u8;

    ghost next_gives = { YieldsFirst (λ tasks. members tasks.rest) };

    ghost remaining = { item_count (λ tasks. members tasks.rest) };

    fn next(&mut self) -> Option<u8> {
        if self.rest.is_empty() {
            return None;
        }
        let task = self.rest.bits.trailing_zeros() as u8;
        self.rest = self.rest.without(task);
        Some(task)
    }
}

impl IntoIterator for TaskSet {
    type Item = u8;

    type IntoIter = Tasks;

    ghost into_iter_gives = { λ set tasks. tasks.rest ≡ set };

    fn into_iter(self) -> Tasks {
        Tasks { rest: self }
    }
}
