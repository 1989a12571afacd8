// What is read off a row of tasks.
ghost use Rattle.std.specs.Prelude.{◌≡◌, ◌==◌};
ghost use Rattle.std.specs.List.{position};
ghost use Rattle.task_set.specs.Sets.{bits, tasks};
ghost use Rattle.lock.specs.Words.{first, has};

use task_set::TaskSet;

// The place of a task.
pub(crate) fn place_in(row: &[u8], task: u8) -> Option<usize>
    ensures { result ≡ position (λ x. x == task) row.now }
{
    row.iter().position(|x| *x == task)
}

// The set of the first.
pub(crate) fn set_of_first(row: &[u8]) -> TaskSet
    ensures { bits result.bits ≡ first row.now }
{
    row.first()
        .map_or(TaskSet::new(), |task| TaskSet::new().with(*task))
}

// The set of all.
pub(crate) fn set_of(row: &[u8]) -> TaskSet
    ensures { bits result.bits ≡ tasks (has row.now) }
{
    row.iter().copied().fold(TaskSet::new(), TaskSet::with)
}
