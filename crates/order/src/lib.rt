// Orders of jobs: which parameters a task may have, what mark a job is given at its release, and
// which of two jobs goes first.
#![tactic(auto)]

ghost use Rattle.std.specs.Prelude.{◌≡◌};
ghost use Rattle.order.specs.Urgency.{Urgency, Lawful};
ghost use Rattle.order.specs.Supplied.{earliest_deadline, level, earlier, higher};
ghost use Rattle.std.proofs.Common.{rules};

use std::cmp::Reverse;

/// A job as an order sees it: its mark, and the number of its task.
#[derive(Clone, Copy)]
pub struct Entry<M> {
    pub mark: M,
    pub task: u8,
}

/// An order of jobs.
pub trait Order {
    type Mark: Copy + Drop;

    ghost urgency: { Urgency Self.Mark };

    /// Whether a task may have this parameter.
    fn fits(parameter: u32) -> bool
        ensures { result ≡ urgency.fits parameter };

    /// The mark of a job that is released at `instant`.
    fn mark(parameter: u32, instant: u32) -> Self::Mark
        ensures { result ≡ urgency.mark parameter instant };

    /// Whether the first job goes before the second.
    fn goes_first(a: Entry<Self::Mark>, b: Entry<Self::Mark>) -> bool
        ensures { result ≡ urgency.before a.mark a.task b.mark b.task };

    ghost lawful: { Lawful urgency.before };
}

/// The earliest deadline first. A task's parameter is the time from a release to its deadline.
pub struct EarliestDeadline;

impl Order for EarliestDeadline {
    type Mark = u64;

    ghost urgency = { earliest_deadline };

    ghost lawful = { Prim.search rules };

    fn fits(_parameter: u32) -> bool {
        true
    }

    fn mark(parameter: u32, instant: u32) -> u64 {
        u64::from(instant) + u64::from(parameter)
    }

    fn goes_first(a: Entry<u64>, b: Entry<u64>) -> bool
        ensures { result ≡ earlier a.mark a.task b.mark b.task }
    {
        (a.mark, a.task) < (b.mark, b.task)
    }
}

/// The highest level first. A task's parameter is its level, below 256.
pub struct Level;

impl Order for Level {
    type Mark = u32;

    ghost urgency = { level };

    ghost lawful = { Prim.search rules };

    fn fits(parameter: u32) -> bool {
        parameter < 256
    }

    // The whole parameter, so that nothing is lost of one that does not fit.
    fn mark(parameter: u32, _instant: u32) -> u32 {
        parameter
    }

    fn goes_first(a: Entry<u32>, b: Entry<u32>) -> bool
        ensures { result ≡ higher a.mark a.task b.mark b.task }
    {
        (Reverse(a.mark), a.task) < (Reverse(b.mark), b.task)
    }
}

#[cfg(test)]
mod tests {
    use super::*;

    #[test]
    fn deadlines(rt: HostRuntime) {
        assert_eq!(rt; EarliestDeadline::mark(u32::MAX, u32::MAX), 8_589_934_590);
        let soon = Entry {
            mark: EarliestDeadline::mark(20, 100),
            task: 1,
        };
        let same = Entry {
            mark: EarliestDeadline::mark(70, 50),
            task: 2,
        };
        assert!(rt; EarliestDeadline::goes_first(soon, same), "the lower task");
        assert!(rt;
            !EarliestDeadline::goes_first(same, soon),
            "the higher task"
        );
    }

    #[test]
    fn levels(rt: HostRuntime) {
        assert!(rt; Level::fits(255) && !Level::fits(256));
        let high = Entry {
            mark: Level::mark(9, 0),
            task: 2,
        };
        let low = Entry {
            mark: Level::mark(4, 0),
            task: 1,
        };
        assert!(rt; Level::goes_first(high, low), "the higher level");
        assert!(rt; !Level::goes_first(low, high), "the lower level");
    }
}
