// The arbiter: which jobs run on which cluster of processors.
#![tactic(auto)]

ghost use Rattle.std.specs.Prelude.{◌≡◌, ◌*◌, ◌-◌, ◌^◌, min};
ghost use Rattle.arbiter.specs.Memory.{contents, SameLoans, said, begun, count_at, cluster_at, parameter_at, task_count, too_small, running, in_set, becoming, with_entry, without_entry, turned_away, stored, afterwards, asked_set};
ghost use Rattle.arbiter.specs.SetUp.{absent, unfit, unaccepted, SetUp};
ghost use Rattle.arbiter.specs.Outcomes.{or_none, sets, outcome as outcome_of, Ran};
ghost use Rattle.arbiter.specs.Meaning.{Acted, AskedSet, AskedCondition};
ghost use Rattle.std.specs.List.{slice_get};
ghost use Rattle.model.specs.Rules.{unless};
ghost use Rattle.cluster.specs.Picks.{condition_at};

use cluster::{Job, Span, store};
use model::{Answer, Condition, Event, Refusal, Task};
use order::{Entry, Order};
use task_set::TaskSet;

/// What set-up fixes: the clusters, the processors of each, and the table of tasks.
#[derive(Clone, Copy)]
pub struct System<'a> {
    pub clusters: u8,
    pub cluster_size: u8,
    pub tasks: &'a [Task],
}

// No `impl Model`: a clause has to name the loans too, and a view would leave them out.
// The system is passed to each call and not kept here: a table of a shorter life could not be set up
// then, and no question asked of another system.
/// The arbiter's memory, lent by its caller: a record for each task, and for each cluster a list
/// of its pending jobs with a place for each task. `counts` has how many entries each list has.
#[derive(Drop)]
pub struct Arbiter<'a, O: Order> {
    // Beside the table of tasks: that is only read, and has a life of its own.
    pub jobs: &'a mut [Job],
    pub places: &'a mut [Entry<O::Mark>],
    // Beside the places and not in them: a list has as many places as there are tasks.
    pub counts: [usize; 8],
}

/// What an event came to: its answer, and each cluster's scheduled tasks after it.
#[derive(Clone, Copy)]
pub struct Outcome {
    pub answer: Result<Answer, Refusal>,
    // Numbers, by a rule of the project: a caller keeps them and compares them as they are.
    pub scheduled: [u64; 8],
}

impl System<'_> {
    // The cluster of a task.
    fn cluster_of(&self, task: u8) -> u8
        ensures { result ≡ cluster_at self.now.tasks.now task }
    {
        self.tasks.get(usize::from(task)).map_or(0, |t| t.cluster)
    }

    // The parameter of a task.
    fn parameter_of(&self, task: u8) -> u32
        ensures { result ≡ parameter_at self.now.tasks.now task }
    {
        self.tasks.get(usize::from(task)).map_or(0, |t| t.parameter)
    }

    // Whether some task's cluster is not there.
    fn misses_a_cluster(&self) -> bool
        ensures { result ≡ absent self.now.clusters self.now.tasks.now }
    {
        self.tasks.iter().any(|t| t.cluster >= self.clusters)
    }

    // Whether some task's parameter does not fit the order.
    fn has_unfit_parameter<O: Order>(&self) -> bool
        ensures { result ≡ unfit O.Order.urgency.fits self.now.tasks.now }
    {
        self.tasks.iter().any(|t| !O::fits(t.parameter))
    }
}

// `SameLoans` stands in each that writes: it compares an arbiter with itself before, no invariant
// can.
impl<'a, O: Order> Arbiter<'a, O> {
    /// An arbiter in memory that its caller lends.
    pub fn new(jobs: &'a mut [Job], places: &'a mut [Entry<O::Mark>]) -> Arbiter<'a, O>
        ensures memory { contents result ≡ begun jobs.old places.old }
        ensures loans { (result.jobs.ghost_name ≡ jobs.entry.ghost_name) × (result.places.ghost_name ≡ places.entry.ghost_name) }
    {
        Arbiter {
            jobs,
            places,
            counts: [0; 8],
        }
    }

    // Why set-up is turned away: the first test that fails, each over its whole table.
    fn accept(&self, system: &System<'_>) -> Result<(), Refusal>
        ensures { result ≡ unless (unaccepted O.Order.urgency (said system.now) (contents self.now)) tt }
    {
        let n = system.tasks.len();
        if !matches!(system.clusters, 1..=8) {
            return Err(Refusal::ClusterCount);
        }
        if !matches!(system.cluster_size, 1..=8) {
            return Err(Refusal::ClusterSize);
        }
        if !matches!(n, 1..=64) {
            return Err(Refusal::TaskCount);
        }
        // Not by `is_too_small_for`, which tests the count again: one test alone keeps 65 tasks out.
        if self.jobs.len() < n || self.places.len() < usize::from(system.clusters) * n {
            return Err(Refusal::MemoryTooSmall);
        }
        if system.misses_a_cluster() {
            return Err(Refusal::ClusterAbsent);
        }
        if system.has_unfit_parameter::<O>() {
            return Err(Refusal::ParameterUnfit);
        }
        Ok(())
    }

    /// Sets a system up. Every task is idle then. A refusal changes nothing.
    pub fn set_up(&mut self, system: &System<'_>) -> Result<(), Refusal>
        ensures result { SetUp O.Order.urgency system.now (contents self.old) (contents self.new) result }
        ensures loans { SameLoans self.old self.new }
    {
        self.accept(system)?;
        self.jobs.fill(Job::IDLE);
        self.counts = [0; 8];
        Ok(())
    }

    // Whether there is no record for some task or no place for it in some list.
    fn is_too_small_for(&self, system: &System<'_>) -> bool
        ensures { result ≡ too_small O.Order.urgency system.now (contents self.now) }
    {
        let n = system.tasks.len();
        n > 64 || self.jobs.len() < n || self.places.len() < usize::from(system.clusters) * n
    }

    // The record of a task's job.
    fn job_of(&self, task: u8) -> Option<Job>
        ensures { result ≡ slice_get (contents self.now).jobs task }
    {
        self.jobs.get(usize::from(task)).copied()
    }

    // The condition of a task, by its record.
    fn condition_of(&self, task: u8) -> Condition
        ensures { result ≡ condition_at (contents self.now).jobs task }
    {
        self.job_of(task)
            .map_or(Condition::Idle, |job| job.condition)
    }

    // Where a cluster's list lies. A start that is too large for a number is beyond all places.
    fn span_of(&self, system: &System<'_>, cluster: u8) -> Span
        ensures from { result.from ≡ min (cluster * task_count system.now) (2 ^ 64 - 1) }
        ensures room { result.room ≡ task_count system.now }
        ensures used { result.used ≡ count_at self.now.counts cluster }
    {
        let room = system.tasks.len();
        Span {
            from: usize::from(cluster).saturating_mul(room),
            room,
            used: self.counts.get(usize::from(cluster)).copied().unwrap_or(0),
        }
    }

    // The tasks that run on a cluster.
    fn running(&self, system: &System<'_>, cluster: u8) -> TaskSet
        ensures { result.bits ≡ running O.Order.urgency system.now (contents self.now) cluster }
    {
        cluster::scheduled_set::<O>(
            self.jobs,
            self.places,
            self.span_of(system, cluster),
            usize::from(system.cluster_size),
        )
    }

    // Changes the condition in a task's record.
    fn set_condition(&mut self, task: u8, condition: Condition)
        ensures memory { contents self.new ≡ becoming (contents self.old) task condition }
        ensures loans { SameLoans self.old self.new }
    {
        if let Some(mut job) = self.job_of(task) {
            job.condition = condition;
            store(self.jobs, task, job);
        }
    }

    // Puts a job into its cluster's list.
    fn enter(&mut self, system: &System<'_>, cluster: u8, entry: Entry<O::Mark>)
        ensures memory { contents self.new ≡ with_entry O.Order.urgency system.now (contents self.old) cluster entry }
        ensures loans { SameLoans self.old self.new }
    {
        let list = self.span_of(system, cluster);
        let count = cluster::enter::<O>(self.places, list, entry);
        store(&mut self.counts, cluster, count);
    }

    // A twin of `enter`, kept, as those of `cluster` are: a closure needs a contract as long.
    // Takes a task's job out of its cluster's list.
    fn depart(&mut self, system: &System<'_>, cluster: u8, task: u8)
        ensures memory { contents self.new ≡ without_entry O.Order.urgency system.now (contents self.old) cluster task }
        ensures loans { SameLoans self.old self.new }
    {
        let list = self.span_of(system, cluster);
        let count = cluster::depart::<O>(self.places, list, task);
        store(&mut self.counts, cluster, count);
    }

    // Whether a task's job is scheduled.
    fn is_scheduled(&self, system: &System<'_>, task: u8) -> bool
        ensures { result ≡ in_set (running O.Order.urgency system.now (contents self.now) (cluster_at system.now.tasks.now task)) task }
    {
        self.running(system, system.cluster_of(task)).contains(task)
    }

    // Why an event is turned away: the first condition met decides.
    fn check(&self, system: &System<'_>, event: Event) -> Result<(), Refusal>
        ensures { result ≡ unless (turned_away O.Order.urgency system.now (contents self.now) event) tt }
    {
        let task = event.task();
        match (self.condition_of(task), event) {
            _ if self.is_too_small_for(system) => Err(Refusal::MemoryTooSmall),
            _ if usize::from(task) >= system.tasks.len() => Err(Refusal::NoSuchTask),
            (Condition::Idle, Event::Release { .. }) => Ok(()),
            (_, Event::Release { .. }) => Err(Refusal::AlreadyPending),
            (Condition::Idle, Event::Finish { .. }) => Err(Refusal::NotPending),
            (_, Event::Finish { .. }) if !self.is_scheduled(system, task) => Err(
                Refusal::NotScheduled,
            ),
            (_, Event::Finish { .. }) => Ok(()),
        }
    }

    // What an accepted event does.
    fn apply(&mut self, system: &System<'_>, event: Event)
        ensures memory { contents self.new ≡ stored O.Order.urgency system.now (contents self.old) event }
        ensures loans { SameLoans self.old self.new }
    {
        match event {
            Event::Release { task, instant } => {
                let mark = O::mark(system.parameter_of(task), instant);
                self.set_condition(task, Condition::Computing);
                self.enter(system, system.cluster_of(task), Entry { mark, task });
            }
            Event::Finish { task } => {
                self.set_condition(task, Condition::Idle);
                self.depart(system, system.cluster_of(task), task);
            }
        }
    }

    /// One event. A refused one changes nothing.
    pub fn act(&mut self, system: &System<'_>, event: Event) -> Result<Answer, Refusal>
        ensures acted { Acted O.Order.urgency system.now event (contents self.old) (contents self.new) result }
        ensures loans { SameLoans self.old self.new }
    {
        self.check(system, event)?;
        self.apply(system, event);
        Ok(Answer::Accepted)
    }

    /// The job of a task is released at an instant.
    pub fn release(
        &mut self,
        system: &System<'_>,
        task: u8,
        instant: u32,
    ) -> Result<Answer, Refusal>
        ensures acted { Acted O.Order.urgency system.now (Event.Release task instant) (contents self.old) (contents self.new) result }
        ensures loans { SameLoans self.old self.new }
    {
        self.act(system, Event::Release { task, instant })
    }

    /// The job of a task finishes.
    pub fn finish(&mut self, system: &System<'_>, task: u8) -> Result<Answer, Refusal>
        ensures acted { Acted O.Order.urgency system.now (Event.Finish task) (contents self.old) (contents self.new) result }
        ensures loans { SameLoans self.old self.new }
    {
        self.act(system, Event::Finish { task })
    }

    /// A cluster's scheduled tasks, bit t for task t.
    pub fn scheduled(&self, system: &System<'_>, cluster: u8) -> Result<u64, Refusal>
        ensures { AskedSet O.Order.urgency system.now cluster (contents self.now) result }
    {
        if self.is_too_small_for(system) {
            return Err(Refusal::MemoryTooSmall);
        }
        if cluster >= system.clusters {
            return Err(Refusal::NoSuchCluster);
        }
        Ok(self.running(system, cluster).into())
    }

    /// A task's condition.
    pub fn condition(&self, system: &System<'_>, task: u8) -> Result<Condition, Refusal>
        ensures { AskedCondition O.Order.urgency system.now task (contents self.now) result }
    {
        if self.is_too_small_for(system) {
            return Err(Refusal::MemoryTooSmall);
        }
        if usize::from(task) >= system.tasks.len() {
            return Err(Refusal::NoSuchTask);
        }
        Ok(self.condition_of(task))
    }

    // A cluster's scheduled tasks, or none where there is no such cluster.
    fn set_of(&self, system: &System<'_>, cluster: u8) -> u64
        ensures { result ≡ or_none (asked_set O.Order.urgency system.now (contents self.now) cluster) }
    {
        self.scheduled(system, cluster).unwrap_or(0)
    }

    // Each cluster's scheduled tasks.
    fn sets(&self, system: &System<'_>) -> [u64; 8]
        ensures { result ≡ sets O.Order.urgency system.now (contents self.now) }
    {
        [0, 1, 2, 3, 4, 5, 6, 7].map(|cluster| self.set_of(system, cluster))
    }

    // One event, and what it came to.
    fn outcome(&mut self, system: &System<'_>, event: Event) -> Outcome
        ensures value { result ≡ outcome_of O.Order.urgency system.now (contents self.old) event }
        ensures stores { contents self.new ≡ afterwards O.Order.urgency system.now (contents self.old) event }
        ensures loans { SameLoans self.old self.new }
    {
        Outcome {
            answer: self.act(system, event),
            scheduled: self.sets(system),
        }
    }

    /// Runs a list of events, as many as there are places for their outcomes, and answers how
    /// many it ran.
    pub fn run(&mut self, system: &System<'_>, events: &[Event], outcomes: &mut [Outcome]) -> usize
        ensures ran { Ran O.Order.urgency system.now events.now outcomes.old (contents self.old) (contents self.new) outcomes.new result }
        ensures loans { SameLoans self.old self.new }
    {
        let n = events.len().min(outcomes.len());
        // By index: what a loop writes through a `zip` of `iter_mut` is not known behind it.
        for (i, event) in events[..n].iter().enumerate() {
            outcomes[i] = self.outcome(system, *event);
        }
        n
    }
}
