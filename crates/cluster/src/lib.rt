// A cluster: its pending jobs as an ordered list in lent places, and which of them are scheduled.
#![tactic(auto)]

ghost use Rattle.std.specs.Prelude.{◌≡◌, ◌+◌, length, nat_le, slice_set};
ghost use Rattle.cluster.specs.Listing.{urgent, entries, entered, entered_count, departed, departed_count};
ghost use Rattle.cluster.specs.Picks.{condition_at, pick_at, picked_tasks, picked_set};
ghost use Rattle.cluster.specs.Claims.{IsScheduled, Entering, Departing};
ghost use Rattle.model.specs.Words.{holds};
ghost use Rattle.std.proofs.Common.{rules};

use model::Condition;
use order::{Entry, Order};
use ordered::{OrderedList, Ranking};
use task_set::TaskSet;

/// The record of a task's job. A donor gives its place to its recipient.
#[derive(Clone, Copy)]
pub struct Job {
    pub condition: Condition,
    pub donor: Option<u8>,
    pub recipient: Option<u8>,
}

impl Job {
    /// The record of a task with no pending job.
    pub const IDLE: Job = Job {
        condition: Condition::Idle,
        donor: None,
        recipient: None,
    };
}

/// Pending jobs, ranked by an order of urgency. No value of it is made.
pub struct Pending<O> {
    pub order: O,
}

impl<O: Order> Ranking for Pending<O> {
    type Item = Entry<O::Mark>;

    ghost key = { λ e. e.task };

    ghost before = { urgent O.Order.urgency.before };

    ghost ranks = { Prim.search rules };

    fn key_of(item: Entry<O::Mark>) -> u8 {
        item.task
    }

    fn goes_before(x: Entry<O::Mark>, y: Entry<O::Mark>) -> bool {
        O::goes_first(x, y)
    }
}

/// Where a cluster's list lies in the lent places: in the first `used` of the `room` places from
/// `from` on.
#[derive(Clone, Copy)]
pub struct Span {
    pub from: usize,
    pub room: usize,
    pub used: usize,
}

impl Span {
    // Whether there are as many places.
    fn lies_in(self, places: usize) -> bool
        ensures { result ≡ nat_le (self.from + self.room) places }
    {
        self.from <= places && self.room <= places - self.from
    }
}

// A write through the library's `get_mut` is not followed by the check, so it is by index here.
/// Stores `a` at `i`, where there is such a place.
pub fn store<A: Copy>(xs: &mut [A], i: u8, a: A)
    ensures { xs.new ≡ slice_set xs.old i a }
{
    let place = usize::from(i);
    if place < xs.len() {
        xs[place] = a;
    }
}

// Whether the task's job holds a resource.
fn task_holds(jobs: &[Job], task: u8) -> bool
    ensures { result ≡ holds (condition_at jobs.now task) }
{
    jobs.get(usize::from(task))
        .is_some_and(|job| job.condition.holds())
}

// Who runs at the place of the task.
fn picked(jobs: &[Job], task: u8) -> Option<u8>
    ensures { result ≡ pick_at jobs.now task }
{
    let job = jobs.get(usize::from(task))?;
    match (job.recipient, job.donor) {
        (Some(r), _) if task_holds(jobs, r) => Some(r),
        (_, Some(_)) => None,
        (_, None) => job.condition.runs().then_some(task),
    }
}

// Slices and not `skip` and `take`: a chain of these walks over the lists before this one.
// The entries of the list that lies there.
#[tactic(auto, using(std::proofs::lemmas::List::drop_min, std::proofs::lemmas::List::take_min))]
fn entries_of<M>(places: &[Entry<M>], list: Span) -> &[Entry<M>]
    ensures { result.now ≡ entries list places.now }
{
    let rest = &places[list.from.min(places.len())..];
    let part = &rest[..list.room.min(rest.len())];
    &part[..list.used.min(part.len())]
}

// Apart from `scheduled_set`, whose second clause rests on this one. A loop: a chain of `filter_map`,
// `take` and `fold` took longer, in some callers 1.6 times as long.
// The tasks that run at the first places where one can, `size` of them at most.
fn first_picked<M: Copy>(jobs: &[Job], entries: &[Entry<M>], size: usize) -> TaskSet
    ensures { result ≡ picked_tasks jobs.now entries.now size }
{
    let mut set = TaskSet::new();
    let mut left = size;
    for entry in entries {
        if left == 0 {
            return set;
        }
        if let Some(task) = picked(jobs, entry.task) {
            set = set.with(task);
            left -= 1;
        }
    }
    set
}

/// The tasks scheduled on a cluster of `size` processors.
pub fn scheduled_set<O: Order>(
    jobs: &[Job],
    places: &[Entry<O::Mark>],
    list: Span,
    size: usize,
) -> TaskSet
    ensures value { result.bits ≡ picked_set jobs.now (entries list places.now) size }
    ensures means { IsScheduled O.Order.urgency.before jobs.now (entries list places.now) size result.bits }
{
    first_picked(jobs, entries_of(places, list), size)
}

// `insert` and `remove` stand apart from `enter` and `depart`, and are twins as these are: the check
// does not follow a list that is made over a part of a slice.
// One pending job more in the list in the first `used` places: how many it has then.
fn insert<O: Order>(places: &mut [Entry<O::Mark>], used: usize, entry: Entry<O::Mark>) -> usize
    ensures after { places.new ≡ entered O.Order.urgency.before used entry places.old }
    ensures count { result ≡ entered_count used (length places.old) }
{
    let mut list = OrderedList::<Pending<O>> { places, used };
    list.insert(entry);
    list.used
}

// One pending job fewer in such a list: how many it has then.
fn remove<O: Order>(places: &mut [Entry<O::Mark>], used: usize, task: u8) -> usize
    ensures after { places.new ≡ departed used task places.old }
    ensures count { result ≡ departed_count used task places.old }
{
    let mut list = OrderedList::<Pending<O>> { places, used };
    list.remove(task);
    list.used
}

/// One pending job more in a cluster's list. The answer is how many it has then; nothing changes
/// where it is full or lies outside.
pub fn enter<O: Order>(places: &mut [Entry<O::Mark>], list: Span, entry: Entry<O::Mark>) -> usize
    ensures { Entering O.Order.urgency.before places.old list.from list.room list.used entry places.new result }
{
    if !list.lies_in(places.len()) {
        return list.used;
    }
    insert::<O>(
        &mut places[list.from..list.from + list.room],
        list.used,
        entry,
    )
}

// A twin of `enter`, kept: a closure for the one call that differs needs a contract as long.
/// One pending job fewer in a cluster's list. The answer is how many it has then; nothing changes
/// where the task has no entry in it or it lies outside.
pub fn depart<O: Order>(places: &mut [Entry<O::Mark>], list: Span, task: u8) -> usize
    ensures { Departing O.Order.urgency.before places.old list.from list.room list.used task places.new result }
{
    if !list.lies_in(places.len()) {
        return list.used;
    }
    remove::<O>(
        &mut places[list.from..list.from + list.room],
        list.used,
        task,
    )
}
