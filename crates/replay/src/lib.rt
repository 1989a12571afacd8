// A scenario run through an arbiter, and its trace.
#![tactic(auto)]

ghost use Rattle.std.specs.Prelude.{◌≡◌, [], IfOk, string_bytes};
ghost use Rattle.scenario.specs.Loading.{script_view, loaded};
ghost use Rattle.order.specs.Supplied.{earliest_deadline, level};
ghost use Rattle.replay.specs.declared.Cause.TheVariants.{Record, SetUp};
ghost use Rattle.arbiter.specs.Memory.{contents, said, plan_of};
ghost use Rattle.arbiter.specs.Meaning.{Reached};
ghost use Rattle.arbiter.specs.Outcomes.{outcomes};
ghost use Rattle.model.specs.Rules.{start};
ghost use Rattle.replay.specs.Trace.{cause_number, order_named, run_from, run_under, trace_view, traced, system_text, Prints, Tells, Promised};

use arbiter::{Arbiter, Outcome, System};
use cluster::Job;
use model::{Answer, Event, Refusal};
use order::{EarliestDeadline, Entry, Level, Order};
use report::{Head, Lines, StopLine};
use scenario::{Failure, Fault, Header, Script, Stop, load};
use std::alloc::{AllocError, Global};

/// The most bytes that a file may have.
pub const LONGEST_FILE: usize = 65536;

/// What stopped a replay.
#[derive(Clone, Copy, PartialEq, Eq, Debug)]
pub enum Cause {
    /// The file has more than 65,536 bytes.
    FileTooLong,
    /// A record is at fault.
    Record(Fault),
    /// The header's order byte is neither 1 nor 2.
    UnknownOrder,
    /// Set-up turned the file's tables away.
    SetUp(Refusal),
}

impl From<Fault> for Cause {
    ghost from_gives = { λ fault cause. cause ≡ Record fault };

    fn from(fault: Fault) -> Cause {
        Cause::Record(fault)
    }
}

impl From<Refusal> for Cause {
    ghost from_gives = { λ refusal cause. cause ≡ SetUp refusal };

    fn from(refusal: Refusal) -> Cause {
        Cause::SetUp(refusal)
    }
}

/// The number that a stop line shows.
impl From<Cause> for u8 {
    ghost from_gives = { λ cause number. number ≡ cause_number cause };

    fn from(cause: Cause) -> u8 {
        match cause {
            Cause::FileTooLong => 24,
            Cause::Record(fault) => fault.into(),
            Cause::UnknownOrder => 9,
            Cause::SetUp(refusal) => refusal.into(),
        }
    }
}

// The stop stands beside the text: a file that stops still has the lines before.
/// The trace of a scenario file; `stop` is `None` where the file ran to its end.
#[derive(Drop)]
pub struct Trace {
    pub text: String,
    pub stop: Option<Stop<Cause>>,
}

// The orders of urgency that a header can name.
#[derive(Clone, Copy)]
enum Supplied {
    EarliestDeadline,
    Level,
}

impl TryFrom<u8> for Supplied {
    type Error = Cause;

    ghost try_from_gives = { λ number order. order ≡ order_named number };

    fn try_from(number: u8) -> Result<Supplied, Cause> {
        match number {
            1 => Ok(Supplied::EarliestDeadline),
            2 => Ok(Supplied::Level),
            _ => Err(Cause::UnknownOrder),
        }
    }
}

// `heap` is passed along and kept in no struct: the library's own functions are passed it too.

// What the events of a system that has been set up come to.
fn run_events<O: Order>(
    heap: Global,
    arbiter: &mut Arbiter<'_, O>,
    system: &System<'_>,
    events: &[Event],
) -> Result<Vec<Outcome>, AllocError>
    requires { Reached O.Order.urgency system.now (contents arbiter.old) [] }
    ensures { let plan = plan_of O.Order.urgency system.now in IfOk result (λ v. v.items ≡ outcomes plan (start plan) events.now) }
{
    let blank = Outcome {
        answer: Ok(Answer::Accepted),
        scheduled: [0; 8],
    };
    let mut all = vec![in heap; blank; events.len()]?;
    arbiter.run(system, events, all.as_mut_slice());
    Ok(all)
}

// The lines of a system: its head, and one for each event with its outcome.
fn lines(
    heap: Global,
    system: &System<'_>,
    events: &[Event],
    outcomes: &[Outcome],
) -> Result<String, AllocError>
    ensures { IfOk result (λ t. string_bytes t ≡ system_text (said system.now) events.now outcomes.now) }
{
    let clusters = usize::from(system.clusters);
    let head = Head {
        clusters,
        processors: clusters * usize::from(system.cluster_size),
        tasks: system.tasks.len(),
    };
    let lines = Lines {
        events,
        outcomes,
        clusters,
    };
    format!(in heap; "{head}{lines}")
}

// The text of a scenario run under an order, in memory for as many tasks and clusters as there can
// be.
fn run_under<O: Order>(
    heap: Global,
    header: Header,
    script: &Script,
) -> Result<String, Failure<Cause>>
    ensures { Prints result script.now.stop (run_under O.Order.urgency header (script_view script.now)) }
{
    let blank = Entry {
        mark: O::mark(0, 0),
        task: 0,
    };
    let mut jobs = vec![in heap; Job::IDLE; 64]?;
    let mut places = vec![in heap; blank; 512]?;
    let mut arbiter = Arbiter::<O>::new(jobs.as_mut_slice(), places.as_mut_slice());
    let system = System {
        clusters: header.clusters,
        cluster_size: header.cluster_size,
        tasks: script.tasks.as_slice(),
    };
    // Not by `map_err` and `?`: tried, and the proof of the refused case did not close.
    if let Err(refusal) = arbiter.set_up(&system) {
        let cause = Cause::from(refusal);
        let at = script.start;
        return Err(Stop { cause, at }.into());
    }
    let events = script.events.as_slice();
    let outcomes = run_events(heap, &mut arbiter, &system, events)?;
    let text = lines(heap, &system, events, outcomes.as_slice())?;
    Ok(text)
}

// The text of a scenario run under the order that its header names.
fn run_from(heap: Global, script: &Script) -> Result<String, Failure<Cause>>
    ensures { Prints result script.now.stop (run_from script.now.header (script_view script.now)) }
{
    let Some(header) = script.header else {
        // A script with no header has stopped before.
        let cause = Cause::Record(Fault::HeaderMisplaced);
        return Err(Stop { cause, at: 0 }.into());
    };
    let order = Supplied::try_from(header.order).map_err(|cause| Stop {
        cause,
        at: script.start,
    })?;
    // An order is a type, so no closure can choose it.
    match order {
        Supplied::EarliestDeadline => run_under::<EarliestDeadline>(heap, header, script),
        Supplied::Level => run_under::<Level>(heap, header, script),
    }
}

// What the events of a file came to, up to its end or to what stops it: the trace without the line
// of the stop.
fn run_file(heap: Global, file: &[u8]) -> Result<Trace, Failure<Cause>>
    ensures { Tells result (traced file.now) }
{
    if file.len() > LONGEST_FILE {
        let cause = Cause::FileTooLong;
        let at = LONGEST_FILE;
        return Err(Stop { cause, at }.into());
    }
    let script = load(heap, file)?;
    // A file that stops before its first event is not run.
    let text = if script.events.is_empty() && script.stop.is_some() {
        String::new(heap)
    } else {
        run_from(heap, &script)?
    };
    Ok(Trace {
        text,
        stop: script.stop.map(Stop::cause_into),
    })
}

/// The trace of a scenario file: what each of its events came to, up to its end or to the first
/// fault.
pub fn trace_file(heap: Global, file: &[u8]) -> Result<Trace, AllocError>
    ensures text { IfOk result (λ t. trace_view t ≡ traced file.now) }
    ensures promise { Promised earliest_deadline (loaded file.now) × Promised level (loaded file.now) }
{
    // As in `load`, but for what is done with the stop: a function for both would be no shorter.
    let mut trace = match run_file(heap, file) {
        Ok(trace) => trace,
        Err(Failure::Stopped(stop)) => Trace {
            text: String::new(heap),
            stop: Some(stop),
        },
        Err(Failure::OutOfMemory(error)) => return Err(error),
    };
    if let Some(Stop { cause, at }) = trace.stop {
        let line = StopLine {
            number: cause.into(),
            place: at,
        };
        write!(trace.text, "{line}")?;
    }
    Ok(trace)
}
