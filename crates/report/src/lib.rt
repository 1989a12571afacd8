// The text of a trace.
#![tactic(auto)]

ghost use Rattle.std.specs.Prelude.{Some};
ghost use Rattle.report.specs.Text.{answer_text, set_bytes, line_bytes, lines_bytes, head_bytes, stop_bytes};

use arbiter::Outcome;
use model::{Answer, Event, Refusal};
use std::fmt;
use task_set::TaskSet;

/// The first line: what the system is made of.
#[derive(Clone, Copy)]
pub struct Head {
    pub clusters: usize,
    pub processors: usize,
    pub tasks: usize,
}

impl fmt::Display for Head {
    ghost output = { λ head. Some (head_bytes head.clusters head.processors head.tasks) };

    fn fmt<W: fmt::Write>(&self, f: &mut fmt::Formatter<W>) -> fmt::Result {
        let Head {
            clusters,
            processors,
            tasks,
        } = *self;
        writeln!(
            f,
            "clusters {clusters} processors {processors} tasks {tasks} resources 0"
        )
    }
}

/// The last line of a file that was read no further: why and where.
#[derive(Clone, Copy)]
pub struct StopLine {
    // A number and no cause: this crate knows no causes, and the number is what it prints.
    pub number: u8,
    pub place: usize,
}

impl fmt::Display for StopLine {
    ghost output = { λ stop. Some (stop_bytes stop.number stop.place) };

    fn fmt<W: fmt::Write>(&self, f: &mut fmt::Formatter<W>) -> fmt::Result {
        let StopLine { number, place } = *self;
        writeln!(f, "stop {number} at {place}")
    }
}

// An answer as text: `ok`, or `no` with the refusal's number.
#[derive(Clone, Copy)]
struct Reply(Result<Answer, Refusal>);

impl fmt::Display for Reply {
    ghost output = { λ reply. Some (answer_text reply.0) };

    fn fmt<W: fmt::Write>(&self, f: &mut fmt::Formatter<W>) -> fmt::Result {
        match self.0 {
            Ok(answer) => write!(f, "{answer}"),
            Err(refusal) => write!(f, "{refusal}"),
        }
    }
}

// A set of tasks as text: its tasks, ascending with commas in between, or a dash.
#[derive(Clone, Copy)]
struct Members(TaskSet);

impl fmt::Display for Members {
    ghost output = { λ set. Some (set_bytes set.0.bits) };

    fn fmt<W: fmt::Write>(&self, f: &mut fmt::Formatter<W>) -> fmt::Result {
        let mut tasks = self.0.into_iter();
        let Some(first) = tasks.next() else {
            return write!(f, "-");
        };
        write!(f, "{first}")?;
        for task in tasks {
            write!(f, ",{task}")?;
        }
        Ok(())
    }
}

/// The line of one event: its number, kind and task, its answer, and each cluster's set.
#[derive(Clone, Copy)]
pub struct Line<'a> {
    pub number: usize,
    pub event: Event,
    pub answer: Result<Answer, Refusal>,
    // Numbers, as an outcome of the arbiter has them.
    pub sets: &'a [u64],
}

impl fmt::Display for Line<'_> {
    ghost output = { λ line. Some (line_bytes line.number line.event line.answer line.sets.now) };

    fn fmt<W: fmt::Write>(&self, f: &mut fmt::Formatter<W>) -> fmt::Result {
        let number = self.number;
        let kind = self.event.kind();
        let task = self.event.task();
        let reply = Reply(self.answer);
        write!(f, "{number} {kind} {task} {reply}")?;
        for set in self.sets {
            let members = Members(TaskSet::from(*set));
            write!(f, " {members}")?;
        }
        writeln!(f)
    }
}

/// A line for each event with its outcome, by place, of the first `clusters` of the outcome's sets.
#[derive(Clone, Copy)]
pub struct Lines<'a> {
    pub events: &'a [Event],
    pub outcomes: &'a [Outcome],
    pub clusters: usize,
}

impl fmt::Display for Lines<'_> {
    ghost output = { λ lines. Some (lines_bytes 1 lines.clusters lines.events.now lines.outcomes.now) };

    fn fmt<W: fmt::Write>(&self, f: &mut fmt::Formatter<W>) -> fmt::Result {
        let shown = self.clusters.min(8);
        for (i, (event, outcome)) in self.events.iter().zip(self.outcomes).enumerate() {
            let line = Line {
                number: i + 1,
                event: *event,
                answer: outcome.answer,
                sets: &outcome.scheduled[..shown],
            };
            write!(f, "{line}")?;
        }
        Ok(())
    }
}

#[cfg(test)]
mod tests {
    use super::*;
    use std::test::Fail;

    #[test]
    fn a_line_has_its_sets(rt: HostRuntime) -> Result<(), Fail> {
        let first = Line {
            number: 1,
            event: Event::Release {
                task: 0,
                instant: 9,
            },
            answer: Ok(Answer::Accepted),
            sets: &[1 << 63 | 1 << 5 | 1, 0],
        };
        let second = Line {
            number: 2,
            event: Event::Finish { task: 7 },
            answer: Err(Refusal::NotScheduled),
            sets: &[],
        };
        let text = format!(in rt.alloc(); "{first}{second}")?;
        assert_eq!(rt; text.as_str(), "1 4 0 ok 0,5,63 -\n2 7 7 no15\n");
        Ok(())
    }
}
