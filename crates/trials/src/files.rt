// Scenario files, built record by record, and their traces.
use replay::trace_file;
use std::alloc::AllocError;

// A scenario file that is being written.
#[derive(Drop)]
struct Draft {
    bytes: Vec<u8>,
}

impl Draft {
    fn new(
        rt: &HostRuntime,
        clusters: u8,
        cluster_size: u8,
        order: u8,
    ) -> Result<Draft, AllocError> {
        let mut draft = Draft {
            bytes: Vec::new(rt.alloc()),
        };
        draft.add(&[1, clusters, cluster_size, order])?;
        Ok(draft)
    }

    // Kinds by number here: a trial spells out the bytes that a file has.
    fn add(&mut self, bytes: &[u8]) -> Result<(), AllocError> {
        self.bytes.extend_from_slice(bytes)
    }

    fn record(&mut self, kind: u8, subject: u8, number: u32) -> Result<(), AllocError> {
        self.add(&[kind, subject])?;
        self.add(&number.to_le_bytes())
    }

    fn task(&mut self, cluster: u8, parameter: u32) -> Result<(), AllocError> {
        self.record(2, cluster, parameter)
    }

    fn release(&mut self, task: u8, instant: u32) -> Result<(), AllocError> {
        self.record(4, task, instant)
    }

    fn finish(&mut self, task: u8) -> Result<(), AllocError> {
        self.add(&[7, task])
    }

    // Prints a title and the trace.
    fn show(&self, rt: &HostRuntime, title: &str) -> anyhow::Result<()> {
        show(rt, title, self.bytes.as_slice())
    }
}

// Prints a title and the trace.
fn show(rt: &HostRuntime, title: &str, file: &[u8]) -> anyhow::Result<()> {
    let trace = trace_file(rt.alloc(), file)?;
    println!(rt; "# {title}")?;
    rt.print(trace.text.as_str())?;
    Ok(())
}

// Prints a title and only how long the trace is.
fn measure(rt: &HostRuntime, title: &str, file: &[u8]) -> anyhow::Result<()> {
    let trace = trace_file(rt.alloc(), file)?;
    let lines = trace.text.as_str().lines().count();
    let whole = trace.stop.is_none();
    println!(rt; "# {title}")?;
    println!(rt; "{lines} lines, to the end: {whole}")?;
    Ok(())
}

// Each fault of a record, at its place.
pub(super) fn stops(rt: &HostRuntime) -> anyhow::Result<()> {
    show(rt, "empty file", &[])?;
    show(rt, "first record no header", &[2, 0, 1, 0, 0, 0])?;
    show(rt, "unknown first record", &[3, 1, 0])?;
    let mut draft = Draft::new(rt, 1, 1, 1)?;
    draft.task(0, 5)?;
    draft.show(rt, "no event")?;
    draft.add(&[9])?;
    draft.show(rt, "unknown kind before the first event")?;
    let mut draft = Draft::new(rt, 1, 1, 1)?;
    draft.add(&[1, 1, 1, 1])?;
    draft.show(rt, "second header")?;
    let mut draft = Draft::new(rt, 1, 1, 1)?;
    draft.task(0, 5)?;
    draft.release(0, 1)?;
    draft.task(0, 6)?;
    draft.show(rt, "late task")?;
    let mut draft = Draft::new(rt, 1, 1, 3)?;
    draft.task(0, 5)?;
    draft.release(0, 1)?;
    draft.show(rt, "unknown order")
}

// A file cut after each of its bytes.
pub(super) fn cut(rt: &HostRuntime) -> anyhow::Result<()> {
    let mut draft = Draft::new(rt, 1, 1, 2)?;
    draft.task(0, 7)?;
    draft.release(0, 258)?;
    draft.finish(0)?;
    let bytes = draft.bytes.as_slice();
    for n in 1..bytes.len() {
        show(rt, "cut", &bytes[..n])?;
    }
    show(rt, "whole", bytes)
}

// Prints a title and the trace of a header with one task more, which is released.
fn one(
    rt: &HostRuntime,
    title: &str,
    mut draft: Draft,
    cluster: u8,
    parameter: u32,
) -> anyhow::Result<()> {
    draft.task(cluster, parameter)?;
    draft.release(0, 0)?;
    draft.show(rt, title)
}

// Set-up's numbers, at the place of the first event.
pub(super) fn set_up(rt: &HostRuntime) -> anyhow::Result<()> {
    one(rt, "no cluster", Draft::new(rt, 0, 1, 1)?, 0, 1)?;
    one(rt, "nine clusters", Draft::new(rt, 9, 1, 1)?, 0, 1)?;
    one(rt, "no processor", Draft::new(rt, 1, 0, 1)?, 0, 1)?;
    one(rt, "nine processors", Draft::new(rt, 1, 9, 1)?, 0, 1)?;
    one(rt, "absent cluster", Draft::new(rt, 2, 1, 1)?, 2, 1)?;
    one(rt, "level 255", Draft::new(rt, 1, 1, 2)?, 0, 255)?;
    one(rt, "level 256", Draft::new(rt, 1, 1, 2)?, 0, 256)?;
    one(rt, "the first number met", Draft::new(rt, 9, 9, 2)?, 9, 256)?;
    let draft = Draft::new(rt, 1, 1, 1)?;
    draft.show(rt, "no task, no event")?;
    let mut draft = Draft::new(rt, 1, 1, 1)?;
    for _ in 0..65 {
        draft.task(0, 1)?;
    }
    draft.show(rt, "65 tasks")
}

// Jobs released and finished.
pub(super) fn runs(rt: &HostRuntime) -> anyhow::Result<()> {
    let mut draft = Draft::new(rt, 1, 1, 1)?;
    draft.task(0, 10)?;
    draft.task(0, 5)?;
    draft.release(1, 5)?;
    draft.release(0, 0)?;
    draft.release(7, 0)?;
    draft.release(0, 9)?;
    draft.finish(1)?;
    draft.finish(0)?;
    draft.finish(0)?;
    draft.finish(1)?;
    draft.finish(2)?;
    draft.show(rt, "equal deadlines")?;
    let mut draft = Draft::new(rt, 1, 1, 1)?;
    draft.task(0, u32::MAX)?;
    draft.task(0, 1)?;
    draft.task(0, 0)?;
    draft.release(0, 1)?;
    draft.release(1, u32::MAX)?;
    draft.release(2, u32::MAX)?;
    draft.show(rt, "deadlines above 32 bits")
}

// The largest systems and files.
pub(super) fn large(rt: &HostRuntime) -> anyhow::Result<()> {
    let mut draft = Draft::new(rt, 1, 8, 2)?;
    for i in 0..64u32 {
        draft.task(0, i)?;
    }
    for t in 0..64u8 {
        draft.release(t, 0)?;
    }
    draft.show(rt, "64 tasks in one cluster")?;
    let mut draft = Draft::new(rt, 8, 8, 1)?;
    for i in 0..64u8 {
        draft.task(i % 8, 1)?;
    }
    for t in 0..64u8 {
        draft.release(t, 0)?;
    }
    draft.show(rt, "8 clusters of 8")?;
    let mut draft = Draft::new(rt, 1, 1, 1)?;
    draft.task(0, 1)?;
    for _ in 0..32763 {
        draft.finish(0)?;
    }
    measure(rt, "65536 bytes", draft.bytes.as_slice())?;
    draft.add(&[7])?;
    draft.show(rt, "65537 bytes")
}
