// The scenario file: its records, their reader, and the loader that puts them together.
#![tactic(auto)]

ghost use Rattle.std.specs.Prelude.{◌≡◌, ◌-◌, length, IfOk};
ghost use Rattle.std.specs.Iterator.{at_most};
ghost use Rattle.scenario.specs.declared.Failure.TheVariants.{OutOfMemory, Stopped};
ghost use Rattle.scenario.specs.Format.{fault_number, record_at, split_view, next_at, place_after, part_view};
ghost use Rattle.scenario.specs.Reading.{Reads, QuietAtEnd};
ghost use Rattle.scenario.specs.Encoding.{ReadsBack};
ghost use Rattle.scenario.specs.Loading.{script_view, misplaced_in, taken, loaded_from, loaded};
ghost use Rattle.scenario.specs.Ends.{IsOutOfMemory, UnlessMemory, stop_at, stopped_by};

use model::{Event, Task};
use std::alloc::{AllocError, AllocFailed, Global};

/// What a scenario says of the system as a whole.
#[derive(Clone, Copy, PartialEq, Eq, Debug)]
pub struct Header {
    pub clusters: u8,
    pub cluster_size: u8,
    // A byte and no enum: an unknown order stops a file only at its first event.
    pub order: u8,
}

/// One record of a scenario file.
#[derive(Clone, Copy)]
pub enum Record {
    Header(Header),
    Task(Task),
    Event(Event),
}

// The number of the kind of a header.
const HEADER: u8 = 1;

// The number of the kind of a task.
const TASK: u8 = 2;

/// Why a file's records are read no further.
#[derive(Clone, Copy, PartialEq, Eq, Debug)]
pub enum Fault {
    UnknownKind = 20,
    /// The file ends inside the record.
    CutShort = 21,
    /// No header at the start, or a header elsewhere.
    HeaderMisplaced = 22,
    /// A task after the first event.
    TooLate = 23,
}

/// The number of the fault.
impl From<Fault> for u8 {
    ghost from_gives = { λ fault number. number ≡ fault_number fault };

    fn from(fault: Fault) -> u8 {
        fault as u8
    }
}

/// What stopped the use of a file, and the place in the file.
#[derive(Clone, Copy, PartialEq, Eq, Debug)]
pub struct Stop<C> {
    pub cause: C,
    pub at: usize,
}

impl<C> Stop<C> {
    /// The same stop, with its cause converted.
    pub fn cause_into<D: From<C>>(self) -> Stop<D>
        ensures cause { D.from_gives self.cause result.cause }
        ensures at { result.at ≡ self.at }
    {
        Stop {
            cause: self.cause.into(),
            at: self.at,
        }
    }
}

/// Why no more is made of a file: memory ran out, or a cause at a place stopped it.
#[derive(Clone, Copy, PartialEq, Eq)]
pub enum Failure<C> {
    OutOfMemory(AllocError),
    Stopped(Stop<C>),
}

impl<C> From<AllocError> for Failure<C> {
    ghost from_gives = { λ error failure. failure ≡ OutOfMemory error };

    fn from(error: AllocError) -> Failure<C> {
        Failure::OutOfMemory(error)
    }
}

impl<C, T: Drop> From<AllocFailed<T>> for Failure<C> {
    ghost from_gives = { λ _ failure. IsOutOfMemory failure };

    fn from(error: AllocFailed<T>) -> Failure<C> {
        Failure::OutOfMemory(error.into())
    }
}

impl<C> From<Stop<C>> for Failure<C> {
    ghost from_gives = { λ stop failure. failure ≡ Stopped stop };

    fn from(stop: Stop<C>) -> Failure<C> {
        Failure::Stopped(stop)
    }
}

/// A record as a part of the file, with its place.
#[derive(Clone, Copy)]
pub struct Part<'a> {
    pub at: usize,
    pub bytes: &'a [u8],
    pub record: Record,
}

// The record at the start of the bytes, and the bytes after it.
fn split(bytes: &[u8]) -> Result<(Record, &[u8]), Fault>
    ensures { split_view result ≡ record_at bytes.now }
{
    // A rule of the project: a slice pattern names the kind byte, the fields and the rest.
    match bytes {
        &[HEADER, clusters, cluster_size, order, ref rest @ ..] => {
            let header = Header {
                clusters,
                cluster_size,
                order,
            };
            Ok((Record::Header(header), rest))
        }
        &[TASK, cluster, a, b, c, d, ref rest @ ..] => {
            let parameter = u32::from_le_bytes([a, b, c, d]);
            Ok((Record::Task(Task { cluster, parameter }), rest))
        }
        &[Event::RELEASE, task, a, b, c, d, ref rest @ ..] => {
            let instant = u32::from_le_bytes([a, b, c, d]);
            Ok((Record::Event(Event::Release { task, instant }), rest))
        }
        &[Event::FINISH, task, ref rest @ ..] => Ok((Record::Event(Event::Finish { task }), rest)),
        [HEADER | TASK | Event::RELEASE | Event::FINISH, ..] => Err(Fault::CutShort),
        _ => Err(Fault::UnknownKind),
    }
}

/// Hands out a file's records in turn, as parts of the file.
#[derive(Drop)]
pub struct Reader<'a> {
    pub file: &'a [u8],
    pub at: usize,
}

impl<'a> Reader<'a> {
    /// A reader at the start of a file.
    pub fn new(file: &'a [u8]) -> Reader<'a>
        ensures file { result.file.now ≡ file.now }
        ensures at { result.at ≡ 0 }
        ensures quiet { QuietAtEnd }
    {
        Reader { file, at: 0 }
    }

    // A nested result: a fault leaves the reader where it is, and the iterator stands on that. The
    // iterator's item would be no plainer.
    /// The next record, or None at the end; a fault does not move the reader.
    pub fn read_part(&mut self) -> Result<Option<Part<'a>>, Fault>
        ensures part { part_view result ≡ next_at self.old.file.now self.old.at }
        ensures file { self.new.file.now ≡ self.old.file.now }
        ensures place { self.new.at ≡ place_after self.old.at (next_at self.old.file.now self.old.at) }
    {
        let at = self.at;
        if at >= self.file.len() {
            return Ok(None);
        }
        let left = &self.file[at..];
        let (record, rest) = split(left)?;
        let bytes = &left[..left.len() - rest.len()];
        self.at = at + bytes.len();
        Ok(Some(Part { at, bytes, record }))
    }
}

/// The records in turn, up to the file's end or to the first fault; nothing comes after a fault.
impl<'a> Iterator for Reader<'a> {
    type Item = Result<Part<'a>, Stop<Fault>>;

    ghost next_gives = { Reads };

    ghost remaining = { λ reader. at_most (length reader.file.now - reader.at) };

    fn next(&mut self) -> Option<Result<Part<'a>, Stop<Fault>>> {
        let at = self.at;
        let part = self.read_part();
        if part.is_err() {
            self.at = self.file.len();
        }
        part.map_err(|cause| Stop { cause, at }).transpose()
    }
}

/// What a file says, up to its end or to its first fault.
#[derive(Drop)]
pub struct Script {
    pub header: Option<Header>,
    pub tasks: Vec<Task>,
    pub events: Vec<Event>,
    /// The place of the first event, or the file's length.
    pub start: usize,
    /// Beside the rest and no `Err`: a file that stops still has what came before.
    pub stop: Option<Stop<Fault>>,
}

impl Part<'_> {
    // A fault of this record, at its place.
    fn refused(self, cause: Fault) -> Failure<Fault>
        ensures { result ≡ Stopped (record { cause = cause; at = self.entry.at }) }
    {
        Stop { cause, at: self.at }.into()
    }
}

impl Script {
    // Takes a record that may stand where it does, or says why it may not.
    fn take(&mut self, part: Part<'_>) -> Result<(), Failure<Fault>>
        ensures stop { UnlessMemory result (λ stop. stop ≡ stop_at part.entry.at (misplaced_in (script_view self.old) part.entry.record)) }
        ensures after { UnlessMemory result (λ _. script_view self.new ≡ taken (script_view self.old) part.entry.at part.entry.record (misplaced_in (script_view self.old) part.entry.record)) }
    {
        match (self.header, part.record) {
            (None, Record::Header(header)) => self.header = Some(header),
            (None, _) | (Some(_), Record::Header(_)) => {
                return Err(part.refused(Fault::HeaderMisplaced));
            }
            (Some(_), Record::Task(_)) if !self.events.is_empty() => {
                return Err(part.refused(Fault::TooLate));
            }
            (Some(_), Record::Task(task)) => self.tasks.push(task)?,
            (Some(_), Record::Event(event)) => {
                if self.events.is_empty() {
                    self.start = part.at;
                }
                self.events.push(event)?;
            }
        }
        Ok(())
    }

    // Takes the records of a file in turn. At the end a file with no header is at fault.
    fn fill(&mut self, file: &[u8]) -> Result<(), Failure<Fault>>
        ensures { UnlessMemory result (λ stop. stopped_by (script_view self.new) stop ≡ loaded_from (length file.now) file.now 0 (script_view self.old)) }
    {
        for part in Reader::new(file) {
            self.take(part?)?;
        }
        if self.header.is_none() {
            let cause = Fault::HeaderMisplaced;
            let at = file.len();
            return Err(Stop { cause, at }.into());
        }
        Ok(())
    }
}

/// Takes the records of a file in turn, up to its end or to the first fault.
#[tactic(auto, using(crate::proofs::RoundTrip::reads_back))]
pub fn load(heap: Global, file: &[u8]) -> Result<Script, AllocError>
    ensures script { IfOk result (λ s. script_view s ≡ loaded file.now) }
    ensures back { IfOk result (λ s. ReadsBack file.now (script_view s)) }
{
    let mut script = Script {
        header: None,
        tasks: Vec::new(heap),
        events: Vec::new(heap),
        start: file.len(),
        stop: None,
    };
    // As in `trace_file` of `replay`, but for what is done with the stop.
    match script.fill(file) {
        Ok(()) => {}
        Err(Failure::Stopped(stop)) => script.stop = Some(stop),
        Err(Failure::OutOfMemory(error)) => return Err(error),
    }
    Ok(script)
}

#[cfg(test)]
mod tests {
    use super::*;
    use std::test::Fail;

    // Kinds by number here: a test spells out the bytes that a file has.
    #[test]
    fn a_cut_record_stops_at_its_place(rt: HostRuntime) -> Result<(), Fail> {
        let file = [1, 2, 1, 0, 2, 0, 5, 0, 0, 0];
        for end in 1..file.len() {
            let at = if end < 4 { 0 } else { 4 };
            let stop = if end == 4 {
                None
            } else {
                Some(Stop {
                    cause: Fault::CutShort,
                    at,
                })
            };
            assert_eq!(rt; load(rt.alloc(), &file[0..end])?.stop, stop);
        }
        Ok(())
    }

    #[test]
    fn each_fault_has_its_place(rt: HostRuntime) -> Result<(), Fail> {
        let files: [(&[u8], Fault, usize); 6] = [
            (&[1, 2, 1, 0, 3], Fault::UnknownKind, 4),
            (&[1, 2, 1, 0, 7, 5, 7], Fault::CutShort, 6),
            (&[], Fault::HeaderMisplaced, 0),
            (&[7, 5], Fault::HeaderMisplaced, 0),
            (&[1, 2, 1, 0, 1, 2, 1, 0], Fault::HeaderMisplaced, 4),
            (&[1, 2, 1, 0, 7, 5, 2, 0, 9, 0, 0, 0], Fault::TooLate, 6),
        ];
        for (file, cause, at) in files {
            assert_eq!(rt; load(rt.alloc(), file)?.stop, Some(Stop { cause, at }));
        }
        Ok(())
    }

    #[test]
    fn nothing_comes_after_a_fault(rt: HostRuntime) {
        let file = [1, 2, 1, 0, 3, 7, 5];
        let mut reader = Reader::new(&file);
        assert!(rt; matches!(reader.next(), Some(Ok(Part { at: 0, .. }))));
        let stop = Stop {
            cause: Fault::UnknownKind,
            at: 4,
        };
        assert_eq!(rt; reader.next().and_then(|item| item.err()), Some(stop));
        assert!(rt; reader.next().is_none());
    }
}
