// A queue of tasks, in memory of its own: a lock value is plain, so it can hold no vector, and the
// kit's `arrayvec` is not `Copy`.
ghost use Rattle.std.specs.Prelude.{◌≡◌, suc, ◌<◌, ◌≤◌, [], ◌∷◌, ◌++◌, length, take, drop, slice_index};

// Tasks in a row, at most 64.
#[derive(Clone, Copy)]
pub(crate) struct Queue {
    items: [u8; 64],
    len: u8,
    ghost room: { len ≤ 64 },
}

impl Queue {
    ghost use Rattle.lock.specs.Words.{has};
    ghost use Rattle.lock.specs.Views.{row};

    // Nobody.
    pub(crate) fn new() -> Queue
        ensures { row result ≡ [] }
    {
        Queue {
            items: [0; 64],
            len: 0,
        }
    }

    // The tasks, the first first.
    pub(crate) fn as_slice(&self) -> &[u8]
        ensures tasks { result.now ≡ row self.now }
        ensures most { length (row self.now) ≤ 64 }
    {
        &self.items[..usize::from(self.len)]
    }

    // The first `places` of them, and the others.
    pub(crate) fn split(&self, places: u8) -> (&[u8], &[u8])
        ensures first { result.0.now ≡ take places (row self.now) }
        ensures others { result.1.now ≡ drop places (row self.now) }
    {
        let row = self.as_slice();
        row.split_at(row.len().min(usize::from(places)))
    }

    // Whether a task is in the row.
    pub(crate) fn contains(&self, task: u8) -> bool
        ensures { result ≡ has (row self.now) task }
    {
        self.as_slice().iter().any(|x| *x == task)
    }

    // Puts a task behind the others.
    pub(crate) fn push(&mut self, task: u8)
        requires { length (row self.old) < 64 }
        ensures { row self.new ≡ row self.old ++ (task ∷ []) }
    {
        self.items[usize::from(self.len)] = task;
        self.len += 1;
    }

    // Takes out the task at a place; those behind it move up by one.
    pub(crate) fn remove(&mut self, at: usize) -> u8
        requires { at < length (row self.old) }
        ensures gives { result ≡ slice_index (row self.old) at }
        ensures rest { row self.new ≡ take at (row self.old) ++ drop (suc at) (row self.old) }
    {
        let task = self.items[at];
        let len = usize::from(self.len);
        self.items.copy_within(at + 1..len, at);
        self.len -= 1;
        task
    }
}
