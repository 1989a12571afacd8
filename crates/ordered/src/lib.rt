// A list kept in order in the first places of a lent slice, for every kind of entry whose order
// keeps the law of `Ranking`.
#![tactic(auto)]

ghost use Rattle.std.specs.Prelude.{◌≡◌, ℕ, ◌+◌, ◌-◌, ◌≤◌, Bool, ◌∷◌, ◌++◌, take, drop, if◌then◌else◌, Some, None};
ghost use Rattle.std.specs.List.{slice_get, remove};
ghost use Rattle.ordered.specs.Ranks.{Ranks, place, ranked, Sorted, Fresh, passing, found};
ghost use Rattle.ordered.specs.Places.{position, has_room, held, taken, closed};

// No `Ord` on the entries: the same entries can be ranked in several ways.
/// How the entries of a list are ranked.
pub trait Ranking {
    type Item: Copy;

    ghost key: { Self.Item → ℕ };

    ghost before: { Self.Item → Self.Item → Bool };

    /// The key of an entry.
    fn key_of(item: Self::Item) -> u8
        ensures { result ≡ key item };

    /// Whether `x` goes before `y`.
    fn goes_before(x: Self::Item, y: Self::Item) -> bool
        ensures { result ≡ before x y };

    ghost ranks: { Ranks key before };
}

// A slice and a length here and in `OrderedList`, and no `Vec`: the places are the caller's and fixed,
// and there is no heap.
/// The entries in the first `used` of some places. Where there are fewer places than that, they
/// are those that exist.
#[derive(Clone, Copy)]
pub struct Entries<'a, R: Ranking> {
    pub places: &'a [R::Item],
    pub used: usize,
}

/// A list in the first `used` of its places. Where there are fewer places than that, nothing can
/// be put in or taken out.
#[derive(Drop)]
pub struct OrderedList<'a, R: Ranking> {
    pub places: &'a mut [R::Item],
    pub used: usize,
}

// The place of the first entry with this key.
fn position_of<R: Ranking>(entries: &[R::Item], key: u8) -> Option<usize>
    ensures { result ≡ position R.Ranking.key key entries.now }
{
    entries.iter().position(|x| R::key_of(*x) == key)
}

impl<R: Ranking> Entries<'_, R> {
    // As a slice.
    fn as_slice(&self) -> &[R::Item]
        ensures { result.now ≡ take self.now.used self.now.places.now }
    {
        &self.places[..self.used.min(self.places.len())]
    }

    /// The place of the first entry with this key. `None` where there is none.
    pub fn find(&self, key: u8) -> Option<usize>
        ensures at { result ≡ position R.Ranking.key key (take self.now.used self.now.places.now) }
        ensures absent { result ≡ None → Fresh R.Ranking.key key (take self.now.used self.now.places.now) }
    {
        position_of::<R>(self.as_slice(), key)
    }

    /// The entry at `at`. `None` where there is none.
    pub fn get(&self, at: usize) -> Option<R::Item>
        ensures gives { result ≡ slice_get (take self.now.used self.now.places.now) at }
        ensures rank { let list = take self.now.used self.now.places.now in (x : R.Item) → result ≡ Some x → Sorted R.before list → passing (λ y. R.before y x) list ≡ at }
    {
        self.as_slice().get(at).copied()
    }

    // How many entries at the front go before `item`.
    fn place_of(&self, item: R::Item) -> usize
        ensures at { result ≡ place R.before item (take self.now.used self.now.places.now) }
        ensures within { result ≤ self.now.used }
    {
        self.as_slice()
            .iter()
            .take_while(|x| R::goes_before(**x, item))
            .count()
    }
}

// The clause `loan` stands in each: it compares a list with itself before, which no invariant can.
impl<R: Ranking> OrderedList<'_, R> {
    /// The entries, to be read.
    pub fn entries(&self) -> Entries<'_, R>
        ensures places { result.places.now ≡ self.now.places.now }
        ensures used { result.used ≡ self.now.used }
    {
        Entries {
            places: &*self.places,
            used: self.used,
        }
    }

    /// Puts `item` in its place among the entries, and gives that place. `None` where no place is
    /// left for it, and then nothing changes.
    pub fn insert(&mut self, item: R::Item) -> Option<usize>
        ensures at { let l = self.old in result ≡ (if has_room l.used l.places.now then Some (place R.before item (take l.used l.places.now)) else None) }
        ensures after { let l = self.old in self.new.places.now ≡ (if has_room l.used l.places.now then ranked R.before item (take l.used l.places.now) ++ drop (l.used + 1) l.places.now else l.places.now) }
        ensures used { let l = self.old in self.new.used ≡ (if has_room l.used l.places.now then l.used + 1 else l.used) }
        ensures loan { self.new.places.ghost_name ≡ self.old.places.ghost_name }
        ensures sorted { let list = take self.old.used self.old.places.now in Sorted R.before list → Fresh R.key (R.key item) list → Sorted R.before (ranked R.before item list) }
        ensures counts { let list = take self.old.used self.old.places.now in (p : R.Item → Bool) → passing p (ranked R.before item list) ≡ passing p (item ∷ list) }
        ensures rank { let list = take self.old.used self.old.places.now in Sorted R.before list → Fresh R.key (R.key item) list → place R.before item list ≡ passing (λ x. R.before x item) list }
    {
        let used = self.used;
        if used >= self.places.len() {
            return None;
        }
        let at = self.entries().place_of(item);
        self.places.copy_within(at..used, at + 1);
        self.places[at] = item;
        self.used = used + 1;
        Some(at)
    }

    /// Takes out the entry at `at`. `None` where there is none, or `used` is beyond the slice, and
    /// then nothing changes.
    pub fn remove_at(&mut self, at: usize) -> Option<R::Item>
        ensures gives { result ≡ taken self.old.used at self.old.places.now }
        ensures after { self.new.places.now ≡ closed self.old.used at self.old.places.now }
        ensures used { let l = self.old in self.new.used ≡ (if held l.used at l.places.now then l.used - 1 else l.used) }
        ensures loan { self.new.places.ghost_name ≡ self.old.places.ghost_name }
        ensures sorted { let list = take self.old.used self.old.places.now in Sorted R.before list → Sorted R.before (remove list at) }
        ensures counts { let list = take self.old.used self.old.places.now in (p : R.Item → Bool) (x : R.Item) → result ≡ Some x → passing p (x ∷ remove list at) ≡ passing p list }
    {
        let used = self.used;
        if at >= used || used > self.places.len() {
            return None;
        }
        let item = self.places[at];
        self.places.copy_within(at + 1..used, at);
        self.used = used - 1;
        Some(item)
    }

    /// Takes out the first entry with this key. `None` where there is none, or `used` is beyond
    /// the slice, and then nothing changes.
    pub fn remove(&mut self, key: u8) -> Option<R::Item>
        ensures gives { let l = self.old in result ≡ taken l.used (found R.Ranking.key key (take l.used l.places.now)) l.places.now }
        ensures after { let l = self.old in self.new.places.now ≡ closed l.used (found R.Ranking.key key (take l.used l.places.now)) l.places.now }
        ensures used { let l = self.old in self.new.used ≡ (if held l.used (found R.Ranking.key key (take l.used l.places.now)) l.places.now then l.used - 1 else l.used) }
        ensures loan { self.new.places.ghost_name ≡ self.old.places.ghost_name }
        ensures sorted { let list = take self.old.used self.old.places.now in Sorted R.before list → Sorted R.before (remove list (found R.Ranking.key key list)) }
        ensures counts { let list = take self.old.used self.old.places.now in (p : R.Item → Bool) (x : R.Item) → result ≡ Some x → passing p (x ∷ remove list (found R.Ranking.key key list)) ≡ passing p list }
    {
        let at = self.entries().find(key)?;
        self.remove_at(at)
    }
}

#[cfg(test)]
mod tests;
