// The kinds of locks, by their numbers.
ghost use Rattle.std.specs.Prelude.{◌≡◌, ◌==◌};
ghost use Rattle.lock.specs.Model.{started};
ghost use Rattle.lock.specs.Numbers.{kind_number, kind_of};

use super::Refusal;

/// A kind of lock.
#[derive(Clone, Copy, PartialEq, Eq, Debug)]
pub enum Kind {
    Mutex = 1,
    ReaderWriter = 2,
    Replicas = 3,
}

impl Kind {
    // Turns away the number of another kind, or a count that does not fit.
    pub(crate) fn accept(self, number: u8, fit: bool) -> Result<(), Refusal>
        ensures { result ≡ started (number == kind_number self) fit tt }
    {
        if number != self as u8 {
            return Err(Refusal::NoSuchKind);
        }
        if !fit {
            return Err(Refusal::CountUnfit);
        }
        Ok(())
    }
}

impl TryFrom<u8> for Kind {
    type Error = Refusal;

    ghost try_from_gives = { λ number result. result ≡ kind_of number };

    fn try_from(number: u8) -> Result<Kind, Refusal> {
        match number {
            1 => Ok(Kind::Mutex),
            2 => Ok(Kind::ReaderWriter),
            3 => Ok(Kind::Replicas),
            _ => Err(Refusal::NoSuchKind),
        }
    }
}
