// What came of trying the rows of a table.
ghost use Rattle.std.specs.Prelude.{◌≡◌, ◌+◌, min, if◌then◌else◌};

use crate::bench::{Bench, Pile};
use crate::claims::Claim;
use std::fmt;

// How many rows were tried, and how many of them came out as the table says.
#[derive(Clone, Copy, Default)]
pub(crate) struct Tally {
    pub(crate) tried: u32,
    pub(crate) right: u32,
}

impl Tally {
    // Asks each row's claim of its pile.
    pub(crate) fn of<B: Bench, P: Pile, C: Claim>(bench: &B, rows: &[(P, C)]) -> Tally {
        rows.iter().fold(Tally::default(), |tally, (pile, claim)| {
            tally.with(bench.tries(pile, claim))
        })
    }

    // One row more.
    pub(crate) fn with(self, came: bool) -> Tally
        ensures tried { result.tried ≡ min 4294967295 (self.tried + 1) }
        ensures right { result.right ≡ (if came then min 4294967295 (self.right + 1) else self.right) }
    {
        Tally {
            tried: self.tried.saturating_add(1),
            right: self.right.saturating_add(u32::from(came)),
        }
    }

    // The rows of two tables together.
    pub(crate) fn and(self, more: Tally) -> Tally
        ensures tried { result.tried ≡ min 4294967295 (self.tried + more.tried) }
        ensures right { result.right ≡ min 4294967295 (self.right + more.right) }
    {
        Tally {
            tried: self.tried.saturating_add(more.tried),
            right: self.right.saturating_add(more.right),
        }
    }
}

impl fmt::Display for Tally {
    fn fmt<W: fmt::Write>(&self, f: &mut fmt::Formatter<W>) -> fmt::Result {
        let Tally { tried, right } = *self;
        write!(f, "{right} of {tried} right")
    }
}
