// How piles of several turns turn what is drawn through them.
use crate::bench::{Bench, Pile, STRIP, UNLIT_BITMAP, WHOLE, window_of};
use crate::claims::{Claim, Exchanges, Faces, Places};
use crate::tally::Tally;
use layer::{mask_over, shift_over, turn_over};
use pile::line_below;
use plate::{Dot, Plate};

// The upper and the lower turn.
#[derive(Clone, Copy)]
pub(crate) struct TurnedTwice(i32, i32);

impl Pile for TurnedTwice {
    fn meets<P: Plate + Drop, C: Claim>(&self, plate: P, claim: &C) -> bool {
        let TurnedTwice(upper, lower) = *self;
        claim.holds(&mut turn_over(upper, turn_over(lower, plate)))
    }
}

// Three turns from the top down, with a mask of all dots between the upper two, and a shift by (10, -20) over the lowest.
#[derive(Clone, Copy)]
pub(crate) struct TurnedThrice(i32, i32, i32);

impl Pile for TurnedThrice {
    fn meets<P: Plate + Drop, C: Claim>(&self, plate: P, claim: &C) -> bool {
        let TurnedThrice(upper, middle, lower) = *self;
        let shifted = shift_over(10, -20, turn_over(lower, plate));
        let masked = mask_over(window_of(WHOLE), turn_over(middle, shifted));
        claim.holds(&mut turn_over(upper, masked))
    }
}

// A shift by (5, -2) over the turn of this number.
#[derive(Clone, Copy)]
pub(crate) struct ShiftOverTurn(i32);

impl Pile for ShiftOverTurn {
    fn meets<P: Plate + Drop, C: Claim>(&self, plate: P, claim: &C) -> bool {
        claim.holds(&mut shift_over(5, -2, turn_over(self.0, plate)))
    }
}

// The one turn that all turns of the pile make, and the place of the dot (3, 1).
#[derive(Clone, Copy)]
pub(crate) struct TurnsAs(u8, Dot);

impl Claim for TurnsAs {
    fn holds<P: Plate>(&self, pile: &mut P) -> bool {
        let TurnsAs(facing, place) = *self;
        Places((3, 1), Some(place)).holds(pile) && Faces(facing).holds(pile)
    }
}

// The ends of the line from (0, 0) to (4, 1) as it lies below.
#[derive(Clone, Copy)]
pub(crate) struct Carries(Dot, Dot);

impl Claim for Carries {
    fn holds<P: Plate>(&self, pile: &mut P) -> bool {
        let Carries(from, to) = *self;
        line_below(pile, (0, 0), (4, 1)) == Some((from, to))
    }
}

// The upper turn, and for each lower turn from 0 to 7 the one turn that the two make.
// The rows are slices, since `pairs` would have to show that an array of any `T` has a size that fits.
pub(crate) const PAIRS: [(i32, &[u8]); 8] = [
    (0, &[0, 1, 2, 3, 4, 5, 6, 7]),
    (1, &[1, 2, 3, 0, 6, 7, 5, 4]),
    (2, &[2, 3, 0, 1, 5, 4, 7, 6]),
    (3, &[3, 0, 1, 2, 7, 6, 4, 5]),
    (4, &[4, 7, 5, 6, 0, 2, 3, 1]),
    (5, &[5, 6, 4, 7, 2, 0, 1, 3]),
    (6, &[6, 4, 7, 5, 1, 3, 0, 2]),
    (7, &[7, 5, 6, 4, 3, 1, 2, 0]),
];

// The same, with whether the two exchange the axes.
pub(crate) const EXCHANGES: [(i32, &[bool]); 8] = [
    (0, &[false, true, false, true, false, false, true, true]),
    (1, &[true, false, true, false, true, true, false, false]),
    (2, &[false, true, false, true, false, false, true, true]),
    (3, &[true, false, true, false, true, true, false, false]),
    (4, &[false, true, false, true, false, false, true, true]),
    (5, &[false, true, false, true, false, false, true, true]),
    (6, &[true, false, true, false, true, true, false, false]),
    (7, &[true, false, true, false, true, true, false, false]),
];

// Three turns from the top down, the one turn that they make, and the place of the dot (3, 1), with a shift by (10, -20) over the lowest.
pub(crate) const TRIPLES: [(TurnedThrice, TurnsAs); 11] = [
    (TurnedThrice(0, 0, 0), TurnsAs(0, (13, -19))),
    (TurnedThrice(1, 1, 1), TurnsAs(3, (21, 7))),
    (TurnedThrice(1, 1, 3), TurnsAs(1, (-21, -7))),
    (TurnedThrice(6, 1, 6), TurnsAs(3, (-19, 7))),
    (TurnedThrice(7, 5, 2), TurnsAs(3, (-9, 17))),
    (TurnedThrice(4, 3, 0), TurnsAs(6, (11, -17))),
    (TurnedThrice(5, 6, 7), TurnsAs(4, (17, -9))),
    (TurnedThrice(3, 4, 6), TurnsAs(2, (-23, 9))),
    (TurnedThrice(6, 7, 5), TurnsAs(4, (7, 21))),
    (TurnedThrice(2, 2, 0), TurnsAs(0, (13, -19))),
    // refused numbers make turn 0
    (TurnedThrice(8, 2, -1), TurnsAs(2, (7, -21))),
];

// A turn below a shift by (5, -2), and the line from (0, 0) to (4, 1) as it lies below them.
pub(crate) const LINES: [(ShiftOverTurn, Carries); 8] = [
    (ShiftOverTurn(0), Carries((5, -2), (9, -1))),
    (ShiftOverTurn(1), Carries((2, 5), (1, 9))),
    (ShiftOverTurn(2), Carries((-5, 2), (-9, 1))),
    (ShiftOverTurn(3), Carries((-2, -5), (-1, -9))),
    (ShiftOverTurn(4), Carries((-5, -2), (-9, -1))),
    (ShiftOverTurn(5), Carries((5, 2), (9, 1))),
    (ShiftOverTurn(6), Carries((-2, 5), (-1, 9))),
    (ShiftOverTurn(7), Carries((2, -5), (1, -9))),
];

// Two turns for each answer of a table: the upper one of its row, over each lower one from 0 on.
pub(crate) fn pairs<B, T, C, F>(bench: &B, table: &[(i32, &[T])], claim: F) -> Tally
where
    B: Bench,
    T: Copy,
    C: Claim + Drop,
    F: Fn(T) -> C,
    requires { F.IsAlwaysCallable claim }
{
    table
        .iter()
        .fold(Tally::default(), |tally, (upper, answers)| {
            tally.and(lower_turns(bench, *upper, *answers, &claim))
        })
}

// One row of such a table.
fn lower_turns<B, T, C, F>(bench: &B, upper: i32, answers: &[T], claim: &F) -> Tally
where
    B: Bench,
    T: Copy,
    C: Claim + Drop,
    F: Fn(T) -> C,
    requires { F.IsAlwaysCallable claim.now }
{
    answers
        .iter()
        .zip(0..8)
        .fold(Tally::default(), |tally, (answer, lower)| {
            tally.with(bench.tries(&TurnedTwice(upper, lower), &claim(*answer)))
        })
}
