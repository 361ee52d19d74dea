// Piles whose way down leaves the world.
use crate::bench::{EMPTY, Pile};
use crate::claims::{Claim, Hides, Lights, Places, Shows};
use layer::{shift_over, turn_over};
use plate::Plate;

// The shifts along x by these numbers, the upper one first.
#[derive(Clone, Copy)]
pub(crate) struct ShiftedTwice(i32, i32);

impl Pile for ShiftedTwice {
    fn meets<P: Plate + Drop, C: Claim>(&self, plate: P, claim: &C) -> bool {
        let ShiftedTwice(upper, lower) = *self;
        claim.holds(&mut shift_over(upper, 0, shift_over(lower, 0, plate)))
    }
}

// A shift by (30000, 0) over turn 1 over a shift by (0, -30000).
#[derive(Clone, Copy)]
pub(crate) struct TurnedBetween;

impl Pile for TurnedBetween {
    fn meets<P: Plate + Drop, C: Claim>(&self, plate: P, claim: &C) -> bool {
        let turned = turn_over(1, shift_over(0, -30000, plate));
        claim.holds(&mut shift_over(30000, 0, turned))
    }
}

const AND_BACK: ShiftedTwice = ShiftedTwice(30000, -30000);

const BACK_FIRST: ShiftedTwice = ShiftedTwice(-30000, 30000);

const TWICE_BACK: ShiftedTwice = ShiftedTwice(-30000, -30000);

const TWICE_ON: ShiftedTwice = ShiftedTwice(30000, 30000);

const FARTHEST: ShiftedTwice = ShiftedTwice(32767, -32767);

// Two shifts over the whole strip, and the window above.
pub(crate) const STRIP_WINDOWS: [(ShiftedTwice, Shows); 6] = [
    (AND_BACK, Shows((-32767, -32767, 2767, 32767))),
    (BACK_FIRST, Shows((-2767, -32767, 32767, 32767))),
    (TWICE_BACK, Shows((27233, -32767, 32767, 32767))),
    (TWICE_ON, Shows((-32767, -32767, -27233, 32767))),
    (FARTHEST, Shows((-32767, -32767, 0, 32767))),
    (
        ShiftedTwice(-32767, -32767),
        Shows((32767, -32767, 32767, 32767)),
    ),
];

// The same over the bitmap.
pub(crate) const BITMAP_WINDOWS: [(ShiftedTwice, Shows); 6] = [
    (AND_BACK, Shows((0, 0, 8, 4))),
    (BACK_FIRST, Shows((0, 0, 8, 4))),
    (TWICE_BACK, Shows(EMPTY)),
    (TWICE_ON, Shows(EMPTY)),
    (FARTHEST, Shows((0, 0, 0, 4))),
    (ShiftedTwice(-32767, -32767), Shows(EMPTY)),
];

// Two shifts, a dot, and its place; none where a number on the way is no `i32`.
pub(crate) const PLACES: [(ShiftedTwice, Places); 18] = [
    (AND_BACK, Places((5, 3), Some((5, 3)))),
    (AND_BACK, Places((2767, 4), Some((2767, 4)))),
    (AND_BACK, Places((2768, 4), Some((2768, 4)))),
    (AND_BACK, Places((32767, -32767), Some((32767, -32767)))),
    (AND_BACK, Places((-32767, 32767), Some((-32767, 32767)))),
    (
        AND_BACK,
        Places((i32::MIN, i32::MAX), Some((-2147483648, 2147483647))),
    ),
    (AND_BACK, Places((2147453647, 0), Some((2147453647, 0)))),
    (AND_BACK, Places((2147453648, 0), None)),
    (AND_BACK, Places((i32::MAX, 0), None)),
    (BACK_FIRST, Places((-32767, 8), Some((-32767, 8)))),
    (BACK_FIRST, Places((-2147453648, 0), Some((-2147453648, 0)))),
    (BACK_FIRST, Places((-2147453649, 0), None)),
    (BACK_FIRST, Places((i32::MIN, 0), None)),
    (TWICE_BACK, Places((5, 3), Some((-59995, 3)))),
    (TWICE_BACK, Places((32767, 0), Some((-27233, 0)))),
    (TWICE_BACK, Places((i32::MIN, 0), None)),
    (TWICE_ON, Places((32767, 1), Some((92767, 1)))),
    (FARTHEST, Places((32767, -1), Some((32767, -1)))),
];

// A dot, and its place below a shift by (30000, 0) over turn 1 over a shift by (0, -30000).
pub(crate) const TURNED_PLACES: [(TurnedBetween, Places); 7] = [
    (TurnedBetween, Places((3, 1), Some((-1, 3)))),
    (TurnedBetween, Places((32767, 2), Some((-2, 32767)))),
    (
        TurnedBetween,
        Places((-32767, -32767), Some((32767, -32767))),
    ),
    (TurnedBetween, Places((0, i32::MAX), Some((-2147483647, 0)))),
    (TurnedBetween, Places((0, i32::MIN), None)),
    (TurnedBetween, Places((i32::MIN, 0), Some((0, -2147483648)))),
    (TurnedBetween, Places((i32::MAX, 0), None)),
];

// Two shifts over the whole strip, a dot that they show, and its place.
pub(crate) const SHOWN_ON_STRIP: [(ShiftedTwice, Lights); 6] = [
    (AND_BACK, Lights((2767, 4), (2767, 4))),
    (AND_BACK, Lights((-32767, 0), (-32767, 0))),
    (BACK_FIRST, Lights((-2767, 9), (-2767, 9))),
    (TWICE_BACK, Lights((27233, 7), (-32767, 7))),
    (TWICE_ON, Lights((-32767, 1), (27233, 1))),
    (FARTHEST, Lights((0, 0), (0, 0))),
];

// The same over the bitmap.
pub(crate) const SHOWN_ON_BITMAP: [(ShiftedTwice, Lights); 4] = [
    (AND_BACK, Lights((8, 4), (8, 4))),
    (AND_BACK, Lights((0, 0), (0, 0))),
    (BACK_FIRST, Lights((7, 1), (7, 1))),
    (FARTHEST, Lights((0, 4), (0, 4))),
];

// Two shifts over the whole strip, and a dot that they do not show; many have their place on it.
pub(crate) const LOST_ON_STRIP: [(ShiftedTwice, Hides); 8] = [
    (AND_BACK, Hides((2768, 4))),
    (AND_BACK, Hides((32767, 0))),
    (AND_BACK, Hides((i32::MAX, 0))),
    (BACK_FIRST, Hides((-2768, 9))),
    (BACK_FIRST, Hides((i32::MIN, 0))),
    (TWICE_BACK, Hides((27232, 7))),
    (TWICE_ON, Hides((-27232, 1))),
    (FARTHEST, Hides((1, 0))),
];

// The same over the bitmap.
pub(crate) const LOST_ON_BITMAP: [(ShiftedTwice, Hides); 8] = [
    (FARTHEST, Hides((1, 0))),
    (FARTHEST, Hides((8, 4))),
    (AND_BACK, Hides((9, 4))),
    (AND_BACK, Hides((i32::MAX, 0))),
    (BACK_FIRST, Hides((i32::MIN, 0))),
    (TWICE_BACK, Hides((0, 0))),
    (TWICE_BACK, Hides((32767, 0))),
    (TWICE_ON, Hides((-32767, 0))),
];
