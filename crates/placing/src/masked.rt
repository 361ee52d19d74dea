// Two masks, one over the other.
use crate::bench::{Bounds, EMPTY, Pile, WHOLE, window_of};
use crate::claims::{Claim, Hides, Lights, Shows};
use layer::mask_over;
use plate::Plate;

// The upper mask of these bounds, over the lower.
#[derive(Clone, Copy)]
pub(crate) struct Masked(Bounds, Bounds);

impl Pile for Masked {
    fn meets<P: Plate + Drop, C: Claim>(&self, plate: P, claim: &C) -> bool {
        let Masked(upper, lower) = *self;
        let below = mask_over(window_of(lower), plate);
        claim.holds(&mut mask_over(window_of(upper), below))
    }
}

// Two masks over the whole strip, and the window above.
pub(crate) const STRIP_WINDOWS: [(Masked, Shows); 13] = [
    (Masked((0, 0, 10, 10), (5, -5, 20, 5)), Shows((5, 0, 10, 5))),
    (Masked((5, -5, 20, 5), (0, 0, 10, 10)), Shows((5, 0, 10, 5))),
    (Masked((-3, -2, 3, 4), WHOLE), Shows((-3, -2, 3, 4))),
    (Masked(WHOLE, (-3, -2, 3, 4)), Shows((-3, -2, 3, 4))),
    (Masked((7, 7, 7, 7), (7, 7, 7, 7)), Shows((7, 7, 7, 7))),
    (
        Masked((-10, -10, 0, 0), (0, 0, 10, 10)),
        Shows((0, 0, 0, 0)),
    ),
    // no dot in common
    (Masked((0, 0, 1, 9), (2, 0, 3, 9)), Shows(EMPTY)),
    (Masked((0, 0, 9, 1), (0, 2, 9, 3)), Shows(EMPTY)),
    // crossed bounds, and refused ones
    (Masked((5, 5, 4, 9), WHOLE), Shows(EMPTY)),
    (Masked(WHOLE, (0, 9, 9, 0)), Shows(EMPTY)),
    (Masked((0, 0, 32768, 9), WHOLE), Shows(EMPTY)),
    (Masked(WHOLE, (-32768, 0, 0, 0)), Shows(EMPTY)),
    (
        Masked((i32::MIN, 0, i32::MAX, 9), (0, 0, 9, 9)),
        Shows(EMPTY),
    ),
];

// The same over the bitmap.
pub(crate) const BITMAP_WINDOWS: [(Masked, Shows); 10] = [
    (Masked((-5, -5, 5, 2), (2, -9, 20, 9)), Shows((2, 0, 5, 2))),
    (Masked((2, -9, 20, 9), (-5, -5, 5, 2)), Shows((2, 0, 5, 2))),
    (Masked(WHOLE, WHOLE), Shows((0, 0, 8, 4))),
    (Masked((8, 4, 100, 100), (0, 0, 9, 9)), Shows((8, 4, 8, 4))),
    (Masked((9, 0, 20, 4), (0, 0, 20, 4)), Shows(EMPTY)),
    (Masked((0, -7, 8, -1), WHOLE), Shows(EMPTY)),
    (Masked((4, 0, 3, 4), WHOLE), Shows(EMPTY)),
    (Masked(WHOLE, (0, 4, 8, 0)), Shows(EMPTY)),
    (Masked((0, 0, 8, 32768), WHOLE), Shows(EMPTY)),
    (Masked(WHOLE, (0, i32::MIN, 8, 4)), Shows(EMPTY)),
];

// Two masks that share the dots from (4, 1) to (6, 3).
const CROSSING: Masked = Masked((2, 1, 6, 3), (4, 0, 8, 4));

// Two masks, and a dot that both show, on either plate: it lies below where it lies above.
pub(crate) const SHOWN: [(Masked, Lights); 8] = [
    (CROSSING, Lights((4, 1), (4, 1))),
    (CROSSING, Lights((6, 1), (6, 1))),
    (CROSSING, Lights((4, 3), (4, 3))),
    (CROSSING, Lights((6, 3), (6, 3))),
    (CROSSING, Lights((5, 2), (5, 2))),
    (Masked(WHOLE, WHOLE), Lights((8, 4), (8, 4))),
    (Masked(WHOLE, (3, 2, 3, 2)), Lights((3, 2), (3, 2))),
    (Masked((0, 0, 0, 0), WHOLE), Lights((0, 0), (0, 0))),
];

// Two masks, and a dot that one of them hides, on either plate.
pub(crate) const HIDDEN: [(Masked, Hides); 18] = [
    (CROSSING, Hides((3, 2))),
    (CROSSING, Hides((7, 2))),
    (CROSSING, Hides((4, 0))),
    (CROSSING, Hides((5, 4))),
    (CROSSING, Hides((2, 3))),
    (CROSSING, Hides((0, 0))),
    (CROSSING, Hides((8, 4))),
    (CROSSING, Hides((-1, 2))),
    (CROSSING, Hides((9, 2))),
    (CROSSING, Hides((i32::MAX, 2))),
    (CROSSING, Hides((5, i32::MIN))),
    (CROSSING, Hides((i32::MIN, i32::MAX))),
    (Masked((0, 0, 32768, 9), WHOLE), Hides((3, 2))),
    (Masked(WHOLE, (0, -32768, 8, 4)), Hides((3, 2))),
    (Masked((8, 0, 0, 4), WHOLE), Hides((3, 2))),
    (Masked(WHOLE, (0, 4, 8, 0)), Hides((3, 2))),
    (Masked((0, 0, 2, 4), (4, 0, 8, 4)), Hides((3, 2))),
    (Masked(EMPTY, WHOLE), Hides((1, 1))),
];
