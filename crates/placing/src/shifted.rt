// One shift, to the edges of the world and past them.
use crate::bench::{Bench, Bounds, EMPTY, OnStrip, Pile, WHOLE};
use crate::claims::{Claim, Hides, Lights, Shows};
use crate::tally::Tally;
use layer::shift_over;
use plate::{Dot, Plate};

// The shift by these numbers.
#[derive(Clone, Copy)]
pub(crate) struct Shifted(i32, i32);

impl Pile for Shifted {
    fn meets<P: Plate + Drop, C: Claim>(&self, plate: P, claim: &C) -> bool {
        let Shifted(dx, dy) = *self;
        claim.holds(&mut shift_over(dx, dy, plate))
    }
}

// The bounds of a strip, a shift over it, and the window above.
const STRIP_WINDOWS: [(Bounds, Dot, Bounds); 20] = [
    (WHOLE, (0, 0), (-32767, -32767, 32767, 32767)),
    (WHOLE, (32767, -32767), (-32767, 0, 0, 32767)),
    (WHOLE, (-32767, 32767), (0, -32767, 32767, 0)),
    (WHOLE, (32767, 32767), (-32767, -32767, 0, 0)),
    (WHOLE, (-32767, -32767), (0, 0, 32767, 32767)),
    (WHOLE, (1, 0), (-32767, -32767, 32766, 32767)),
    (WHOLE, (0, -1), (-32767, -32766, 32767, 32767)),
    (WHOLE, (-5, 3), (-32762, -32767, 32767, 32764)),
    // refused numbers make the shift by 0 and 0
    (WHOLE, (32768, 5), (-32767, -32767, 32767, 32767)),
    (WHOLE, (5, -32768), (-32767, -32767, 32767, 32767)),
    (WHOLE, (i32::MAX, i32::MIN), (-32767, -32767, 32767, 32767)),
    ((3, 4, 9, 8), (32768, 1), (3, 4, 9, 8)),
    // a window that leaves the world in part, and as a whole
    ((32767, -9, 32767, 9), (1, 0), (32766, -9, 32766, 9)),
    ((32767, -9, 32767, 9), (-1, 0), EMPTY),
    ((-9, -32767, 9, -32767), (0, 1), EMPTY),
    ((32760, 0, 32767, 5), (-7, 0), (32767, 0, 32767, 5)),
    ((32760, 0, 32767, 5), (-8, 0), EMPTY),
    (
        (0, 0, 9, 9),
        (-32767, 32767),
        (32767, -32767, 32767, -32758),
    ),
    ((1, 0, 9, 9), (-32767, 32767), EMPTY),
    ((5, 5, 4, 4), (1, 1), EMPTY),
];

// A shift over the bitmap, and the window above.
pub(crate) const BITMAP_WINDOWS: [(Shifted, Shows); 11] = [
    (Shifted(0, 0), Shows((0, 0, 8, 4))),
    (
        Shifted(32767, -32767),
        Shows((-32767, 32767, -32759, 32767)),
    ),
    (
        Shifted(-32767, 32767),
        Shows((32767, -32767, 32767, -32763)),
    ),
    (
        Shifted(32767, 32767),
        Shows((-32767, -32767, -32759, -32763)),
    ),
    (Shifted(-32767, -32767), Shows((32767, 32767, 32767, 32767))),
    (Shifted(1, 0), Shows((-1, 0, 7, 4))),
    (Shifted(0, -1), Shows((0, 1, 8, 5))),
    (Shifted(-5, 3), Shows((5, -3, 13, 1))),
    (Shifted(32768, 5), Shows((0, 0, 8, 4))),
    (Shifted(5, -32768), Shows((0, 0, 8, 4))),
    (Shifted(i32::MAX, i32::MIN), Shows((0, 0, 8, 4))),
];

// A shift over the whole strip, a dot that it shows, and the dot's place.
pub(crate) const STRIP_DOTS: [(Shifted, Lights); 14] = [
    (Shifted(32767, -32767), Lights((-32767, 0), (0, -32767))),
    (Shifted(32767, -32767), Lights((0, 32767), (32767, 0))),
    (Shifted(32767, -32767), Lights((0, 0), (32767, -32767))),
    (Shifted(32767, -32767), Lights((-32767, 32767), (0, 0))),
    (Shifted(-32767, 32767), Lights((0, 0), (-32767, 32767))),
    (Shifted(-32767, 32767), Lights((32767, -32767), (0, 0))),
    (Shifted(-32767, 32767), Lights((32767, 0), (0, 32767))),
    (Shifted(1, 0), Lights((32766, -32767), (32767, -32767))),
    (Shifted(1, 0), Lights((-32767, 5), (-32766, 5))),
    (Shifted(0, -1), Lights((4, -32766), (4, -32767))),
    (Shifted(0, -1), Lights((4, 32767), (4, 32766))),
    (Shifted(32768, 7), Lights((3, 4), (3, 4))),
    (Shifted(7, -32768), Lights((3, 4), (3, 4))),
    (
        Shifted(i32::MAX, i32::MIN),
        Lights((32767, -32767), (32767, -32767)),
    ),
];

// The same over the bitmap.
pub(crate) const BITMAP_DOTS: [(Shifted, Lights); 15] = [
    (Shifted(32767, -32767), Lights((-32767, 32767), (0, 0))),
    (Shifted(32767, -32767), Lights((-32759, 32767), (8, 0))),
    (Shifted(-32767, 32767), Lights((32767, -32767), (0, 0))),
    (Shifted(-32767, 32767), Lights((32767, -32763), (0, 4))),
    (Shifted(32767, 32767), Lights((-32760, -32764), (7, 3))),
    (Shifted(-32767, -32767), Lights((32767, 32767), (0, 0))),
    (Shifted(1, 0), Lights((-1, 0), (0, 0))),
    (Shifted(1, 0), Lights((7, 4), (8, 4))),
    (Shifted(0, -1), Lights((3, 5), (3, 4))),
    (Shifted(0, -1), Lights((8, 1), (8, 0))),
    (Shifted(-5, 3), Lights((13, 1), (8, 4))),
    (Shifted(-5, 3), Lights((5, -3), (0, 0))),
    (Shifted(32768, 1), Lights((8, 4), (8, 4))),
    (Shifted(1, -32768), Lights((3, 2), (3, 2))),
    (Shifted(i32::MIN, i32::MAX), Lights((1, 3), (1, 3))),
];

// A shift over the whole strip, and a dot that it does not show.
pub(crate) const OUTSIDE_STRIP: [(Shifted, Hides); 25] = [
    (Shifted(32767, -32767), Hides((1, 0))),
    (Shifted(32767, -32767), Hides((0, -1))),
    (Shifted(32767, -32767), Hides((-32768, 0))),
    (Shifted(32767, -32767), Hides((0, 32768))),
    (Shifted(32767, -32767), Hides((i32::MAX, 0))),
    (Shifted(32767, -32767), Hides((i32::MIN, 0))),
    (Shifted(32767, -32767), Hides((0, i32::MAX))),
    (Shifted(32767, -32767), Hides((0, i32::MIN))),
    (Shifted(32767, -32767), Hides((i32::MAX, i32::MAX))),
    (Shifted(32767, -32767), Hides((i32::MIN, i32::MIN))),
    (Shifted(32767, -32767), Hides((i32::MAX, i32::MIN))),
    (Shifted(32767, -32767), Hides((i32::MIN, i32::MAX))),
    (Shifted(-32767, 32767), Hides((-1, 0))),
    (Shifted(-32767, 32767), Hides((0, 1))),
    (Shifted(-32767, 32767), Hides((32768, 0))),
    (Shifted(-32767, 32767), Hides((0, -32768))),
    (Shifted(-32767, 32767), Hides((i32::MAX, i32::MIN))),
    (Shifted(-32767, 32767), Hides((i32::MIN, i32::MAX))),
    (Shifted(1, 0), Hides((32767, 0))),
    (Shifted(1, 0), Hides((-32768, 0))),
    (Shifted(1, 0), Hides((i32::MAX, 0))),
    (Shifted(1, 0), Hides((i32::MIN, 0))),
    (Shifted(32768, 0), Hides((32768, 0))),
    (Shifted(32768, 0), Hides((-32768, 0))),
    (Shifted(32768, 0), Hides((i32::MAX, i32::MIN))),
];

// The same over the bitmap; some have a place on it, and lie outside the world.
pub(crate) const OUTSIDE_BITMAP: [(Shifted, Hides); 25] = [
    (Shifted(32767, -32767), Hides((-32758, 32767))),
    (Shifted(32767, -32767), Hides((-32767, 32766))),
    (Shifted(32767, -32767), Hides((-32767, 32768))),
    (Shifted(32767, -32767), Hides((-32768, 32767))),
    (Shifted(32767, -32767), Hides((0, 0))),
    (Shifted(32767, -32767), Hides((i32::MAX, i32::MIN))),
    (Shifted(32767, -32767), Hides((i32::MIN, i32::MAX))),
    (Shifted(-32767, 32767), Hides((32768, -32767))),
    (Shifted(-32767, 32767), Hides((32766, -32767))),
    (Shifted(-32767, 32767), Hides((32767, -32762))),
    (Shifted(-32767, 32767), Hides((32767, -32768))),
    (Shifted(-32767, 32767), Hides((i32::MAX, i32::MIN))),
    (Shifted(-32767, 32767), Hides((i32::MIN, i32::MAX))),
    (Shifted(1, 0), Hides((8, 0))),
    (Shifted(1, 0), Hides((-2, 0))),
    (Shifted(1, 0), Hides((-1, -1))),
    (Shifted(1, 0), Hides((-1, 5))),
    (Shifted(1, 0), Hides((i32::MAX, 0))),
    (Shifted(1, 0), Hides((i32::MIN, 0))),
    (Shifted(1, 0), Hides((0, i32::MAX))),
    (Shifted(1, 0), Hides((0, i32::MIN))),
    (Shifted(32768, 0), Hides((9, 0))),
    (Shifted(32768, 0), Hides((-1, 0))),
    (Shifted(32768, 0), Hides((-32768, 0))),
    (Shifted(32768, 0), Hides((i32::MAX, i32::MIN))),
];

// Each row has a strip of its own.
pub(crate) fn windows_on_strips() -> Tally {
    STRIP_WINDOWS
        .iter()
        .fold(Tally::default(), |tally, (bounds, (dx, dy), window)| {
            tally.with(OnStrip(*bounds).tries(&Shifted(*dx, *dy), &Shows(*window)))
        })
}
