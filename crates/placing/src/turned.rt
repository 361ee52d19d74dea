// Each of the eight turns alone.
use crate::bench::{Bench, OnStrip, Pile, UNLIT_BITMAP};
use crate::claims::{Claim, Lights, Places, Shows};
use crate::tally::Tally;
use layer::turn_over;
use plate::Plate;

// The turn of this number.
#[derive(Clone, Copy)]
pub(crate) struct Turned(i32);

impl Pile for Turned {
    fn meets<P: Plate + Drop, C: Claim>(&self, plate: P, claim: &C) -> bool {
        claim.holds(&mut turn_over(self.0, plate))
    }
}

// A turn, a dot above it, and the dot's place below.
pub(crate) const DOTS: [(Turned, Lights); 36] = [
    (Turned(0), Lights((3, 1), (3, 1))),
    (Turned(1), Lights((3, 1), (-1, 3))),
    (Turned(2), Lights((3, 1), (-3, -1))),
    (Turned(3), Lights((3, 1), (1, -3))),
    (Turned(4), Lights((3, 1), (-3, 1))),
    (Turned(5), Lights((3, 1), (3, -1))),
    (Turned(6), Lights((3, 1), (1, 3))),
    (Turned(7), Lights((3, 1), (-1, -3))),
    (Turned(0), Lights((0, 0), (0, 0))),
    (Turned(1), Lights((0, 0), (0, 0))),
    (Turned(2), Lights((0, 0), (0, 0))),
    (Turned(3), Lights((0, 0), (0, 0))),
    (Turned(4), Lights((0, 0), (0, 0))),
    (Turned(5), Lights((0, 0), (0, 0))),
    (Turned(6), Lights((0, 0), (0, 0))),
    (Turned(7), Lights((0, 0), (0, 0))),
    (Turned(0), Lights((-2, 5), (-2, 5))),
    (Turned(1), Lights((-2, 5), (-5, -2))),
    (Turned(2), Lights((-2, 5), (2, -5))),
    (Turned(3), Lights((-2, 5), (5, 2))),
    (Turned(4), Lights((-2, 5), (2, 5))),
    (Turned(5), Lights((-2, 5), (-2, -5))),
    (Turned(6), Lights((-2, 5), (5, -2))),
    (Turned(7), Lights((-2, 5), (-5, 2))),
    (Turned(0), Lights((32767, -32767), (32767, -32767))),
    (Turned(1), Lights((32767, -32767), (32767, 32767))),
    (Turned(2), Lights((32767, -32767), (-32767, 32767))),
    (Turned(3), Lights((32767, -32767), (-32767, -32767))),
    (Turned(4), Lights((32767, -32767), (-32767, -32767))),
    (Turned(5), Lights((32767, -32767), (32767, 32767))),
    (Turned(6), Lights((32767, -32767), (-32767, 32767))),
    (Turned(7), Lights((32767, -32767), (32767, -32767))),
    // refused numbers make turn 0
    (Turned(8), Lights((3, 1), (3, 1))),
    (Turned(-1), Lights((3, 1), (3, 1))),
    (Turned(i32::MAX), Lights((3, 1), (3, 1))),
    (Turned(i32::MIN), Lights((3, 1), (3, 1))),
];

// The strip whose windows above stand in the next table.
pub(crate) const LOW_STRIP: OnStrip = OnStrip((-1, 2, 30, 400));

// A turn over that strip, and the window above.
pub(crate) const STRIP_WINDOWS: [(Turned, Shows); 10] = [
    (Turned(0), Shows((-1, 2, 30, 400))),
    (Turned(1), Shows((2, -30, 400, 1))),
    (Turned(2), Shows((-30, -400, 1, -2))),
    (Turned(3), Shows((-400, -1, -2, 30))),
    (Turned(4), Shows((-30, 2, 1, 400))),
    (Turned(5), Shows((-1, -400, 30, -2))),
    (Turned(6), Shows((2, -1, 400, 30))),
    (Turned(7), Shows((-400, -30, -2, 1))),
    (Turned(8), Shows((-1, 2, 30, 400))),
    (Turned(-1), Shows((-1, 2, 30, 400))),
];

// The same over the bitmap.
pub(crate) const BITMAP_WINDOWS: [(Turned, Shows); 10] = [
    (Turned(0), Shows((0, 0, 8, 4))),
    (Turned(1), Shows((0, -8, 4, 0))),
    (Turned(2), Shows((-8, -4, 0, 0))),
    (Turned(3), Shows((-4, 0, 0, 8))),
    (Turned(4), Shows((-8, 0, 0, 4))),
    (Turned(5), Shows((0, -4, 8, 0))),
    (Turned(6), Shows((0, 0, 4, 8))),
    (Turned(7), Shows((-4, -8, 0, 0))),
    (Turned(8), Shows((0, 0, 8, 4))),
    (Turned(-1), Shows((0, 0, 8, 4))),
];

// A turn, and a dot and its place on the bitmap.
pub(crate) const BITMAP_DOTS: [(Turned, Lights); 16] = [
    (Turned(0), Lights((7, 1), (7, 1))),
    (Turned(1), Lights((1, -7), (7, 1))),
    (Turned(2), Lights((-7, -1), (7, 1))),
    (Turned(3), Lights((-1, 7), (7, 1))),
    (Turned(4), Lights((-7, 1), (7, 1))),
    (Turned(5), Lights((7, -1), (7, 1))),
    (Turned(6), Lights((1, 7), (7, 1))),
    (Turned(7), Lights((-1, -7), (7, 1))),
    (Turned(0), Lights((8, 3), (8, 3))),
    (Turned(1), Lights((3, -8), (8, 3))),
    (Turned(2), Lights((-8, -3), (8, 3))),
    (Turned(3), Lights((-3, 8), (8, 3))),
    (Turned(4), Lights((-8, 3), (8, 3))),
    (Turned(5), Lights((8, -3), (8, 3))),
    (Turned(6), Lights((3, 8), (8, 3))),
    (Turned(7), Lights((-3, -8), (8, 3))),
];

// Places are told of dots that a plate does not show, too.
pub(crate) fn places_on_a_bitmap() -> Tally {
    DOTS.iter()
        .fold(Tally::default(), |tally, (turned, Lights(above, below))| {
            tally.with(UNLIT_BITMAP.tries(turned, &Places(*above, Some(*below))))
        })
}
