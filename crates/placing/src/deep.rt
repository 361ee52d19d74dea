// Three layers over a plate, in two orders, for each of the eight turns.
use crate::bench::{Bounds, OnStrip, Pile, window_of};
use crate::claims::{Claim, Hides, Lights, Shows};
use layer::{mask_over, shift_over, turn_over};
use plate::{Dot, Plate};

// The strip has the bitmap's window.
pub(crate) const STRIP: OnStrip = OnStrip((0, 0, 8, 4));

const SHIFT: Dot = (2, -1);

// The mask that lies on top.
const UPPER: Bounds = (-6, -6, 3, 4);

// The mask that lies on the plate.
const LOWER: Bounds = (1, 0, 6, 3);

// A mask over a shift over the turn of this number.
#[derive(Clone, Copy)]
pub(crate) struct MaskOnTop(i32);

impl Pile for MaskOnTop {
    fn meets<P: Plate + Drop, C: Claim>(&self, plate: P, claim: &C) -> bool {
        let shifted = shift_over(SHIFT.0, SHIFT.1, turn_over(self.0, plate));
        claim.holds(&mut mask_over(window_of(UPPER), shifted))
    }
}

// The turn of this number over a shift over a mask.
#[derive(Clone, Copy)]
pub(crate) struct TurnOnTop(i32);

impl Pile for TurnOnTop {
    fn meets<P: Plate + Drop, C: Claim>(&self, plate: P, claim: &C) -> bool {
        let masked = mask_over(window_of(LOWER), plate);
        let shifted = shift_over(SHIFT.0, SHIFT.1, masked);
        claim.holds(&mut turn_over(self.0, shifted))
    }
}

// The window above the pile, a dot that it shows, the dot's place below, and a dot that only the mask hides.
#[derive(Clone, Copy)]
pub(crate) struct Tells(Bounds, Dot, Dot, Dot);

impl Claim for Tells {
    // The hidden dot is refused before the other is lit.
    fn holds<P: Plate>(&self, pile: &mut P) -> bool {
        let Tells(window, above, below, hidden) = *self;
        Shows(window).holds(pile) && Hides(hidden).holds(pile) && Lights(above, below).holds(pile)
    }

    fn lights(&self) -> Option<Dot> {
        Some(self.2)
    }
}

pub(crate) const MASK_ON_TOP: [(MaskOnTop, Tells); 8] = [
    (MaskOnTop(0), Tells((-2, 1, 3, 4), (3, 4), (5, 3), (4, 2))),
    (
        MaskOnTop(1),
        Tells((-2, -6, 2, 1), (1, -6), (7, 3), (0, -7)),
    ),
    (
        MaskOnTop(2),
        Tells((-6, -3, -2, 1), (-5, -2), (3, 3), (-7, 0)),
    ),
    (
        MaskOnTop(3),
        Tells((-6, 1, -2, 4), (-6, 4), (3, 4), (-3, 5)),
    ),
    (
        MaskOnTop(4),
        Tells((-6, 1, -2, 4), (-6, 2), (4, 1), (-7, 2)),
    ),
    (MaskOnTop(5), Tells((-2, -3, 3, 1), (3, -3), (5, 4), (4, 0))),
    (MaskOnTop(6), Tells((-2, 1, 2, 4), (-1, 4), (3, 1), (0, 5))),
    (
        MaskOnTop(7),
        Tells((-6, -6, -2, 1), (-3, -6), (7, 1), (-4, -7)),
    ),
];

pub(crate) const TURN_ON_TOP: [(TurnOnTop, Tells); 8] = [
    (TurnOnTop(0), Tells((-1, 1, 4, 4), (4, 2), (6, 1), (5, 3))),
    (TurnOnTop(1), Tells((1, -4, 4, 1), (2, -4), (6, 1), (3, -5))),
    (
        TurnOnTop(2),
        Tells((-4, -4, 1, -1), (-4, -2), (6, 1), (-5, -3)),
    ),
    (
        TurnOnTop(3),
        Tells((-4, -1, -1, 4), (-2, 4), (6, 1), (-3, 5)),
    ),
    (TurnOnTop(4), Tells((-4, 1, 1, 4), (-4, 2), (6, 1), (-5, 3))),
    (
        TurnOnTop(5),
        Tells((-1, -4, 4, -1), (4, -2), (6, 1), (5, -3)),
    ),
    (TurnOnTop(6), Tells((1, -1, 4, 4), (2, 4), (6, 1), (3, 5))),
    (
        TurnOnTop(7),
        Tells((-4, -4, -1, 1), (-2, -4), (6, 1), (-3, -5)),
    ),
];
