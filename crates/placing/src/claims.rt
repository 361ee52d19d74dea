// What is claimed of piles.
use crate::bench::{Bounds, SHOTS, window_of};
use pile::{exchanges_axes, facing_of, place_of};
use plate::{Dot, Ink, Plate, Refusal};

// What a pile should answer, whatever plate it lies on.
pub(crate) trait Claim {
    // Whether the pile answers so.
    fn holds<P: Plate>(&self, pile: &mut P) -> bool;

    // The place on the bare plate of the one dot that is lit thereby, if any.
    fn lights(&self) -> Option<Dot> {
        None
    }
}

// Its window has these bounds.
#[derive(Clone, Copy)]
pub(crate) struct Shows(pub(crate) Bounds);

impl Claim for Shows {
    fn holds<P: Plate>(&self, pile: &mut P) -> bool {
        pile.window() == window_of(self.0)
    }
}

// A dot above, and its place below; none where a number on the way is no `i32`.
#[derive(Clone, Copy)]
pub(crate) struct Places(pub(crate) Dot, pub(crate) Option<Dot>);

impl Claim for Places {
    fn holds<P: Plate>(&self, pile: &mut P) -> bool {
        place_of(pile, self.0) == self.1
    }
}

// An unlit dot above that can be lit, and its place below.
#[derive(Clone, Copy)]
pub(crate) struct Lights(pub(crate) Dot, pub(crate) Dot);

impl Claim for Lights {
    // All answers are right, before and after.
    fn holds<P: Plate>(&self, pile: &mut P) -> bool {
        let Lights(above, below) = *self;
        let placed = place_of(pile, above) == Some(below);
        let unlit = pile.ask(above) == Some(false) && pile.shots() == SHOTS;
        let struck = pile.strike(above, Ink::Light).is_ok();
        let lit = pile.ask(above) == Some(true) && pile.shots() == SHOTS - 1;
        placed && unlit && struck && lit
    }

    fn lights(&self) -> Option<Dot> {
        Some(self.1)
    }
}

// A dot that the pile does not show: it is told as nothing, and refused by 20 without a shot being taken.
#[derive(Clone, Copy)]
pub(crate) struct Hides(pub(crate) Dot);

impl Claim for Hides {
    fn holds<P: Plate>(&self, pile: &mut P) -> bool {
        let untold = pile.ask(self.0).is_none();
        let refused = pile
            .strike(self.0, Ink::Light)
            .is_err_and(|cause| cause.number() == 20);
        untold && refused && pile.shots() == SHOTS
    }
}

// The one turn that all turns of the pile make.
#[derive(Clone, Copy)]
pub(crate) struct Faces(pub(crate) u8);

impl Claim for Faces {
    fn holds<P: Plate>(&self, pile: &mut P) -> bool {
        u8::from(facing_of(pile)) == self.0
    }
}

// Whether the pile exchanges the axes.
#[derive(Clone, Copy)]
pub(crate) struct Exchanges(pub(crate) bool);

impl Claim for Exchanges {
    fn holds<P: Plate>(&self, pile: &mut P) -> bool {
        exchanges_axes(pile) == self.0
    }
}
