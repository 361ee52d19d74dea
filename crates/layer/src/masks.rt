// A mask shows the dots of its window, and hides all others.
ghost use Rattle.std.specs.Prelude.{◌≡◌, refl};
ghost use Rattle.plate.specs.World.{window_of};
ghost use Rattle.plate.specs.Plates.{mask};
ghost use Rattle.layer.specs.Layers.{mask_layer};

use crate::windows::{clipped, overlapping};
use crate::{Over, Overlay};
use plate::{Dot, Facing, Window};

// A mask by the window that it shows.
#[derive(Clone, Copy, Debug, PartialEq, Eq)]
pub struct Masking {
    shown: Window,
}

pub type Mask<P> = Over<Masking, P>;

// A mask over a plate. Bounds that `Window::check` refuses show nothing.
pub fn mask_over<P>(bounds: Window, below: P) -> Mask<P>
    ensures layer { mask_layer result.layer ≡ mask (window_of bounds) }
    ensures below { result.below ≡ below }
{
    let layer = Masking {
        shown: bounds.made(),
    };
    Over { layer, below }
}

impl Overlay for Masking {
    ghost layer = { mask_layer };

    ghost small = { λ s. refl };

    fn step(&self, at: Dot) -> Option<Dot> {
        Some(at)
    }

    fn admits(&self, at: Dot) -> bool {
        self.shown.contains(at)
    }

    fn view(&self, below: Window) -> Window {
        clipped(overlapping(self.shown, below.made()))
    }

    fn turn(&self) -> Facing {
        Facing::Same
    }
}
