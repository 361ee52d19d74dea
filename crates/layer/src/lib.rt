// Masks, shifts and turns over any plate, in any pile.
// A layer over a plate is a plate: it keeps all the laws, its window, lit dots and shots are those below seen through it, and its history is the history of the places below.
// `Over` has what all layers share; `Overlay` is what one layer does. How a pile maps dots is told by the crate `pile`.
// Read on in specs/Layers.antt and specs/Views.antt, in `plate`'s specs/Piles.antt, and in docs/LAYERS.md.
#![tactic(auto, unfolding(plate::specs::Piles::handable, plate::specs::Piles::handable_dot))]

ghost use Rattle.std.specs.Prelude.{◌≡◌, true, ◌&&◌, [], ◌∷◌, Some, None, if◌then◌else◌};
ghost use Rattle.plate.specs.declared.Window.{Window};
ghost use Rattle.plate.specs.World.{world, window_of};
ghost use Rattle.plate.specs.Plates.{Layer, step, admits, near};
ghost use Rattle.plate.specs.Piles.{carried, turn_of};
ghost use Rattle.layer.specs.Views.{view, place_below};
ghost use Rattle.layer.specs.Layers.{layer_number};
ghost use Rattle.layer.specs.LayerLaws.{layer_laws, Lowered};

mod masks;
mod shifts;
mod turns;
mod windows;

pub use masks::{Mask, Masking, mask_over};
use plate::{Dot, Facing, Ink, Plate, Refusal, StrikeRefusal, Window, in_world};
pub use shifts::{Shift, Shifting, check_shift, shift_over};
use thiserror::Error;
pub use turns::{Turn, Turning, check_turn, turn_over};

// Why a shift or a turn was refused.
#[derive(Clone, Copy, Debug, PartialEq, Eq, Error)]
pub enum LayerRefusal {
    #[error("a shift goes by numbers of the world alone")]
    BadShift,
    #[error("turns have the numbers 0 to 7")]
    BadTurn,
}

impl Refusal for LayerRefusal {
    ghost number = { layer_number };

    fn number(&self) -> u8 {
        match self {
            LayerRefusal::BadShift => 1,
            LayerRefusal::BadTurn => 1,
        }
    }
}

// What one layer does with dots and windows, whatever plate lies below it.
pub trait Overlay {
    ghost layer: { Self → Layer };

    ghost small: { (s : Self) → near (layer s) ≡ true };

    // The place below of a dot above; none where it can be handed to no call.
    fn step(&self, at: Dot) -> Option<Dot>
        ensures { result ≡ carried (layer self.now ∷ []) at };

    // The same for every dot: one whose place no call can be handed stays where it is.
    // Not `final`: code that keeps layers of several kinds asks for it behind a `&dyn Overlay`.
    fn map(&self, at: Dot) -> Dot
        ensures { result ≡ place_below (layer self.now) at }
    {
        self.step(at).unwrap_or(at)
    }

    // Whether the layer hides no such dot. Neither this nor `turn` has a body here: it would have to hold of every layer.
    fn admits(&self, at: Dot) -> bool
        ensures { result ≡ admits (layer self.now) at };

    // The window above, by the window that these bounds make below.
    fn view(&self, below: Window) -> Window
        ensures { result ≡ view (layer self.now) (window_of below) };

    fn turn(&self) -> Facing
        ensures { result ≡ turn_of (layer self.now) };
}

// A layer over a plate.
#[derive(Drop)]
pub struct Over<L, P> {
    layer: L,
    below: P,
}

impl<L: Overlay, P> Over<L, P> {
    // The place that the plate below may be asked about, for a dot of the world that is not hidden.
    #[tactic(auto, using(crate::proofs::Opening::place_opened))]
    fn opened(&self, at: Dot) -> Option<Dot>
        ensures { result ≡ (if world at && admits (L.Overlay.layer self.now.layer) at then Some (step (L.Overlay.layer self.now.layer) at) else None) }
    {
        if in_world(at) && self.layer.admits(at) {
            Some(self.layer.map(at))
        } else {
            None
        }
    }
}

impl<L: Overlay, P: Plate> Plate for Over<L, P> {
    ghost window = { λ s. view (L.Overlay.layer s.layer) (P.Plate.window s.below) };

    ghost lit = { λ s p. P.Plate.lit s.below (step (L.Overlay.layer s.layer) p) };

    ghost shots = { λ s. P.Plate.shots s.below };

    ghost strikes = { Lowered (λ s. L.Overlay.layer s.layer) (λ s. s.below) P.Plate.strikes };

    ghost layers = { λ s. L.Overlay.layer s.layer ∷ P.Plate.layers s.below };

    ghost floor = { λ s. P.Plate.floor s.below };

    ghost laws = { layer_laws (λ s. L.Overlay.layer s.layer) (λ s. s.below) (λ s. L.Overlay.small s.layer) P.Plate.laws };

    fn window(&mut self) -> Window {
        let below = self.below.window();
        self.layer.view(below)
    }

    fn shots(&mut self) -> u32 {
        self.below.shots()
    }

    #[tactic(auto, using(crate::proofs::Opening::inside_opened))]
    fn ask(&mut self, at: Dot) -> Option<bool> {
        let place = self.opened(at)?;
        self.below.ask(place)
    }

    #[tactic(auto, using(crate::proofs::Opening::inside_opened))]
    fn strike(&mut self, at: Dot, ink: Ink) -> Result<(), StrikeRefusal> {
        let place = self.opened(at).ok_or(StrikeRefusal::Outside)?;
        self.below.strike(place, ink)
    }

    fn carry(&mut self, at: Dot) -> Option<Dot> {
        self.below.carry(self.layer.step(at)?)
    }

    fn facing(&mut self) -> Facing {
        let below = self.below.facing();
        self.layer.turn().then(below)
    }
}
