// A shift shows a plate from another place.
ghost use Rattle.std.specs.Prelude.{◌≡◌, true, if◌then◌else◌};
ghost use Rattle.plate.specs.World.{world, window_of};
ghost use Rattle.plate.specs.Answers.{told};
ghost use Rattle.plate.specs.Plates.{shift};
ghost use Rattle.layer.specs.Views.{view};
ghost use Rattle.layer.specs.Layers.{layer_number, shift_layer, shift_by};
ghost use Rattle.layer.specs.LayerLaws.{shift_near};

use crate::windows::{clipped, spans};
use crate::{LayerRefusal, Over, Overlay};
use plate::{Dot, Facing, Window, in_world};

// A shift by two numbers, as they were given.
// They are looked at whenever it moves a dot: were they held to the world by a ghost field, no function could be proved that lays a shift over a plate on lent memory.
#[derive(Clone, Copy, Debug, PartialEq, Eq)]
pub struct Shifting {
    dx: i32,
    dy: i32,
}

pub type Shift<P> = Over<Shifting, P>;

// Whether a shift may go by these numbers. The public calls take the two as the rules name them; after that `Shifting` holds them.
pub fn check_shift(dx: i32, dy: i32) -> Result<(), LayerRefusal>
    ensures { told layer_number result ≡ (if world (dx, dy) then Ok tt else Err 1) }
{
    if in_world((dx, dy)) {
        Ok(())
    } else {
        Err(LayerRefusal::BadShift)
    }
}

// A shift over a plate. Where one of its numbers is refused, it goes by 0 and 0.
pub fn shift_over<P>(dx: i32, dy: i32, below: P) -> Shift<P>
    ensures layer { shift_layer result.layer ≡ shift_by dx dy }
    ensures below { result.below ≡ below }
{
    let layer = Shifting { dx, dy };
    Over { layer, below }
}

impl Shifting {
    // The numbers that the shift goes by.
    #[tactic(auto, unfolding(plate::specs::World::within, plate::specs::World::world))]
    fn held(self) -> Dot
        ensures layer { shift result.0 result.1 ≡ shift_layer self }
        ensures near { world result ≡ true }
    {
        if in_world((self.dx, self.dy)) {
            (self.dx, self.dy)
        } else {
            (0, 0)
        }
    }
}

// The window above a shift by numbers of the world, by the window that these bounds make below.
// They come one by one: with a `Dot` the check did not find that each of its two numbers is one of the world.
#[tactic(auto, using(crate::proofs::Bounds::world_apart))]
fn window_above(dx: i32, dy: i32, below: Window) -> Window
    requires { world (dx, dy) ≡ true }
    ensures { result ≡ view (shift dx dy) (window_of below) }
{
    let (across, along) = spans(below);
    clipped(Window {
        left: across.low - dx,
        top: along.low - dy,
        right: across.high - dx,
        bottom: along.high - dy,
    })
}

impl Overlay for Shifting {
    ghost layer = { shift_layer };

    ghost small = { λ s. shift_near s.dx s.dy };

    #[tactic(auto, using(crate::proofs::Bounds::handing), unfolding(plate::specs::Piles::handable_dot))]
    fn step(&self, at: Dot) -> Option<Dot> {
        let (dx, dy) = self.held();
        Some((at.0.checked_add(dx)?, at.1.checked_add(dy)?))
    }

    fn admits(&self, _at: Dot) -> bool {
        true
    }

    fn view(&self, below: Window) -> Window {
        let (dx, dy) = self.held();
        window_above(dx, dy, below)
    }

    fn turn(&self) -> Facing {
        Facing::Same
    }
}
