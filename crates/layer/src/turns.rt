// A turn shows a plate turned or mirrored, in one of eight ways.
ghost use Rattle.std.specs.Prelude.{◌≡◌, [], ◌∷◌, if◌then◌else◌, unsigned_abs, refl};
ghost use Rattle.plate.specs.World.{window_of};
ghost use Rattle.plate.specs.Answers.{told};
ghost use Rattle.plate.specs.Plates.{turn};
ghost use Rattle.plate.specs.Piles.{facing_number, carried};
ghost use Rattle.layer.specs.Views.{unturned as unturned_of};
ghost use Rattle.layer.specs.Layers.{layer_number, turn_number, turn_layer, MakesTurn};

use crate::windows::{clipped, spans, window_by};
use crate::{LayerRefusal, Over, Overlay};
use plate::{Dot, Facing, Window};

// A turn by the way in which it lays the plane on itself.
#[derive(Clone, Copy, Debug, PartialEq, Eq)]
pub struct Turning {
    facing: Facing,
}

pub type Turn<P> = Over<Turning, P>;

// The turn of a number: the way back from `From<Facing> for u8`.
impl TryFrom<i32> for Turning {
    type Error = LayerRefusal;

    ghost try_from_gives = { MakesTurn };

    fn try_from(number: i32) -> Result<Turning, LayerRefusal> {
        let facing = match number {
            0 => Facing::Same,
            1 => Facing::Quarter,
            2 => Facing::Half,
            3 => Facing::Back,
            4 => Facing::AcrossX,
            5 => Facing::AcrossY,
            6 => Facing::Swap,
            7 => Facing::Anti,
            _ => return Err(LayerRefusal::BadTurn),
        };
        Ok(Turning { facing })
    }
}

// Whether there is a turn of this number. It is taken as it is given, here and in `turn_over`: a type for it would ask more of callers.
pub fn check_turn(number: i32) -> Result<(), LayerRefusal>
    ensures { told layer_number result ≡ (if turn_number number then Ok tt else Err 1) }
{
    Turning::try_from(number)?;
    Ok(())
}

// A turn over a plate. A refused number makes turn 0.
pub fn turn_over<P>(number: i32, below: P) -> Turn<P>
    ensures layer { facing_number result.layer.facing ≡ (if turn_number number then unsigned_abs number else 0) }
    ensures below { result.below ≡ below }
{
    let layer = Turning::try_from(number).unwrap_or(Turning {
        facing: Facing::Same,
    });
    Over { layer, below }
}

// Where a turn sends a dot; none where a number of its place can be handed to no call.
fn turned(facing: Facing, at: Dot) -> Option<Dot>
    ensures { result ≡ carried (turn facing ∷ []) at }
{
    let (x, y) = at;
    Some(match facing {
        Facing::Same => (x, y),
        Facing::Quarter => (y.checked_neg()?, x),
        Facing::Half => (x.checked_neg()?, y.checked_neg()?),
        Facing::Back => (y, x.checked_neg()?),
        Facing::AcrossX => (x.checked_neg()?, y),
        Facing::AcrossY => (x, y.checked_neg()?),
        Facing::Swap => (y, x),
        Facing::Anti => (y.checked_neg()?, x.checked_neg()?),
    })
}

// The dots that a turn sends into the window that these bounds make.
#[tactic(auto, unfolding(crate::specs::Views::unturned))]
fn unturned(facing: Facing, bounds: Window) -> Window
    ensures { result ≡ unturned_of facing (window_of bounds) }
{
    let (across, along) = spans(bounds);
    let first = across.flipped(facing.negates_first());
    let second = along.flipped(facing.negates_second());
    if facing.exchanges() {
        window_by(second, first)
    } else {
        window_by(first, second)
    }
}

impl Overlay for Turning {
    ghost layer = { turn_layer };

    ghost small = { λ s. refl };

    fn step(&self, at: Dot) -> Option<Dot> {
        turned(self.facing, at)
    }

    fn admits(&self, _at: Dot) -> bool {
        true
    }

    fn view(&self, below: Window) -> Window {
        clipped(unturned(self.facing, below))
    }

    fn turn(&self) -> Facing {
        self.facing
    }
}
