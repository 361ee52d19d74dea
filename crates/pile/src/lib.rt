// The way down a pile of masks, shifts and turns: where dots lie on its lowest plate, and how it turns what is drawn through it.
// The answers are exact wherever the pile shows a dot at all, or has at most 65,000 layers; the laws of maps stand on `place_of`.
// Read on in `plate`'s specs/Piles.antt and in docs/LAYERS.md.
#![tactic(auto)]

ghost use Rattle.std.specs.Prelude.{◌≡◌, ◌%◌, ◌≤◌, true, [], length, Some, ◌==◌, ◌≢◌};
ghost use Rattle.plate.specs.World.{world, empty};
ghost use Rattle.plate.specs.Plates.{place};
ghost use Rattle.plate.specs.Piles.{carried, facing_of, exchanges, exchangings, MapLaws};
ghost use Rattle.pile.specs.Carried.{carried_line};

use plate::{Dot, Facing, Plate};

// Where a dot lies on the lowest plate; none where a number on the way is too large to be handed to any call.
pub fn place_of<P: Plate>(plate: &mut P, at: Dot) -> Option<Dot>
    ensures value { result ≡ carried (P.Plate.layers plate.old) at }
    // a pile that shows a dot at all loses no number of the world on the way
    ensures exact { world at ≡ true → (P.Plate.window plate.old ≢ empty) → result ≡ Some (place (P.Plate.layers plate.old) at) }
    // nor does a pile of at most 65,000 layers
    ensures deep { world at ≡ true → length (P.Plate.layers plate.old) ≤ 65000 → result ≡ Some (place (P.Plate.layers plate.old) at) }
    ensures maps { MapLaws (P.Plate.layers plate.old) }
    ensures same { P.Plate.strikes plate.old [] plate.new }
{
    plate.carry(at)
}

// How a pile turns what is drawn through it.
pub fn facing_of<P: Plate>(plate: &mut P) -> Facing
    ensures value { result ≡ facing_of (P.Plate.layers plate.old) }
    ensures same { P.Plate.strikes plate.old [] plate.new }
{
    plate.facing()
}

// Whether a pile exchanges the axes: where an odd number of its turns do.
#[tactic(auto, using(crate::proofs::Maps::exchanges_odd))]
pub fn exchanges_axes<P: Plate>(plate: &mut P) -> bool
    ensures value { result ≡ exchanges (facing_of (P.Plate.layers plate.old)) }
    ensures odd { result ≡ (exchangings (P.Plate.layers plate.old) % 2 == 1) }
    ensures same { P.Plate.strikes plate.old [] plate.new }
{
    facing_of(plate).exchanges()
}

// A line carried down: its ends on the lowest plate.
pub fn line_below<P: Plate>(plate: &mut P, from: Dot, to: Dot) -> Option<(Dot, Dot)>
    ensures value { result ≡ carried_line (P.Plate.layers plate.old) from to }
    ensures same { P.Plate.strikes plate.old [] plate.new }
{
    Some((plate.carry(from)?, plate.carry(to)?))
}
