// Numbers that keep their limits: dots of the world, and semi-axes.
ghost use Rattle.std.specs.Prelude.{◌≡◌, ◌≤◌, true, pos, ◌+ℤ◌, ◌-ℤ◌, if◌then◌else◌};
ghost use Rattle.plate.specs.World.{within, world};

use crate::FigureRefusal;
use ellipse::Ellipse;
use plate::{Dot, in_world};

// A dot of the world.
#[derive(Clone, Copy, Debug, PartialEq, Eq)]
pub(crate) struct WorldDot {
    pub(crate) at: Dot,
    ghost worldly: { world at ≡ true },
}

// A number some steps from one of the world, back or forth: the definitions tell corners and steps toward an end so.
// What it requires is held by the type of its caller.
#[tactic(auto, using(std::proofs::lemmas::Int::ints), unfolding(plate::specs::World::within))]
fn stepped(from: i32, steps: u16, back: bool) -> i32
    requires { within from ≡ true }
    ensures { result ≡ (if back then from -ℤ pos steps else from +ℤ pos steps) }
{
    let steps = steps as i32;
    if back { from - steps } else { from + steps }
}

impl WorldDot {
    // The dot so many steps along x and along y from this one, each of them back or forth.
    #[tactic(auto, using(std::proofs::lemmas::Int::ints), unfolding(plate::specs::World::within, plate::specs::World::world))]
    pub(crate) fn moved(self, steps: (u16, u16), back: (bool, bool)) -> Dot
        ensures across { result.0 ≡ (if back.0 then self.at.0 -ℤ pos steps.0 else self.at.0 +ℤ pos steps.0) }
        ensures along { result.1 ≡ (if back.1 then self.at.1 -ℤ pos steps.1 else self.at.1 +ℤ pos steps.1) }
    {
        (
            stepped(self.at.0, steps.0, back.0),
            stepped(self.at.1, steps.1, back.1),
        )
    }
}

impl TryFrom<Dot> for WorldDot {
    type Error = FigureRefusal;

    ghost use Rattle.figure.specs.Limits.{DotIs};

    ghost try_from_gives = { DotIs };

    fn try_from(at: Dot) -> Result<WorldDot, FigureRefusal> {
        if in_world(at) {
            Ok(WorldDot { at })
        } else {
            Err(FigureRefusal::BeyondWorld)
        }
    }
}

// An ellipse with semi-axes that a figure may have.
#[derive(Clone, Copy, Debug, PartialEq, Eq)]
pub(crate) struct SemiAxes {
    pub(crate) ellipse: Ellipse,
    ghost narrow: { ellipse.a ≤ 4095 },
    ghost low: { ellipse.b ≤ 4095 },
}

impl SemiAxes {
    ghost use Rattle.figure.specs.Limits.{AxisIs};

    // A semi-axis as a count.
    #[tactic(auto, using(std::proofs::lemmas::Int::ints), unfolding(crate::specs::Outlines::semi_axis))]
    fn checked(n: i32) -> Result<u16, FigureRefusal>
        ensures { AxisIs n result }
    {
        if (0..=4095).contains(&n) {
            Ok(n as u16)
        } else {
            Err(FigureRefusal::BadAxis)
        }
    }
}

// From two numbers as they are given: the public calls name them one by one, and here they become a type.
impl TryFrom<(i32, i32)> for SemiAxes {
    type Error = FigureRefusal;

    ghost use Rattle.figure.specs.Limits.{AxesAre};

    ghost try_from_gives = { AxesAre };

    fn try_from(axes: (i32, i32)) -> Result<SemiAxes, FigureRefusal> {
        let ellipse = Ellipse {
            a: SemiAxes::checked(axes.0)?,
            b: SemiAxes::checked(axes.1)?,
        };
        Ok(SemiAxes { ellipse })
    }
}
