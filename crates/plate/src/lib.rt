// Dots, windows, inks and refusals, and the trait of everything that can be asked and struck.
// Every plate promises the rules of `Plate`: what it tells, what a strike changes, and the exact history of its strikes.
// Read on in specs/World.antt, specs/Answers.antt and specs/Plates.antt, and in docs/PLATES.md.
#![tactic(auto, unfolding(crate::specs::World::within, crate::specs::World::world, crate::specs::World::inside, crate::specs::World::bounded, crate::specs::World::canonical))]

ghost use Rattle.std.specs.Prelude.{◌≡◌, ℕ, Bool, ◌&&◌, List, [], if◌then◌else◌, int_le};
ghost use Rattle.plate.specs.declared.Window.{Window};
ghost use Rattle.plate.specs.World.{Dot, within, world, inside, empty as no_dots, canonical as canonical_of, bounded, window_of, inked};
ghost use Rattle.plate.specs.Answers.{told, strike_number, window_number};
ghost use Rattle.plate.specs.Piles.{facing_number, exchanges as exchanges_axes, negates_first, negates_second, facing_by, joined_turn, facing_of, carried};
ghost use Rattle.plate.specs.Plates.{Strike, Meaning, Layer, Laws, asked, strike_answer, accepted};

use thiserror::Error;

// A dot by its numbers: to the right, and downward.
pub type Dot = (i32, i32);

// An ink makes a dot lit, makes it unlit, or changes it to the other.
#[derive(Clone, Copy, Debug, PartialEq, Eq)]
pub enum Ink {
    Light,
    Clear,
    Flip,
}

impl Ink {
    // Whether a dot is lit once it has taken this ink.
    pub fn over(self, lit: bool) -> bool
        ensures { result ≡ inked self lit }
    {
        match self {
            Ink::Light => true,
            Ink::Clear => false,
            Ink::Flip => !lit,
        }
    }
}

// The eight ways in which a turn lays the plane on itself, in the order of their numbers 0 to 7.
#[derive(Clone, Copy, Debug, PartialEq, Eq)]
pub enum Facing {
    Same,
    Quarter,
    Half,
    Back,
    AcrossX,
    AcrossY,
    Swap,
    Anti,
}

impl Facing {
    // Whether this turn exchanges the axes.
    pub fn exchanges(self) -> bool
        ensures { result ≡ exchanges_axes self }
    {
        match self {
            Facing::Quarter | Facing::Back | Facing::Swap | Facing::Anti => true,
            Facing::Same | Facing::Half | Facing::AcrossX | Facing::AcrossY => false,
        }
    }

    // Whether it negates the first of the numbers that it then answers.
    pub fn negates_first(self) -> bool
        ensures { result ≡ negates_first self }
    {
        match self {
            Facing::Quarter | Facing::Half | Facing::AcrossX | Facing::Anti => true,
            Facing::Same | Facing::Back | Facing::AcrossY | Facing::Swap => false,
        }
    }

    // And the second.
    pub fn negates_second(self) -> bool
        ensures { result ≡ negates_second self }
    {
        match self {
            Facing::Half | Facing::Back | Facing::AcrossY | Facing::Anti => true,
            Facing::Same | Facing::Quarter | Facing::AcrossX | Facing::Swap => false,
        }
    }

    // Which numbers this turn negates, by their places after a further exchange or none.
    fn negations(self, exchange: bool) -> (bool, bool)
        ensures { result ≡ ((if exchange then negates_second self else negates_first self), (if exchange then negates_first self else negates_second self)) }
    {
        if exchange {
            (self.negates_second(), self.negates_first())
        } else {
            (self.negates_first(), self.negates_second())
        }
    }

    fn by_parts(exchange: bool, first: bool, second: bool) -> Facing
        ensures { result ≡ facing_by exchange first second }
    {
        match (exchange, first, second) {
            (false, false, false) => Facing::Same,
            (false, false, true) => Facing::AcrossY,
            (false, true, false) => Facing::AcrossX,
            (false, true, true) => Facing::Half,
            (true, false, false) => Facing::Swap,
            (true, false, true) => Facing::Back,
            (true, true, false) => Facing::Quarter,
            (true, true, true) => Facing::Anti,
        }
    }

    // The one turn that is this one and then another.
    pub fn then(self, next: Facing) -> Facing
        ensures { result ≡ joined_turn self next }
    {
        let (first, second) = self.negations(next.exchanges());
        Facing::by_parts(
            self.exchanges() != next.exchanges(),
            next.negates_first() != first,
            next.negates_second() != second,
        )
    }
}

// The number of a turn, from 0 to 7.
impl From<Facing> for u8 {
    ghost from_gives = { λ facing number. number ≡ facing_number facing };

    fn from(facing: Facing) -> u8 {
        match facing {
            Facing::Same => 0,
            Facing::Quarter => 1,
            Facing::Half => 2,
            Facing::Back => 3,
            Facing::AcrossX => 4,
            Facing::AcrossY => 5,
            Facing::Swap => 6,
            Facing::Anti => 7,
        }
    }
}

// A cause of refusal, known to workshops by its number.
// Not `From` into `u8`: of a bound by it generic code knows a relation, and a printed refusal's clause needs the number.
// The numbers stay a `match` in each `impl`, since two causes may have one number.
pub trait Refusal {
    ghost number: { Self → ℕ };

    fn number(&self) -> u8
        ensures { result ≡ number self.now };
}

// Why a strike was refused.
#[derive(Clone, Copy, Debug, PartialEq, Eq, Error)]
pub enum StrikeRefusal {
    #[error("the dot lies outside the window")]
    Outside,
    #[error("the plate has no shots left")]
    NoShots,
}

impl Refusal for StrikeRefusal {
    ghost number = { strike_number };

    fn number(&self) -> u8 {
        match self {
            StrikeRefusal::Outside => 20,
            StrikeRefusal::NoShots => 21,
        }
    }
}

// Why a window's bounds were refused.
#[derive(Clone, Copy, Debug, PartialEq, Eq, Error)]
pub enum WindowRefusal {
    #[error("a bound lies outside the world")]
    BeyondWorld,
}

impl Refusal for WindowRefusal {
    ghost number = { window_number };

    fn number(&self) -> u8 {
        match self {
            WindowRefusal::BeyondWorld => 1,
        }
    }
}

fn is_within(z: i32) -> bool
    ensures { result ≡ within z }
{
    (-32767..=32767).contains(&z)
}

// Whether a dot is one of the world.
pub fn in_world(at: Dot) -> bool
    ensures { result ≡ world at }
{
    is_within(at.0) && is_within(at.1)
}

fn spans(low: i32, z: i32, high: i32) -> bool
    ensures { result ≡ (int_le low z && int_le z high) }
{
    (low..=high).contains(&z)
}

// A rectangle of dots; its four bounds belong to it.
#[derive(Clone, Copy, Debug, PartialEq, Eq)]
pub struct Window {
    pub left: i32,
    pub top: i32,
    pub right: i32,
    pub bottom: i32,
}

impl Window {
    // The window without dots is always told so.
    pub fn empty() -> Window
        ensures { result ≡ no_dots }
    {
        Window {
            left: 1,
            top: 1,
            right: 0,
            bottom: 0,
        }
    }

    fn is_bounded(self) -> bool
        ensures { result ≡ bounded self }
    {
        in_world((self.left, self.top)) && in_world((self.right, self.bottom))
    }

    // Whether these bounds may be given: each is a number of the world.
    pub fn check(self) -> Result<(), WindowRefusal>
        ensures { told window_number result ≡ (if bounded self then Ok tt else Err 1) }
    {
        if self.is_bounded() {
            Ok(())
        } else {
            Err(WindowRefusal::BeyondWorld)
        }
    }

    // The window with the dots of these bounds: crossed bounds give the empty one.
    pub fn canonical(self) -> Window
        ensures { result ≡ canonical_of self }
    {
        if self.left <= self.right && self.top <= self.bottom {
            self
        } else {
            Window::empty()
        }
    }

    // The window that these bounds make: refused ones give the empty one.
    pub fn made(self) -> Window
        ensures { result ≡ window_of self }
    {
        if self.is_bounded() {
            self.canonical()
        } else {
            Window::empty()
        }
    }

    pub fn contains(self, at: Dot) -> bool
        ensures { result ≡ inside self at }
    {
        spans(self.left, at.0, self.right) && spans(self.top, at.1, self.bottom)
    }
}

// A plate: a window of dots, each lit or unlit, and a number of shots.
// Questions and refused strikes may change how a plate is kept, and nothing of what it means: they leave the history as it was.
pub trait Plate {
    ghost window: { Self → Window };

    // outside the window this means nothing
    ghost lit: { Self → Dot → Bool };

    ghost shots: { Self → ℕ };

    // the history: one plate is the other after exactly these accepted strikes, in this order
    ghost strikes: { Self → List Strike → Self → Type 0 };

    // the masks, shifts and turns over the lowest plate, the top one first
    ghost layers: { Self → List Layer };

    // what the lowest plate means
    ghost floor: { Self → Meaning };

    ghost laws: { Laws window lit shots strikes layers floor };

    fn window(&mut self) -> Window
        ensures value { result ≡ window self.old }
        ensures same { strikes self.old [] self.new };

    fn shots(&mut self) -> u32
        ensures value { result ≡ shots self.old }
        ensures same { strikes self.old [] self.new };

    // Lit or unlit inside the window, and nothing outside it.
    fn ask(&mut self, at: Dot) -> Option<bool>
        ensures value { result ≡ asked (window self.old) (lit self.old) at }
        ensures same { strikes self.old [] self.new };

    // Inks a dot of the window, for one shot.
    fn strike(&mut self, at: Dot, ink: Ink) -> Result<(), StrikeRefusal>
        ensures answer { told strike_number result ≡ strike_answer (window self.old) (shots self.old) at }
        ensures history { strikes self.old (accepted (window self.old) (shots self.old) (at, ink)) self.new };

    // The place of a dot on the lowest plate, unless a number on the way can be handed to no call.
    fn carry(&mut self, at: Dot) -> Option<Dot>
        ensures value { result ≡ carried (layers self.old) at }
        ensures same { strikes self.old [] self.new };

    // All the turns over the lowest plate together.
    fn facing(&mut self) -> Facing
        ensures value { result ≡ facing_of (layers self.old) }
        ensures same { strikes self.old [] self.new };
}
