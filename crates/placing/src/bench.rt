// The bare plates that piles stand on, and what their memory shows.
ghost use Rattle.std.specs.Prelude.{◌≡◌};

use crate::claims::Claim;
use bitmap::Bitmap;
use plate::{Dot, Ink, Plate, Window};
use strip::{Record, Strip};

// Left, top, right and bottom.
pub(crate) type Bounds = (i32, i32, i32, i32);

// The bounds of the world.
pub(crate) const WHOLE: Bounds = (-32767, -32767, 32767, 32767);

// How a window without dots is told.
pub(crate) const EMPTY: Bounds = (1, 1, 0, 0);

// The bitmap of every table: nine by five dots, two bytes to a row.
const WIDTH: u32 = 9;

const HEIGHT: u32 = 5;

type Bytes = [u8; 10];

// How many shots every bare plate has.
pub(crate) const SHOTS: u32 = 2;

// The list of every strip.
type Records = [Record; 2];

// A record that no strike leaves.
const BLANK: Record = Record {
    at: (i32::MAX, i32::MIN),
    ink: Ink::Clear,
};

// Layers that can be laid over any plate.
pub(crate) trait Pile {
    // Whether the pile that they make over a plate answers a claim right.
    fn meets<P: Plate + Drop, C: Claim>(&self, plate: P, claim: &C) -> bool;
}

// A bare plate, made anew for each claim.
pub(crate) trait Bench {
    // Whether a pile over the plate answers right, and the plate's memory then shows no more than the dot that was lit.
    fn tries<P: Pile, C: Claim>(&self, pile: &P, claim: &C) -> bool;
}

// A strip of these bounds.
#[derive(Clone, Copy)]
pub(crate) struct OnStrip(pub(crate) Bounds);

// All dots of the world.
pub(crate) const STRIP: OnStrip = OnStrip(WHOLE);

// The bitmap, on memory whose bytes all begin as this one.
#[derive(Clone, Copy)]
pub(crate) struct OnBitmap(u8);

pub(crate) const UNLIT_BITMAP: OnBitmap = OnBitmap(0);

// On it a hidden dot is told as nothing though it is lit.
pub(crate) const LIT_BITMAP: OnBitmap = OnBitmap(255);

impl Bench for OnStrip {
    fn tries<P: Pile, C: Claim>(&self, pile: &P, claim: &C) -> bool {
        let mut records: Records = [BLANK; 2];
        let strip = Strip::new(window_of(self.0), &mut records);
        let holds = pile.meets(strip, claim);
        holds && records == records_of(claim.lights())
    }
}

impl Bench for OnBitmap {
    fn tries<P: Pile, C: Claim>(&self, pile: &P, claim: &C) -> bool {
        let before: Bytes = [self.0; 10];
        let mut bytes = before;
        let bitmap = Bitmap::new(WIDTH, HEIGHT, SHOTS, &mut bytes);
        let holds = pile.meets(bitmap, claim);
        holds
            && match claim.lights() {
                Some(at) => lit_alone(&mut bytes, at),
                None => bytes == before,
            }
    }
}

// A function: rows read shortest as tuples, and no `From` may be written for a tuple and another crate's `Window`.
pub(crate) fn window_of(bounds: Bounds) -> Window
    ensures { result ≡ record { left = bounds.0; top = bounds.1; right = bounds.2; bottom = bounds.3 } }
{
    let (left, top, right, bottom) = bounds;
    Window {
        left,
        top,
        right,
        bottom,
    }
}

// The records of one strike that lit this dot, or of none at all.
fn records_of(dot: Option<Dot>) -> Records {
    let first = dot.map_or(
        BLANK,
        |at| Record {
            at,
            ink: Ink::Light,
        },
    );
    [first, BLANK]
}

// How many bits are one. By `fold`, since `sum` asks that no sum of the numbers before it passes 32 bits.
fn ones(bytes: &Bytes) -> u32 {
    bytes
        .iter()
        .fold(0, |sum, byte| byte.count_ones().saturating_add(sum))
}

// Whether this dot of the bare bitmap is lit, and no other bit is one.
fn lit_alone(bytes: &mut Bytes, at: Dot) -> bool {
    ones(bytes) == 1 && Bitmap::new(WIDTH, HEIGHT, 0, bytes).ask(at) == Some(true)
}
