// A plate that keeps its dots as bits of the caller's bytes, eight dots to a byte.
// It promises the rules of every plate, and which bytes stand after any calls: spare bits and bytes past the last row never change.
// Read on in specs/Bitmaps.antt and docs/PLATES.md.
#![tactic(auto, unfolding(crate::specs::Bits::bit, crate::specs::Bits::bit_of, crate::specs::Bits::byte_of, crate::specs::Bitmaps::sized))]

ghost use Rattle.std.specs.Prelude.{◌≡◌, ◌-◌, ◌<◌, ◌≤◌, [], length, pos, if◌then◌else◌};
ghost use Rattle.plate.specs.Answers.{told};
ghost use Rattle.bitmap.specs.Bitmaps.{bitmap_number, side, sized, bitmap_meaning, new_bitmap, Placed, BitmapStrikes, SparesStay};
ghost use Rattle.bitmap.specs.BitmapLaws.{bitmap_laws};

mod places;

use places::{Place, row_bytes};
use plate::{Dot, Facing, Ink, Plate, Refusal, StrikeRefusal, Window};
use thiserror::Error;

// Why a bitmap's size was refused.
#[derive(Clone, Copy, Debug, PartialEq, Eq, Error)]
pub enum BitmapRefusal {
    #[error("a side is out of limits, or the bytes are too few")]
    Size,
}

impl Refusal for BitmapRefusal {
    ghost number = { bitmap_number };

    fn number(&self) -> u8 {
        match self {
            BitmapRefusal::Size => 3,
        }
    }
}

fn is_side(n: u32) -> bool
    ensures { result ≡ side n }
{
    (1..=8192).contains(&n)
}

// Width and height stay two numbers: what is computed from them, but for this, needs just one of them at a time, and a caller of `check` and `new` would have to build a type first.
fn is_sized(width: u32, height: u32, bytes: usize) -> bool
    ensures { result ≡ sized width height bytes }
{
    is_side(width) && is_side(height) && height as usize * row_bytes(width) <= bytes
}

// The last of so many dots, counted from 0.
fn last(n: u32) -> i32
    requires { (1 ≤ n) × (n ≤ 8192) }
    ensures { result ≡ pos (n - 1) }
{
    n as i32 - 1
}

#[derive(Drop)]
pub struct Bitmap<'a> {
    bytes: &'a mut [u8],
    width: u32,
    height: u32,
    shots: u32,
}

impl<'a> Bitmap<'a> {
    // Whether a bitmap of this size may be made on these bytes.
    pub fn check(width: u32, height: u32, bytes: &[u8]) -> Result<(), BitmapRefusal>
        ensures { told bitmap_number result ≡ (if sized width height (length bytes.now) then Ok tt else Err 3) }
    {
        if is_sized(width, height, bytes.len()) {
            Ok(())
        } else {
            Err(BitmapRefusal::Size)
        }
    }

    // A bitmap on these bytes as they are. A refused size has no dots, and no shots.
    pub fn new(width: u32, height: u32, shots: u32, bytes: &'a mut [u8]) -> Bitmap<'a>
        ensures lent { result.bytes.ghost_name ≡ bytes.entry.ghost_name }
        ensures bytes { result.bytes.now ≡ bytes.old }
        ensures means { bitmap_meaning result ≡ new_bitmap width height shots bytes.old }
        ensures spares { SparesStay result }
    {
        let shots = if is_sized(width, height, bytes.len()) {
            shots
        } else {
            0
        };
        Bitmap {
            bytes,
            width,
            height,
            shots,
        }
    }

    fn shown(&self) -> Window
        ensures { result ≡ (bitmap_meaning self.now).window }
    {
        if is_sized(self.width, self.height, self.bytes.len()) {
            Window {
                left: 0,
                top: 0,
                right: last(self.width),
                bottom: last(self.height),
            }
        } else {
            Window::empty()
        }
    }

    // Where a dot of the window is kept; nowhere outside it.
    fn place(&self, at: Dot) -> Option<Place>
        ensures { Placed result self.now at }
    {
        self.shown()
            .contains(at)
            .then_some(Place::of(self.width, at))
    }
}

impl Plate for Bitmap<'_> {
    ghost window = { λ s. (bitmap_meaning s).window };

    ghost lit = { λ s. (bitmap_meaning s).lit };

    ghost shots = { λ s. (bitmap_meaning s).shots };

    ghost strikes = { BitmapStrikes };

    ghost layers = { λ s. [] };

    ghost floor = { bitmap_meaning };

    ghost laws = { bitmap_laws };

    fn window(&mut self) -> Window {
        self.shown()
    }

    fn shots(&mut self) -> u32 {
        self.shots
    }

    fn ask(&mut self, at: Dot) -> Option<bool> {
        let place = self.place(at)?;
        Some(place.is_one(self.bytes[place.index]))
    }

    fn strike(&mut self, at: Dot, ink: Ink) -> Result<(), StrikeRefusal> {
        let Some(place) = self.place(at) else {
            return Err(StrikeRefusal::Outside);
        };
        if self.shots == 0 {
            return Err(StrikeRefusal::NoShots);
        }
        self.bytes[place.index] = place.inked(self.bytes[place.index], ink);
        self.shots -= 1;
        Ok(())
    }

    // The same two answers as of every bare plate: a default in the trait would have to hold of layers too.
    fn carry(&mut self, at: Dot) -> Option<Dot> {
        Some(at)
    }

    fn facing(&mut self) -> Facing {
        Facing::Same
    }
}
