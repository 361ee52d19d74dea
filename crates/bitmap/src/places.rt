// Where the bytes keep a dot.
ghost use Rattle.std.specs.Prelude.{◌≡◌, ◌<◌};
ghost use Rattle.bitmap.specs.Bits.{row_bytes, byte_of, bit_of, bit, inked_byte};

use plate::{Dot, Ink};

pub(crate) fn row_bytes(width: u32) -> usize
    ensures { result ≡ row_bytes width }
{
    (width as usize + 7) / 8
}

// Where a dot is kept: the index of its byte, and how far its bit is shifted.
#[derive(Clone, Copy)]
pub(crate) struct Place {
    pub(crate) index: usize,
    pub(crate) shift: u32,
    ghost low: { shift < 8 },
}

impl Place {
    // The numbers of a dot that a bitmap shows are never negative.
    pub(crate) fn of(width: u32, at: Dot) -> Place
        ensures index { result.index ≡ byte_of width at }
        ensures shift { result.shift ≡ bit_of at }
    {
        let (column, row) = (at.0.unsigned_abs(), at.1.unsigned_abs());
        Place {
            index: row as usize * row_bytes(width) + column as usize / 8,
            shift: 7 - column % 8,
        }
    }

    // Whether this bit of the byte is one.
    pub(crate) fn is_one(self, byte: u8) -> bool
        ensures { result ≡ bit byte self.shift }
    {
        (byte >> self.shift) & 1 == 1
    }

    // The byte once this bit of it has taken an ink.
    pub(crate) fn inked(self, byte: u8, ink: Ink) -> u8
        ensures { result ≡ inked_byte ink byte self.shift }
    {
        match ink {
            Ink::Light => byte | (1 << self.shift),
            Ink::Clear => byte & !(1 << self.shift),
            Ink::Flip => byte ^ (1 << self.shift),
        }
    }
}
