// The printed lines of the marking head: a header, a refusal, and a row of any plate.
// Each call writes one line at the start of the bytes that it is lent and answers the line's length, line feed included;
// the bytes after it keep what they held, and a refused call alters none. A printed row strikes nothing.
// Read on in specs/Lines.antt, which has every line byte for byte, and in docs/PRINTING.md.
#![tactic(auto)]

ghost use Rattle.std.specs.Prelude.{◌≡◌, ◌+◌, ◌≤◌, true, [], ◌++◌, length, drop, map, nat_le};
ghost use Rattle.std.proofs.lemmas.List.Edits.{sets};
ghost use Rattle.std.specs.List.{concat};
ghost use Rattle.plate.specs.World.{inside};
ghost use Rattle.plate.specs.Answers.{told};
ghost use Rattle.report.specs.Lines.{print_number, header, refusal_line, line_answer, written, mark, marks, breadth, has_row, row_answer, row_written};

use itoa::Buffer;
use plate::{Dot, Plate, Refusal, Window};
use thiserror::Error;

// Why a line was not written.
#[derive(Clone, Copy, Debug, PartialEq, Eq, Error)]
pub enum PrintRefusal {
    #[error("the window has no such row")]
    Outside,
    #[error("the line is longer than the bytes for it")]
    TooShort,
}

impl Refusal for PrintRefusal {
    ghost number = { print_number };

    fn number(&self) -> u8 {
        match self {
            PrintRefusal::Outside => 20,
            PrintRefusal::TooShort => 11,
        }
    }
}

// Writes a text, and answers the place after it.
#[tactic(auto, using(crate::proofs::Places::sets_copied))]
fn put_text(out: &mut [u8], at: usize, text: &str) -> usize
    requires { at + length text.now ≤ length out.old }
    ensures after { result ≡ at + length text.now }
    ensures bytes { out.new ≡ sets out.old at text.now }
{
    let end = at + text.len();
    out[at..end].copy_from_slice(text.as_bytes());
    end
}

// The room shrinks piece by piece, so that no sum of lengths can grow too large.
fn all_fit(pieces: &[&str], mut room: usize) -> bool
    ensures { result ≡ nat_le (length (concat (map (λ p. p.now) pieces.now))) room }
{
    for piece in pieces {
        let len = piece.len();
        if room < len {
            return false;
        }
        room -= len;
    }
    true
}

// Writes the pieces at the start of the bytes, or nothing where they do not fit.
// A place moves along the bytes: where the function called itself to cut each piece into its place, a line of short numbers took five times as long.
fn write_line(out: &mut [u8], pieces: &[&str]) -> Result<usize, PrintRefusal>
    ensures answer { told print_number result ≡ line_answer (concat (map (λ p. p.now) pieces.now)) out.old }
    ensures bytes { out.new ≡ written (concat (map (λ p. p.now) pieces.now)) out.old }
{
    if !all_fit(pieces, out.len()) {
        return Err(PrintRefusal::TooShort);
    }
    let mut at = 0;
    for piece in pieces {
        at = put_text(out, at, piece);
    }
    Ok(at)
}

// Writes "width height shots".
pub fn write_header(
    out: &mut [u8],
    width: u32,
    height: u32,
    shots: u32,
) -> Result<usize, PrintRefusal>
    ensures answer { told print_number result ≡ line_answer (header width height shots) out.old }
    ensures bytes { out.new ≡ written (header width height shots) out.old }
{
    let mut width_digits = Buffer::new();
    let mut height_digits = Buffer::new();
    let mut shots_digits = Buffer::new();
    let pieces = [
        width_digits.format(width),
        " ",
        height_digits.format(height),
        " ",
        shots_digits.format(shots),
        "\n",
    ];
    write_line(out, &pieces)
}

// Writes "refused N line L column C", N being the number of the cause.
pub fn write_refusal<R: Refusal>(
    out: &mut [u8],
    cause: &R,
    line: u32,
    column: u32,
) -> Result<usize, PrintRefusal>
    ensures answer { told print_number result ≡ line_answer (refusal_line (R.Refusal.number cause.now) line column) out.old }
    ensures bytes { out.new ≡ written (refusal_line (R.Refusal.number cause.now) line column) out.old }
{
    let mut number_digits = Buffer::new();
    let mut line_digits = Buffer::new();
    let mut column_digits = Buffer::new();
    let pieces = [
        "refused ",
        number_digits.format(cause.number()),
        " line ",
        line_digits.format(line),
        " column ",
        column_digits.format(column),
        "\n",
    ];
    write_line(out, &pieces)
}

// The mark of a dot of the plate's window.
fn mark_at<P: Plate>(plate: &mut P, at: Dot) -> u8
    ensures value { inside (P.Plate.window plate.old) at ≡ true → result ≡ mark (P.Plate.lit plate.old at) }
    ensures same { P.Plate.strikes plate.old [] plate.new }
{
    match plate.ask(at) {
        Some(true) => b'#',
        _ => b'.',
    }
}

// Marks the dots of a row of a window. It writes by index: with `out.iter_mut().zip(..)` a proof does not learn what the bytes end as.
fn put_marks<P: Plate>(plate: &mut P, window: Window, y: i32, out: &mut [u8])
    requires whose { window ≡ P.Plate.window plate.old }
    requires row { has_row window y ≡ true }
    requires room { breadth window ≤ length out.old }
    ensures bytes { out.new ≡ marks (P.Plate.lit plate.old) (breadth window) window.left y ++ drop (breadth window) out.old }
    ensures same { P.Plate.strikes plate.old [] plate.new }
{
    for (at, x) in (window.left..=window.right).enumerate() {
        out[at] = mark_at(plate, (x, y));
    }
}

// How many dots each row of a window has.
fn row_len(window: Window) -> usize
    ensures { result ≡ breadth window }
{
    window.right.abs_diff(window.left) as usize + 1
}

// Writes the row y of a plate, from the left of its window to its right.
// A row that the window lacks is refused before the bytes are counted.
pub fn write_row<P: Plate>(plate: &mut P, y: i32, out: &mut [u8]) -> Result<usize, PrintRefusal>
    ensures answer { told print_number result ≡ row_answer (P.Plate.window plate.old) (P.Plate.lit plate.old) y out.old }
    ensures bytes { out.new ≡ row_written (P.Plate.window plate.old) (P.Plate.lit plate.old) y out.old }
    ensures same { P.Plate.strikes plate.old [] plate.new }
{
    let window = plate.window();
    if !window.contains((window.left, y)) {
        return Err(PrintRefusal::Outside);
    }
    let count = row_len(window);
    if out.len() <= count {
        return Err(PrintRefusal::TooShort);
    }
    put_marks(plate, window, y, out);
    out[count] = b'\n';
    Ok(count + 1)
}
