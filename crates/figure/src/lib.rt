// Figures on any plate: lines, outlines of ellipses, circles, filled ellipses.
// A call answers how many visible dots it struck, or refuses; the plate's history is then exactly these dots, in the figure's order, or none.
// Read on in specs/Drawing.antt, specs/Figures.antt, specs/Lines.antt, specs/Outlines.antt and specs/Fills.antt, and in docs/FIGURES.md.
#![tactic(auto)]

ghost use Rattle.std.specs.Prelude.{◌≡◌, unsigned_abs};
ghost use Rattle.plate.specs.Answers.{told};
ghost use Rattle.figure.specs.Drawing.{figure_number, Distinct, figure_answer, figure_strikes};
ghost use Rattle.figure.specs.Lines.{line_dots, line_cause};
ghost use Rattle.figure.specs.Outlines.{outline_dots, ellipse_cause};
ghost use Rattle.figure.specs.Fills.{filled_dots};
ghost use Rattle.figure.specs.Figures.{cause_of, dots_of};

use plate::{Dot, Ink, Plate, Refusal};
use shapes::{Shape, strike_all};
use thiserror::Error;

mod fills;
mod limits;
mod lines;
mod outlines;
mod shapes;
mod visits;

// A figure as it is given: its numbers may be out of limits, and stand one by one, as the rules name them. Semi-axes go first along x.
#[derive(Clone, Copy, Debug, PartialEq, Eq)]
pub enum Figure {
    Outline(Dot, i32, i32),
    Circle(Dot, i32),
    Filled(Dot, i32, i32),
    Line(Dot, Dot),
}

// Why a figure was refused.
#[derive(Clone, Copy, Debug, PartialEq, Eq, Error)]
pub enum FigureRefusal {
    #[error("a dot of the figure lies outside the world")]
    BeyondWorld,
    #[error("a semi-axis or a radius is not from 0 to 4,095")]
    BadAxis,
    #[error("the plate has fewer shots than the figure has visible dots")]
    TooFewShots,
}

impl Refusal for FigureRefusal {
    ghost number = { figure_number };

    fn number(&self) -> u8 {
        match self {
            FigureRefusal::BeyondWorld => 1,
            FigureRefusal::BadAxis => 2,
            FigureRefusal::TooFewShots => 22,
        }
    }
}

// Strikes the visible dots of a figure, in its order, and answers how many.
// Inlined, so that a figure's own call tells a refused number as soon as it sees it, and makes no value of the figure first.
#[inline(always)]
pub fn draw<P: Plate>(plate: &mut P, figure: Figure, ink: Ink) -> Result<u32, FigureRefusal>
    ensures answer { told figure_number result ≡ figure_answer (cause_of figure) (dots_of figure) (P.Plate.window plate.old) (P.Plate.shots plate.old) }
    ensures history { P.Plate.strikes plate.old (figure_strikes (cause_of figure) (dots_of figure) (P.Plate.window plate.old) (P.Plate.shots plate.old) ink) plate.new }
{
    strike_all(plate, Shape::try_from(figure)?, ink)
}

// Strikes the visible dots of the line between two dots, in order from the first, and answers how many.
#[tactic(auto, using(crate::proofs::Once::line_once))]
pub fn line<P: Plate>(plate: &mut P, from: Dot, to: Dot, ink: Ink) -> Result<u32, FigureRefusal>
    ensures answer { told figure_number result ≡ figure_answer (line_cause from to) (line_dots from to) (P.Plate.window plate.old) (P.Plate.shots plate.old) }
    ensures history { P.Plate.strikes plate.old (figure_strikes (line_cause from to) (line_dots from to) (P.Plate.window plate.old) (P.Plate.shots plate.old) ink) plate.new }
    ensures once { Distinct (line_dots from to) }
{
    draw(plate, Figure::Line(from, to), ink)
}

// Strikes the visible dots of the ellipse with the semi-axes a along x and b along y, and answers how many.
#[tactic(auto, using(crate::proofs::Apart::outline_once))]
pub fn outline<P: Plate>(
    plate: &mut P,
    centre: Dot,
    a: i32,
    b: i32,
    ink: Ink,
) -> Result<u32, FigureRefusal>
    ensures answer { told figure_number result ≡ figure_answer (ellipse_cause centre a b) (outline_dots centre (unsigned_abs a) (unsigned_abs b)) (P.Plate.window plate.old) (P.Plate.shots plate.old) }
    ensures history { P.Plate.strikes plate.old (figure_strikes (ellipse_cause centre a b) (outline_dots centre (unsigned_abs a) (unsigned_abs b)) (P.Plate.window plate.old) (P.Plate.shots plate.old) ink) plate.new }
    ensures once { Distinct (outline_dots centre (unsigned_abs a) (unsigned_abs b)) }
{
    draw(plate, Figure::Outline(centre, a, b), ink)
}

// Strikes the visible dots of a circle: the outline with both semi-axes equal to its radius.
#[tactic(auto, using(crate::proofs::Apart::outline_once))]
pub fn circle<P: Plate>(
    plate: &mut P,
    centre: Dot,
    radius: i32,
    ink: Ink,
) -> Result<u32, FigureRefusal>
    ensures answer { told figure_number result ≡ figure_answer (ellipse_cause centre radius radius) (outline_dots centre (unsigned_abs radius) (unsigned_abs radius)) (P.Plate.window plate.old) (P.Plate.shots plate.old) }
    ensures history { P.Plate.strikes plate.old (figure_strikes (ellipse_cause centre radius radius) (outline_dots centre (unsigned_abs radius) (unsigned_abs radius)) (P.Plate.window plate.old) (P.Plate.shots plate.old) ink) plate.new }
    ensures once { Distinct (outline_dots centre (unsigned_abs radius) (unsigned_abs radius)) }
{
    draw(plate, Figure::Circle(centre, radius), ink)
}

// Strikes the visible dots of the filled ellipse, row after row, and answers how many.
pub fn filled<P: Plate>(
    plate: &mut P,
    centre: Dot,
    a: i32,
    b: i32,
    ink: Ink,
) -> Result<u32, FigureRefusal>
    ensures answer { told figure_number result ≡ figure_answer (ellipse_cause centre a b) (filled_dots centre (unsigned_abs a) (unsigned_abs b)) (P.Plate.window plate.old) (P.Plate.shots plate.old) }
    ensures history { P.Plate.strikes plate.old (figure_strikes (ellipse_cause centre a b) (filled_dots centre (unsigned_abs a) (unsigned_abs b)) (P.Plate.window plate.old) (P.Plate.shots plate.old) ink) plate.new }
{
    draw(plate, Figure::Filled(centre, a, b), ink)
}
