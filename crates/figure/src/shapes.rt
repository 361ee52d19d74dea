// One call for every figure: count the visible dots, compare them with the shots, strike them.
ghost use Rattle.std.specs.Prelude.{◌≡◌, [], length, take, None};
ghost use Rattle.plate.specs.Answers.{told};
ghost use Rattle.figure.specs.Drawing.{figure_number, visible, inked_with, figure_answer, figure_strikes};
ghost use Rattle.figure.specs.Shapes.{shape_dots};
ghost use Rattle.figure.specs.Limits.{ShapeIs};

use crate::fills::walk_filled;
use crate::limits::{SemiAxes, WorldDot};
use crate::lines::{Line, walk_line};
use crate::outlines::walk_outline;
use crate::visits::{Counter, Striker, Visitor};
use crate::{Figure, FigureRefusal};
use plate::{Ink, Plate};

// A figure whose numbers keep their limits.
#[derive(Clone, Copy, Debug, PartialEq, Eq)]
pub(crate) enum Shape {
    Line(Line),
    Outline(WorldDot, SemiAxes),
    Filled(WorldDot, SemiAxes),
}

// The first cause in a figure's numbers: its dots before its semi-axes.
impl TryFrom<Figure> for Shape {
    type Error = FigureRefusal;

    ghost try_from_gives = { ShapeIs };

    fn try_from(figure: Figure) -> Result<Shape, FigureRefusal> {
        Ok(match figure {
            Figure::Line(from, to) => Shape::Line(Line {
                from: from.try_into()?,
                to: to.try_into()?,
            }),
            Figure::Outline(centre, a, b) => Shape::Outline(centre.try_into()?, (a, b).try_into()?),
            Figure::Circle(centre, radius) => {
                Shape::Outline(centre.try_into()?, (radius, radius).try_into()?)
            }
            Figure::Filled(centre, a, b) => Shape::Filled(centre.try_into()?, (a, b).try_into()?),
        })
    }
}

// Hands a visitor the dots of a figure, in their order: a `match`, since a figure is a value that callers hand over.
fn walk<V: Visitor>(visitor: &mut V, shape: Shape)
    ensures { V.Visitor.visits visitor.old (shape_dots shape) visitor.new }
{
    match shape {
        Shape::Line(line) => walk_line(visitor, line),
        Shape::Outline(centre, axes) => walk_outline(visitor, centre, axes),
        Shape::Filled(centre, axes) => walk_filled(visitor, centre, axes),
    }
}

// How many dots of a figure the plate shows.
#[tactic(auto, using(crate::proofs::Calls::shape_few))]
fn count<P: Plate>(plate: &mut P, shape: Shape) -> u32
    ensures value { result ≡ length (visible (P.Plate.window plate.old) (shape_dots shape)) }
    ensures same { P.Plate.strikes plate.old [] plate.new }
{
    let mut counter = Counter { plate, seen: 0 };
    walk(&mut counter, shape);
    counter.seen
}

// Strikes the dots of a figure that the plate shows, as far as its shots reach.
fn strike<P: Plate>(plate: &mut P, shape: Shape, ink: Ink)
    ensures { P.Plate.strikes plate.old (inked_with ink (take (P.Plate.shots plate.old) (visible (P.Plate.window plate.old) (shape_dots shape)))) plate.new }
{
    let mut striker = Striker { plate, ink };
    walk(&mut striker, shape);
}

// The whole call of a figure, once its numbers are checked.
pub(crate) fn strike_all<P: Plate>(
    plate: &mut P,
    shape: Shape,
    ink: Ink,
) -> Result<u32, FigureRefusal>
    ensures answer { told figure_number result ≡ figure_answer None (shape_dots shape) (P.Plate.window plate.old) (P.Plate.shots plate.old) }
    ensures history { P.Plate.strikes plate.old (figure_strikes None (shape_dots shape) (P.Plate.window plate.old) (P.Plate.shots plate.old) ink) plate.new }
{
    let seen = count(plate, shape);
    if seen > plate.shots() {
        return Err(FigureRefusal::TooFewShots);
    }
    strike(plate, shape, ink);
    Ok(seen)
}
