// The dots of an outline, one after another: the lighted pairs of a quarter, and the four corners of each.
ghost use Rattle.std.specs.Prelude.{◌≡◌};
ghost use Rattle.figure.specs.Corners.{signs as signs_of, fresh, corner as corner_of, corner_dots};
ghost use Rattle.figure.specs.Outlines.{outline_dots};

use crate::limits::{SemiAxes, WorldDot};
use crate::visits::Visitor;
use plate::Dot;

// Where the four dots of a pair lie about the centre.
#[derive(Clone, Copy, Debug, PartialEq, Eq)]
enum Corner {
    RightBelow,
    LeftBelow,
    LeftAbove,
    RightAbove,
}

// In the order in which an outline goes over them.
const CORNERS: [Corner; 4] = [
    Corner::RightBelow,
    Corner::LeftBelow,
    Corner::LeftAbove,
    Corner::RightAbove,
];

impl Corner {
    // Whether the dot lies to the left, and whether above.
    fn signs(self) -> (bool, bool)
        ensures { result ≡ signs_of self }
    {
        match self {
            Corner::RightBelow => (false, false),
            Corner::LeftBelow => (true, false),
            Corner::LeftAbove => (true, true),
            Corner::RightAbove => (false, true),
        }
    }

    // Whether no corner before this one names the same dot.
    fn is_fresh(self, pair: (u16, u16)) -> bool
        ensures { result ≡ fresh pair self }
    {
        match self {
            Corner::RightBelow => true,
            Corner::LeftBelow => pair.0 != 0,
            Corner::LeftAbove => pair.1 != 0,
            Corner::RightAbove => pair.0 != 0 && pair.1 != 0,
        }
    }

    // The dot of a pair at this corner.
    fn dot(self, centre: WorldDot, pair: (u16, u16)) -> Dot
        ensures { result ≡ corner_of centre.at pair self }
    {
        centre.moved(pair, self.signs())
    }
}

// The dot of a pair at one corner, unless it was named before.
fn visit_corner<V: Visitor>(visitor: &mut V, centre: WorldDot, pair: (u16, u16), corner: Corner)
    ensures { V.Visitor.visits visitor.old (corner_dots centre.at pair corner) visitor.new }
{
    if corner.is_fresh(pair) {
        visitor.visit(corner.dot(centre, pair));
    }
}

// Hands a visitor the dots of an outline, in their order.
// A loop over pairs, and in it one that breaks with the next lighted pair and one over corners, is the form wanted here (docs/DECISIONS.md). Proofs name the loops by their labels.
pub(crate) fn walk_outline<V: Visitor>(visitor: &mut V, centre: WorldDot, axes: SemiAxes)
    ensures { V.Visitor.visits visitor.old (outline_dots centre.at axes.ellipse.a axes.ellipse.b) visitor.new }
{
    let ellipse = axes.ellipse;
    let (mut x, mut y) = (0, ellipse.b);
    'pairs: loop {
        let pair = 'seek: loop {
            if ellipse.lighted(x, y) {
                break (x, y);
            }
            y -= 1;
        };
        for corner in CORNERS {
            visit_corner(visitor, centre, pair, corner);
        }
        if y > 0 && ellipse.lighted(x, y - 1) {
            y -= 1;
        } else if x < ellipse.a {
            x += 1;
        } else {
            break 'pairs;
        }
    }
}
