// The dots of a filled ellipse, row after row: a row goes as far as its last lighted pair, which is sought from that of the row before.
ghost use Rattle.std.specs.Prelude.{◌≡◌, ℕ, ◌+◌, ◌*◌, ◌≤◌, true, not, ◌&&◌, unsigned_abs};
ghost use Rattle.plate.specs.World.{within};
ghost use Rattle.ellipse.specs.Ellipses.{lighted as lighted_of};
ghost use Rattle.figure.specs.Lines.{dots_from};
ghost use Rattle.figure.specs.Fills.{filled_dots};
ghost use Rattle.figure.specs.Reaches.{IsReach, SeeksFrom, row_dot};

use crate::limits::{SemiAxes, WorldDot};
use crate::visits::Visitor;
use plate::Dot;

impl SemiAxes {
    // Whether the pair is lighted and the next of its row is not.
    #[tactic(auto, using(ellipse::proofs::Laws::width))]
    fn is_last(self, x: u16, y: u16) -> bool
        ensures { result ≡ (lighted_of self.ellipse.a self.ellipse.b x y && not (lighted_of self.ellipse.a self.ellipse.b (x + 1) y)) }
    {
        self.ellipse.lighted(x, y) && !self.ellipse.lighted(x + 1, y)
    }

    // The reach of a row, sought to the right.
    // The ranges here are half-open: the lemmas on `find` and `rfind`, the library's and ours, speak of those.
    fn reach_outward(self, y: u16, from: u16) -> u16
        requires { (k : ℕ) × IsReach self.ellipse.a self.ellipse.b y k × (from ≤ k) }
        ensures { IsReach self.ellipse.a self.ellipse.b y result }
    {
        (from..self.ellipse.a + 1)
            .find(|x| self.is_last(*x, y))
            .unwrap()
    }

    // The reach of a row, sought to the left.
    fn reach_inward(self, y: u16, from: u16) -> u16
        requires narrow { from ≤ self.ellipse.a }
        requires reaches { (k : ℕ) × IsReach self.ellipse.a self.ellipse.b y k × (k ≤ from) }
        ensures { IsReach self.ellipse.a self.ellipse.b y result }
    {
        (0..from + 1)
            .rfind(|x| self.ellipse.lighted(*x, y))
            .unwrap()
    }

    // The reach of the row that lies dy below the centre, sought from that of the row before.
    #[tactic(auto, using(std::proofs::lemmas::Int::ints))]
    fn reach_of_row(self, dy: i32, from: u16) -> u16
        requires rows { unsigned_abs dy ≤ self.ellipse.b }
        requires seeks { SeeksFrom self.ellipse.a self.ellipse.b dy from }
        ensures { IsReach self.ellipse.a self.ellipse.b (unsigned_abs dy) result }
    {
        let y = dy.unsigned_abs() as u16;
        if dy <= 0 {
            self.reach_outward(y, from)
        } else {
            self.reach_inward(y, from)
        }
    }
}

// Hands a visitor the dots at most `reach` to the left and right of one, by rising x.
// The middle is a plain dot: with the centre and the row's number in its place the loop's invariant was not proved.
#[tactic(auto, using(std::proofs::lemmas::Int::ints), unfolding(plate::specs::World::within))]
fn visit_row<V: Visitor>(visitor: &mut V, middle: Dot, reach: u16)
    requires { within middle.0 ≡ true }
    ensures { V.Visitor.visits visitor.old (dots_from (row_dot middle.0 middle.1 reach) 0 (2 * reach + 1)) visitor.new }
{
    let reach = reach as i32;
    for x in middle.0 - reach..=middle.0 + reach {
        visitor.visit((x, middle.1));
    }
}

// Hands a visitor the dots of a filled ellipse, in their order.
#[tactic(auto, using(std::proofs::lemmas::Int::ints), unfolding(plate::specs::World::within, plate::specs::World::world))]
pub(crate) fn walk_filled<V: Visitor>(visitor: &mut V, centre: WorldDot, axes: SemiAxes)
    ensures { V.Visitor.visits visitor.old (filled_dots centre.at axes.ellipse.a axes.ellipse.b) visitor.new }
{
    let (x, middle) = centre.at;
    let height = axes.ellipse.b as i32;
    let mut reach = 0;
    for y in middle - height..=middle + height {
        reach = axes.reach_of_row(y - middle, reach);
        visit_row(visitor, (x, y), reach);
    }
}
