// The dots of a line, one after another.
ghost use Rattle.std.specs.Prelude.{◌≡◌, ℕ, ◌+◌, ◌*◌, ◌<◌, ◌≤◌, max};
ghost use Rattle.figure.specs.Lines.{gap, across, steps_made, longer, line_dot, line_dots};

use crate::limits::WorldDot;
use crate::visits::Visitor;
use plate::Dot;

// The longer and the shorter of the differences between two dots.
#[derive(Clone, Copy)]
struct Slope {
    long: u16,
    short: u16,
    ghost ordered: { short ≤ long },
}

impl Slope {
    // What a division by twice the longer difference rounds to the nearest, halves upward; it passes 32 bits.
    fn rounding_sum(self, k: u16) -> u64
        requires { (0 < self.long) × (k ≤ self.long) }
        ensures { result ≡ 2 * k * self.short + self.long }
    {
        2 * k as u64 * self.short as u64 + self.long as u64
    }

    // The steps along the shorter difference when k of the longer are made: no more than to its end.
    #[tactic(auto, unfolding(crate::specs::Lines::across))]
    fn steps_across(self, k: u16) -> u16
        requires { k ≤ self.long }
        ensures value { result ≡ across self.long self.short k }
        ensures few { result ≤ self.short }
    {
        if self.long == 0 {
            return 0;
        }
        (self.rounding_sum(k) / (2 * self.long as u64)) as u16
    }
}

// How far apart two dots of the world lie along x and along y.
#[derive(Clone, Copy)]
struct Gaps {
    wide: u16,
    tall: u16,
}

impl Gaps {
    // The steps along x and along y when k steps along the longer difference are made.
    #[tactic(auto, unfolding(crate::specs::Lines::steps_made))]
    fn steps(self, k: u16) -> (u16, u16)
        requires { k ≤ max self.wide self.tall }
        ensures value { result ≡ steps_made self.wide self.tall k }
        ensures few { (result.0 ≤ self.wide) × (result.1 ≤ self.tall) }
    {
        if self.tall <= self.wide {
            let slope = Slope {
                long: self.wide,
                short: self.tall,
            };
            (k, slope.steps_across(k))
        } else {
            let slope = Slope {
                long: self.tall,
                short: self.wide,
            };
            (slope.steps_across(k), k)
        }
    }
}

// A line from one dot to another.
#[derive(Clone, Copy, Debug, PartialEq, Eq)]
pub(crate) struct Line {
    pub(crate) from: WorldDot,
    pub(crate) to: WorldDot,
}

impl Line {
    // How far apart its ends lie along x and along y.
    #[tactic(auto, using(plate::specs::Windows::world_parts, crate::proofs::Crossings::gap_few))]
    fn gaps(self) -> Gaps
        ensures wide { result.wide ≡ gap self.from.at.0 self.to.at.0 }
        ensures tall { result.tall ≡ gap self.from.at.1 self.to.at.1 }
    {
        let (from, to) = (self.from.at, self.to.at);
        Gaps {
            wide: from.0.abs_diff(to.0) as u16,
            tall: from.1.abs_diff(to.1) as u16,
        }
    }

    // Its dot after k steps along the longer difference.
    fn dot(self, k: u16) -> Dot
        requires { k ≤ longer self.from.at self.to.at }
        ensures { result ≡ line_dot self.from.at self.to.at k }
    {
        let (from, to) = (self.from.at, self.to.at);
        let steps = self.gaps().steps(k);
        self.from.moved(steps, (to.0 < from.0, to.1 < from.1))
    }

    // How many dots it has.
    fn length(self) -> u32
        ensures { result ≡ longer self.from.at self.to.at + 1 }
    {
        let gaps = self.gaps();
        gaps.wide.max(gaps.tall) as u32 + 1
    }
}

// Hands a visitor the dots of a line, in their order.
#[tactic(auto, using(plate::specs::Windows::world_parts, crate::proofs::Crossings::gap_few))]
pub(crate) fn walk_line<V: Visitor>(visitor: &mut V, line: Line)
    ensures { V.Visitor.visits visitor.old (line_dots line.from.at line.to.at) visitor.new }
{
    for k in 0..line.length() {
        visitor.visit(line.dot(k as u16));
    }
}
