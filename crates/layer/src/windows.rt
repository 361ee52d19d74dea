// Windows, and their numbers across and downward.
ghost use Rattle.std.specs.Prelude.{◌≡◌, true, ◌&&◌};
ghost use Rattle.plate.specs.World.{within, window_of};
ghost use Rattle.layer.specs.Views.{overlap, clipped as clipped_of, flipped as flipped_of, window_by as window_of_spans};

use plate::Window;

pub(crate) fn overlapping(v: Window, w: Window) -> Window
    ensures { result ≡ overlap v w }
{
    Window {
        left: v.left.max(w.left),
        top: v.top.max(w.top),
        right: v.right.min(w.right),
        bottom: v.bottom.min(w.bottom),
    }
}

// The part of a window that lies in the world.
#[tactic(auto, unfolding(crate::specs::Views::clipped))]
pub(crate) fn clipped(w: Window) -> Window
    ensures { result ≡ clipped_of w }
{
    let whole = Window {
        left: -32767,
        top: -32767,
        right: 32767,
        bottom: 32767,
    };
    overlapping(whole, w).canonical()
}

// The first and the last of a window's numbers on one axis: both are of the world, where each number has its negation.
#[derive(Clone, Copy)]
pub(crate) struct Span {
    pub(crate) low: i32,
    pub(crate) high: i32,
    ghost low_near: { within low ≡ true },
    ghost high_near: { within high ≡ true },
}

impl Span {
    // The numbers that lie in the span once they are negated, or as they are.
    #[tactic(auto, using(crate::proofs::Bounds::negations))]
    pub(crate) fn flipped(self, negates: bool) -> Span
        ensures { (result.low, result.high) ≡ flipped_of negates self.low self.high }
    {
        if !negates {
            return self;
        }
        Span {
            low: -self.high,
            high: -self.low,
        }
    }
}

// The window that these bounds make, by its numbers across and downward; the two are kept apart, since a turn may exchange them.
#[tactic(auto, using(crate::proofs::Bounds::made_within))]
pub(crate) fn spans(bounds: Window) -> (Span, Span)
    ensures { window_of_spans (result.0.low, result.0.high) (result.1.low, result.1.high) ≡ window_of bounds }
{
    let w = bounds.made();
    let across = Span {
        low: w.left,
        high: w.right,
    };
    let along = Span {
        low: w.top,
        high: w.bottom,
    };
    (across, along)
}

pub(crate) fn window_by(across: Span, along: Span) -> Window
    ensures { result ≡ window_of_spans (across.low, across.high) (along.low, along.high) }
{
    Window {
        left: across.low,
        top: along.low,
        right: across.high,
        bottom: along.high,
    }
}
