// What walks hand dots to: a counter, and a striker.
ghost use Rattle.std.specs.Prelude.{List, [], ◌∷◌};
ghost use Rattle.plate.specs.World.{Dot};
ghost use Rattle.figure.specs.Visits.{VisitLaws, Counts, Inks};
ghost use Rattle.figure.specs.VisitorLaws.{counter_laws, striker_laws};

use plate::{Dot, Ink, Plate};

// What a walk hands each dot of a figure, in the figure's order.
pub(crate) trait Visitor {
    ghost visits: { Self → List Dot → Self → Type 0 };

    ghost laws: { VisitLaws visits };

    fn visit(&mut self, at: Dot)
        ensures { visits self.old (at ∷ []) self.new };
}

// Counts the visible dots.
#[derive(Drop)]
pub(crate) struct Counter<'a, P> {
    pub(crate) plate: &'a mut P,
    pub(crate) seen: u32,
}

impl<P: Plate> Visitor for Counter<'_, P> {
    ghost visits = { λ s ps t. Counts P.Plate.window P.Plate.strikes s.plate t.plate s.seen t.seen ps };

    ghost laws = { counter_laws (λ s. s.plate) P.Plate.laws (λ s. s.seen) };

    fn visit(&mut self, at: Dot) {
        let shown = self.plate.ask(at).is_some();
        if shown {
            self.seen = self.seen.saturating_add(1);
        }
    }
}

// Strikes the visible dots with one ink, as far as the shots reach.
#[derive(Drop)]
pub(crate) struct Striker<'a, P> {
    pub(crate) plate: &'a mut P,
    pub(crate) ink: Ink,
}

impl<P: Plate> Visitor for Striker<'_, P> {
    ghost visits = { λ s ps t. Inks P.Plate.window P.Plate.shots P.Plate.strikes s.plate t.plate s.ink t.ink ps };

    ghost laws = { striker_laws (λ s. s.plate) P.Plate.laws (λ s. s.ink) };

    fn visit(&mut self, at: Dot) {
        if self.plate.ask(at).is_some() {
            let _ = self.plate.strike(at, self.ink);
        }
    }
}
