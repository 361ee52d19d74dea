// A plate that holds the dot last touched apart from its cells, so that a question changes how it is kept.
// It promises the rules of every plate and nothing else of its history: it shows that plates may be kept in any way, and serves tests.
// Read on in specs/Holding.antt and docs/PLATES.md.
#![tactic(auto)]

ghost use Rattle.std.specs.Prelude.{◌≡◌, ℕ, false, [], if◌then◌else◌, Some, None};
ghost use Rattle.plate.specs.World.{inside};
ghost use Rattle.plate.specs.Plates.{meaning};
ghost use Rattle.plate.specs.Bare.{ByRules, rule_laws};
ghost use Rattle.cached.specs.Holding.{frame, cell_of, lit_at, cached_meaning};
ghost use Rattle.cached.specs.HoldingLaws.{Framed-frame};

use plate::{Dot, Facing, Ink, Plate, StrikeRefusal, Window};

fn shown() -> Window
    ensures { result ≡ frame }
{
    Window {
        left: 0,
        top: 0,
        right: 15,
        bottom: 15,
    }
}

// Which cell keeps a dot of the window; none keeps a dot outside it.
#[tactic(auto, using(crate::proofs::Cells::shown), unfolding(crate::specs::Holding::cell_of))]
fn cell_of(at: Dot) -> Option<u8>
    ensures { result ≡ (if inside frame at then Some (cell_of at) else None) }
{
    if shown().contains(at) {
        let (column, row) = (at.0.unsigned_abs(), at.1.unsigned_abs());
        Some((row * 16 + column) as u8)
    } else {
        None
    }
}

// 16 by 16 dots, one of them held apart: what its cell says counts for nothing.
#[derive(Drop)]
pub struct Cached {
    cells: [bool; 256],
    held: u8,
    lit: bool,
    shots: u32,
}

impl Cached {
    // A plate with no dot lit; it begins by holding the first dot.
    pub fn new(shots: u32) -> Cached
        ensures { cached_meaning result ≡ meaning frame (λ p. false) shots }
    {
        Cached {
            cells: [false; 256],
            held: 0,
            lit: false,
            shots,
        }
    }

    // Holds the dot of a cell apart, once the dot held so far is written back.
    fn hold(&mut self, cell: u8)
        ensures held { self.new.held ≡ cell }
        ensures lit { self.new.lit ≡ lit_at self.old cell }
        ensures same { (i : ℕ) → lit_at self.new i ≡ lit_at self.old i }
        ensures shots { self.new.shots ≡ self.old.shots }
    {
        if cell != self.held {
            self.cells[self.held as usize] = self.lit;
            self.held = cell;
            self.lit = self.cells[cell as usize];
        }
    }
}

impl Plate for Cached {
    ghost window = { λ s. frame };

    ghost lit = { λ s. (cached_meaning s).lit };

    ghost shots = { λ s. (cached_meaning s).shots };

    ghost strikes = { ByRules (λ s. frame) (λ s. (cached_meaning s).lit) (λ s. (cached_meaning s).shots) };

    ghost layers = { λ s. [] };

    ghost floor = { cached_meaning };

    ghost laws = { rule_laws (λ s. frame) (λ s. (cached_meaning s).lit) (λ s. (cached_meaning s).shots) (λ s. Framed-frame) };

    fn window(&mut self) -> Window {
        shown()
    }

    fn shots(&mut self) -> u32 {
        self.shots
    }

    fn ask(&mut self, at: Dot) -> Option<bool> {
        let cell = cell_of(at)?;
        self.hold(cell);
        Some(self.lit)
    }

    fn strike(&mut self, at: Dot, ink: Ink) -> Result<(), StrikeRefusal> {
        let Some(cell) = cell_of(at) else {
            return Err(StrikeRefusal::Outside);
        };
        if self.shots == 0 {
            return Err(StrikeRefusal::NoShots);
        }
        self.hold(cell);
        self.lit = ink.over(self.lit);
        self.shots -= 1;
        Ok(())
    }

    // The same two answers as of every bare plate: a default in the trait would have to hold of layers too.
    fn carry(&mut self, at: Dot) -> Option<Dot> {
        Some(at)
    }

    fn facing(&mut self) -> Facing {
        Facing::Same
    }
}
