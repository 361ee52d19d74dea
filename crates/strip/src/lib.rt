// A plate that keeps every strike, in order, as a record in the caller's list.
// It promises the rules of every plate, and which records stand in the list after any calls.
// Read on in specs/Strips.antt and docs/PLATES.md.
#![tactic(auto, using(std::proofs::lemmas::Int::ints), unfolding(plate::specs::Plates::same))]

ghost use Rattle.std.specs.Prelude.{◌≡◌, ℕ, ◌-◌, min, false, []};
ghost use Rattle.plate.specs.World.{inside, window_of};
ghost use Rattle.plate.specs.Plates.{struck, meaning};
ghost use Rattle.strip.specs.Strips.{places, kept, lit_by, strip_meaning, StripStrikes};
ghost use Rattle.strip.specs.StripLaws.{strip_laws};

use plate::{Dot, Facing, Ink, Plate, StrikeRefusal, Window};

// One strike as it is kept.
#[derive(Clone, Copy, Debug, PartialEq, Eq)]
pub struct Record {
    pub at: Dot,
    pub ink: Ink,
}

impl Record {
    // Whether this strike leaves a dot lit, by what it was before.
    fn leaves(self, lit: bool, at: Dot) -> bool
        ensures { result ≡ struck (kept self) (λ q. lit) at }
    {
        if self.at == at {
            self.ink.over(lit)
        } else {
            lit
        }
    }
}

#[derive(Drop)]
pub struct Strip<'a> {
    bounds: Window,
    records: &'a mut [Record],
    // how many are written, from the first on: the list is lent, and the head has no heap for a growing one
    used: usize,
}

impl<'a> Strip<'a> {
    // A strip with the window that these bounds make, and no record.
    pub fn new(bounds: Window, records: &'a mut [Record]) -> Strip<'a>
        ensures lent { result.records.ghost_name ≡ records.entry.ghost_name }
        ensures records { result.records.now ≡ records.old }
        ensures means { strip_meaning result ≡ meaning (window_of bounds) (λ p. false) (places records.old) }
    {
        Strip {
            bounds,
            records,
            used: 0,
        }
    }

    fn shows(&self, at: Dot) -> bool
        ensures { result ≡ inside (window_of self.now.bounds) at }
    {
        let window = self.bounds.made();
        window.contains(at)
    }

    // How many of the places that the strip may use are unused.
    fn unused(&self) -> u32
        ensures { result ≡ (strip_meaning self.now).shots }
    {
        self.records.len().min(65536).saturating_sub(self.used) as u32
    }
}

// Whether these records leave a dot lit. A `for` over records taken for writing, which changes nothing, is the form wanted here (docs/DECISIONS.md).
fn lit_by(records: &mut [Record], at: Dot) -> bool
    ensures value { result ≡ lit_by records.old at }
    ensures same { records.new ≡ records.old }
{
    let mut lit = false;
    for record in records.iter() {
        lit = record.leaves(lit, at);
    }
    lit
}

impl Plate for Strip<'_> {
    ghost window = { λ s. (strip_meaning s).window };

    ghost lit = { λ s. (strip_meaning s).lit };

    ghost shots = { λ s. (strip_meaning s).shots };

    ghost strikes = { StripStrikes };

    ghost layers = { λ s. [] };

    ghost floor = { strip_meaning };

    ghost laws = { strip_laws };

    fn window(&mut self) -> Window {
        self.bounds.made()
    }

    fn shots(&mut self) -> u32 {
        self.unused()
    }

    fn ask(&mut self, at: Dot) -> Option<bool> {
        if !self.shows(at) {
            return None;
        }
        let used = self.used.min(self.records.len());
        Some(lit_by(&mut self.records[0..used], at))
    }

    fn strike(&mut self, at: Dot, ink: Ink) -> Result<(), StrikeRefusal> {
        if !self.shows(at) {
            return Err(StrikeRefusal::Outside);
        }
        if self.unused() == 0 {
            return Err(StrikeRefusal::NoShots);
        }
        self.records[self.used] = Record { at, ink };
        self.used += 1;
        Ok(())
    }

    // The same two answers as of every bare plate: a default in the trait would have to hold of layers too.
    fn carry(&mut self, at: Dot) -> Option<Dot> {
        Some(at)
    }

    fn facing(&mut self) -> Facing {
        Facing::Same
    }
}
