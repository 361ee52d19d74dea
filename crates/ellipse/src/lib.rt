// The raster ellipse about (0, 0): which pairs of its quarter x, y ≥ 0 are lighted, and the laws of its shape.
// Read on in specs/Ellipses.antt.
#![tactic(auto)]

ghost use Rattle.std.specs.Prelude.{◌≡◌, ◌*◌, ◌≤◌};
ghost use Rattle.ellipse.specs.Ellipses.{EllipseLaws, reach as reach_of, upright as upright_of, lighted as lighted_of};

// The square of a semi-axis or of half steps, up to 2y + 1, which pass 16 bits. A product of two squares passes 64.
fn square(n: u32) -> u128
    requires { n ≤ 131071 }
    ensures value { result ≡ n * n }
    ensures few { result ≤ 17179607041 }
{
    n as u128 * n as u128
}

// An ellipse by its semi-axes: a along x, b along y.
#[derive(Clone, Copy, Debug, PartialEq, Eq)]
pub struct Ellipse {
    pub a: u16,
    pub b: u16,
}

impl Ellipse {
    // a²w² + 4b²x²: at most 4a²b² when the place (x, w / 2) lies within the ellipse.
    fn reach(self, x: u16, w: u32) -> u128
        requires { w ≤ 131071 }
        ensures { result ≡ reach_of self.a self.b x w }
    {
        square(self.a as u32) * square(w) + 4 * square(self.b as u32) * square(x as u32)
    }

    // Whether y is the nearest to the ellipse in the column x.
    #[tactic(auto, unfolding(crate::specs::Ellipses::upright))]
    fn upright(self, x: u16, y: u16) -> bool
        ensures { result ≡ upright_of self.a self.b x y }
    {
        let full = 4 * square(self.a as u32) * square(self.b as u32);
        let halves = 2 * y as u32;
        x <= self.a
            && (y == 0 || self.reach(x, halves - 1) <= full)
            && full < self.reach(x, halves + 1)
    }

    // This ellipse with its axes exchanged.
    fn turned(self) -> Ellipse
        ensures { result ≡ record { a = self.b; b = self.a } }
    {
        Ellipse {
            a: self.b,
            b: self.a,
        }
    }

    // Whether the pair (x, y) is lighted.
    // The laws of the shape stand here too, so that whoever lights pairs by this test may rely on them.
    #[tactic(auto, using(crate::proofs::Whole::ellipse_laws, crate::proofs::Conic::level_turned, std::proofs::lemmas::Bool::Decides::nat_tests), unfolding(crate::specs::Ellipses::lighted))]
    pub fn lighted(self, x: u16, y: u16) -> bool
        ensures value { result ≡ lighted_of self.a self.b x y }
        ensures laws { EllipseLaws }
    {
        if self.a == 0 {
            x == 0 && y <= self.b
        } else if self.b == 0 {
            y == 0 && x <= self.a
        } else {
            self.upright(x, y) || self.turned().upright(y, x)
        }
    }
}
