// The compensated sum `Sum2`, a term at a time.
ghost use Rattle.std.specs.Prelude.{◌≡◌};
ghost use Rattle.solver.specs.Sums.{sum2_zero, sum2_add, sum2_sum};

// The total s so far, and the correction c: what its roundings lost.
#[derive(Clone, Copy)]
pub struct Sum2 {
    pub s: f64,
    pub c: f64,
}

impl Sum2 {
    pub fn zero() -> Self
        ensures { result ≡ sum2_zero }
    {
        Sum2 { s: 0.0, c: 0.0 }
    }

    pub fn add(self, t: f64) -> Self
        ensures { result ≡ sum2_add self t }
    {
        let s = self.s;
        let u = s + t;
        let z = u - s;
        Sum2 {
            s: u,
            c: self.c + ((s - (u - z)) + (t - z)),
        }
    }

    pub fn sum(self) -> f64
        ensures { result ≡ sum2_sum self }
    {
        self.s + self.c
    }
}
