// Arrays and sums whose terms are told by elements' numbers. Their number n is that of any caller, which knows that it is at most 24 (`Zone::element_count`,
// a sum's `Surfaces`): one type for it would be made of each of these.
ghost use Rattle.std.specs.Prelude.{◌≡◌, ℕ, ◌<◌, ◌≤◌, Float};
ghost use Rattle.solver.specs.Sums.{sum2, terms};
ghost use Rattle.zone.specs.Physics.Slots.{with_terms};

use solver::Sum2;

// The first n places hold what f tells of their numbers, the others what they held.
pub fn with_terms<T: Copy, F: Fn(usize) -> T>(n: usize, f: F, mut a: [T; 24]) -> [T; 24]
    requires few { n ≤ 24 }
    requires callable { (e : ℕ) → e < n → F.pre f e }
    ensures { (term : ℕ → T) → ((e : ℕ) (x : T) → e < n → F.post f e x → x ≡ term e) → result ≡ with_terms n term a }
{
    for e in 0..n {
        a[e] = f(e);
    }
    a
}

// The sum of the first n terms.
pub fn sum2_of<F: Fn(usize) -> f64>(n: usize, f: F) -> f64
    requires callable { (e : ℕ) → e < n → F.pre f e }
    ensures { (term : ℕ → Float) → ((e : ℕ) (x : Float) → e < n → F.post f e x → x ≡ term e) → result ≡ sum2 (terms 0 n term) }
{
    let mut total = Sum2::zero();
    for e in 0..n {
        total = total.add(f(e));
    }
    total.sum()
}
