// Magnitudes, closeness, and the tests of divisors and of temperatures.
ghost use Rattle.std.specs.Prelude.{◌≡◌};
ghost use Rattle.solver.specs.Closeness.{abs, max, relative_eq, close_in_demand, isclose, close_in_windows_test, valid_divisor, within_state_bound};

// |x|; of either zero it is +0.0. The body is the library's; the function stays, since what is exported keeps its promise.
#[tactic(auto, using(crate::proofs::Laws::Signs::without_sign))]
pub fn abs(x: f64) -> f64
    ensures { result ≡ abs x }
{
    x.abs()
}

// Not `f64::max`: of two that compare equal it may give either, so that with it `eq (abs a) (abs b) ≡ true → abs a ≡ abs b` is left to prove, which no law
// of std that a crate can cite says of floats.
fn max(x: f64, y: f64) -> f64
    ensures { result ≡ max x y }
{
    if x < y { y } else { x }
}

// The original's `relative_eq!`: equal, or both finite and no further apart than `epsilon`, or than `max_relative` times the larger magnitude.
#[tactic(auto, using(crate::proofs::Laws::Signs::finite_same), unfolding(crate::specs::Closeness::relative_eq))]
fn relative_eq(a: f64, b: f64, epsilon: f64, max_relative: f64) -> bool
    ensures { result ≡ relative_eq a b epsilon max_relative }
{
    if a == b {
        return true;
    }
    if !a.is_finite() | !b.is_finite() {
        return false;
    }
    let difference = abs(a - b);
    if difference <= epsilon {
        return true;
    }
    difference <= max_relative * max(abs(a), abs(b))
}

// The demand's closeness.
pub fn close_in_demand(a: f64, b: f64) -> bool
    ensures { result ≡ close_in_demand a b }
{
    relative_eq(a, b, 1e-10, 1e-9)
}

// The original's `isclose`, start-up's closeness.
pub fn isclose(a: f64, b: f64) -> bool
    ensures { result ≡ isclose a b }
{
    relative_eq(a, b, 1e-8, 1e-8)
}

// The closeness of the windows test.
pub fn close_in_windows_test(a: f64, b: f64) -> bool
    ensures { result ≡ close_in_windows_test a b }
{
    relative_eq(a, b, 1e-8, 1e-10)
}

// What a chain or an elimination may divide by: not zero, and finite.
#[tactic(auto, using(crate::proofs::Laws::Signs::divisor_test))]
pub fn valid_divisor(x: f64) -> bool
    ensures { result ≡ valid_divisor x }
{
    (x != 0.0) & x.is_finite()
}

// Not beyond a million either way, which neither an infinity nor a NaN is.
pub fn within_state_bound(x: f64) -> bool
    ensures { result ≡ within_state_bound x }
{
    (-1e6..=1e6).contains(&x)
}
