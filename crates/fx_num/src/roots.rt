//! Roots, rounded to the nearest whole number. No tie occurs.
ghost use Rattle.std.specs.Prelude.{◌≡◌, ◌+◌, ◌*◌, ◌^◌, ◌<◌, ◌≤◌, ℕ};
ghost use Rattle.fx_num.specs.Roots.{square, cube, IsNearestRoot, sqrt_of, cbrt_of};

/// The whole number nearest to the square root.
pub fn rsqrt(a: u128) -> u64
    requires { a < 2 ^ 126 }
    ensures is { result ≡ sqrt_of a }
    ensures nearest { IsNearestRoot square a result }
{
    let root = whole_sqrt(a);
    // the middle between two whole numbers is passed where the rest exceeds the root
    let wide = u128::from(root);
    if a - wide * wide > wide {
        root + 1
    } else {
        root
    }
}

/// The whole number nearest to the cube root.
pub fn rcbrt(a: u128) -> u64
    requires { a < 2 ^ 126 }
    ensures is { result ≡ cbrt_of a }
    ensures nearest { IsNearestRoot cube a result }
{
    let root = whole_cbrt(a);
    // (2·root + 1)³ < 8·a, less 8·root³ on both sides
    let middle = 12 * root * root + 6 * root + 1;
    if middle < 8 * (a - root * root * root) {
        root as u64 + 1
    } else {
        root as u64
    }
}

/// Each root exists and is the one number with its inequality.
pub fn roots_are_the_nearest()
    ensures sqrt_exists { (a : ℕ) → IsNearestRoot square a (sqrt_of a) }
    ensures sqrt_unique { (a q : ℕ) → IsNearestRoot square a q → q ≡ sqrt_of a }
    ensures cbrt_exists { (a : ℕ) → IsNearestRoot cube a (cbrt_of a) }
    ensures cbrt_unique { (a q : ℕ) → IsNearestRoot cube a q → q ≡ cbrt_of a }
{}

/// The greatest whole number whose square is at most a, quick for what one word holds.
fn whole_sqrt(a: u128) -> u64
    requires { a < 2 ^ 126 }
    ensures at_most { result * result ≤ a }
    ensures above { a < (result + 1) * (result + 1) }
    ensures bound { result < 2 ^ 63 }
{
    if a <= u128::from(u64::MAX) {
        (a as u64).isqrt()
    } else {
        a.isqrt() as u64
    }
}

/// The greatest whole number whose cube is at most a.
fn whole_cbrt(a: u128) -> u128
    requires { a < 2 ^ 126 }
    ensures at_most { result * result * result ≤ a }
    ensures above { a < (result + 1) * (result + 1) * (result + 1) }
    ensures bound { result < 2 ^ 42 }
{
    let mut low = 0;
    let mut high = 1 << 42;
    while low + 1 < high {
        let middle = (low + high) / 2;
        if middle * middle * middle <= a {
            low = middle;
        } else {
            high = middle;
        }
    }
    low
}
