//! The lengths by which images are moved along the axes.
ghost use Rattle.std.specs.Prelude.{◌≤◌, ◌^◌, unsigned_abs};
ghost use Rattle.std.specs.List.{All};

/// For each axis some lengths by which images are moved along it, in units.
#[derive(Drop)]
pub(crate) struct Lengths {
    pub x: Vec<i64>,
    pub y: Vec<i64>,
    pub z: Vec<i64>,
    pub ghost x_short: { All (λ i. unsigned_abs i ≤ 2 ^ 35) x.items },
    pub ghost y_short: { All (λ i. unsigned_abs i ≤ 2 ^ 35) y.items },
    pub ghost z_short: { All (λ i. unsigned_abs i ≤ 2 ^ 35) z.items },
}
