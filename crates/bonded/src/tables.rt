//! Tables of the coefficients of bond types and of angle types.
ghost use Rattle.std.specs.Prelude.{◌≡◌, ◌≤◌, None, ℤ, IfSome, replicate};
ghost use Rattle.bonded.specs.Lengths.{IsRestLength, IsStiffness};
ghost use Rattle.bonded.specs.Tables.{AreBondNumbers, at_kind, with_kind};

use box_geo::limits::MAX_KINDS;
use std::marker::Model;

const KINDS: usize = MAX_KINDS as usize;

/// The stiffness and the rest length of each bond type, where they are set. Contracts see a list of the
/// 64 types.
#[derive(Drop)]
pub struct BondTable {
    kinds: [Option<(i64, i64)>; KINDS],
}

impl Model for BondTable {
    ghost use Rattle.std.specs.Prelude.{List, Option, ℤ, IfSome};
    ghost use Rattle.std.specs.List.{All};
    ghost use Rattle.bonded.specs.Tables.{AreBondNumbers};

    ghost Value = { List (Option (ℤ × ℤ)) };

    ghost view = { λ t. t.kinds };

    ghost invariant = { λ t. All (λ o. IfSome o AreBondNumbers) t.kinds };
}

impl BondTable {
    /// The table in which no type is set.
    pub fn new() -> BondTable
        ensures { result ≡ replicate 64 None }
    {
        BondTable {
            kinds: [None; KINDS],
        }
    }

    /// Sets the stiffness `k` and the rest length `r0` of a type, both in units.
    pub fn set(&mut self, kind: u8, k: i64, r0: i64)
        requires kind { (1 ≤ kind) × (kind ≤ MAX_KINDS) }
        requires k { IsStiffness k }
        requires r0 { IsRestLength r0 }
        ensures { self.new ≡ with_kind self.old kind (k, r0) }
    {
        self.kinds[kind as usize - 1] = Some((k, r0));
    }

    /// The stiffness and the rest length of a type, `None` exactly where they are not set.
    pub fn get(&self, kind: u8) -> Option<(i64, i64)>
        requires { (1 ≤ kind) × (kind ≤ MAX_KINDS) }
        ensures is { result ≡ at_kind self.now kind }
        ensures sound { IfSome result AreBondNumbers }
    {
        self.kinds[kind as usize - 1]
    }
}

/// The stiffness of each angle type, where it is set. Contracts see a list of the 64 types.
#[derive(Drop)]
pub struct AngleTable {
    kinds: [Option<i64>; KINDS],
}

impl Model for AngleTable {
    ghost use Rattle.std.specs.Prelude.{List, Option, ℤ, IfSome};
    ghost use Rattle.std.specs.List.{All};
    ghost use Rattle.bonded.specs.Lengths.{IsStiffness};

    ghost Value = { List (Option ℤ) };

    ghost view = { λ t. t.kinds };

    ghost invariant = { λ t. All (λ o. IfSome o IsStiffness) t.kinds };
}

impl AngleTable {
    /// The table in which no type is set.
    pub fn new() -> AngleTable
        ensures { result ≡ replicate 64 None }
    {
        AngleTable {
            kinds: [None; KINDS],
        }
    }

    /// Sets the stiffness `k` of a type, in units.
    pub fn set(&mut self, kind: u8, k: i64)
        requires kind { (1 ≤ kind) × (kind ≤ MAX_KINDS) }
        requires k { IsStiffness k }
        ensures { self.new ≡ with_kind self.old kind k }
    {
        self.kinds[kind as usize - 1] = Some(k);
    }

    /// The stiffness of a type, `None` exactly where it is not set.
    pub fn get(&self, kind: u8) -> Option<i64>
        requires { (1 ≤ kind) × (kind ≤ MAX_KINDS) }
        ensures is { result ≡ at_kind self.now kind }
        ensures sound { IfSome result IsStiffness }
    {
        self.kinds[kind as usize - 1]
    }
}
