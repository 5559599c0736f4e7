//! Range faults: quantities that leave their range end a run, by a key that orders them.
ghost use Rattle.std.specs.Prelude.{◌≡◌, ◌^◌, ◌<◌, ◌≤◌, ◌↔◌};
ghost use Rattle.box_geo.specs.declared.fault.FaultKey.{FaultKey};
ghost use Rattle.box_geo.specs.Fault.{phase_number, kind_number, key_word, no_fault, FitsWord, ComesBefore};

/// The word of no fault, greater than that of every fault.
pub const NO_FAULT: u64 = u64::MAX;

/// The phase of a step in which a fault was found.
#[derive(Clone, Copy, Debug, PartialEq, Eq)]
pub enum FaultPhase {
    Drift,
    Forces,
    Kick,
}

/// The kind of a fault.
#[derive(Clone, Copy, Debug, PartialEq, Eq)]
pub enum FaultKind {
    /// Two atoms are too close, or their force is too great.
    Close,
    /// A bond is broken.
    Bond,
    /// An angle is broken.
    Angle,
    /// The force on an atom is too great.
    Force,
    /// An atom is too fast.
    Speed,
    /// An atom has left the box through a side that is not periodic.
    Lost,
    /// An atom has crossed the box too often.
    Image,
}

/// A fault: its phase, its kind and the ids of what is at fault. Of several faults of one phase the
/// one of the least [`FaultKey::word`] ends the run.
#[derive(Clone, Copy, Debug, PartialEq, Eq)]
pub struct FaultKey {
    /// The phase, by number: 1 drift, 2 forces, 3 kick.
    pub phase: u8,
    /// The kind, by number.
    pub kind: u8,
    /// The lesser id of a pair or bond, the centre of an angle, or the atom.
    pub a: u32,
    /// The greater id of a pair or bond, the lesser outer id of an angle, or 0.
    pub b: u32,
}

impl FaultPhase {
    /// The phase's number in a key.
    pub fn number(self) -> u8
        ensures is { result ≡ phase_number self }
        ensures bound { result ≤ 3 }
    {
        match self {
            FaultPhase::Drift => 1,
            FaultPhase::Forces => 2,
            FaultPhase::Kick => 3,
        }
    }
}

impl FaultKind {
    /// The kind's number in a key.
    pub fn number(self) -> u8
        ensures is { result ≡ kind_number self }
        ensures bound { result ≤ 7 }
    {
        match self {
            FaultKind::Close => 1,
            FaultKind::Bond => 2,
            FaultKind::Angle => 3,
            FaultKind::Force => 4,
            FaultKind::Speed => 5,
            FaultKind::Lost => 6,
            FaultKind::Image => 7,
        }
    }
}

impl FaultKey {
    /// The key of a phase and a kind, by their numbers, and ids of up to [`crate::limits::MAX_ID`].
    pub fn new(phase: u8, kind: u8, a: u32, b: u32) -> FaultKey
        requires first { a < 2 ^ 24 }
        requires second { b < 2 ^ 24 }
        ensures { result ≡ record { phase = phase; kind = kind; a = a; b = b } }
    {
        FaultKey { phase, kind, a, b }
    }

    /// The word of the key: of two keys that which comes first has the lesser word.
    pub fn word(&self) -> u64
        requires first { self.now.a < 2 ^ 24 }
        requires second { self.now.b < 2 ^ 24 }
        ensures is { result ≡ key_word self.now }
        ensures below { self.now.phase ≤ 3 → result < no_fault }
    {
        let phase = self.phase as u64;
        let kind = self.kind as u64;
        let a = self.a as u64;
        phase * (1 << 56) + kind * (1 << 48) + a * (1 << 24) + self.b as u64
    }

    /// The key of a word: every word is that of one key.
    pub fn from_word(word: u64) -> FaultKey
        ensures is { key_word result ≡ word }
        ensures fits { FitsWord result }
    {
        FaultKey {
            phase: (word / (1 << 56)) as u8,
            kind: (word / (1 << 48) % (1 << 8)) as u8,
            a: (word / (1 << 24) % (1 << 24)) as u32,
            b: (word % (1 << 24)) as u32,
        }
    }
}

/// Words order keys by phase, then kind, then the ids.
pub fn words_order_keys()
    ensures same { (k l : FaultKey) → FitsWord k → FitsWord l → key_word k ≡ key_word l → k ≡ l }
    ensures order { (k l : FaultKey) → FitsWord k → FitsWord l → (ComesBefore k l ↔ (key_word k < key_word l)) }
{}
