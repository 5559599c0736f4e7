//! The sizes of a board.
ghost use Rattle.std.specs.Prelude.{◌≡◌, ◌^◌};

/// The force words of an atom: x, y and z.
pub const WORDS_PER_ATOM: u32 = 3;

/// The most atoms that a board may have.
pub const MAX_ATOMS: u32 = 1 << 24;

/// The sizes as numbers, each by its name: a law, which does nothing when it runs.
pub fn board_sizes_are_these_numbers()
    ensures words { WORDS_PER_ATOM ≡ 3 }
    ensures atoms { MAX_ATOMS ≡ 2 ^ 24 }
{}
