//! Limits of windows.
ghost use Rattle.std.specs.Prelude.{◌≡◌, ◌^◌};
ghost use Rattle.ave_time.specs.Limits.{WindowLimits};

/// A window has at most this many samples.
pub const MAX_REPEAT: u64 = 1 << 24;

/// A window has at most this many values.
pub const MAX_VALUES: usize = 255;

/// No end of a window is beyond this step.
pub const MAX_END: u64 = 1 << 40;

/// The greatest magnitude of a sample.
pub const MAX_SAMPLE: u128 = 1 << 98;

/// The limits as numbers: a law, which does nothing when it runs.
pub fn window_limits_are_these_numbers()
    ensures { WindowLimits }
{}
