//! Whether a script goes on.

/// Whether a script goes on after a command.
#[derive(Clone, Copy, Debug, PartialEq, Eq)]
pub enum Going {
    /// With the next line.
    On,
    /// It ends here.
    Quit,
}
