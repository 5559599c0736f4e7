//! What each piece of work passes before it begins.

/// Is told of each piece of work before the work begins. It changes nothing that is computed, but a test can see which
/// pieces were asked for, and hold one back until another came.
pub trait Gate: Sync {
    /// Called once before the work on the piece of this number.
    fn pass(&self, piece: u32);
}

/// The gate that lets every piece pass at once.
#[derive(Drop)]
pub struct OpenGate;

impl Gate for OpenGate {
    fn pass(&self, _piece: u32) {}
}
