//! The theorem on the machine.
ghost use Rattle.weave_core.specs.Machine.{OrderFree};

/// Whatever the order of the steps, the end is the same: each piece is claimed once, each force word is
/// the sum of all adds to it, and the fault word is the least key. It does nothing: its contract is the theorem.
pub fn order_free()
    ensures { OrderFree }
{}
