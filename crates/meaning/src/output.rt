//! What a script shows, and where.

use crate::uses::Uses;
use fx_num::Text;

/// What a script shows, and where.
#[derive(Drop)]
pub struct Output {
    /// A thermo line is due at multiples of this, and for 0 at the first and the last step alone.
    pub every: u64,
    /// The log's name, where there is one.
    pub log: Option<Text>,
    /// Whether what the log gets is shown on the screen too.
    pub screen: bool,
    /// The uses of names since the call began, the screen's among them.
    pub uses: Uses,
}
