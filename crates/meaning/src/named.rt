//! What a script gives names to.

use crate::fix_settings::FixSettings;
use regions_groups::{Groups, Regions};

/// What a script gave names to, in order of definition.
#[derive(Drop)]
pub struct Named {
    /// The regions.
    pub regions: Regions,
    /// The groups, `all` the first of them. It has every atom, so its ids are not kept here.
    pub groups: Groups,
    /// The fixes.
    pub fixes: FixSettings,
}
