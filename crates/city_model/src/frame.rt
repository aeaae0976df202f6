//! All of a document but its objects and vertices.
use city_members::kept::extra::Extra;
use city_members::kept::site::{AtTop, AtTransform};

/// The transform and the kept members of the top. No script changes a frame.
#[derive(Drop)]
pub struct Frame {
    pub scale: [i64; 3],
    pub translate: [i64; 3],
    /// The kept members of `transform`.
    pub more: Extra<AtTransform>,
    /// The kept members of the top.
    pub extra: Extra<AtTop>,
}
