//! Links of a text.
use link_net::Link;

/// A link of a text: its two ends and its weight, the line where it stands, counted from 1, and whether the weight is the
/// one that stands there, and not the nearest whole number to it.
#[derive(Clone, Copy)]
pub struct PlacedLink {
    pub link: Link,
    pub line: u64,
    pub exact: bool,
}
