//! Why nothing could be read.

/// The feed is closed. (No clause excludes that it is also answered where a version is older than a mark that was learnt; no
/// mark is made of what isn't published.)
#[derive(Clone, Copy, Debug, PartialEq, Eq)]
pub struct NotLetIn;
