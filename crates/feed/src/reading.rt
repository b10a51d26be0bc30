//! The step of a reader.

ghost use Rattle.feed.specs.FeedRule.{Sees};

use crate::knowledge::Knowledge;
use crate::version::Version;
use crossbeam_utils::rule::Outcome;

/// A reader enters, and sees a version.
pub struct Reading;

impl Outcome<Version, Knowledge> for Reading {
    ghost then = { λ knew version _ knows. Sees knew version knows };
}
