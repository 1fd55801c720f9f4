//! A group of the writer's log.
ghost use Rattle.std.specs.Prelude.{◌≡◌};

use crate::Acks;
use tm_base::Group;

/// A group with the log stores that acknowledged it.
#[derive(Debug, Drop, PartialEq, Eq)]
pub struct Logged {
    pub group: Group,
    pub acks: Acks,
}
