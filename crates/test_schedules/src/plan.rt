// SPDX-License-Identifier: MIT
//! What is explored: a scene, on an object of one kind, in some of its schedules.

use crate::path::Bound;
use crate::scene::Scene;
use std::fmt;

/// The kinds of objects.
#[derive(Clone, Copy, PartialEq, Eq)]
pub(crate) enum Kind {
    /// It keeps its history.
    Recorded,
    /// Its memory is fixed.
    Bounded,
    /// It keeps its history, and memory for each call and each procedure is refused once.
    Refused,
}

impl Kind {
    /// Returns whether the scene is played on objects of this kind.
    pub(crate) fn has(self, scene: Scene) -> bool {
        self != Kind::Refused || scene.has_refusals()
    }
}

impl fmt::Display for Kind {
    fn fmt<W: fmt::Write>(&self, f: &mut fmt::Formatter<W>) -> fmt::Result {
        f.write_str(match self {
            Kind::Recorded => "recorded",
            Kind::Bounded => "bounded",
            Kind::Refused => "refused",
        })
    }
}

/// What is explored.
#[derive(Clone, Copy)]
pub(crate) struct Plan {
    pub(crate) kind: Kind,
    pub(crate) scene: Scene,
    pub(crate) bound: Bound,
    /// Whether one sleep at each seat may end for no reason.
    pub(crate) may_doze: bool,
}

impl fmt::Display for Plan {
    fn fmt<W: fmt::Write>(&self, f: &mut fmt::Formatter<W>) -> fmt::Result {
        write!(f, "{}, {}, ", self.scene.name(), self.kind)?;
        match self.bound {
            Bound::Interruptions(most) => write!(f, "up to {most} interruptions")?,
            Bound::EveryOrder => f.write_str("every order")?,
        }
        f.write_str(if self.may_doze {
            ", sleeps that end for no reason"
        } else {
            ""
        })
    }
}
