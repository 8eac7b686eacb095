ghost use Rattle.std.specs.Prelude.{◌≡◌};
ghost use Rattle.topo_io.specs.Reads.{stopped_at, StandsAt};

use std::alloc::{AllocError, AllocFailed};
use thiserror::Error;

/// Why a value is no topology that can be read.
#[derive(Clone, Copy, PartialEq, Eq, Debug, Drop, Error)]
pub enum TopoWhy {
    /// A member of the topology, an arc, a geometry or its properties is missing or of another kind.
    #[error("no topology")]
    NotTopology,
    /// An arc index is no whole number that names an arc.
    #[error("no arc of this index")]
    ArcIndex,
    /// An arc has fewer than two positions.
    #[error("an arc of fewer than two positions")]
    ArcShort,
    /// An arc does not start where the one before it ends.
    #[error("arcs that do not meet")]
    Unstitched,
    /// A position does not begin with two numbers, or with two whole numbers where there is a transform; or
    /// coordinates are not nested as their type demands.
    #[error("no position")]
    BadPosition,
    /// A number of the transform is no multiple of 10^-28 below 10^9, or a sum passes twice the limit of the grid
    /// either way.
    #[error("a number past what a transform takes")]
    TransformRange,
    /// The ends of a ring differ.
    #[error("a ring whose ends differ")]
    RingOpen,
    /// A grid number passes 200,000,000,000 either way.
    #[error("a position outside the grid")]
    Range,
    /// A geometry collection stands inside another.
    #[error("a geometry collection inside another")]
    Collection,
    #[error("too many positions")]
    TooManyPositions,
    #[error("too many features")]
    TooManyFeatures,
}

/// Where a fault stands; all numbers count from 0.
#[derive(Clone, Copy, PartialEq, Eq, Debug, Drop, Error)]
pub enum TopoPlace {
    #[error("at the top")]
    Top,
    #[error("in arc {arc}")]
    Arc { arc: u32 },
    /// The feature is counted within its object.
    #[error("in object {object} feature {feature}")]
    Shape { object: u32, feature: u32 },
}

/// The first fault of a topology and its place; or memory ran out.
#[derive(Clone, Copy, PartialEq, Eq, Debug, Drop, Error)]
pub enum TopoFault {
    #[error("{why} {place}")]
    Bad { why: TopoWhy, place: TopoPlace },
    #[error("out of memory")]
    Memory,
}

impl From<AllocError> for TopoFault {
    ghost use Rattle.topo_io.specs.declared.fault.TopoFault.TheVariants.{Memory};

    ghost from_gives = { λ _ fault. fault ≡ Memory };

    fn from(_error: AllocError) -> TopoFault {
        TopoFault::Memory
    }
}

impl<T: Drop> From<AllocFailed<T>> for TopoFault {
    ghost use Rattle.topo_io.specs.declared.fault.TopoFault.TheVariants.{Memory};

    ghost from_gives = { λ _ fault. fault ≡ Memory };

    fn from(_error: AllocFailed<T>) -> TopoFault {
        TopoFault::Memory
    }
}

// Why a part of the reader stopped.
#[derive(Clone, Copy)]
pub(crate) enum Stop {
    Why(TopoWhy),
    Memory,
}

impl From<AllocError> for Stop {
    ghost use Rattle.topo_io.specs.declared.fault.Stop.TheVariants.{Memory};

    ghost from_gives = { λ _ stop. stop ≡ Memory };

    fn from(_error: AllocError) -> Stop {
        Stop::Memory
    }
}

impl From<TopoWhy> for Stop {
    ghost use Rattle.topo_io.specs.declared.fault.Stop.TheVariants.{Why};

    ghost from_gives = { λ why stop. stop ≡ Why why };

    fn from(why: TopoWhy) -> Stop {
        Stop::Why(why)
    }
}

impl Stop {
    /// The fault that stopped a part of the reader at this place.
    pub(crate) fn at(self, place: TopoPlace) -> TopoFault
        ensures exact { result ≡ stopped_at place self }
        ensures place { StandsAt place result }
    {
        match self {
            Stop::Why(why) => TopoFault::Bad { why, place },
            Stop::Memory => TopoFault::Memory,
        }
    }
}
