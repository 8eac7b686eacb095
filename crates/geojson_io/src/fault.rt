ghost use Rattle.std.specs.Prelude.{◌≡◌};

use std::alloc::{AllocError, AllocFailed};
use thiserror::Error;

/// Why a value is no GeoJSON that can be read.
#[derive(Clone, Copy, PartialEq, Eq, Debug, Drop, Error)]
pub enum ShapeWhy {
    /// A type is missing or may not stand where it does; or a list, a feature, a geometry or properties are none.
    #[error("no GeoJSON")]
    NotGeo,
    /// A geometry collection stands inside a feature or a collection.
    #[error("a geometry collection inside a feature or a collection")]
    Collection,
    /// The ends of a ring differ.
    #[error("a ring whose ends differ")]
    RingOpen,
    /// A ring has fewer than four positions.
    #[error("a ring of fewer than four positions")]
    RingShort,
    /// A line has fewer than two positions.
    #[error("a line of fewer than two positions")]
    LineShort,
    /// A position does not begin with two numbers, or coordinates are not nested as their type demands.
    #[error("no position")]
    BadPosition,
    /// A grid number passes 200,000,000,000 either way.
    #[error("a position outside the grid")]
    Range,
    #[error("too many positions")]
    TooManyPositions,
    #[error("too many features")]
    TooManyFeatures,
}

/// The first fault of a GeoJSON value, in the feature with that number, counted from 0; or memory ran out.
#[derive(Clone, Copy, PartialEq, Eq, Debug, Drop, Error)]
pub enum ShapeFault {
    #[error("{why} in feature {feature}")]
    Bad { why: ShapeWhy, feature: u32 },
    #[error("out of memory")]
    Memory,
}

impl From<AllocError> for ShapeFault {
    ghost use Rattle.geojson_io.specs.declared.fault.ShapeFault.TheVariants.{Memory};

    ghost from_gives = { λ _ fault. fault ≡ Memory };

    fn from(_error: AllocError) -> ShapeFault {
        ShapeFault::Memory
    }
}

impl<T: Drop> From<AllocFailed<T>> for ShapeFault {
    ghost use Rattle.geojson_io.specs.declared.fault.ShapeFault.TheVariants.{Memory};

    ghost from_gives = { λ _ fault. fault ≡ Memory };

    fn from(_error: AllocFailed<T>) -> ShapeFault {
        ShapeFault::Memory
    }
}

// Why a part of the reader stopped.
#[derive(Clone, Copy)]
pub(crate) enum Stop {
    Why(ShapeWhy),
    Memory,
}

impl From<AllocError> for Stop {
    ghost use Rattle.geojson_io.specs.declared.fault.Stop.TheVariants.{Memory};

    ghost from_gives = { λ _ stop. stop ≡ Memory };

    fn from(_error: AllocError) -> Stop {
        Stop::Memory
    }
}
