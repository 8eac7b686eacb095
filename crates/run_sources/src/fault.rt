use geojson_io::ShapeWhy;
use topo_io::{TopoPlace, TopoWhy};

/// Why the sources of a run are not all read and accepted. Sources are counted from 1.
#[derive(Clone, Copy, Debug, PartialEq, Eq)]
pub enum SourceFault {
    /// The host failed to read the source.
    ReadFault { source: u32 },
    /// There is no file of the source's name.
    Missing { source: u32 },
    /// The sources so far have more than 67,108,864 bytes.
    TooLong { source: u32 },
    /// The source is refused.
    BadInput { source: u32, why: InputWhy },
    /// No memory was left.
    Memory,
}

/// Why a source is refused. Bytes, features, columns and rows are counted from 0.
#[derive(Clone, Copy, Debug, PartialEq, Eq)]
pub enum InputWhy {
    /// It isn't a JSON text; `at` is the length of the longest start that some JSON text has too.
    Syntax { at: u64 },
    /// A bracket is refused for its depth alone.
    Depth { at: u64 },
    /// The bytes of a text stop being UTF-8.
    Utf8 { at: u64 },
    /// It is no GeoJSON that can be read: the first fault, in this feature.
    Shape { why: ShapeWhy, feature: u32 },
    /// It is no topology that can be read: the first fault, at this place.
    Topo { why: TopoWhy, place: TopoPlace },
    /// A table has no header.
    NoHeader,
    /// The name of this column stands in an earlier one.
    RepeatedName { column: u32 },
    /// There is no room for this row.
    TooManyRows { row: u32 },
    /// This row has more or fewer cells than the header.
    UnequalRow { row: u32 },
}
