use std::alloc::AllocError;

/// Why a text is no table; bytes, columns and rows below the header are counted from 0.
#[derive(Clone, Copy, Debug, PartialEq, Eq)]
pub enum CsvFault {
    /// The bytes are not UTF-8: `at` is the length of the longest prefix that begins some UTF-8 text.
    Utf8 { at: u64 },
    /// There is no record.
    NoHeader,
    /// The name of this column stands in an earlier column.
    RepeatedName { column: u32 },
    /// This row is the first past the room.
    TooManyRows { row: u32 },
    /// The number of cells of this row is not that of the header.
    UnequalRow { row: u32 },
    Memory,
}

/// How many rows there is room for.
#[derive(Clone, Copy, Debug, PartialEq, Eq)]
pub struct Room2 {
    pub rows: u32,
}

impl From<AllocError> for CsvFault {
    ghost use Rattle.std.specs.Prelude.{◌≡◌};
    ghost use Rattle.csv_io.specs.declared.fault.CsvFault.{CsvFault};

    ghost from_gives = { λ _ r. r ≡ CsvFault.Memory };

    fn from(_: AllocError) -> CsvFault {
        CsvFault::Memory
    }
}
