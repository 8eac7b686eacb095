use std::alloc::AllocError;

/// Why an expression has no value for a row.
#[derive(Clone, Copy, Debug, PartialEq, Eq)]
pub enum EvalWhy {
    /// The table has no column of the name.
    Unknown,
    /// An operator or a name met a value of another type.
    Types,
    /// The result is no decimal.
    Range,
}

/// Why a table call refuses; items, rows, layers and bytes are counted from 0.
#[derive(Clone, Copy, Debug, PartialEq, Eq)]
pub enum TableWhy {
    /// The table lacks the name of this item.
    NoField { item: u32 },
    /// The name of this item stands in an earlier item.
    FieldTwice { item: u32 },
    /// The names of this table are not those of the first.
    FieldsDiffer { layer: u32 },
    /// The expression is no boolean for this row.
    NotBoolean { row: u32 },
    /// A summed value of this row is neither a number nor null.
    NotNumber { row: u32 },
    /// The sum after this row is no decimal.
    SumRange { row: u32 },
    /// The expression has a fault for this row, at this byte of its text.
    Eval { row: u32, at: u32, why: EvalWhy },
}

/// What ends a table call.
#[derive(Clone, Copy, Debug, PartialEq, Eq)]
pub enum TableFault {
    Bad { why: TableWhy },
    Memory,
}

impl From<AllocError> for TableFault {
    ghost use Rattle.std.specs.Prelude.{◌≡◌};
    ghost use Rattle.table_rows.specs.declared.fault.TableFault.{TableFault};

    ghost from_gives = { λ _ r. r ≡ TableFault.Memory };

    fn from(_: AllocError) -> TableFault {
        TableFault::Memory
    }
}
