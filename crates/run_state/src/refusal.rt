use table_rows::TableWhy;

/// Why a command is refused.
#[derive(Clone, Copy, Debug, PartialEq, Eq)]
pub enum RefuseWhy {
    /// No layer has the name, or there is none at all.
    NoLayer,
    /// Several layers stand where one is needed.
    ManyLayers,
    /// The command takes no layer of this kind, or doesn't cut or join by one.
    WrongKind,
    /// One layer stands where several are needed.
    OneLayer,
    /// Points are dissolved without `group-points`.
    NoGroupPoints,
    /// Two layers of a topology would have one name.
    NameTwice,
    /// More than 1,000 layers would be left.
    TooManyLayers,
    /// The table of a layer is refused.
    Table(TableWhy),
}
