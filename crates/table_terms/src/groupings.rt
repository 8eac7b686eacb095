use text_core::NameList;

/// What a grouping takes: the names of columns, each list in order.
#[derive(Drop)]
pub struct GroupSpec {
    /// The columns whose values the rows of a group have in common.
    pub by: NameList,
    /// The columns that have the values of the first row of a group.
    pub copy: NameList,
    /// The columns that are summed over a group.
    pub sum: NameList,
}
