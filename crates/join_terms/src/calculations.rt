use expr_lang::Expr;
use lists::ItemList;
use text_core::{NameList, Text};

/// A new column, `name`, by the source rows that match a row of the target.
#[derive(Drop)]
pub enum Calc {
    /// How many they are.
    Count { name: Text },
    /// The sum of a column of the source, `field`, over them, where null counts as 0.
    Sum { name: Text, field: Text },
}

/// A list of new columns; counted from 0.
pub type CalcList = ItemList<Calc>;

/// A join of rows that are matched already: which columns of the source go to the rows of the target, and what is
/// calculated of all their matches.
#[derive(Drop)]
pub struct CalcSpec {
    /// The copied columns of the source; without them, all.
    pub fields: Option<NameList>,
    /// Copied columns take the place of columns of their name.
    pub force: bool,
    /// Source rows for which it isn't true are left out.
    pub test: Option<Expr>,
    /// Stands before the name of each copied column.
    pub prefix: Text,
    /// The columns that are calculated, which stand last.
    pub calc: CalcList,
}
