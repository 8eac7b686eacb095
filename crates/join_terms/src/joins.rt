use expr_lang::Expr;
use text_core::{NameList, Text};

/// A join by keys: which columns of the source go to the rows of the target whose key is the same.
#[derive(Drop)]
pub struct JoinSpec {
    /// The column of the target that has the key.
    pub target_key: Text,
    /// The column of the source that has the key.
    pub source_key: Text,
    /// The copied columns of the source; without them, all but the key.
    pub fields: Option<NameList>,
    /// Copied columns take the place of columns of their name.
    pub force: bool,
    /// Source rows for which it isn't true are left out.
    pub test: Option<Expr>,
    /// Stands before the name of each copied column.
    pub prefix: Text,
}
