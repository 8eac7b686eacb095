ghost use Rattle.json_values.specs.Laws.{NumbersKeepTheirValues, PrintedTextsDenote, CellsStayProper};

/// A number is printed with the value that it has.
pub fn numbers_keep_their_values()
    ensures holds { NumbersKeepTheirValues }
{}

/// The text that is printed of a proper value is in the grammar and denotes that value.
pub fn printed_texts_denote()
    ensures holds { PrintedTextsDenote }
{}

/// The cell of a proper value is proper.
pub fn cells_stay_proper()
    ensures holds { CellsStayProper }
{}
