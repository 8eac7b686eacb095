ghost use Rattle.expr_lang.specs.Laws.{
  AssignmentsAreAccepted,
  AssignmentsAreReadInOneWay,
  EachExpressionIsAccepted,
  EachTextHasOneTree,
};

/// The machine accepts each expression of the grammar.
pub fn each_expression_is_accepted()
    ensures holds { EachExpressionIsAccepted }
{}

/// The tokens of a text are an expression in one way at most.
pub fn each_text_has_one_tree()
    ensures holds { EachTextHasOneTree }
{}

/// The machine accepts all assignments of the grammar.
pub fn assignments_are_accepted()
    ensures holds { AssignmentsAreAccepted }
{}

/// The tokens of a text are assignments in one way at most.
pub fn assignments_are_read_in_one_way()
    ensures holds { AssignmentsAreReadInOneWay }
{}
