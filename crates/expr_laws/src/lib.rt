//! Each text is an expression or has a fault, one of the two and one fault alone: so a text decides by itself whether
//! it is refused, for what and where. So it is with assignments.
//!
//! Each function carries one law in its contract, and does nothing.
#![tactic(auto)]

ghost use Rattle.expr_laws.specs.Laws.{
  AcceptedTokensAreAssignments,
  AcceptedTokensAreExpressions,
  EachTextHasATreeOrAFault,
  EachTextHasAssignmentsOrAFault,
  EachTextHasOneFault,
  EachTextHasOneFaultAsAssignments,
  NoAssignmentsHaveAFault,
  NoFaultIsOfMemory,
  NoFaultOfAssignmentsIsOfMemory,
  NoTreeHasAFault,
  StoppedAssignmentsAreStuck,
  StoppedTokensAreStuck,
};

/// A text is an expression, with its tree, or has a fault, at its place.
pub fn each_text_has_a_tree_or_a_fault()
    ensures holds { EachTextHasATreeOrAFault }
{}

/// A text that is an expression has no fault.
pub fn no_tree_has_a_fault()
    ensures holds { NoTreeHasAFault }
{}

/// A text has one fault at most.
pub fn each_text_has_one_fault()
    ensures holds { EachTextHasOneFault }
{}

/// No text has a lack of memory as its fault.
pub fn no_fault_is_of_memory()
    ensures holds { NoFaultIsOfMemory }
{}

/// Tokens that the machine accepts are an expression, whatever the number of levels.
pub fn accepted_tokens_are_expressions()
    ensures holds { AcceptedTokensAreExpressions }
{}

/// Where the machine stops, the tokens before begin an expression, and no expression goes on: with the number of levels
/// that is allowed, where the next token is too deep, and with any number, where it does not fit.
pub fn stopped_tokens_are_stuck()
    ensures holds { StoppedTokensAreStuck }
{}

/// A text is assignments, with their names and trees, or has a fault as such, at its place.
pub fn each_text_has_assignments_or_a_fault()
    ensures holds { EachTextHasAssignmentsOrAFault }
{}

/// A text that is assignments has no fault as such.
pub fn no_assignments_have_a_fault()
    ensures holds { NoAssignmentsHaveAFault }
{}

/// A text has one fault at most as assignments.
pub fn each_text_has_one_fault_as_assignments()
    ensures holds { EachTextHasOneFaultAsAssignments }
{}

/// No text has a lack of memory as its fault.
pub fn no_fault_of_assignments_is_of_memory()
    ensures holds { NoFaultOfAssignmentsIsOfMemory }
{}

/// Tokens that the machine accepts from the first name on are assignments, whatever the number of levels.
pub fn accepted_tokens_are_assignments()
    ensures holds { AcceptedTokensAreAssignments }
{}

/// Where the machine stops, the tokens before begin assignments, and no assignments go on: with the number of levels
/// that is allowed, where the next token is too deep, and with any number, where it does not fit.
pub fn stopped_assignments_are_stuck()
    ensures holds { StoppedAssignmentsAreStuck }
{}
