ghost use Rattle.std.specs.Prelude.{◌≡◌};
ghost use Rattle.expr_lang.specs.declared.fault.ExprFault.TheVariants.{Memory as NoRoomToRead};
ghost use Rattle.expr_lang.specs.declared.fault.EvalFault.TheVariants.{Memory as NoRoomToEvaluate};

use std::alloc::AllocError;

/// Why a text is no expression. A place is the number of a byte, counted from 0.
#[derive(Clone, Copy, Debug, PartialEq, Eq, Drop)]
pub enum ExprFault {
    /// The token at this place, or the text's end, fits nowhere.
    Syntax { at: u32 },
    /// The token at this place is JavaScript that the language leaves out.
    Unsupported { at: u32 },
    /// The token at this place opens one level too many; or the text has more than 4,096 bytes, and this is 4,096.
    Depth { at: u32 },
    /// No memory was left.
    Memory,
}

/// Why an expression has no value for a row. The place is that of the operator or the name, a byte counted from 0.
#[derive(Clone, Copy, Debug, PartialEq, Eq, Drop)]
pub enum EvalFault {
    /// No column has the name.
    Unknown { at: u32 },
    /// The operator does not take these values, or the column holds a list, an object or a numeral that
    /// is no decimal.
    Types { at: u32 },
    /// The result is no decimal.
    Range { at: u32 },
    /// No memory was left.
    Memory,
}

impl From<AllocError> for ExprFault {
    ghost from_gives = { λ _ f. f ≡ NoRoomToRead };

    fn from(_e: AllocError) -> ExprFault {
        ExprFault::Memory
    }
}

impl From<AllocError> for EvalFault {
    ghost from_gives = { λ _ f. f ≡ NoRoomToEvaluate };

    fn from(_e: AllocError) -> EvalFault {
        EvalFault::Memory
    }
}
