ghost use Rattle.std.specs.Prelude.{◌≡◌};
ghost use Rattle.cmd_words.specs.Tells.{fault_at_word};
ghost use Rattle.cmd_words.specs.declared.fault.WordFault.TheVariants.{Memory as NoRoomForWords};
ghost use Rattle.cmd_words.specs.declared.fault.Refusal.TheVariants.{Memory as NoRoomForAWord, Why};

use std::alloc::AllocError;

/// Why a text is no expression.
#[derive(Clone, Copy, Debug, PartialEq, Eq)]
pub enum ExprWhy {
    /// A token, or the text's end, fits nowhere.
    Syntax,
    /// A token is JavaScript that expressions leave out.
    Unsupported,
    /// A token opens one level too many, or the text is too long.
    Depth,
}

/// Why a word is refused. Where one word is refused for several reasons, the order is that of
/// `UnknownOption`, `OptionTwice`, `MissingValue`, `ExtraWord`, `UnsupportedFile`, `BadPrecision`,
/// `BadNumber`, `BadChoice`, `BadBox`, `BoxRange`, `BadExpression`.
#[derive(Clone, Copy, Debug, PartialEq, Eq)]
pub enum WordWhy {
    /// The chain names no file to read; the first word.
    NoInput,
    /// No command has this word.
    UnknownCommand,
    /// The command has no option of this name.
    UnknownOption,
    /// The option or bare word stands a second time.
    OptionTwice,
    /// The value is empty, or an item of a list.
    MissingValue,
    /// The command lacks an argument or an option that it needs; the command word.
    MissingArgument,
    /// An argument has no place here, standard input is read already, the rows are to ascend and to descend, or a
    /// join has keys and is to calculate columns.
    ExtraWord,
    /// The name tells no format.
    UnsupportedFile,
    /// The value is none of 1, 0.1 and so on to 0.000000001.
    BadPrecision,
    /// The word or the value is no number of the range.
    BadNumber,
    /// The value is none of the choices.
    BadChoice,
    /// The value is not four numerals, or a least number is above its greatest.
    BadBox,
    /// A number of the box passes the limit of the grid.
    BoxRange,
    /// The text is no expression, at this byte of it.
    BadExpression { at: u32, why: ExprWhy },
    /// `-i` stands after the front of the chain.
    LaterImport,
    /// There are more than 1,000 words; word 1,001.
    TooManyWords,
}

/// What ends a reading of words. They are counted from 1.
#[derive(Clone, Copy, Debug, PartialEq, Eq)]
pub enum WordFault {
    /// This word is the first that is refused.
    Bad { word: u32, why: WordWhy },
    Memory,
}

impl From<AllocError> for WordFault {
    ghost from_gives = { λ _ f. f ≡ NoRoomForWords };

    fn from(_e: AllocError) -> WordFault {
        WordFault::Memory
    }
}

/// What is wrong with one word.
#[derive(Clone, Copy)]
pub(crate) enum Refusal {
    Why(WordWhy),
    Memory,
}

impl Refusal {
    /// The fault of the word of this number.
    pub(crate) fn at(self, word: u32) -> WordFault
        ensures exact { result ≡ fault_at_word word self }
    {
        match self {
            Refusal::Why(why) => WordFault::Bad { word, why },
            Refusal::Memory => WordFault::Memory,
        }
    }
}

impl From<WordWhy> for Refusal {
    ghost from_gives = { λ why f. f ≡ Why why };

    fn from(why: WordWhy) -> Refusal {
        Refusal::Why(why)
    }
}

impl From<AllocError> for Refusal {
    ghost from_gives = { λ _ f. f ≡ NoRoomForAWord };

    fn from(_e: AllocError) -> Refusal {
        Refusal::Memory
    }
}
