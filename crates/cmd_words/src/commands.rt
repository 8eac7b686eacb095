ghost use Rattle.std.specs.Prelude.{◌≡◌, option_map, map};
ghost use Rattle.cmd_words.specs.Rows.{row_of, row_named, form_of, has_name};
ghost use Rattle.cmd_words.specs.Seen.{row_seen, options_seen, names_seen};

/// A command, by the shape of its action.
#[derive(Clone, Copy)]
pub(crate) enum Keyword {
    Write,
    Each(LayerKeyword),
    Calculated(ExpressionKeyword),
    Together(JointKeyword),
}

/// A command that works on one layer.
#[derive(Clone, Copy)]
pub(crate) enum LayerKeyword {
    Clip,
    Erase,
    Dissolve,
    Clean,
    Mosaic,
    InnerLines,
    Explode,
    Lines,
    FilterFields,
    RenameFields,
    Split,
    FilterIslands,
}

/// A command that works on one layer, by an expression or by assignments.
#[derive(Clone, Copy)]
pub(crate) enum ExpressionKeyword {
    Join,
    Filter,
    Each,
    Sort,
    Uniq,
}

/// A command that works on all layers of its target together.
#[derive(Clone, Copy)]
pub(crate) enum JointKeyword {
    MergeLayers,
    Union,
}

/// What the argument of a group is.
#[derive(Clone, Copy)]
pub(crate) enum ArgumentForm {
    Nothing,
    /// One file or more.
    Files,
    /// A file or a layer.
    Source,
    List,
    Expression,
    Assignments,
    Renames,
    Text,
}

/// What the value of an option is.
#[derive(Clone, Copy)]
pub(crate) enum ValueForm {
    Text,
    List,
    /// A list of two names.
    Keys,
    Precision,
    Rule,
    Format,
    Rect,
    Expression,
    /// An area in squared units of the coordinates, a numeral of at least 0: of gaps, rounded down to squares of the
    /// grid.
    Gap,
    /// The same of what stays, rounded up.
    LeastArea,
    /// Digits for a number from 1 on.
    CountFromOne,
    /// Digits for a number from 0 on.
    CountFromZero,
    /// Columns to be calculated.
    Calculations,
}

/// An option: its name, and what its value is.
pub(crate) type OptionForm = (&'static str, ValueForm);

/// What may stand in a group of words.
#[derive(Clone, Copy)]
pub(crate) struct GroupForm {
    pub argument: ArgumentForm,
    pub options: &'static [OptionForm],
    pub bare: &'static [&'static str],
}

#[derive(Clone, Copy)]
pub(crate) struct CommandRow {
    pub word: &'static str,
    pub keyword: Keyword,
    pub form: GroupForm,
}

const TARGET: OptionForm = ("target", ValueForm::List);

const NAME: OptionForm = ("name", ValueForm::Text);

const PRECISION: OptionForm = ("precision", ValueForm::Precision);

const STRING_FIELDS: OptionForm = ("string-fields", ValueForm::List);

const BOX: OptionForm = ("bbox", ValueForm::Rect);

const SUM_FIELDS: OptionForm = ("sum-fields", ValueForm::List);

const COPY_FIELDS: OptionForm = ("copy-fields", ValueForm::List);

const RULE: OptionForm = ("overlap-rule", ValueForm::Rule);

const KEYS: OptionForm = ("keys", ValueForm::Keys);

const CALC: OptionForm = ("calc", ValueForm::Calculations);

const FIELDS: OptionForm = ("fields", ValueForm::List);

const WHERE: OptionForm = ("where", ValueForm::Expression);

const PREFIX: OptionForm = ("prefix", ValueForm::Text);

const FORMAT: OptionForm = ("format", ValueForm::Format);

const GAP: OptionForm = ("gap-fill-area", ValueForm::Gap);

const MOST: OptionForm = ("max-count", ValueForm::CountFromOne);

const LEAST_AREA: OptionForm = ("min-area", ValueForm::LeastArea);

const LEAST_LINKS: OptionForm = ("min-vertices", ValueForm::CountFromZero);

/// The import at the front of a chain.
pub(crate) static IMPORT: GroupForm = GroupForm {
    argument: ArgumentForm::Files,
    options: &[PRECISION, STRING_FIELDS],
    bare: &["combine-files"],
};

macro_rules! row {
    ($word:literal, $keyword:expr, $argument:ident, [$($option:ident),*], [$($bare:literal),*]) => {
        CommandRow {
            word: $word,
            keyword: $keyword,
            form: GroupForm {
                argument: ArgumentForm::$argument,
                options: &[$($option),*],
                bare: &[$($bare),*],
            },
        }
    };
}

macro_rules! layer_row {
    ($word:literal, $keyword:ident, $argument:ident, $options:tt, $bare:tt) => {
        row!(
            $word,
            Keyword::Each(LayerKeyword::$keyword),
            $argument,
            $options,
            $bare
        )
    };
}

macro_rules! calculated_row {
    ($word:literal, $keyword:ident, $argument:ident, $options:tt, $bare:tt) => {
        row!(
            $word,
            Keyword::Calculated(ExpressionKeyword::$keyword),
            $argument,
            $options,
            $bare
        )
    };
}

macro_rules! joint_row {
    ($word:literal, $keyword:ident, $argument:ident, $options:tt, $bare:tt) => {
        row!(
            $word,
            Keyword::Together(JointKeyword::$keyword),
            $argument,
            $options,
            $bare
        )
    };
}

/// The commands: word, meaning, argument, options and bare words. A new one is a row here, and an arm of
/// `layer_action`, `calculated_action` or `joint_action`.
static COMMANDS: [CommandRow; 20] = [
    layer_row!("-clip", Clip, Source, [BOX, TARGET, NAME], ["+"]),
    layer_row!("-erase", Erase, Source, [BOX, TARGET, NAME], ["+"]),
    layer_row!(
        "-dissolve",
        Dissolve,
        List,
        [SUM_FIELDS, COPY_FIELDS, TARGET, NAME],
        ["group-points", "+"]
    ),
    layer_row!(
        "-clean",
        Clean,
        Nothing,
        [RULE, GAP, TARGET, NAME],
        ["allow-empty", "+"]
    ),
    layer_row!("-mosaic", Mosaic, Nothing, [TARGET, NAME], ["+"]),
    layer_row!("-innerlines", InnerLines, Nothing, [TARGET, NAME], ["+"]),
    layer_row!("-explode", Explode, Nothing, [TARGET, NAME], ["+"]),
    layer_row!("-lines", Lines, List, [TARGET, NAME], ["+"]),
    calculated_row!(
        "-join",
        Join,
        Source,
        [KEYS, CALC, FIELDS, WHERE, PREFIX, STRING_FIELDS, TARGET],
        ["force"]
    ),
    calculated_row!(
        "-filter",
        Filter,
        Expression,
        [TARGET, NAME],
        ["invert", "remove-empty", "+"]
    ),
    layer_row!("-filter-fields", FilterFields, List, [TARGET], []),
    layer_row!("-rename-fields", RenameFields, Renames, [TARGET], []),
    layer_row!("-split", Split, Text, [TARGET], ["+"]),
    calculated_row!("-each", Each, Assignments, [TARGET], []),
    calculated_row!(
        "-sort",
        Sort,
        Expression,
        [TARGET],
        ["ascending", "descending"]
    ),
    calculated_row!(
        "-uniq",
        Uniq,
        Expression,
        [MOST, TARGET, NAME],
        ["invert", "+"]
    ),
    layer_row!(
        "-filter-islands",
        FilterIslands,
        Nothing,
        [LEAST_AREA, LEAST_LINKS, TARGET, NAME],
        ["remove-empty", "+"]
    ),
    joint_row!(
        "-merge-layers",
        MergeLayers,
        Nothing,
        [TARGET, NAME],
        ["force", "+"]
    ),
    joint_row!("-union", Union, Nothing, [TARGET, NAME], ["+"]),
    row!("-o", Keyword::Write, Text, [FORMAT, TARGET], ["force"]),
];

/// The row of a command word.
pub(crate) fn row_of(word: &str) -> Option<&'static CommandRow>
    ensures exact { option_map (λ r. row_seen r.now) result ≡ row_of word.now }
{
    row_named(&COMMANDS, word)
}

fn row_named<'a>(rows: &'a [CommandRow], word: &str) -> Option<&'a CommandRow>
    ensures exact { option_map (λ r. row_seen r.now) result ≡ row_named (map row_seen rows.now) word.now }
{
    for row in rows {
        if row.word == word {
            return Some(row);
        }
    }
    None
}

impl GroupForm {
    /// What the value of the option of this name is.
    pub(crate) fn value_form(&self, name: &str) -> Option<ValueForm>
        ensures exact { result ≡ form_of (options_seen self.now.options.now) name.now }
    {
        form_named(self.options, name)
    }

    pub(crate) fn has_bare(&self, word: &str) -> bool
        ensures exact { result ≡ has_name (names_seen self.now.bare.now) word.now }
    {
        is_among(self.bare, word)
    }
}

fn form_named(options: &[OptionForm], name: &str) -> Option<ValueForm>
    ensures exact { result ≡ form_of (options_seen options.now) name.now }
{
    for option in options {
        if option.0 == name {
            return Some(option.1);
        }
    }
    None
}

fn is_among(names: &[&str], name: &str) -> bool
    ensures exact { result ≡ has_name (names_seen names.now) name.now }
{
    for known in names {
        if *known == name {
            return true;
        }
    }
    false
}
