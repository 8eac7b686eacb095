use crate::chain_lists::{CommandList, SourceList};
use expr_lang::{AssignList, Expr};
use grid_base::{BoxList, OverlapRule};
use join_terms::{CalcSpec, JoinSpec};
use table_terms::{GroupSpec, RenameList};
use text_core::{NameList, Text};

/// What a command line asks for.
#[derive(Drop)]
pub enum Job {
    /// A made-up mosaic of `n` by `n` cells, from 1 to 300, as `seed` draws them.
    Synth { seed: u32, n: u32 },
    /// A chain of commands.
    Chain(Chain),
}

/// Sources to read, and commands on what they hold.
#[derive(Drop)]
pub struct Chain {
    /// The decimal places of the grid, at most 9.
    pub places: u8,
    /// Sources are counted from 1.
    pub sources: SourceList,
    /// Boxes are counted from 0.
    pub boxes: BoxList,
    /// Commands are counted from 1.
    pub commands: CommandList,
}

/// A file or standard input, to be read.
#[derive(Drop)]
pub struct SourceWord {
    /// The name of the file, or `-`.
    pub name: Text,
    /// The word was `-`, and standard input is meant.
    pub standard: bool,
    pub owner: Owner,
    /// The columns of comma-separated text that stay texts.
    pub string_fields: NameList,
}

/// What a source is read for.
#[derive(Clone, Copy, Debug, PartialEq, Eq)]
pub enum Owner {
    /// The layers with which the run begins.
    Import,
    /// The command with this number, from 1.
    Command(u32),
}

/// One command of a chain: what it works on, what it does, and how its output is named.
#[derive(Drop)]
pub struct Command {
    pub target: Target,
    /// The name of the output.
    pub name: Option<Text>,
    /// `+` stands: the target stays beside the output.
    pub keep: bool,
    pub action: Action,
}

/// The layers that a command works on.
#[derive(Drop)]
pub enum Target {
    /// Those that the last command that puts layers out put out; before the first, all.
    Default,
    /// All of the run.
    All,
    /// Those of these names.
    Names(NameList),
}

/// What a command clips, erases or joins by.
#[derive(Drop)]
pub enum Origin {
    /// The layer of this name.
    Layer(Text),
    /// The one layer of the source with this number, from 1.
    Source(u32),
    /// The box with this number, from 0.
    Area(u32),
}

/// The format of an output.
#[derive(Clone, Copy, Debug, PartialEq, Eq)]
pub enum OutForm {
    /// GeoJSON, of one layer.
    Geo,
    /// TopoJSON, of all layers of the target.
    Topo,
    /// Comma-separated text, of one layer.
    Csv,
}

/// What a command does.
#[derive(Drop)]
pub enum Action {
    /// A text is written, and no layer changes. `standard` says that the word was `-`, and the standard stream is
    /// meant.
    Write {
        to: Text,
        standard: bool,
        form: OutForm,
    },
    /// Each layer of the target is changed by itself.
    Each(LayerAction),
    /// The layers of the target are changed together.
    Together(JointAction),
}

/// What is made of one layer.
#[derive(Drop)]
pub enum LayerAction {
    Clip {
        from: Origin,
    },
    Erase {
        from: Origin,
    },
    Dissolve {
        spec: GroupSpec,
        group_points: bool,
    },
    Clean {
        rule: OverlapRule,
        allow_empty: bool,
        /// Gaps of at most this area, doubled and in squares of the grid, are filled.
        gap: u128,
    },
    Mosaic,
    InnerLines,
    Lines {
        fields: NameList,
    },
    Explode,
    Join {
        from: Origin,
        spec: JoinSpec,
    },
    SpatialJoin {
        from: Origin,
        spec: CalcSpec,
    },
    Filter {
        test: Option<Expr>,
        invert: bool,
        remove_empty: bool,
    },
    FilterFields {
        fields: NameList,
    },
    RenameFields {
        pairs: RenameList,
    },
    Split {
        field: Option<Text>,
    },
    Each {
        assigns: AssignList,
    },
    Sort {
        key: Expr,
        descending: bool,
    },
    Uniq {
        key: Expr,
        /// How many rows of one key stay; 1 at least.
        most: u32,
        invert: bool,
    },
    FilterIslands {
        /// Twice the least area that stays, in squares of the grid.
        least_area: u128,
        /// The least number of links that stays.
        least_links: u32,
        remove_empty: bool,
    },
}

/// What is made of all layers of a target together.
#[derive(Drop)]
pub enum JointAction {
    MergeLayers { force: bool },
    Union,
}
