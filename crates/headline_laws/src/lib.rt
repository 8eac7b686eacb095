//! What a run says of itself is what the model of a run binds it to.
//!
//! What each command does to layers shows what the state's step does (`each_step_shows`, `joint_steps_show`), and so do
//! all commands in order (`all_commands_show`). There is a text of whatever an output writes
//! (`each_output_has_a_text`). So the answer of a run binds what is there afterwards (`answers_are_bound`).
//!
//! - **Sources and ends.** What a run reads of its sources is what the model imports (`accepted_sources_are_imported`,
//!   `first_sources_are_imported`, `refused_sources_are_refused`), and words name standard input once at most
//!   (`standard_input_is_read_once`). Faults have the names and the causes that the model asks (`faults_are_named`,
//!   `faults_have_causes`), refused words end a run (`refused_words_end_the_run`), and its line and its status are
//!   those of the model (`messages_are_of_the_model`, `statuses_are_of_the_model`).
//! - **How a run begins, or ends before.** Where files and standard input tell what they hold, a chain that ends at
//!   a source, or at the drawing of all of them, ends there in the model too (`contents_end_chains`), and its
//!   answer binds what is there afterwards (`chains_end_before_they_begin`). Where its commands begin, the layers
//!   that they begin with show the state of the model (`chains_begin`).
//! - **Texts.** What an output says is a text of the state's layers (`geo_texts_show`, `topo_texts_show`,
//!   `table_texts_show`, `texts_show`), by the laws of pictures in `picture_laws`, and whatever is written has one
//!   (`texts_exist`). The step of an output writes it to the same place, or is refused for the same reason
//!   (`output_steps_show`).
//! - **Commands in order.** Where each shows that of the state, the answer of all of them binds what files and the
//!   standard stream hold afterwards (`commands_are_bound`).
//!
//! Each function carries one law in its contract, and does nothing.
#![tactic(auto)]

ghost use Rattle.headline_laws.specs.Causes.{FaultsHaveCauses};
ghost use Rattle.headline_laws.specs.Messages.{MessagesAreOfTheModel};
ghost use Rattle.headline_laws.specs.Refused.{FaultsAreNamed, RefusedWordsEndTheRun};
ghost use Rattle.headline_laws.specs.Imported.{AcceptedSourcesAreImported, FirstSourcesAreImported, RefusedSourcesAreRefused, StandardInputIsReadOnce};
ghost use Rattle.headline_laws.specs.Outcomes.{StatusesAreOfTheModel};
ghost use Rattle.headline_laws.specs.Begins.{ChainsBegin};
ghost use Rattle.headline_laws.specs.Ends.{ChainsEndBeforeTheyBegin, ContentsEndChains, DenseMosaicsEndTheRun};
ghost use Rattle.headline_laws.specs.Mosaics.{LinesOfMosaicsShow};
ghost use Rattle.headline_laws.specs.PictureTexts.{GeoTextsShow, OutputStepsShow, TableTextsShow, TextsExist, TextsShow, TopoTextsShow};
ghost use Rattle.headline_laws.specs.Bound.{CommandsAreBound};
ghost use Rattle.headline_laws.specs.Runs.{AnswersAreBound, RunsAreOfTheModel};
ghost use Rattle.headline_laws.specs.Steps.{AllCommandsShow, EachJointStepShows, EachStepShows};
ghost use Rattle.headline_laws.specs.Texts.{EachOutputHasAText};
ghost use Rattle.headline_laws.specs.Words.{StepsAreOfWords};

/// A missing file, sources that are too long, a refused text, or too many links of the drawing of all sources end a
/// chain in the model, where they end it in a run.
pub fn contents_end_chains()
    ensures holds { ContentsEndChains }
{}

/// A chain that ends before its commands begin, other than for want of memory, binds what is there afterwards: it has
/// written nothing.
pub fn chains_end_before_they_begin()
    ensures holds { ChainsEndBeforeTheyBegin }
{}

/// A made-up mosaic that is too dense ends a run, and nothing is written.
pub fn dense_mosaics_end_the_run()
    ensures holds { DenseMosaicsEndTheRun }
{}

/// Where the commands of a chain begin, they begin in the model too: there is a view in which the layers of the run,
/// and those of the sources that commands take, show those of the model, with the same places and the same commands.
pub fn chains_begin()
    ensures holds { ChainsBegin }
{}

/// A made-up mosaic that a run tells of isn't too dense, and the line tells, by regions and right answers, of the plane
/// that was built: its arcs and faces, the cells that keep a point, and twice the area of all cells.
pub fn lines_of_mosaics_show()
    ensures holds { LinesOfMosaicsShow }
{}

/// The text of one layer as GeoJSON is one of the state's layer.
pub fn geo_texts_show()
    ensures holds { GeoTextsShow }
{}

/// The text of layers as a topology is one of the state's layers.
pub fn topo_texts_show()
    ensures holds { TopoTextsShow }
{}

/// The text of the table of one layer is one of the state's layer.
pub fn table_texts_show()
    ensures holds { TableTextsShow }
{}

/// What an output of a run says is a text of the state's layers, whatever its form is.
pub fn texts_show()
    ensures holds { TextsShow }
{}

/// Whatever layers an output of the state writes, there is a text of them.
pub fn texts_exist()
    ensures holds { TextsExist }
{}

/// The step of an output writes a text of the layers of the state to the same place, or both are refused for the same
/// reason.
pub fn output_steps_show()
    ensures holds { OutputStepsShow }
{}

/// Commands that begin in a run as in the model, each of which shows that of the state over whatever layers those
/// before it lead to: their answer binds what is there afterwards, be it done, refused, out of memory or a failed
/// write.
pub fn commands_are_bound()
    ensures holds { CommandsAreBound }
{}

/// A command that changes each layer of its target by itself shows what the state's step does, or both refuse for the
/// same reason.
pub fn each_step_shows()
    ensures holds { EachStepShows }
{}

/// So does one that takes the layers of its target together.
pub fn joint_steps_show()
    ensures holds { EachJointStepShows }
{}

/// So do commands in order, outputs among them.
pub fn all_commands_show()
    ensures holds { AllCommandsShow }
{}

/// Whatever an output writes, there is a text of it.
pub fn each_output_has_a_text()
    ensures holds { EachOutputHasAText }
{}

/// Where files and standard input tell what the sources hold, the answer of a run binds what files and the standard
/// stream hold afterwards.
pub fn answers_are_bound()
    ensures holds { AnswersAreBound }
{}

/// Commands that fit the same words make the same steps: expressions of one text are one tree.
pub fn steps_are_of_words()
    ensures holds { StepsAreOfWords }
{}

/// What the contract of a run says is all that the model of a run binds it to: what its answer means and leaves
/// unwritten, its cause, when it has to be Done, and its message.
pub fn runs_are_of_the_model()
    ensures holds { RunsAreOfTheModel }
{}

/// Words name standard input as a source once at most.
pub fn standard_input_is_read_once()
    ensures holds { StandardInputIsReadOnce }
{}

/// Where contents are told, sources that all gave layers are imported as these layers.
pub fn accepted_sources_are_imported()
    ensures holds { AcceptedSourcesAreImported }
{}

/// Where contents are told, the first of them that gave layers are imported as these.
pub fn first_sources_are_imported()
    ensures holds { FirstSourcesAreImported }
{}

/// Where contents are told, sources that a fault of their contents stopped are refused for that fault.
pub fn refused_sources_are_refused()
    ensures holds { RefusedSourcesAreRefused }
{}

/// The exit status of an outcome is the one that the model of a run gives it.
pub fn statuses_are_of_the_model()
    ensures holds { StatusesAreOfTheModel }
{}

/// The end that a fault of words, of a source or of the drawing brings has the name that the model of a run gives it.
pub fn faults_are_named()
    ensures holds { FaultsAreNamed }
{}

/// Whenever a run answers a failed read, a missing file, sources that are too long or a failed write, a count of the
/// outside rose, or told files lack the name. Words are told to be bad only as the table refuses them, and all else but
/// want of memory is answered only of words that it accepts, of their sources and commands.
pub fn faults_have_causes()
    ensures holds { FaultsHaveCauses }
{}

/// Words that the table of commands refuses end a run: just that is answered, or want of memory, and nothing changes,
/// as the model of a run binds it.
pub fn refused_words_end_the_run()
    ensures holds { RefusedWordsEndTheRun }
{}

/// What a run tells of its outcome is what the model of a run tells: the line of just that outcome, or a first part of
/// it where a write failed.
pub fn messages_are_of_the_model()
    ensures holds { MessagesAreOfTheModel }
{}
