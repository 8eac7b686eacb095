ghost use Rattle.std.specs.Prelude.{◌≡◌, ◌≤◌, ◌+◌, ◌++◌, codes, decimal, length};
ghost use Rattle.run_outcome.specs.Messages.{word_kind, expr_kind, shape_kind, eval_kind, input_text, topo_kind, topo_place, numbered_twice, table_text, refused_text, outcome_text};
ghost use Rattle.run_outcome.specs.Telling.{Offers, TellsOutcome, stream_seen};

use crate::outcome::Outcome;
use arrayvec::ArrayString;
use cmd_words::{ExprWhy, WordWhy};
use geojson_io::ShapeWhy;
use io_core::{Sink, write_whole};
use itoa::Buffer;
use run_sources::InputWhy;
use run_state::RefuseWhy;
use table_rows::{EvalWhy, TableWhy};
use topo_io::{TopoPlace, TopoWhy};

/// More bytes than any message has.
const MAX_BYTES: usize = 160;

/// A message line; it takes no memory.
type Line = ArrayString<MAX_BYTES>;

/// Offers the line of an outcome other than `Done` to `messages`, and nothing else. A failure there, which `messages`
/// counts, changes nothing. Takes no memory.
pub fn tell<M: Sink>(messages: &mut M, outcome: &Outcome)
    ensures told { TellsOutcome outcome.now (stream_seen M.Sink messages.old) (stream_seen M.Sink messages.new) }
{
    if let Outcome::Done = outcome {
        return;
    }
    let mut line = Line::new();
    line.push_str("ms_cli: ");
    add_outcome(&mut line, outcome);
    line.push_str("\n");
    offer(messages, line.as_str());
}

fn offer<M: Sink>(messages: &mut M, line: &str)
    ensures offered { Offers line.now (stream_seen M.Sink messages.old) (stream_seen M.Sink messages.new) }
{
    let _ = write_whole(messages, line.as_bytes());
}

fn add_number(line: &mut Line, number: u64)
    requires room { length line.old.bytes ≤ 130 }
    ensures added { line.new.bytes ≡ line.old.bytes ++ decimal number }
    ensures short { length line.new.bytes ≤ length line.old.bytes + 20 }
{
    let mut buffer = Buffer::new();
    line.push_str(buffer.format(number));
}

// Appends a place, such as `word 2: `.
fn add_place(line: &mut Line, kind: &str, number: u32)
    requires room { length line.old.bytes ≤ 8 }
    requires short_kind { length kind.now ≤ 8 }
    ensures added { line.new.bytes ≡ line.old.bytes ++ (kind.now ++ (codes " " ++ (decimal number ++ codes ": "))) }
    ensures short { length line.new.bytes ≤ 40 }
{
    line.push_str(kind);
    line.push_str(" ");
    add_number(line, u64::from(number));
    line.push_str(": ");
}

fn add_outcome(line: &mut Line, outcome: &Outcome)
    requires room { length line.old.bytes ≤ 8 }
    ensures added { line.new.bytes ≡ line.old.bytes ++ outcome_text outcome.now }
    ensures short { length line.new.bytes ≤ 150 }
{
    match outcome {
        Outcome::Done => {}
        Outcome::BadWords { word, why } => {
            add_place(line, "word", *word);
            add_word_why(line, *why);
        }
        Outcome::ReadFault { source } => {
            add_place(line, "source", *source);
            line.push_str("ReadFault");
        }
        Outcome::Missing { source } => {
            add_place(line, "source", *source);
            line.push_str("Missing");
        }
        Outcome::TooLong { source } => {
            add_place(line, "source", *source);
            line.push_str("TooLong");
        }
        Outcome::BadInput { source, why } => {
            add_place(line, "source", *source);
            add_input_why(line, *why);
        }
        Outcome::TooDense { count } => add_density(line, *count),
        Outcome::Refused { command, why } => {
            add_place(line, "command", *command);
            add_refuse_why(line, *why);
        }
        Outcome::WriteFault { command } => {
            add_place(line, "command", *command);
            line.push_str("WriteFault");
        }
        Outcome::Memory => line.push_str("Memory"),
    }
}

fn add_density(line: &mut Line, count: u64)
    requires room { length line.old.bytes ≤ 8 }
    ensures added { line.new.bytes ≡ line.old.bytes ++ (codes "TooDense with " ++ (decimal count ++ codes " links")) }
    ensures short { length line.new.bytes ≤ 150 }
{
    line.push_str("TooDense with ");
    add_number(line, count);
    line.push_str(" links");
}

// Appends a kind, and the number after it.
fn add_numbered(line: &mut Line, kind: &str, number: u64)
    requires room { length line.old.bytes ≤ 70 }
    requires short_kind { length kind.now ≤ 30 }
    ensures added { line.new.bytes ≡ line.old.bytes ++ (kind.now ++ decimal number) }
    ensures short { length line.new.bytes ≤ length line.old.bytes + 50 }
{
    line.push_str(kind);
    add_number(line, number);
}

fn add_word_why(line: &mut Line, why: WordWhy)
    requires room { length line.old.bytes ≤ 40 }
    ensures added { line.new.bytes ≡ line.old.bytes ++ word_kind why }
    ensures short { length line.new.bytes ≤ 120 }
{
    match why {
        WordWhy::NoInput => line.push_str("NoInput"),
        WordWhy::UnknownCommand => line.push_str("UnknownCommand"),
        WordWhy::UnknownOption => line.push_str("UnknownOption"),
        WordWhy::OptionTwice => line.push_str("OptionTwice"),
        WordWhy::MissingValue => line.push_str("MissingValue"),
        WordWhy::MissingArgument => line.push_str("MissingArgument"),
        WordWhy::ExtraWord => line.push_str("ExtraWord"),
        WordWhy::UnsupportedFile => line.push_str("UnsupportedFile"),
        WordWhy::BadNumber => line.push_str("BadNumber"),
        WordWhy::BadChoice => line.push_str("BadChoice"),
        WordWhy::BadPrecision => line.push_str("BadPrecision"),
        WordWhy::BadBox => line.push_str("BadBox"),
        WordWhy::BoxRange => line.push_str("BoxRange"),
        WordWhy::BadExpression { at, why } => {
            line.push_str("BadExpression ");
            line.push_str(expr_kind(why));
            add_numbered(line, " at ", u64::from(at));
        }
        WordWhy::LaterImport => line.push_str("LaterImport"),
        WordWhy::TooManyWords => line.push_str("TooManyWords"),
    }
}

fn expr_kind(why: ExprWhy) -> &'static str
    ensures exact { result.now ≡ expr_kind why }
    ensures short { length result.now ≤ 11 }
{
    match why {
        ExprWhy::Syntax => "Syntax",
        ExprWhy::Unsupported => "Unsupported",
        ExprWhy::Depth => "Depth",
    }
}

fn add_input_why(line: &mut Line, why: InputWhy)
    requires room { length line.old.bytes ≤ 40 }
    ensures added { line.new.bytes ≡ line.old.bytes ++ input_text why }
    ensures short { length line.new.bytes ≤ 120 }
{
    match why {
        InputWhy::Syntax { at } => add_numbered(line, "Syntax at ", at),
        InputWhy::Depth { at } => add_numbered(line, "Depth at ", at),
        InputWhy::Utf8 { at } => add_numbered(line, "Utf8 at ", at),
        InputWhy::Shape { why, feature } => {
            line.push_str(shape_kind(why));
            add_numbered(line, " in feature ", u64::from(feature));
        }
        InputWhy::Topo { why, place } => {
            line.push_str(topo_kind(why));
            add_topo_place(line, place);
        }
        InputWhy::NoHeader => line.push_str("NoHeader"),
        InputWhy::RepeatedName { column } => {
            add_numbered(line, "RepeatedName in column ", u64::from(column));
        }
        InputWhy::TooManyRows { row } => {
            add_numbered(line, "TooManyRows in row ", u64::from(row));
        }
        InputWhy::UnequalRow { row } => add_numbered(line, "UnequalRow in row ", u64::from(row)),
    }
}

fn shape_kind(why: ShapeWhy) -> &'static str
    ensures exact { result.now ≡ shape_kind why }
    ensures short { length result.now ≤ 16 }
{
    match why {
        ShapeWhy::NotGeo => "NotGeo",
        ShapeWhy::Collection => "Collection",
        ShapeWhy::RingOpen => "RingOpen",
        ShapeWhy::RingShort => "RingShort",
        ShapeWhy::LineShort => "LineShort",
        ShapeWhy::BadPosition => "BadPosition",
        ShapeWhy::Range => "Range",
        ShapeWhy::TooManyPositions => "TooManyPositions",
        ShapeWhy::TooManyFeatures => "TooManyFeatures",
    }
}

fn topo_kind(why: TopoWhy) -> &'static str
    ensures exact { result.now ≡ topo_kind why }
    ensures short { length result.now ≤ 16 }
{
    match why {
        TopoWhy::NotTopology => "NotTopology",
        TopoWhy::ArcIndex => "ArcIndex",
        TopoWhy::ArcShort => "ArcShort",
        TopoWhy::Unstitched => "Unstitched",
        TopoWhy::BadPosition => "BadPosition",
        TopoWhy::TransformRange => "TransformRange",
        TopoWhy::RingOpen => "RingOpen",
        TopoWhy::Range => "Range",
        TopoWhy::Collection => "Collection",
        TopoWhy::TooManyPositions => "TooManyPositions",
        TopoWhy::TooManyFeatures => "TooManyFeatures",
    }
}

fn add_topo_place(line: &mut Line, place: TopoPlace)
    requires room { length line.old.bytes ≤ 60 }
    ensures added { line.new.bytes ≡ line.old.bytes ++ topo_place place }
    ensures short { length line.new.bytes ≤ 120 }
{
    match place {
        TopoPlace::Top => line.push_str(" at top"),
        TopoPlace::Arc { arc } => add_numbered(line, " in arc ", u64::from(arc)),
        TopoPlace::Shape { object, feature } => add_shape_place(line, object, feature),
    }
}

fn add_shape_place(line: &mut Line, object: u32, feature: u32)
    requires room { length line.old.bytes ≤ 60 }
    ensures added { line.new.bytes ≡ line.old.bytes ++ numbered_twice (codes " in object ") object (codes " feature ") feature }
    ensures short { length line.new.bytes ≤ 120 }
{
    line.push_str(" in object ");
    add_number(line, u64::from(object));
    line.push_str(" feature ");
    add_number(line, u64::from(feature));
}

fn add_refuse_why(line: &mut Line, why: RefuseWhy)
    requires room { length line.old.bytes ≤ 40 }
    ensures added { line.new.bytes ≡ line.old.bytes ++ refused_text why }
    ensures short { length line.new.bytes ≤ 140 }
{
    match why {
        RefuseWhy::NoLayer => line.push_str("NoLayer"),
        RefuseWhy::ManyLayers => line.push_str("ManyLayers"),
        RefuseWhy::WrongKind => line.push_str("WrongKind"),
        RefuseWhy::OneLayer => line.push_str("OneLayer"),
        RefuseWhy::NoGroupPoints => line.push_str("NoGroupPoints"),
        RefuseWhy::NameTwice => line.push_str("NameTwice"),
        RefuseWhy::TooManyLayers => line.push_str("TooManyLayers"),
        RefuseWhy::Table(why) => add_table_why(line, why),
    }
}

fn add_table_why(line: &mut Line, why: TableWhy)
    requires room { length line.old.bytes ≤ 40 }
    ensures added { line.new.bytes ≡ line.old.bytes ++ table_text why }
    ensures short { length line.new.bytes ≤ 140 }
{
    match why {
        TableWhy::NoField { item } => add_numbered(line, "NoField item ", u64::from(item)),
        TableWhy::FieldTwice { item } => add_numbered(line, "FieldTwice item ", u64::from(item)),
        TableWhy::FieldsDiffer { layer } => {
            add_numbered(line, "FieldsDiffer layer ", u64::from(layer));
        }
        TableWhy::NotBoolean { row } => add_numbered(line, "NotBoolean in row ", u64::from(row)),
        TableWhy::NotNumber { row } => add_numbered(line, "NotNumber in row ", u64::from(row)),
        TableWhy::SumRange { row } => add_numbered(line, "SumRange in row ", u64::from(row)),
        TableWhy::Eval { row, at, why } => {
            line.push_str("Eval ");
            line.push_str(eval_kind(why));
            add_numbered(line, " at ", u64::from(at));
            add_in_row(line, row);
        }
    }
}

fn add_in_row(line: &mut Line, row: u32)
    requires room { length line.old.bytes ≤ 110 }
    ensures added { line.new.bytes ≡ line.old.bytes ++ (codes " in row " ++ decimal row) }
    ensures short { length line.new.bytes ≤ length line.old.bytes + 28 }
{
    line.push_str(" in row ");
    add_number(line, u64::from(row));
}

fn eval_kind(why: EvalWhy) -> &'static str
    ensures exact { result.now ≡ eval_kind why }
    ensures short { length result.now ≤ 7 }
{
    match why {
        EvalWhy::Unknown => "Unknown",
        EvalWhy::Types => "Types",
        EvalWhy::Range => "Range",
    }
}
