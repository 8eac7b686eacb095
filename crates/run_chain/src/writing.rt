ghost use Rattle.run_chain.specs.Effects.{Writes, outside_seen};

use io_core::{Bytes, Failed, Files, Sink, write_file, write_whole};

/// Writes a whole text to the standard stream, or makes the file of that name hold just it.
///
/// Errors: `Failed`, which is counted; a front of the text is there then, or the file is as before.
pub(crate) fn write_text<F: Files, K: Sink>(
    files: &mut F,
    output: &mut K,
    standard: bool,
    name: &str,
    text: &Bytes,
) -> Result<(), Failed>
    ensures means { Writes standard name.now text.now
        (outside_seen F.Files K.Sink files.old output.old)
        (outside_seen F.Files K.Sink files.new output.new) result }
{
    if standard {
        write_whole(output, text.as_slice())
    } else {
        write_file(files, name, text.as_slice())
    }
}
