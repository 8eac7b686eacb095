ghost use Rattle.std.specs.Prelude.{◌≡◌};
ghost use Rattle.run_sources.specs.Formats.{is_white, skip_mark, opens_json, ends_in_csv, is_csv};
ghost use Rattle.run_sources.specs.Titles.{after_slash, before_point, title_of};

use job_terms::SourceWord;

/// Whether the bytes of a source are comma-separated text: those of a file by its name, those of standard input
/// where no JSON object or array begins.
pub(crate) fn is_csv(source: &SourceWord, bytes: &[u8]) -> bool
    ensures exact { result ≡ is_csv source.now bytes.now }
{
    if source.standard {
        !opens_json(skip_mark(bytes))
    } else {
        ends_in_csv(source.name.as_str().as_bytes())
    }
}

// Whether a name ends in `.csv`, in any ASCII letter case.
fn ends_in_csv(name: &[u8]) -> bool
    ensures exact { result ≡ ends_in_csv name.now }
{
    let ending = b".csv";
    if name.len() < ending.len() {
        return false;
    }
    let (_, end) = name.split_at(name.len() - ending.len());
    end.eq_ignore_ascii_case(ending)
}

fn skip_mark(bytes: &[u8]) -> &[u8]
    ensures exact { result.now ≡ skip_mark bytes.now }
{
    match bytes {
        [0xEF, 0xBB, 0xBF, rest @ ..] => rest,
        _ => bytes,
    }
}

fn opens_json(bytes: &[u8]) -> bool
    ensures exact { result ≡ opens_json bytes.now }
{
    for byte in bytes {
        if !is_white(*byte) {
            return matches!(byte, b'{' | b'[');
        }
    }
    false
}

fn is_white(byte: u8) -> bool
    ensures exact { result ≡ is_white byte }
{
    matches!(byte, b' ' | b'\t' | b'\n' | b'\r')
}

/// The name of the layers of a source: that of its file without folders and ending, or `layer` for standard input.
pub(crate) fn title_of(source: &SourceWord) -> &str
    ensures exact { result.now ≡ title_of source.now }
{
    if source.standard {
        "layer"
    } else {
        before_point(after_slash(source.name.as_str()))
    }
}

// What stands after the last slash, or the whole name where it has none.
fn after_slash(name: &str) -> &str
    ensures exact { result.now ≡ after_slash name.now }
{
    match name.rsplit_once('/') {
        Some((_, file)) => file,
        None => name,
    }
}

// What stands before the last point, or the whole name where it has none.
fn before_point(file: &str) -> &str
    ensures exact { result.now ≡ before_point file.now }
{
    match file.rsplit_once('.') {
        Some((title, _)) => title,
        None => file,
    }
}
