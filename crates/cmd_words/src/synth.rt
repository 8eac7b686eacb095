ghost use Rattle.std.specs.Prelude.{◌≡◌, IfOk};
ghost use Rattle.cmd_words.specs.Limits.{KeepsLimits};
ghost use Rattle.cmd_words.specs.Quantities.{number_in};
ghost use Rattle.cmd_words.specs.Words.{read_seed, read_synth};
ghost use Rattle.cmd_words.specs.Tells.{Tells, FitsJob};

use crate::fault::{WordFault, WordWhy};
use crate::quantities::number_in;
use job_terms::Job;
use text_core::Text;

/// Reads the words after `synth`: a seed and a size, in decimal digits.
pub(crate) fn read_synth(words: &[Text]) -> Result<Job, WordFault>
    ensures exact { Tells FitsJob (read_synth words.now) result }
    ensures limits { IfOk result KeepsLimits }
{
    match words {
        [] | [_] => Err(WordFault::Bad {
            word: 1,
            why: WordWhy::MissingArgument,
        }),
        [seed, size] => read_numbers(seed.as_str(), size.as_str()),
        _ => Err(WordFault::Bad {
            word: 4,
            why: WordWhy::ExtraWord,
        }),
    }
}

fn read_numbers(seed: &str, size: &str) -> Result<Job, WordFault>
    ensures exact { Tells FitsJob (read_seed (number_in 0 4294967295 seed.now) size.now) result }
    ensures limits { IfOk result KeepsLimits }
{
    let Some(seed) = number_in(0, u32::MAX, seed) else {
        return Err(WordFault::Bad {
            word: 2,
            why: WordWhy::BadNumber,
        });
    };
    let Some(n) = number_in(1, 300, size) else {
        return Err(WordFault::Bad {
            word: 3,
            why: WordWhy::BadNumber,
        });
    };
    Ok(Job::Synth { seed, n })
}
