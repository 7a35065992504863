//! The words of the command line, read with clap.

ghost use Rattle.std.specs.Prelude.{IfOk, IsErrOf};
ghost use Rattle.clap.specs.Words.{found_of};
ghost use Rattle.cv_words.specs.Words.{HasJob, HasNumber, HasWords, IsGiven, IsReadFrom, IsRefused, MayGiveJob, MayGiveNumber, texts_of};

use crate::command::command;
use crate::{Job, Words, WordsErr};
use clap::ArgMatches;
use clap::error::ErrorKind;
use std::alloc::Global;

static JOBS: [&str; 3] = ["compute", "reify", "gen"];

/// The job and the numbers of the options, by clap's definition of what the words match. Unless memory runs out, `Refused`
/// comes exactly where clap finds a fault in the words, which is where its definition of a line that the command takes doesn't
/// hold.
pub fn read_words(alloc: Global, words: &[String]) -> Result<Words, WordsErr>
    ensures read { IfOk result (λ read. HasWords (texts_of words.now) read) }
    ensures refused { IsErrOf result WordsErr.Refused → IsRefused (texts_of words.now) }
{
    let Ok(command) = command(alloc, JOBS.as_slice()) else {
        return Err(WordsErr::Memory);
    };
    match command.try_get_matches_from(words) {
        Ok(matches) => Ok(read_matches(&matches)),
        Err(error) if error.kind() == ErrorKind::OutOfMemory => Err(WordsErr::Memory),
        Err(_) => Err(WordsErr::Refused),
    }
}

// What the matches say.
fn read_matches(matches: &ArgMatches<'_>) -> Words
    requires { IsGiven (found_of matches.now) }
    ensures { IsReadFrom (found_of matches.now) result }
{
    Words {
        job: job(matches),
        limit: number(matches, "limit"),
        size: number(matches, "size"),
    }
}

// The job that the matches name.
fn job(matches: &ArgMatches<'_>) -> Job
    requires { MayGiveJob (found_of matches.now) }
    ensures { HasJob (found_of matches.now) result }
{
    let Some(name) = matches.get_str("job") else {
        unreachable!()
    };
    let Some(job) = Job::named(name) else {
        unreachable!()
    };
    job
}

// The number of an option.
fn number(matches: &ArgMatches<'_>, id: &str) -> u32
    requires { MayGiveNumber (found_of matches.now) id.now 4294967295 }
    ensures { HasNumber (found_of matches.now) id.now 4294967295 result }
{
    let Some(text) = matches.get_str(id) else {
        unreachable!()
    };
    let Ok(number) = text.parse::<u32>() else {
        unreachable!()
    };
    number
}
