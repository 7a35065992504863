//! What the words of the command line say.

ghost use Rattle.std.specs.Prelude.{◌≡◌};
ghost use Rattle.cv_words.specs.Words.{job_named};

/// What the program is asked to do.
#[derive(Clone, Copy, Debug, PartialEq, Eq)]
pub enum Job {
    /// Writes the values of the properties that are shown.
    Compute,
    /// Writes the objects of Typed OM for the declarations and the values of the properties that are shown.
    Reify,
    /// Computes a generated document, and writes its summary.
    Gen,
}

/// The job, and the numbers of the options.
#[derive(Clone, Copy, Debug, PartialEq, Eq)]
pub struct Words {
    pub job: Job,
    /// How many tokens the value of a property may have, from 1 to 32768.
    pub limit: u32,
    /// How many elements a generated document has, from 1 to 4096.
    pub size: u32,
}

/// Why the words weren't read.
#[derive(Clone, Copy, Debug, PartialEq, Eq)]
pub enum WordsErr {
    /// The command doesn't take the words.
    Refused,
    /// There is no memory.
    Memory,
}

impl Job {
    /// The job of a name, as `Job::named("compute")`.
    pub fn named(name: &str) -> Option<Job>
        ensures { result ≡ job_named name.now }
    {
        match name {
            "compute" => Some(Job::Compute),
            "reify" => Some(Job::Reify),
            "gen" => Some(Job::Gen),
            _ => None,
        }
    }
}
