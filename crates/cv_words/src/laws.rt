//! The words of the command line say one thing.

ghost use Rattle.std.specs.Prelude.{◌≡◌, ◌≢◌, ◌↔◌, ◌⊎◌, ℕ, List, [], false};
ghost use Rattle.clap.specs.Words.{fault_of, takes};
ghost use Rattle.cv_words.specs.Command.{Choices, HasJobs, command_of};
ghost use Rattle.cv_words.specs.Words.{HasWords, IsRefused};
ghost use Rattle.cv_words.specs.declared.words.Words.{Words};

/// The words of a command line are refused, or say one job and one value of each option. They are refused exactly where clap's
/// definition of a line that the command takes doesn't hold, which is where it finds a fault in them. None of this depends on
/// where the names of the jobs are lent from.
pub fn words_say_one_thing()
    ensures single { (words : List (List ℕ)) (one other : Words) → HasWords words one → HasWords words other → other ≡ one }
    ensures refused_or_read { (words : List (List ℕ)) → IsRefused words ⊎ ((read : Words) × HasWords words read) }
    ensures never_both { (words : List (List ℕ)) (read : Words) → HasWords words read → ¬ (IsRefused words) }
    ensures refused_where_not_taken { (words : List (List ℕ)) (names : Choices) → HasJobs names → IsRefused words ↔ (takes (command_of names) words ≡ false) }
    ensures refused_where_at_fault { (words : List (List ℕ)) (names : Choices) → HasJobs names → IsRefused words ↔ (fault_of (command_of names) words ≢ []) }
{}
