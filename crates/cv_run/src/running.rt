//! The top call.

ghost use Rattle.std.specs.Prelude.{◌≡◌, ◌≤◌, ◌⊎◌, ℕ, [], IfSome, IfOk, IfErr, length};
ghost use Rattle.std.specs.Io.KnownBytes.{Appends, IsAtEnd, Keeps};
ghost use Rattle.cv_io.specs.Causes.{Rose};
ghost use Rattle.cv_io.specs.Streams.{TookPrefix};
ghost use Rattle.cv_words.specs.Words.{HasWords, IsRefused, texts_of};
ghost use Rattle.cv_words.specs.declared.words.Words as said;
ghost use Rattle.cv_words.specs.declared.words.Job.TheVariants.{Compute, Reify, Gen};
ghost use Rattle.cv_valuation.specs.declared.key.Key as keys;
ghost use Rattle.cv_run.specs.Asked.{IsGen, fate_for, limit_for};
ghost use Rattle.cv_run.specs.Fates.{IsTooLarge, fate_of, malformed, too_large};
ghost use Rattle.cv_run.specs.Outcome.{AreRead, ComesOf, EndsAs, HasAllButMemory, HasWritten, HasWrittenFront, IsOutOfRange, IsSound, TellsOfDocument, WritesNothing};
ghost use Rattle.cv_run.specs.StatusLines.{line_of};
ghost use Rattle.cv_run.specs.Telling.{EndsEarly, IsFew, IsOversized, IsRefusal, IsReportOf, IsSized, IsStopped, IsStoppedBy, TellsOf, text_of};

use crate::generated::summary_of_size;
use crate::laws::documents_have_one_report;
use crate::report::report_of;
use crate::status::Status;
use crate::writing::{Report, Writing, write};
use cv_doc::{BadDoc, What};
use cv_io::{ReadErr, Sink, Source, read_all};
use cv_words::{Job, Words, WordsErr, read_words, words_say_one_thing};
use std::alloc::Global;

const MOST_BYTES: usize = 16777216;

/// Computes the document that `src` gives, or one that it generates, and writes what the words of the command line ask of it to `out`.
/// Want of memory may come at each point, and has no clause.
pub fn run<S: Source, O: Sink, E: Sink>(
    alloc: Global,
    words: &Vec<String>,
    src: &mut S,
    out: &mut O,
    err: &mut E,
) -> Status
    // A run that is done has read all of its input, and has written the report of it and nothing else.
    ensures done { result ≡ Status.Done → IfSome (S.left src.old)
        (λ given. HasWritten (texts_of words.now.items) given (O.taken out.old) (O.taken out.new)) }

    // The job `gen` reads nothing, and has written its summary whatever the source is.
    ensures generated { result ≡ Status.Done → IsGen (texts_of words.now.items) → HasWritten (texts_of words.now.items) [] (O.taken out.old) (O.taken out.new) }
    ensures unread { IsGen (texts_of words.now.items) → S.left src.new ≡ S.left src.old }

    // Each other status has its cause.
    ensures usage { result ≡ Status.Usage → IsRefused (texts_of words.now.items) }
    ensures words { (result ≡ Status.Usage) ⊎ (result ≡ Status.NoMemory) ⊎ AreRead (texts_of words.now.items) }
    ensures read_fault { result ≡ Status.ReadFault → Rose (S.faults src.old) (S.faults src.new) }
    ensures too_large { (what : What) → result ≡ Status.TooLarge what → IfSome (S.left src.old) (λ given. fate_of given ≡ too_large what) }
    ensures parts { (what : What) → result ≡ Status.TooLarge what → IfSome (S.left src.old) (λ given. IsTooLarge given what) }
    ensures malformed { (why : BadDoc) → result ≡ Status.Malformed why → IfSome (S.left src.old) (λ given. fate_of given ≡ malformed why) }
    ensures range { (element : ℕ) (property : keys.Key) → result ≡ Status.Range element property → IfSome (S.left src.old)
        (λ given. IsOutOfRange (texts_of words.now.items) given element property) }
    ensures write_fault { result ≡ Status.WriteFault → Rose (O.faults out.old) (O.faults out.new) }

    // What tells of a document that isn't generated comes only once the input was read to its end.
    ensures read_whole { TellsOfDocument result → IsGen (texts_of words.now.items) ⊎ IsAtEnd (S.left src.new) }

    // Where a run isn't done, `out` took nothing, or at a fault of writing a front of the report, and for want of memory either.
    ensures untouched { WritesNothing result → Keeps (O.taken out.old) (O.taken out.new) }
    ensures cut_short { result ≡ Status.WriteFault → IfSome (S.left src.old)
        (λ given. HasWrittenFront (texts_of words.now.items) given (O.taken out.old) (O.taken out.new)) }
    ensures no_memory { result ≡ Status.NoMemory → IfSome (S.left src.old)
        (λ given. Keeps (O.taken out.old) (O.taken out.new) ⊎ HasWrittenFront (texts_of words.now.items) given (O.taken out.old) (O.taken out.new)) }

    // Words that are taken and a source that doesn't fail give what comes of the input, and nothing else.
    ensures refuses { IsSound (texts_of words.now.items) (Rose (S.faults src.old) (S.faults src.new))
        → (read : said.Words) → HasWords (texts_of words.now.items) read → IfSome (S.left src.old) (λ given. ComesOf (fate_for read given) result) }

    // Words that are taken, streams that don't fail and an input that is computed, with no property out of range, give `Done`.
    ensures complete { HasAllButMemory (texts_of words.now.items) (S.left src.old)
        (Rose (S.faults src.old) (S.faults src.new)) (Rose (O.faults out.old) (O.faults out.new))
        → (result ≡ Status.Done) ⊎ (result ≡ Status.NoMemory) }

    // `err` took a front of the status's line.
    ensures line { TookPrefix (E.taken err.old) (E.taken err.new) (line_of result) }
{
    let status = answer(alloc, words, src, out);
    let _ = status.put_line(alloc, err);
    status
}

// The run but for its line.
fn answer<S: Source, O: Sink>(alloc: Global, words: &[String], src: &mut S, out: &mut O) -> Status
    ensures { EndsAs (texts_of words.now) (S.left src.old) (S.left src.new) (Rose (S.faults src.old) (S.faults src.new))
        (O.taken out.old) (O.taken out.new) (Rose (O.faults out.old) (O.faults out.new)) result }
{
    words_say_one_thing();
    let read = match read_words(alloc, words) {
        Ok(read) => read,
        Err(WordsErr::Refused) => return Status::Usage,
        Err(WordsErr::Memory) => return Status::NoMemory,
    };
    match prepare(alloc, src, read) {
        Ok(writing) => write(alloc, &writing, out),
        Err(status) => status,
    }
}

// What the words ask to be written.
fn prepare<S: Source>(alloc: Global, src: &mut S, read: Words) -> Result<Writing, Status>
    requires least { 1 ≤ read.limit }
    requires most { read.limit ≤ 32768 }
    requires smallest { 1 ≤ read.size }
    requires largest { read.size ≤ 4096 }
    ensures tells { IfOk result (λ writing. IfSome (S.left src.old) (λ given. TellsOf read.job (limit_for read) (fate_for read given) (text_of writing))) }
    ensures generated { read.job ≡ Gen → IfOk result (λ writing. TellsOf read.job (limit_for read) (fate_for read []) (text_of writing)) }
    ensures few { IfOk result IsFew }
    ensures read_whole { IfOk result (λ writing. (read.job ≡ Gen) ⊎ IsAtEnd (S.left src.new)) }
    ensures unread { read.job ≡ Gen → S.left src.new ≡ S.left src.old }
    ensures refused { IfErr result (IsStopped (S.left src.old) read (Rose (S.faults src.old) (S.faults src.new))) }
    ensures ungenerated { read.job ≡ Gen → IfErr result (IsRefusal read.job (limit_for read) (fate_for read [])) }
    ensures parts { IfErr result (λ status. IsOversized (S.left src.old) status) }
    ensures early { IfErr result EndsEarly }
    ensures read_before { IfErr result (λ status. TellsOfDocument status → (read.job ≡ Gen) ⊎ IsAtEnd (S.left src.new)) }
{
    match read.job {
        Job::Compute => read_values(alloc, src, read.limit),
        Job::Reify => read_objects(alloc, src, read.limit),
        Job::Gen => match summary_of_size(alloc, read.size) {
            Ok(text) => Ok(Writing::Summary(text)),
            Err(status) => Err(status),
        },
    }
}

// The values that are shown, of what the source gives.
fn read_values<S: Source>(alloc: Global, src: &mut S, limit: u32) -> Result<Writing, Status>
    requires least { 1 ≤ limit }
    requires most { limit ≤ 32768 }
    ensures tells { IfOk result (λ writing. IfSome (S.left src.old) (λ given. TellsOf Compute limit (fate_of given) (text_of writing))) }
    ensures few { IfOk result IsFew }
    ensures read_whole { IfOk result (λ writing. IsAtEnd (S.left src.new)) }
    ensures refused { IfErr result (IsStoppedBy Compute limit fate_of (S.left src.old) (Rose (S.faults src.old) (S.faults src.new))) }
    ensures parts { IfErr result (λ status. IsOversized (S.left src.old) status) }
    ensures early { IfErr result EndsEarly }
    ensures read_before { IfErr result (λ status. TellsOfDocument status → IsAtEnd (S.left src.new)) }
{
    documents_have_one_report();
    match read_report(alloc, src, limit) {
        Ok(report) => Ok(Writing::Values(report)),
        Err(status) => Err(status),
    }
}

// The objects that are shown, of what the source gives.
fn read_objects<S: Source>(alloc: Global, src: &mut S, limit: u32) -> Result<Writing, Status>
    requires least { 1 ≤ limit }
    requires most { limit ≤ 32768 }
    ensures tells { IfOk result (λ writing. IfSome (S.left src.old) (λ given. TellsOf Reify limit (fate_of given) (text_of writing))) }
    ensures few { IfOk result IsFew }
    ensures read_whole { IfOk result (λ writing. IsAtEnd (S.left src.new)) }
    ensures refused { IfErr result (IsStoppedBy Reify limit fate_of (S.left src.old) (Rose (S.faults src.old) (S.faults src.new))) }
    ensures parts { IfErr result (λ status. IsOversized (S.left src.old) status) }
    ensures early { IfErr result EndsEarly }
    ensures read_before { IfErr result (λ status. TellsOfDocument status → IsAtEnd (S.left src.new)) }
{
    documents_have_one_report();
    match read_report(alloc, src, limit) {
        Ok(report) => Ok(Writing::Objects(report)),
        Err(status) => Err(status),
    }
}

// The report of what the source gives.
fn read_report<S: Source>(alloc: Global, src: &mut S, limit: u32) -> Result<Report, Status>
    requires least { 1 ≤ limit }
    requires most { limit ≤ 32768 }
    ensures tells { IfOk result (λ report. IfSome (S.left src.old) (λ given. IsReportOf limit (fate_of given) report)) }
    ensures sized { IfOk result IsSized }
    ensures read_whole { IfOk result (λ report. IsAtEnd (S.left src.new)) }
    ensures refused { IfErr result (IsStoppedBy Compute limit fate_of (S.left src.old) (Rose (S.faults src.old) (S.faults src.new))) }
    ensures parts { IfErr result (λ status. IsOversized (S.left src.old) status) }
    ensures early { IfErr result EndsEarly }
    ensures read_before { IfErr result (λ status. TellsOfDocument status → IsAtEnd (S.left src.new)) }
{
    let bytes = match read_all(alloc, src, MOST_BYTES) {
        Ok(bytes) => bytes,
        Err(ReadErr::Failed) => return Err(Status::ReadFault),
        Err(ReadErr::TooLong) => return Err(Status::TooLarge(What::Bytes)),
        Err(ReadErr::Memory) => return Err(Status::NoMemory),
    };
    report_of(alloc, &bytes, limit)
}
