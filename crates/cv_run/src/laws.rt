//! A document has one report, and a run one text.

ghost use Rattle.std.specs.Prelude.{◌≡◌, ℕ, List};
ghost use Rattle.cv_doc.specs.Kept.{IsSound};
ghost use Rattle.cv_doc.specs.Reading.{Shape};
ghost use Rattle.cv_words.specs.declared.words.Job.{Job};
ghost use Rattle.cv_tree.specs.Single.{HaveOneResult};
ghost use Rattle.cv_tree.specs.Tree.{AreInRange, tree_of};
ghost use Rattle.cv_tree_laws.specs.Texts.{AreTexts};
ghost use Rattle.cv_run.specs.Outcome.{IsText};
ghost use Rattle.cv_run.specs.Reports.{IsOnlyReport, IsReport};

use cv_props::properties_are_found;
use cv_tree_laws::documents_in_range_have_one_result;
use cv_words::words_say_one_thing;

/// What a job writes of a document whose tree has one result is the only text that it may write.
pub fn documents_have_one_report()
    ensures { (job : Job) (document : Shape) (limit : ℕ) → HaveOneResult (tree_of document) limit → (text : List ℕ) → IsReport job document limit text → IsOnlyReport job document limit text }
{
    properties_are_found();
}

/// Each document of texts has a text that a job writes of it, and no other, where no property is out of range on any of its elements.
pub fn documents_in_range_have_one_report()
    ensures { (job : Job) (document : Shape) (limit : ℕ) → IsSound document → AreTexts document → AreInRange (tree_of document) limit → (text : List ℕ) × IsOnlyReport job document limit text }
{
    documents_in_range_have_one_result();
    documents_have_one_report();
}

/// The words of a command line and the bytes of an input have no more than one report.
pub fn runs_have_one_text()
    ensures { (words : List (List ℕ)) (given one other : List ℕ) → IsText words given one → IsText words given other → other ≡ one }
{
    words_say_one_thing();
}
