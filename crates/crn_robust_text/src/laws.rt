ghost use Rattle.crn_ctext.specs.Parts.{AreJudged};
ghost use Rattle.crn_robust_text.specs.Document.{ValidAreTrue, ValidLinesAreTrue, WrittenAreDocuments, meant, part};

/// Each text is a document on robustness or has one first fault, never both, and what is read of it is what its answer
/// says.
pub fn documents_on_robustness_are_judged()
    ensures { AreJudged part meant }
{}

/// What is written of formed and valid answers and of the verdict that they give is a document.
pub fn written_documents_on_robustness_are_good()
    ensures { WrittenAreDocuments }
{}

/// The verdict of a document on robustness is the case that holds of its network, or rests on the rank; and its line says
/// whether the confluence space is a line.
pub fn valid_answers_on_robustness_are_true()
    ensures cases { ValidAreTrue }
    ensures lines { ValidLinesAreTrue }
{}
