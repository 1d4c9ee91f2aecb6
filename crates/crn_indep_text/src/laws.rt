ghost use Rattle.crn_ctext.specs.Parts.{AreJudged};
ghost use Rattle.crn_indep_text.specs.Document.{WrittenAreDocuments, meant, part};

/// Each text is a document on the finest independent decomposition or has one first fault, never both, and what is read of it
/// is what its answer says.
pub fn documents_on_decompositions_are_judged()
    ensures { AreJudged part meant }
{}

/// What is written of a formed and valid answer is a document.
pub fn written_documents_on_decompositions_are_good()
    ensures { WrittenAreDocuments }
{}
