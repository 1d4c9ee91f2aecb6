ghost use Rattle.crn_ctext.specs.Parts.{AreJudged};
ghost use Rattle.crn_endo_text.specs.Document.{WrittenAreDocuments, meant, part};

/// Each text is a document on endotactic networks or has one first fault, never both, and what is read of it is what its answer
/// says.
pub fn documents_on_endotactic_networks_are_judged()
    ensures { AreJudged part meant }
{}

/// What is written of a formed and valid answer is a document, if the trees of a yes have together at most as many nodes as the
/// greatest budget.
pub fn written_documents_on_endotactic_networks_are_good()
    ensures { WrittenAreDocuments }
{}
