ghost use Rattle.crn_render.specs.Length.{FaultLinesAreShort, ReportsAreShort, SummariesAreShort};
ghost use Rattle.crn_render.specs.Faults.{TextCodesHaveTheirNames};
ghost use Rattle.crn_render.specs.Titles.{TrueVerdictsHaveOneLine};

/// Each refusal of a network text is printed with its own name.
pub fn text_codes_have_their_names()
    ensures { TextCodesHaveTheirNames }
{}

/// The line of a question is the same for each true verdict, but for the reason why a network is not regular.
pub fn true_verdicts_have_one_line()
    ensures { TrueVerdictsHaveOneLine }
{}

/// A report, a summary of formed answers and the line of a fault are shorter than a document may be.
pub fn what_is_written_is_short()
    ensures reports { ReportsAreShort }
    ensures summaries { SummariesAreShort }
    ensures faults { FaultLinesAreShort }
{}
