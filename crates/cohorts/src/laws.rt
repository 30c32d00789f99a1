//! Laws of cohort texts, each a clause of a function.

ghost use Rattle.cohorts.specs.Laws.{ParsedIsPrinted, PrintedIsParsed};

/// States that `CohortText::parse` and `CohortText::print` undo one another on well-formed strings.
pub fn cohort_texts()
    ensures printed { PrintedIsParsed }
    ensures parsed { ParsedIsPrinted }
{}
