//! Laws of the listing and of the report of a record. The functions do nothing; their contracts are the laws.

ghost use Rattle.rvmc_report.specs.Laws.{NamesRiseLaw, WordsAloneLaw};
ghost use Rattle.rvmc_report.specs.RecordedLaws.{SameReportLaw};

/// An image without symbols is listed word by word, a line each.
pub fn words_alone()
    ensures { WordsAloneLaw }
{}

/// Several names before one word stand in the order of their bytes.
pub fn names_rise()
    ensures { NamesRiseLaw }
{}

/// The report of a record that a run left is the run's own, but for the cause of a stop where not all harts of a rank
/// are stopped.
pub fn same_report()
    ensures { SameReportLaw }
{}
