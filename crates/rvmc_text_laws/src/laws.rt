//! Laws of what is told of alike states: functions with empty bodies, whose contracts are the laws.

ghost use Rattle.rvmc_text_laws.specs.Begun.{BegunLaw};
ghost use Rattle.rvmc_text_laws.specs.Laws.{WhyLaw};
ghost use Rattle.rvmc_text_laws.specs.OneText.{EndTextLaw, OneTextLaw};
ghost use Rattle.rvmc_text_laws.specs.OnTheWay.{OnTheWayLaw};

/// `why` prints the same text for alike clusters to which runs of one image lead.
pub fn why_law()
    ensures { WhyLaw }
{}

/// `explore` prints the same text for alike ends.
pub fn end_text_law()
    ensures { EndTextLaw }
{}

/// A list has the text of each of its ends in full, and no two of them are alike. If a search left no state, its list has
/// the text of each end that any search finds. So two such lists have the same texts of ends, whatever else they name.
pub fn one_text_law()
    ensures { OneTextLaw }
{}

/// The text of each end that `explore` printed before memory was refused is in the list of each search of that image and order
/// that left no state. Every other outcome that it printed is of ranks that need buffers where its turns lead. There are none
/// of those if every send was buffered, or if sends might wait in such a search.
pub fn begun_law()
    ensures { BegunLaw }
{}

/// Where `explore` adds `, also with messages on their way`, each run on a network, on which a message takes its time, is a run
/// of the machine on which it arrives as soon as it is sent, but for polls. So the list has each end of such a run, and no such
/// run comes to stuck ranks or to ranks that need buffers of which the search knows nothing.
pub fn on_the_way_law()
    ensures { OnTheWayLaw }
{}
