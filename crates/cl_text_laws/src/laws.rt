//! What is run is inside the limits of a record's text.

ghost use Rattle.cl_text_laws.specs.Laws.{RecordsFitLaw, RunsFitLaw};

/// Each step of a run of an image is one of a rank and a hart that the image has, its stamp is above 0 and below 2^62,
/// and a reply of the hub has a communicator, a source, a tag, bytes, posts, a link and a cut inside the limits.
pub fn runs_fit_law()
    ensures { RunsFitLaw }
{}

/// So is each event of a record that is such a run, whoever put the events in order.
pub fn records_fit_law()
    ensures { RecordsFitLaw }
{}
