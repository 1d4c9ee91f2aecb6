ghost use Rattle.std.specs.Prelude.{◌≡◌, ◌≤◌, ◌-◌, length, slice_index_or};
ghost use Rattle.crn_cert.specs.Built.{built};
ghost use Rattle.crn_cert.specs.Questions.{Q1, number};

/// The number of the question whose answer or verdict has this place among those on the built questions. Places count from 1.
pub fn question_number(place: usize) -> usize
    requires some { 1 ≤ place }
    requires built { place ≤ length built }
    ensures { result ≡ number (slice_index_or built (place - 1) Q1) }
{
    // All questions are built.
    place
}
