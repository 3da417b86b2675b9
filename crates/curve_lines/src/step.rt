//! Steps of a run: one line or record each.
ghost use Rattle.std.specs.Prelude.{◌≡◌, true};
ghost use Rattle.curve_lines.specs.Runs.{is_more, has_request};

// What was read.
#[derive(Clone, Copy)]
pub(crate) enum Step {
    // Nothing was left.
    End,
    // A line or record with a request.
    Fed,
    // One without.
    Wrong,
    // A line that is longer than a line with a request may be.
    TooLong,
}

// Whether a line or record was left.
pub(crate) fn is_more(step: Step) -> bool
    ensures { result ≡ is_more step }
{
    match step {
        Step::End => false,
        Step::Fed | Step::Wrong | Step::TooLong => true,
    }
}

// Whether it has a request.
pub(crate) fn has_request(step: Step) -> bool
    ensures { result ≡ has_request step }
{
    match step {
        Step::Fed => true,
        Step::End | Step::Wrong | Step::TooLong => false,
    }
}

// What was read is a line or record, with a request or without.
pub(crate) fn step_of(yes: bool) -> Step
    ensures request { has_request result ≡ yes }
    ensures more { is_more result ≡ true }
{
    if yes { Step::Fed } else { Step::Wrong }
}
