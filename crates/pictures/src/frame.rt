/// The parts that every page has. They are an argument, so that no proof about a page looks at their bytes.
#[derive(Clone, Copy)]
pub struct Frame<'a> {
    /// What stands before the listing.
    pub head: &'a [u8],
    /// What stands between the listing and the program's text.
    pub before_source: &'a [u8],
    /// What stands between the program's text and the schedule.
    pub before_schedule: &'a [u8],
    /// What stands between the schedule and the trace.
    pub before_trace: &'a [u8],
    /// What stands after the trace. It is in pieces, since a constant can't be as long as the whole.
    pub tail: [&'a [u8]; 4],
}
