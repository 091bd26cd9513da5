//! The fixed parts of the page that `show` writes.
//!
//! `bin/made page` makes them, `src/fixed.rt`, of the app. No crate that plays a program stands on this one.
#![tactic(auto)]

ghost use Rattle.std.specs.Prelude.{◌≡◌};
ghost use Rattle.pictures.specs.Page.{parts_of};
ghost use Rattle.page_frame.specs.Fixed.{fixed_parts};

pub mod fixed;

use fixed::{BEFORE_SCHEDULE, BEFORE_SOURCE, BEFORE_TRACE, HEAD, TAIL_1, TAIL_2, TAIL_3, TAIL_4};
use pictures::frame::Frame;

/// Returns the fixed parts of a page, which stand before, between and after its texts.
pub fn frame() -> Frame<'static>
    ensures { parts_of result ≡ fixed_parts }
{
    Frame {
        head: HEAD,
        before_source: BEFORE_SOURCE,
        before_schedule: BEFORE_SCHEDULE,
        before_trace: BEFORE_TRACE,
        tail: [TAIL_1, TAIL_2, TAIL_3, TAIL_4],
    }
}
