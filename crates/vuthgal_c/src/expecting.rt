//! Whether a run ended as expected.
ghost use Rattle.std.specs.Prelude.{◌≡◌};
ghost use Rattle.vuthgal_c.specs.Expecting.{expectation_status};

use trace_text::expectation::is_met;
use trace_text::form::is_expectation;

/// Returns 0 if `state`, the text of a state, meets `expectation`, 1 if it doesn't, or 3 if `expectation` isn't one.
#[unsafe(no_mangle)]
pub extern "C" fn vuthgal_expect(state: &[u8], expectation: &[u8]) -> u8
    ensures { result ≡ expectation_status state.now expectation.now }
{
    if !is_expectation(expectation) {
        3
    } else if is_met(state, expectation) {
        0
    } else {
        1
    }
}
