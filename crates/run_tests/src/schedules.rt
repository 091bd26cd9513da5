//! A schedule in two pieces.
use crate::programs::refused;
use schedule_reader::{Reader, Run};
use std::test::Fail;
use thread_machine::Choice;

/// Checks that the reader returns the same run wherever a token is cut.
#[test]
fn a_token_may_be_cut_anywhere(rt: HostRuntime) -> Result<(), Fail> {
    let text = b"t12*3";
    let choice = Choice {
        thread: 12,
        expiry: false,
    };
    for cut in 0..=5usize {
        let mut runs = Vec::new(rt.alloc());
        let mut reader = Reader::new();
        reader.feed(&text[..cut], &mut runs).map_err(|_| refused())?;
        reader.feed(&text[cut..], &mut runs).map_err(|_| refused())?;
        reader.finish(&mut runs).map_err(|_| refused())?;
        assert!(rt;
            runs.as_slice() == [Run { choice, times: 3 }].as_slice(),
            "{cut}"
        );
    }
    Ok(())
}
