// The lines of the threads.
ghost use Rattle.std.specs.Prelude.{◌≡◌, ◌++◌, All, OnOk};
ghost use Rattle.std.specs.List.{flat_map};
ghost use Rattle.row_code.specs.Threads.{IsThread};
ghost use Rattle.line_reader.specs.Listing.{line_text, numbered, thread_words};

use crate::listing::pieces::push_count;
use row_code::DeclaredThread;
use std::alloc::AllocError;

/// Appends the line of thread `n`, such as `.thread t0 #4`.
#[tactic(auto, using(crate::proofs::ListedTexts::word_steps))]
fn push_thread(text: &mut Vec<u8>, n: u64, thread: DeclaredThread) -> Result<(), AllocError>
    ensures text { OnOk result (text.new.items ≡ text.old.items ++ line_text (thread_words n thread)) }
    ensures fits { OnOk result (IsThread thread) }
{
    push_count(text, b".thread t", n)?;
    push_count(text, b" #", u64::from(thread.first_row))?;
    text.extend_from_slice(b"\n")
}

/// Appends a line for each thread, in order. Fails if it is out of memory.
#[tactic(auto, using(crate::proofs::ListedTexts::text_steps))]
pub(crate) fn push_threads(text: &mut Vec<u8>, threads: &[DeclaredThread]) -> Result<(), AllocError>
    ensures text { OnOk result (text.new.items
        ≡ text.old.items ++ flat_map line_text (numbered thread_words 0 threads.now)) }
    ensures fits { OnOk result (All IsThread threads.now) }
{
    for (n, thread) in threads.iter().enumerate() {
        push_thread(text, n as u64, *thread)?;
    }
    Ok(())
}
