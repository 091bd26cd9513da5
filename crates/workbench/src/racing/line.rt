//! The line that a race ends with.
ghost use Rattle.std.specs.Prelude.{◌≡◌, IsTrue, OnOk, OnErr};
ghost use Rattle.std.specs.Io.KnownBytes.{Appends};
ghost use Rattle.packed_phaser.specs.Word.{record_of};
ghost use Rattle.workbench.specs.Race.{line_of};

use crate::fault::push_with_count;
use byte_ports::{Failed, Sink};
use packed_phaser::Word;

/// Returns a phaser's phase number, 0 to 2147483647. After termination `getPhase` (`view`) is this number minus 2147483648.
fn phase_of(word: Word) -> u64
    ensures { result ≡ (record_of word).phase }
{
    let view = i64::from(word.phase_view());
    if word.is_terminated() {
        (view + 2147483648) as u64
    } else {
        view as u64
    }
}

/// Writes the line `phase A parties B unarrived C` of a phaser's word.
pub fn push_line<K: Sink>(output: &mut K, word: Word) -> Result<(), Failed>
    ensures bytes { OnOk result (Appends (K.written output.old) (K.written output.new)
        (line_of (record_of word))) }
    ensures failed { OnErr result (IsTrue (K.has_failed output.new)) }
{
    push_with_count(output, b"phase ", phase_of(word))?;
    push_with_count(output, b" parties ", u64::from(word.parties()))?;
    push_with_count(output, b" unarrived ", u64::from(word.unarrived()))?;
    output.push(b"\n")
}
