// Splits a text at its line `.run` into a program and a schedule.
ghost use Rattle.std.specs.Prelude.{◌≡◌, ◌≤◌, codes, length};
ghost use Rattle.std.specs.{List.before_first, List.after_first, List.list_all, Str.bytes_eq};
ghost use Rattle.line_reader.specs.Words.{is_line_end, words_in};
ghost use Rattle.workbench.specs.RunLine.{is_run_line, program_part, schedule_part};

use line_reader::words::{before_comment, is_blank, length_before};

/// Returns how many words a text has, separated by blanks.
fn count_words(text: &[u8]) -> usize
    ensures { result ≡ length (words_in text.now) }
{
    text.split(|byte| is_blank(*byte))
        .filter(|piece| !piece.is_empty())
        .count()
}

/// Returns whether each word of a text is `.run`. A text without words has only such words.
fn has_only_run(text: &[u8]) -> bool
    ensures { result ≡ list_all (λ word. bytes_eq word (codes ".run")) (words_in text.now) }
{
    text.split(|byte| is_blank(*byte))
        .filter(|piece| !piece.is_empty())
        .all(|word| word == b".run".as_slice())
}

/// Returns whether `.run` is the line's only word, between blanks or not. A comment may follow.
#[tactic(auto, using(crate::proofs::RunLine::are_run_by_count))]
fn is_run_line(line: &[u8]) -> bool
    ensures { result ≡ is_run_line line.now }
{
    let text = before_comment(line);
    count_words(text) == 1 && has_only_run(text)
}

/// Returns the first line without its LF, and what follows the LF: nothing if there is no LF.
fn first_line(bytes: &[u8]) -> (&[u8], &[u8])
    ensures line { result.0.now ≡ before_first is_line_end bytes.now }
    ensures after { result.1.now ≡ after_first is_line_end bytes.now }
{
    let end = length_before(b'\n', bytes);
    if end < bytes.len() {
        (&bytes[..end], &bytes[end + 1..])
    } else {
        (bytes, &[])
    }
}

/// Returns a file's program text and its schedule: what precedes the first line whose only word is `.run`, and what follows
/// that line. Without such a line everything is text, and the schedule is empty.
pub fn split_at_run(bytes: &[u8]) -> (&[u8], &[u8])
    ensures text { result.0.now ≡ program_part bytes.now }
    ensures schedule { result.1.now ≡ schedule_part bytes.now }
    ensures within { length result.1.now ≤ length bytes.now }
{
    let mut rest = bytes;
    while !rest.is_empty() {
        let (line, after) = first_line(rest);
        if is_run_line(line) {
            return (&bytes[..bytes.len() - rest.len()], after);
        }
        rest = after;
    }
    (bytes, &[])
}
