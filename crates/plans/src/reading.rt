// What a word of a plan means: its stem, which is what precedes its star, and its count.
ghost use Rattle.std.specs.Prelude.{◌≡◌, ◌≤◌, ◌<◌, ◌==◌, IfOk, IfSome, bytes_eq, drop, false, length, map, true, Some};
ghost use Rattle.std.specs.List.{after_first, before_first, position_or_len};
ghost use Rattle.line_reader.specs.{Names.is_name, Seen.name_seen};
ghost use Rattle.plans.specs.Numbers.{are_digits, count_in, number_in, seed_in};
ghost use Rattle.plans.specs.Reading.{alone, before_dot, begins_expiry, chosen_by, expiry_by, expiry_named, has_dot, has_star, is_alone, is_closing, is_numbered, or_numbered, is_opening, is_seeded, is_spelled, is_star, is_turn_about, make, may_repeat, meaning, named_by, numbered_by, or_once, seeded_by, stem_of, thread_named, times_by, times_in, word_of};

use crate::fault::PlanFaultKind;
use crate::number::{are_digits, count_in, number_in, seed_in};
use crate::word::{Chosen, Rule, Step, Word};
use line_reader::name::name_at;
use line_reader::words::{is_word, length_before};

/// Returns the part of a word before its first `*`, or the whole word if it has none.
fn stem_of(word: &[u8]) -> &[u8]
    ensures { result.now ≡ stem_of word.now }
{
    &word[..length_before(b'*', word)]
}

/// Returns whether a word contains a `*`.
fn has_star(word: &[u8]) -> bool
    ensures { result ≡ has_star word.now }
{
    length_before(b'*', word) < word.len()
}

/// Returns the part of a word after its first `*`.
fn behind_star(word: &[u8]) -> &[u8]
    requires { has_star word.now ≡ true }
    ensures { result.now ≡ after_first is_star word.now }
{
    &word[length_before(b'*', word) + 1..]
}

/// Returns whether a word has the form that a program's names have.
#[tactic(auto, unfolding(line_reader::specs::Reading::name_at))]
fn is_name(word: &[u8]) -> bool
    ensures { result ≡ is_name word.now }
{
    match name_at(word) {
        Ok(_) => true,
        Err(_) => false,
    }
}

/// Returns whether a stem, a word up to its `*`, begins with `?`, as `?7` does, which chooses threads by the seed 7.
fn is_seeded(stem: &[u8]) -> bool
    ensures { result ≡ is_seeded stem.now }
{
    matches!(stem, [b'?', ..])
}

/// Returns whether a stem, a word up to its `*`, ends in `.`, as `ann.` and `..` do.
fn has_dot(stem: &[u8]) -> bool
    ensures { result ≡ has_dot stem.now }
{
    !stem.is_empty() && stem[stem.len() - 1] == b'.'
}

/// Returns a stem without its last byte, the dot. An empty one stays empty.
fn before_dot(stem: &[u8]) -> &[u8]
    ensures { result.now ≡ before_dot stem.now }
{
    &stem[..stem.len().saturating_sub(1)]
}

/// Returns whether a stem, a word up to its `*`, is a name and a dot, for example `ann.`: turns of one thread alone.
fn is_alone(stem: &[u8]) -> bool
    ensures { result ≡ is_alone stem.now }
{
    has_dot(stem) && is_name(before_dot(stem))
}

/// Returns whether a count such as `*3` may follow this stem: the stem is `)`, `..`, a name, or a `?` and any bytes.
fn may_repeat(stem: &[u8]) -> bool
    ensures { result ≡ may_repeat stem.now }
{
    is_word(stem, ")") || is_word(stem, "..") || is_seeded(stem) || is_name(stem)
}

/// Returns whether a word has one of the forms of a plan's words. Its count, its seed or its name may still be wrong.
fn is_spelled(word: &[u8]) -> bool
    ensures { result ≡ is_spelled word.now }
{
    may_repeat(stem_of(word)) || (!has_star(word) && (is_word(word, "(") || is_alone(word)))
}

/// Returns the count after a word's star, or `None` if it has no star. `BadCount`: no count from 1 to 1,000,000 follows it.
fn times_in(word: &[u8]) -> Result<Option<u32>, PlanFaultKind>
    ensures { result ≡ times_in word.now }
{
    if !has_star(word) {
        return Ok(None);
    }
    match count_in(behind_star(word)) {
        Some(times) => Ok(Some(times)),
        None => Err(PlanFaultKind::BadCount),
    }
}

/// Returns the count, or 1 if there is none.
fn or_once(times: Option<u32>) -> u32
    ensures { result ≡ or_once times }
{
    match times {
        Some(times) => times,
        None => 1,
    }
}

/// Returns whether a name is this letter and at least one digit, and nothing else.
fn is_numbered(letter: u8, name: &[u8]) -> bool
    ensures { result ≡ is_numbered letter name.now }
{
    !name.is_empty() && name[0] == letter && are_digits(name.len(), behind_first(name))
}

/// Returns the turn, or with `expiry` the expiry, of the thread whose number these digits spell. `NoThread`: they spell no
/// number below `count`, the number of threads, or are more than two.
fn numbered(count: usize, expiry: bool, digits: &[u8]) -> Result<Chosen, PlanFaultKind>
    ensures { result ≡ numbered_by count expiry (number_in 2 63 digits.now) }
{
    match number_in(2, 63, digits) {
        Some(thread) => {
            if (thread as usize) < count {
                Ok(Chosen {
                    thread: thread as u8,
                    expiry,
                })
            } else {
                Err(PlanFaultKind::NoThread)
            }
        }
        None => Err(PlanFaultKind::NoThread),
    }
}

/// Returns the number of the thread that has this name, its place in `names`. `None`: no thread has it.
fn thread_named(names: &[&[u8]], name: &[u8]) -> Option<u8>
    requires { length names.now ≤ 64 }
    ensures { result ≡ thread_named (map name_seen names.now) name.now }
{
    match names.iter().position(|one| *one == name) {
        Some(thread) => Some(thread as u8),
        None => None,
    }
}

/// Returns a word without its first byte.
fn behind_first(bytes: &[u8]) -> &[u8]
    requires { 0 < length bytes.now }
    ensures { result.now ≡ drop 1 bytes.now }
{
    &bytes[1..]
}

/// Returns whether a name begins with `x`, as `xann` does, the expiry of ann's wait.
fn begins_expiry(name: &[u8]) -> bool
    ensures { result ≡ begins_expiry name.now }
{
    matches!(name, [b'x', ..])
}

/// Returns the expiry of the thread whose name follows an `x`, as in `xann`. Any other word is `NotNamed`.
fn expiry_named(names: &[&[u8]], name: &[u8]) -> Result<Chosen, PlanFaultKind>
    requires { length names.now ≤ 64 }
    ensures { result ≡ expiry_named (map name_seen names.now) name.now }
{
    if !begins_expiry(name) {
        return Err(PlanFaultKind::NotNamed);
    }
    match thread_named(names, behind_first(name)) {
        Some(thread) => Ok(Chosen {
            thread,
            expiry: true,
        }),
        None => Err(PlanFaultKind::NotNamed),
    }
}

/// Returns the turn of the thread with this name, or else its expiry if an `x` precedes the name, as in `xann`. `NotNamed`:
/// neither is a thread's name.
fn named_by(names: &[&[u8]], name: &[u8]) -> Result<Chosen, PlanFaultKind>
    requires { length names.now ≤ 64 }
    ensures { result ≡ named_by (map name_seen names.now) name.now
        (thread_named (map name_seen names.now) name.now) }
{
    match thread_named(names, name) {
        Some(thread) => Ok(Chosen {
            thread,
            expiry: false,
        }),
        None => expiry_named(names, name),
    }
}

/// Returns the choice that a word such as `t2` or `x2` names, of `count` threads. Any other word has the fault `why`.
fn or_numbered(why: PlanFaultKind, count: usize, name: &[u8]) -> Result<Chosen, PlanFaultKind>
    ensures { result ≡ or_numbered (Err why) count name.now }
{
    if is_numbered(b't', name) {
        return numbered(count, false, behind_first(name));
    }
    if is_numbered(b'x', name) {
        return numbered(count, true, behind_first(name));
    }
    Err(why)
}

/// Returns the choice that a word names: by a thread's name (`ann`, `xann`), or else by its number (`t2`, `x2`).
fn chosen_by(names: &[&[u8]], name: &[u8]) -> Result<Chosen, PlanFaultKind>
    requires { length names.now ≤ 64 }
    ensures { result ≡ chosen_by (map name_seen names.now) name.now }
{
    match named_by(names, name) {
        Ok(chosen) => Ok(chosen),
        Err(why) => or_numbered(why, names.len(), name),
    }
}

/// Returns the word for this choice, made `times` times, or once without a count. Never `Err`: the type is that of `meaning`.
fn make(times: Option<u32>, chosen: Chosen) -> Result<Word, PlanFaultKind>
    ensures { result ≡ make times chosen }
{
    Ok(Word::Step(Step::Make {
        chosen,
        times: or_once(times),
    }))
}

/// Returns the word for turns of this thread alone, for example `ann.`. An expiry, for example `xann.`, is `BadWord`.
fn alone(chosen: Chosen) -> Result<Word, PlanFaultKind>
    ensures { result ≡ alone chosen }
{
    if chosen.expiry {
        return Err(PlanFaultKind::BadWord);
    }
    Ok(Word::Step(Step::Follow {
        rule: Rule::Alone(chosen.thread),
        most: None,
    }))
}

/// Returns the word for choices by the seed that `digits` spell, at most `times`. `BadSeed`: no number below 2^64 is spelled.
fn seeded(times: Option<u32>, digits: &[u8]) -> Result<Word, PlanFaultKind>
    ensures { result ≡ seeded_by times (seed_in digits.now) }
{
    match seed_in(digits) {
        Some(seed) => Ok(Word::Step(Step::Follow {
            rule: Rule::BySeed(seed),
            most: times,
        })),
        None => Err(PlanFaultKind::BadSeed),
    }
}

/// Returns what a word means, or what is wrong with its stem: `stem` is what precedes its star, `times` the count after the
/// star. The caller has checked the form of the word, so that a count follows only what may have one.
fn meaning(names: &[&[u8]], stem: &[u8], times: Option<u32>) -> Result<Word, PlanFaultKind>
    requires { length names.now ≤ 64 }
    ensures { result ≡ meaning (map name_seen names.now) stem.now times }
{
    if is_word(stem, "(") {
        return Ok(Word::Open);
    }
    if is_word(stem, ")") {
        return Ok(Word::Close(or_once(times)));
    }
    if is_word(stem, "..") {
        return Ok(Word::Step(Step::Follow {
            rule: Rule::TurnAbout,
            most: times,
        }));
    }
    if is_seeded(stem) {
        return seeded(times, behind_first(stem));
    }
    if has_dot(stem) {
        return alone(chosen_by(names, before_dot(stem))?);
    }
    make(times, chosen_by(names, stem)?)
}

/// Returns what a word of a plan means, for example `ann*3` or `)*20`, or the first of its faults: in its form, then in its
/// count, then in the rest.
pub fn word_of(names: &[&[u8]], word: &[u8]) -> Result<Word, PlanFaultKind>
    requires { length names.now ≤ 64 }
    ensures { result ≡ word_of (map name_seen names.now) word.now }
{
    if !is_spelled(word) {
        return Err(PlanFaultKind::BadWord);
    }
    let times = times_in(word)?;
    meaning(names, stem_of(word), times)
}
