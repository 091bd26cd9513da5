//! The grammar of a token: from each place a byte leads to the next place, or is a fault.
ghost use Rattle.std.specs.Prelude.{◌≡◌, ◌+◌, ◌<◌, ◌≤◌, ◌^◌, List, ◌∷◌, [], ℕ, IfOk, IfSome, ◌≢◌, true, false, Err};
ghost use Rattle.std.specs.Char.{is_ascii_digit};
ghost use Rattle.schedule_reader.specs.Schedule.{Schedule, IsRun, is_blank, choice_of, reading_of};
ghost use Rattle.schedule_reader.specs.declared.fault.ScheduleFault.TheVariants.{Memory};
ghost use Rattle.schedule_reader.specs.Places.{IsPlace, IsInside, reading_left, ended_with, spent, thread_from, times_from, piece_from, piece_with};
ghost use Rattle.schedule_reader.specs.declared.place.Place.TheVariants as place;

use crate::fault::ScheduleFault;
use crate::run::Run;
use thread_machine::Choice;

/// The highest number that a thread can have.
const LAST_THREAD: u16 = 63;
/// The most times that a token can repeat its choice.
const MOST_TIMES: u64 = 1_000_000_000;

/// Where in a token a reader is, and what it has read of the token. The offset at which a number begins isn't kept: it is the
/// present offset less `digits`.
#[derive(Clone, Copy)]
pub enum Place {
    /// Between tokens.
    Between,
    /// After the letter and so many digits of the thread's number.
    Thread {
        expiry: bool,
        digits: u8,
        number: u8,
    },
    /// After the star and so many digits of the count.
    Times {
        choice: Choice,
        digits: u8,
        number: u32,
    },
}

/// Returns whether a byte separates tokens: a space, a tab, CR or LF.
pub fn is_blank(byte: u8) -> bool
    ensures { result ≡ is_blank byte }
{
    matches!(byte, b' ' | b'\t' | b'\r' | b'\n')
}

impl Place {
    /// Returns the place after the byte at this offset, which isn't a blank, or its fault. The clauses say that the place is
    /// that of the grammar, that it is inside a token, and that at most one byte more of the token is counted (`spent`).
    pub fn with_byte(self, at: u64, byte: u8) -> Result<Place, ScheduleFault>
        requires place { IsPlace at self }
        ensures reading { (part : List ℕ) → piece_from self at (byte ∷ part)
            ≡ reading_left result (at + 1) part }
        ensures place { IfOk result (λ place. IsPlace (at + 1) place) }
        ensures inside { IfOk result (λ place. IsInside place) }
        ensures spent { IfOk result (λ place. spent place ≤ spent self + 1) }
        ensures memory { result ≢ Err Memory }
    {
        match self {
            Place::Between => first_byte(at, byte),
            Place::Thread {
                expiry,
                digits,
                number,
            } => {
                if byte.is_ascii_digit() {
                    thread_digit(at, expiry, digits, number, byte)
                } else {
                    after_thread(at, expiry, digits, number, byte)
                }
            }
            Place::Times {
                choice,
                digits,
                number,
            } => {
                if byte.is_ascii_digit() {
                    times_digit(at, choice, digits, number, byte)
                } else {
                    Err(ScheduleFault::Byte(at))
                }
            }
        }
    }

    /// Returns the run of the token that ends before this offset, or `None` between tokens. An incomplete token is a fault.
    pub fn end(self, at: u64) -> Result<Option<Run>, ScheduleFault>
        requires place { IsPlace at self }
        ensures piece { (more : Schedule) → piece_with self at [] more ≡ ended_with result more }
        ensures spent { IfOk result (λ run. IfSome run (λ _. spent self ≡ 2)) }
        ensures spelled { IfOk result (λ run. IfSome run IsRun) }
        ensures memory { result ≢ Err Memory }
    {
        match self {
            Place::Between => Ok(None),
            Place::Thread {
                expiry,
                digits,
                number,
            } => end_thread(at, expiry, digits, number),
            Place::Times {
                choice,
                digits,
                number,
            } => end_times(at, choice, digits, number),
        }
    }
}

/// Returns the place after a token's first byte: `t` for a turn, `x` for an expiry. Any other byte is a fault.
fn first_byte(at: u64, byte: u8) -> Result<Place, ScheduleFault>
    ensures reading { (part : List ℕ) → reading_of at (byte ∷ part)
        ≡ reading_left result (at + 1) part }
    ensures place { IfOk result (λ place. IsPlace (at + 1) place) }
    ensures inside { IfOk result (λ place. IsInside place) }
    ensures spent { IfOk result (λ place. spent place ≤ 1) }
    ensures memory { result ≢ Err Memory }
{
    let expiry = match byte {
        b't' => false,
        b'x' => true,
        _ => return Err(ScheduleFault::Byte(at)),
    };
    Ok(Place::Thread {
        expiry,
        digits: 0,
        number: 0,
    })
}

/// Returns the place after one more digit of the thread's number. With a third digit or above 63, the number is a fault.
fn thread_digit(
    at: u64,
    expiry: bool,
    digits: u8,
    number: u8,
    byte: u8,
) -> Result<Place, ScheduleFault>
    requires digit { is_ascii_digit byte ≡ true }
    requires digits { digits ≤ 2 }
    requires number { number ≤ 63 }
    requires place { digits ≤ at }
    ensures reading { (part : List ℕ) → thread_from at expiry digits number (byte ∷ part)
        ≡ reading_left result (at + 1) part }
    ensures place { IfOk result (λ place. IsPlace (at + 1) place) }
    ensures inside { IfOk result (λ place. IsInside place) }
    ensures spent { IfOk result (λ place. spent place ≤ 2) }
    ensures memory { result ≢ Err Memory }
{
    let longer = u16::from(number) * 10 + u16::from(byte - b'0');
    if digits == 2 || longer > LAST_THREAD {
        return Err(ScheduleFault::Number(at - u64::from(digits)));
    }
    Ok(Place::Thread {
        expiry,
        digits: digits + 1,
        number: longer as u8,
    })
}

/// Returns the place after `*`, which may follow the thread's number. A fault: any other byte, or `*` with no digit before it.
fn after_thread(
    at: u64,
    expiry: bool,
    digits: u8,
    number: u8,
    byte: u8,
) -> Result<Place, ScheduleFault>
    requires digit { is_ascii_digit byte ≡ false }
    requires digits { digits ≤ 2 }
    requires number { number ≤ 63 }
    requires place { digits ≤ at }
    ensures reading { (part : List ℕ) → thread_from at expiry digits number (byte ∷ part)
        ≡ reading_left result (at + 1) part }
    ensures place { IfOk result (λ place. IsPlace (at + 1) place) }
    ensures inside { IfOk result (λ place. IsInside place) }
    ensures spent { IfOk result (λ place. spent place ≤ 2) }
    ensures memory { result ≢ Err Memory }
{
    if digits == 0 || byte != b'*' {
        return Err(ScheduleFault::Byte(at));
    }
    Ok(Place::Times {
        choice: Choice {
            thread: number,
            expiry,
        },
        digits: 0,
        number: 0,
    })
}

/// Returns the place after one more digit of the count. With an eleventh digit or above 1,000,000,000, the count is a fault.
fn times_digit(
    at: u64,
    choice: Choice,
    digits: u8,
    number: u32,
    byte: u8,
) -> Result<Place, ScheduleFault>
    requires digit { is_ascii_digit byte ≡ true }
    requires digits { digits ≤ 10 }
    requires number { number ≤ 1000000000 }
    requires place { digits ≤ at }
    requires thread { choice.thread ≤ 63 }
    ensures reading { (part : List ℕ) → times_from at choice digits number (byte ∷ part)
        ≡ reading_left result (at + 1) part }
    ensures place { IfOk result (λ place. IsPlace (at + 1) place) }
    ensures inside { IfOk result (λ place. IsInside place) }
    ensures spent { IfOk result (λ place. spent place ≤ 2) }
    ensures memory { result ≢ Err Memory }
{
    let longer = u64::from(number) * 10 + u64::from(byte - b'0');
    if digits == 10 || longer > MOST_TIMES {
        return Err(ScheduleFault::Repeat(at - u64::from(digits)));
    }
    Ok(Place::Times {
        choice,
        digits: digits + 1,
        number: longer as u32,
    })
}

/// Returns the run of a token that ends with its thread's number: one choice, never `None`. No digit is a fault.
fn end_thread(at: u64, expiry: bool, digits: u8, number: u8) -> Result<Option<Run>, ScheduleFault>
    requires digits { digits ≤ 2 }
    requires number { number ≤ 63 }
    ensures piece { (more : Schedule) → piece_with (place.Thread expiry digits number) at [] more
        ≡ ended_with result more }
    ensures spent { IfOk result (λ run. IfSome run (λ _. digits ≢ 0)) }
    ensures spelled { IfOk result (λ run. IfSome run IsRun) }
    ensures memory { result ≢ Err Memory }
{
    if digits == 0 {
        return Err(ScheduleFault::Byte(at));
    }
    Ok(Some(Run {
        choice: Choice {
            thread: number,
            expiry,
        },
        times: 1,
    }))
}

/// Returns the run of a token that ends with its count, never `None`. A count without a digit, or 0, is a fault.
fn end_times(at: u64, choice: Choice, digits: u8, number: u32) -> Result<Option<Run>, ScheduleFault>
    requires digits { digits ≤ 10 }
    requires number { number ≤ 1000000000 }
    requires place { digits ≤ at }
    requires thread { choice.thread ≤ 63 }
    ensures piece { (more : Schedule) → piece_with (place.Times choice digits number) at [] more
        ≡ ended_with result more }
    ensures spelled { IfOk result (λ run. IfSome run IsRun) }
    ensures memory { result ≢ Err Memory }
{
    if digits == 0 {
        return Err(ScheduleFault::Byte(at));
    }
    if number == 0 {
        return Err(ScheduleFault::Repeat(at - u64::from(digits)));
    }
    Ok(Some(Run {
        choice,
        times: number,
    }))
}
