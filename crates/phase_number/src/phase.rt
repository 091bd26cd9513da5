ghost use Rattle.std.specs.Prelude.{◌≡◌, ◌↔◌, ℕ, ◌≤ℤ◌, ◌<◌, ◌^◌, pos, true, IsSome, IfSome};
ghost use Rattle.phase_number.specs.Phase.{next_phase, phase_view, is_ended_view};

use std::marker::Model;

/// The number of a phase, 0 to 2147483647.
#[derive(Clone, Copy, PartialEq, Eq)]
pub struct Phase {
    number: u32,
}

impl Model for Phase {
    ghost Value = { ℕ };

    ghost view = { λ phase. phase.number };

    ghost invariant = { λ phase. phase.number < 2 ^ 31 };

    ghost inverse = { λ n. record { number = n } };
}

/// The number after which 0 comes, `Integer.MAX_VALUE`.
const LAST: u32 = 0x7fff_ffff;

impl Phase {
    /// Returns the phase with this number, or `None` if the number is negative.
    pub fn new(number: i32) -> Option<Phase>
        ensures valid { IsSome result ↔ (pos 0 ≤ℤ number) }
        ensures value { IfSome result (λ phase. pos phase ≡ number) }
    {
        let number = u32::try_from(number).ok()?;
        Some(Phase { number })
    }

    /// Returns the phase that follows this one. After 2147483647 comes 0.
    pub fn next(self) -> Phase
        ensures { result ≡ next_phase self }
    {
        if self.number == LAST {
            Phase { number: 0 }
        } else {
            Phase {
                number: self.number + 1,
            }
        }
    }

    /// Returns the phase's number: what `getPhase` returns in it, unless the phaser is terminated.
    pub fn number(self) -> i32
        ensures { result ≡ pos self }
    {
        self.number as i32
    }

    /// Returns what `getPhase` returns after the phaser was terminated in this phase: the number less 2147483648.
    pub fn negative(self) -> i32
        ensures { result ≡ phase_view self true }
    {
        self.number() + i32::MIN
    }

    /// Returns the phase in which `getPhase` returns `view`. If `view` is negative, the phase's number is `view` + 2147483648.
    pub fn prevailing(view: i32) -> Phase
        ensures { phase_view result (is_ended_view view) ≡ view }
    {
        let number = if view < 0 {
            // In 32 bits, to add `i32::MIN` is to add 2147483648.
            view.wrapping_add(i32::MIN)
        } else {
            view
        };
        Phase {
            number: number as u32,
        }
    }
}
