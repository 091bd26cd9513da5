// Which choice is next if a plan leaves it open.
ghost use Rattle.std.specs.Prelude.{◌≡◌, ◌++◌, [], ◌<◌, IfOk, OnOk};
ghost use Rattle.std.specs.List.{cons_option, find};
ghost use Rattle.plans.specs.Rules.{able, alone, can_expire_in, choice_in, is_ready_in, next_choice, picked, thread_count, threads_from, turn_about, turn_of, word_at};

use crate::player::Player;
use crate::word::Rule;
use rand_core::utils::NextWord;
use rand_pcg::Pcg32;
use std::alloc::{AllocError, Global};
use thread_machine::Choice;

/// Returns the random number of 32 bits at place `k`, from 0, in the stream of a seed.
#[tactic(auto, unfolding(crate::specs::Rules::word_at))]
fn word_at(seed: u64, k: u32) -> u32
    ensures { result ≡ word_at seed k }
{
    // A seed has many streams of numbers: this is stream 0.
    let mut words = Pcg32::new(seed, 0);
    words.advance(u64::from(k));
    words.next_word()
}

/// Returns the choice that the random number `word` picks: at the place `word` modulo their count. `None`: `choices` is empty.
fn picked(word: u32, choices: &[Choice]) -> Option<Choice>
    ensures { result ≡ picked word choices.now }
{
    if choices.is_empty() {
        return None;
    }
    Some(choices[word as usize % choices.len()])
}

/// Returns the choice of a thread's turn.
fn turn_of(thread: u8) -> Choice
    ensures { result ≡ turn_of thread }
{
    Choice {
        thread,
        expiry: false,
    }
}

/// Appends the choice, or nothing for `None`. `Err`: out of memory.
fn push_made(choices: &mut Vec<Choice>, choice: Option<Choice>) -> Result<(), AllocError>
    ensures { OnOk result (choices.new.items ≡ choices.old.items ++ cons_option choice []) }
{
    if let Some(choice) = choice {
        choices.push(choice)?;
    }
    Ok(())
}

impl Player {
    /// Returns the turn of a thread. `None`: there is no such thread, or it can't take a turn now.
    fn alone(&self, thread: u8) -> Option<Choice>
        ensures { result ≡ alone thread self.now.world }
    {
        if (thread as usize) < self.thread_count() && self.is_ready(thread) {
            Some(turn_of(thread))
        } else {
            None
        }
    }

    /// Returns the first thread from number `low` on that can take a turn. `None`: none can.
    fn first_ready(&self, low: u8) -> Option<u8>
        ensures { result ≡ find (is_ready_in self.now.world) (threads_from low self.now.world) }
    {
        for t in low as usize..self.thread_count() {
            if self.is_ready(t as u8) {
                return Some(t as u8);
            }
        }
        None
    }

    /// Returns the thread with the lowest number whose wait may time out. `None`: no wait may.
    fn first_expiring(&self) -> Option<u8>
        ensures { result ≡ find (can_expire_in self.now.world) (threads_from 0 self.now.world) }
    {
        for t in 0..self.thread_count() {
            if self.can_expire(t as u8) {
                return Some(t as u8);
            }
        }
        None
    }

    /// Looks for a thread that can take a turn, from the one after the last chosen thread on, and then from 0 on. Returns its
    /// turn. If none can, returns the expiry of the lowest thread whose wait may time out. `None`: no wait may time out.
    #[tactic(auto, unfolding(crate::specs::Rules::turn_about))]
    fn turn_about(&self) -> Option<Choice>
        ensures { result ≡ turn_about self.now.after_last self.now.world }
    {
        if let Some(t) = self.first_ready(self.after_last()) {
            return Some(turn_of(t));
        }
        if let Some(t) = self.first_ready(0) {
            return Some(turn_of(t));
        }
        match self.first_expiring() {
            Some(t) => Some(Choice {
                thread: t,
                expiry: true,
            }),
            None => None,
        }
    }

    /// Returns a thread's turn if it can take one, or else its expiry if its wait may time out. `None`: neither is possible.
    fn choice_in(&self, thread: u8) -> Option<Choice>
        requires { thread < thread_count self.now.world }
        ensures { result ≡ choice_in self.now.world thread }
    {
        if self.is_ready(thread) {
            return Some(turn_of(thread));
        }
        if self.can_expire(thread) {
            return Some(Choice {
                thread,
                expiry: true,
            });
        }
        None
    }

    /// Returns for each thread, in order of number, its turn if it is runnable, or else its expiry if its wait may time out.
    fn able(&self, alloc: Global) -> Result<Vec<Choice>, AllocError>
        ensures { IfOk result (λ choices. choices.items ≡ able self.now.world) }
    {
        let mut choices = Vec::new(alloc);
        for t in 0..self.thread_count() {
            push_made(&mut choices, self.choice_in(t as u8))?;
        }
        Ok(choices)
    }

    /// Returns the next choice of `rule`, or `None` if it has none. `k` choices by the rule precede it: if the rule is a seed,
    /// its random number `k` picks the choice.
    #[tactic(auto, unfolding(crate::specs::Rules::next_choice))]
    pub fn next_choice(
        &self,
        alloc: Global,
        rule: Rule,
        k: u32,
    ) -> Result<Option<Choice>, AllocError>
        ensures { IfOk result (λ choice. choice ≡ next_choice rule k self.now) }
    {
        match rule {
            Rule::Alone(thread) => Ok(self.alone(thread)),
            Rule::TurnAbout => Ok(self.turn_about()),
            Rule::BySeed(seed) => {
                let choices = self.able(alloc)?;
                Ok(picked(word_at(seed, k), choices.as_slice()))
            }
        }
    }
}
