// Plays the words of a plan, with its groups. The functions call each other: `#[cycle(words)]` names their common proofs.
ghost use Rattle.std.specs.Prelude.{◌≤◌, IfOk, OnOk, length};
ghost use Rattle.plans.specs.Groups.{HasPlayed, HasPlayedGroup, HasPlayedAgain};

use crate::player::Player;
use crate::word::Word;
use crate::words::WordsFrom;
use std::alloc::{AllocError, Global};

impl Player {
    /// Plays words up to the parenthesis that closes their group. Returns how often that group is to be played, or `None` if
    /// the words end before such a parenthesis.
    #[cycle(words)]
    pub fn play_words(
        &mut self,
        alloc: Global,
        words: &mut WordsFrom<'_>,
    ) -> Result<Option<u32>, AllocError>
        ensures played { IfOk result (λ times. HasPlayed words.old times words.new self.old self.new) }
        ensures within { length words.new ≤ length words.old }
    {
        loop {
            match words.next() {
                Some(Word::Step(step)) => self.play_step(alloc, step)?,
                Some(Word::Open) => self.play_group(alloc, words)?,
                Some(Word::Close(times)) => return Ok(Some(times)),
                None => return Ok(None),
            }
        }
    }

    /// Plays a group, whose `(` was read, as often as its `)` says. If the first pass makes no choice, it is the last.
    #[cycle(words)]
    fn play_group(&mut self, alloc: Global, words: &mut WordsFrom<'_>) -> Result<(), AllocError>
        ensures played { OnOk result (HasPlayedGroup words.old words.new self.old self.new) }
        ensures within { length words.new ≤ length words.old }
    {
        let left = self.left();
        let start = words.again();
        if let Some(times) = self.play_words(alloc, words)? {
            if self.left() != left {
                self.play_again(alloc, &start, times)?;
            }
        }
        Ok(())
    }

    /// Plays a group's words again, until they were played `times` times in all. A pass that makes no choice is the last.
    #[cycle(words)]
    fn play_again(
        &mut self,
        alloc: Global,
        words: &WordsFrom<'_>,
        times: u32,
    ) -> Result<(), AllocError>
        ensures { OnOk result (HasPlayedAgain words.now times self.old self.new) }
    {
        for done in 1..times {
            let left = self.left();
            self.play_words(alloc, &mut words.again())?;
            if self.left() == left {
                return Ok(());
            }
        }
        Ok(())
    }
}
