ghost use Rattle.std.specs.Prelude.{◌≡◌, ◌≤◌, ◌-◌, ◌++◌, ℕ, List, length, take};
ghost use Rattle.thread_machine.specs.{declared.choice.Choice.Choice, World.World};
ghost use Rattle.debugger.specs.{Session.Session, Session.IsHistory, Command.Order, Reply.Replies, Standing.Stands};
ghost use Rattle.debugger.specs.Moves.{Move, AreSteps, AreMoves, backs, choices_left};

/// A law: after any steps and steps back, the session is the result of the choices that were not taken back.
pub fn what_is_not_taken_back_was_played()
    ensures { (first : World) (choices : List Choice) (before after : Session) (moves : List Move)
        → IsHistory first choices before → AreMoves before moves after
        → IsHistory first (choices_left choices moves) after }
{}

/// A law: choices that are played one after another, by `step` or by `go`, are added at the end of the history.
pub fn choices_in_a_row_extend_the_history()
    ensures { (first : World) (choices more : List Choice) (before after : Session)
        → IsHistory first choices before → AreSteps before more after → IsHistory first (choices ++ more) after }
{}

/// A law: after each command the session is the result of the choices that were played and not taken back.
pub fn each_command_leaves_a_history()
    ensures { (first : World) (choices : List Choice) (before after : Session) (order : Order) (reply : List ℕ)
        → IsHistory first choices before → Replies before order after reply
        → (now : List Choice) × (Stands before choices order now × IsHistory first now after) }
{}

/// A law: after some steps and as many steps back, the machine is as before, word for word. The session must be able to
/// keep this number of steps.
pub fn steps_and_as_many_back_are_nothing()
    ensures { (before after : Session) (choices : List Choice) → length choices ≤ before.kept
        → length before.past ≤ before.kept → AreSteps before choices after
        → backs (length choices) after
        ≡ record before { past = take (before.kept - length choices) before.past } }
{}
