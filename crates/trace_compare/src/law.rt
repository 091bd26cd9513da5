ghost use Rattle.std.specs.Prelude.{◌≡◌, ◌≤◌, All, Bool, List, Ok, Option, ℕ, None};
ghost use Rattle.row_code.specs.declared.image.Image.{Image};
ghost use Rattle.schedule_reader.specs.{declared.run.Run.Run, Schedule.IsRun, Schedule.choices_of};
ghost use Rattle.thread_machine.specs.{declared.choice.Choice.Choice, World.World, Execution.execution};
ghost use Rattle.trace_compare.specs.{Compare.choices_of_trace, Compare.verdict_of, Compare.HasWrittenTheSame, Shown.shown};
ghost use Rattle.trace_compare.specs.{declared.comparison.Verdict.TheVariants.Same, Naming.choices_named};
ghost use Rattle.trace_text.specs.{Outcome.ComesTo, RunText.AreTraced, Start.Begins, Trace.trace_of};
ghost use Rattle.trace_text.specs.declared.run_end.RunEnd.{RunEnd};

/// A law: if a trace has the verdict `Same`, it is, byte for byte, the trace of the choices that its lines name.
pub fn what_is_the_same_is_the_trace_of_its_choices()
    ensures { (world : World) (trace : List ℕ) → verdict_of world trace ≡ Same
        → trace ≡ trace_of world (choices_of_trace trace) }
{}

/// A law: the trace of any choices of threads from 0 to 63 has the verdict `Same`. They may be played from any state
/// with at most 1000000000000 choices before it. So a text has the verdict `Same` exactly if it is the trace of some choices.
pub fn the_trace_of_any_choices_is_the_same()
    ensures { (world : World) (choices : List Choice) → world.choices ≤ 1000000000000
        → All (λ choice. choice.thread ≤ 63) choices → verdict_of world (trace_of world choices) ≡ Same }
{}

/// A law: if a run ends and has written a trace, a comparison of it with the run's program returns `Same`. The run may
/// have read its choices from a schedule (`read`), or known them before (`known`).
pub fn what_a_run_writes_is_the_same()
    ensures read { (image : Image) (end : RunEnd) (schedule_before schedule_after output_before output_after : Option (List ℕ))
        (schedule_failed output_failed : Bool)
        → ComesTo image (Ok end) schedule_before schedule_after schedule_failed output_before output_after output_failed
        → HasWrittenTheSame image output_before output_after }
    ensures known { (image : Image) (world : World) (runs : List Run) (end : RunEnd) (output_before output_after : Option (List ℕ))
        → Begins image world → All IsRun runs → AreTraced world (choices_of runs) end output_before output_after
        → HasWrittenTheSame image output_before output_after }
{}

/// A law. Choices of threads from 0 to 63 are played from a state after at most 1000000000000 choices. Their trace names
/// these choices, up to and including the first refused one. If no choice is refused, it names all of them.
pub fn the_choices_of_a_trace_are_those_that_it_shows()
    ensures choices { (world : World) (choices : List Choice) → world.choices ≤ 1000000000000
        → All (λ choice. choice.thread ≤ 63) choices
        → choices_named (trace_of world choices) ≡ Ok (shown world choices) }
    ensures all { (world : World) (choices : List Choice) → (execution world choices).refusal ≡ None
        → shown world choices ≡ choices }
{}

/// A law: if the choices that a trace shows are played again from the same state, they have the same trace.
pub fn the_choices_of_a_trace_have_that_trace()
    ensures { (world : World) (choices : List Choice) → trace_of world (shown world choices) ≡ trace_of world choices }
{}
