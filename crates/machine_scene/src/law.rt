//! What is true of every scene: a program's cells, threads, phasers and barriers. Each law is the contract of a function that
//! does nothing.
ghost use Rattle.std.specs.Prelude.{◌≡◌, ℕ, ◌&&◌, not, is_some};
ghost use Rattle.loader.specs.Program.{Program, row_at};
ghost use Rattle.machine_scene.specs.{Scene.Scene, Scene.thread_at, Scene.first_scene, Ready.is_listed, Ready.can_run_out};
ghost use Rattle.machine_scene.specs.{Outcomes.is_ready, Outcomes.outcome_of_expiry, Sound.IsSound};

use loader::Loaded;

/// A law: a thread can take its turn exactly if `is_listed`, a table by status and row, is true. Its wait can expire
/// exactly if it can't take its turn, and `can_run_out`, another such table, is true.
#[tactic(auto, using(crate::proofs::ReadyThreads::ready_as_listed, crate::proofs::ReadyThreads::expiry_as_listed))]
pub fn who_is_ready()
    ensures turns { (t : ℕ) (program : Program) (scene : Scene) → is_ready t program scene
        ≡ is_listed (thread_at scene t).status (row_at program.rows (thread_at scene t).pc) t scene }
    ensures expiries { (t : ℕ) (program : Program) (scene : Scene) → is_some (outcome_of_expiry t program scene)
        ≡ (not (is_ready t program scene)
        && can_run_out (thread_at scene t).status (row_at program.rows (thread_at scene t).pc) scene) }
{}

/// A law: the first scene of a loaded program is sound, for any limit of steps, as each turn requires. The calls prove it.
#[tactic(auto, using(crate::proofs::Start::first_scene_is_sound))]
pub fn a_first_scene_is_sound(program: &Loaded)
    ensures { (steps : ℕ) → IsSound program.now steps (first_scene program.now) }
{
    program.each_program_is_whole();
    program.phasers().is_forest();
}
