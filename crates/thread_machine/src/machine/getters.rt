//! What a machine shows: its program, its phasers and barriers, and the parts of each thread.
ghost use Rattle.std.specs.Prelude.{◌≡◌, ◌<◌, ◌≤◌, length, Some, slice_get};
ghost use Rattle.std.specs.Option.{option_map};
ghost use Rattle.instruction_table.specs.Registers.{value_in};
ghost use Rattle.thread_state.specs.Frame.{entry_of};
ghost use Rattle.machine_scene.specs.Scene.{scene_of, thread_at, cell_at, barrier_at};

use super::Machine;
use cyclic_barrier::Barrier;
use instruction_table::Reg;
use loader::Loaded;
use thread_state::{Entry, Status};
use tier_tree::Forest;

impl Machine {
    /// Returns the program.
    pub fn loaded(&self) -> &Loaded
        ensures { result.now ≡ self.now.program }
    {
        &self.program
    }

    /// Returns how many threads there are, 1 to 64.
    pub fn thread_count(&self) -> usize
        ensures count { result ≡ length self.now.scene.threads }
        ensures few { result ≤ 64 }
    {
        self.stage.thread_count()
    }

    /// Returns the phasers.
    pub fn forest(&self) -> &Forest
        ensures { result.now ≡ self.now.scene.phasers }
    {
        self.stage.forest()
    }

    /// Returns how many barriers there are, at most 64.
    pub fn barrier_count(&self) -> usize
        ensures count { result ≡ length self.now.scene.barriers }
        ensures few { result ≤ 64 }
    {
        self.stage.barrier_count()
    }

    /// Returns a barrier.
    pub fn barrier(&self, number: u8) -> &Barrier
        requires { number < length self.now.scene.barriers }
        ensures { result.now ≡ barrier_at (scene_of self.now.scene) number }
    {
        self.stage.barrier(number as usize)
    }

    /// Returns what a thread is doing.
    pub fn status(&self, thread: u8) -> Status
        requires { thread < length self.now.scene.threads }
        ensures { result ≡ (thread_at (scene_of self.now.scene) thread).status }
    {
        self.stage.thread(thread as usize).status()
    }

    /// Returns the number of the row that a thread is at.
    pub fn pc(&self, thread: u8) -> u16
        requires { thread < length self.now.scene.threads }
        ensures row { result ≡ (thread_at (scene_of self.now.scene) thread).pc }
        ensures within { result < length self.now.program.rows }
    {
        self.stage.thread(thread as usize).pc()
    }

    /// Returns the number in a thread's register.
    pub fn reg(&self, thread: u8, register: Reg) -> i32
        requires { thread < length self.now.scene.threads }
        ensures { result ≡ value_in (thread_at (scene_of self.now.scene) thread).registers register }
    {
        self.stage.thread(thread as usize).register(register)
    }

    /// Returns whether a thread is interrupted: `Thread.isInterrupted`.
    pub fn interrupted(&self, thread: u8) -> bool
        requires { thread < length self.now.scene.threads }
        ensures { result ≡ (thread_at (scene_of self.now.scene) thread).interrupted }
    {
        self.stage.thread(thread as usize).interrupted()
    }

    /// Returns how many entries a thread's stack has, at most 64.
    pub fn depth(&self, thread: u8) -> usize
        requires { thread < length self.now.scene.threads }
        ensures depth { result ≡ length (thread_at (scene_of self.now.scene) thread).stack }
        ensures few { result ≤ 64 }
    {
        self.stage.thread(thread as usize).stack().len()
    }

    /// Returns an entry of a thread's stack, 0 for the lowest.
    pub fn entry(&self, thread: u8, number: usize) -> Entry
        requires thread { thread < length self.now.scene.threads }
        requires number { number < length (thread_at (scene_of self.now.scene) thread).stack }
        ensures { option_map entry_of (slice_get (thread_at (scene_of self.now.scene) thread).stack number)
            ≡ Some result }
    {
        self.stage.thread(thread as usize).stack()[number].entry()
    }

    /// Returns what a thread put out, in order, at most 4096 values.
    pub fn output(&self, thread: u8) -> &[i32]
        requires { thread < length self.now.scene.threads }
        ensures values { result.now ≡ (thread_at (scene_of self.now.scene) thread).output }
        ensures few { length result.now ≤ 4096 }
    {
        self.stage.thread(thread as usize).output()
    }

    /// Returns the numbers in the 32 cells that all threads share.
    pub fn cells(&self) -> &[i32; 32]
        ensures { result.now ≡ self.now.scene.cells }
    {
        self.stage.cells()
    }

    /// Returns the number in a shared cell.
    pub fn cell(&self, number: u8) -> i32
        requires { number < 32 }
        ensures { result ≡ cell_at (scene_of self.now.scene) number }
    {
        self.stage.cell(number as usize)
    }

    /// Returns how many effective steps the machine may take.
    pub fn limit(&self) -> u32
        ensures { result ≡ self.now.limit }
    {
        self.limit
    }

    /// Returns how many choices were played, with the idle ones.
    pub fn choices(&self) -> u64
        ensures choices { result ≡ self.now.choices }
        ensures within { result ≤ 1000000000000 }
    {
        self.choices
    }

    /// Returns how many choices were effective steps.
    pub fn steps(&self) -> u32
        ensures steps { result ≡ self.now.steps }
        ensures within { result ≤ self.now.limit }
    {
        self.steps
    }
}
