//! The help, in lines of at most 80 columns.

/// What follows the help of each command.
pub const STATUSES: &str = "\
Exit statuses:
  0  done
  1  a trace isn't the run's (`compare`), or isn't a trace (`choices`, `debug`);
     the run ended differently than `--expect` says; or a plan was stopped
  2  the command line is wrong
  3  the input is refused: standard error has a line `refused ..`
  4  out of memory or threads: standard error has `memory` or `spawn`
  5  a file can't be read or written: standard error has `read` or `write`

`vuthgal explain` with the words of such a line says what it means and what
helps. At a terminal this follows the line. With `--explain always`, an option
of any command, or VUTHGAL_EXPLAIN=always it follows everywhere, with `never`
nowhere. docs/COMMANDS.md says more.";

pub const PROGRAM: &str = "\
Plays small programs of threads that call the phasers and barriers of
java.util.concurrent.

Without arguments it reads a program text, then a line `.run` and a schedule,
from standard input. It writes the trace: a line for each choice, and then the
state.

With `--expect STATE` the exit status is 1 if the run ends differently than
STATE says (`vuthgal run --help`). `run`, `live` and `plan` have this option
too; then it goes after the command's name.

Example: vuthgal < examples/two-threads-meet.txt";

const ASM: &str = "\
Assembles the program text in SRC and writes its image to OUT.

OUT is made empty first. `-` is a file of this name. SRC and OUT can't be the
same file. `asm` doesn't check whether the program can be loaded.

Example: vuthgal asm examples/meeting.asm meeting.image";

const LIST: &str = "\
Writes the canonical text of the program in FILE, an image or a program text.

With `--rows` it writes a line for each row instead: the row's number, as in
traces, then for a text the line's number and the line, for an image the row.

Example: vuthgal list meeting.image";

const RUN: &str = "\
Plays the program in FILE under the schedule in SCHEDULE and writes the trace:
a line for each choice, and then the state.

SCHEDULE is a file of any length, or `-` for standard input. Without it FILE is
a text with a line `.run`, and its schedule after that. A plan can replace the
schedule: `--plan 'ann. bob.'`, or `--plan-file FILE` for a file.

STATE is one of
  all    all threads have ended or died
  ended  all threads have ended, and none has died
  stuck  some threads haven't ended, and none of them can continue
  live   some thread can continue
or the name of a thread, phaser, barrier or cell (or t0, p0, b0, c0), and then
words in a row of its line in the final state, such as `--expect 't0 out 1 2'`.
For each STATE that isn't met, standard error has a line, and the status is 1.
If a choice is refused, none is met.

Example: vuthgal run examples/meeting.asm - <<< 't0 t1 t0*3 t1*2'";

const COMPARE: &str = "\
Compares the trace in TRACE with the run of the program in FILE under the
choices that the trace names.

It writes `same`; or `differs LINE`, the first line that isn't the run's, byte
for byte; or `not a trace LINE`, the first line that a trace can't have. TRACE
is a file of any length, or `-` for standard input.

With `--show` two lines follow. After `differs LINE` they are this line of the
trace, `trace ..`, and of the run, `run ..`. After `not a trace LINE` they are
this line, `trace ..`, and what the line has to be, `wanted ..`.

Example: vuthgal compare examples/meeting.asm examples/two-threads-meet.trace";

const DEBUG: &str = "\
Plays the program in FILE by the commands on standard input, forwards and
backwards.

Each line of standard input is one command. Its reply is written to standard
output before the next line is read:

  s tN       one choice: thread N's turn; `s xN` lets its timed wait expire
  b          one choice back, up to 4096
  k ROW      set a breakpoint at a row of the program, numbered from 0
  c ROW      clear the breakpoint there
  g TOKENS   choices, as in a schedule, up to the first that leads a thread to
             a breakpoint
  p          the state of all threads, phasers and barriers
  q          end the session, like the end of standard input

The reply to any other line is `?`. With `--at TRACE` the first command is a `g`
with the choices of the trace in this file. If it isn't a trace, `debug` writes
`not a trace LINE` and reads no commands. With `--plan PLAN` or
`--plan-file FILE` the first command is a `g` with the choices of the plan.

At a terminal `help` lists the commands, and `w` writes the choices so far as a
plan. After each reply you see which threads can continue, and at which row.

Example: vuthgal debug examples/meeting.asm <<< 'g t0 t1 t0'";

const SHOW: &str = "\
Writes a page that shows a run: one HTML file that any browser opens, without a
network.

FILE, SCHEDULE and plans are as in `vuthgal run --help`. The schedule has at
most 1000000 choices, and the trace at most 16777216 bytes.

The page holds the program, the schedule and the trace. It plays the schedule
itself and compares the trace. There you can also make other choices.

Example: vuthgal show examples/two-threads-meet.txt > meeting.html";

const DRAW: &str = "\
Draws a run as text: a column for each thread, a line for each choice.

FILE, SCHEDULE and plans are as in `vuthgal run --help`. A line has at most N
bytes (`--width N`), and a drawing at most 2000 choices.

Example: vuthgal draw examples/two-threads-meet.txt";

const LIVE: &str = "\
Plays the program in FILE on real threads, one for each thread of the program,
and writes the trace of this run.

`live` records the choices of the run and writes their trace, which is `same`
for `vuthgal compare`. The run ends if all threads have ended, if none can
continue, or after N steps: in the state `all`, `stuck` or `live`. With `--stir
SEED` each thread yields or pauses a little before about half of its turns, so
that other runs happen too. The trace is still that of the run.

Time passes only if no thread can continue otherwise: a timed wait never expires
before an arrival that is still possible. A plan with `xNAME` shows that case.

With `--runs N` it plays N runs and writes no trace. It writes a line for each
state in which a run ended, the most frequent first: how many runs ended in it,
`all`, `stuck` or `live`, with `+died` if a thread died, and the schedule of the
first of them, which `vuthgal run FILE -` plays again. The number of choices is
no part of the state. With `--expect` the exit status is 1 if any run ended
differently (`vuthgal run --help`).

Example: vuthgal live examples/meeting.asm";

const RACE: &str = "\
Lets real threads meet at one shared phaser, round after round, and writes its
state at the end.

N threads call `arriveAndAwaitAdvance` R times each on a phaser of N parties.
The line is `phase A parties B unarrived C`. In any order of the threads A is R,
and B and C are N.

Example: vuthgal race --parties 4 --rounds 10000";

const CHOICES: &str = "\
Writes the schedule of the trace in TRACE: the choices that its lines name, up
to its state.

TRACE is a file of any length, or `-` for standard input. If it isn't a trace,
`choices` writes `not a trace LINE`, the first line that a trace can't have. It
plays nothing, so it needs no program. With FILE, the program, this writes the
names of its threads instead of their numbers:

  vuthgal choices TRACE | vuthgal plan FILE --names

Example: vuthgal choices examples/two-threads-meet.trace";

const PLAN: &str = "\
Writes the schedule of the plan in PLAN for the program in FILE. `run`, `show`
and `draw` take it as SCHEDULE.

A program text ends at its line `.run`. PLAN is a file, or `-` for standard
input. Without PLAN and `--seeds` it is standard input. To play the text of a
plan, write `vuthgal run FILE --plan 'ann. bob.'`. A plan says whose turn it is:

  ann, t0    one turn of a thread, by its name or its number
  ann*3      three turns
  ann.       turns until it waits, ends or dies
  xann, x0   its timed wait expires
  ..         all threads in turn, by number, until none can continue
  ..*50      the same, at most 50 turns
  ?7         any thread that can continue, by the seed 7, to the end
  ?7*50      the same, at most 50 turns
  ( .. )*20  the words in parentheses 20 times
  ;          a comment, up to the end of the line

`.`, `..` and `?` never choose an idle thread. A plan makes at most 1000000
choices. If it needs more, the schedule so far is written, standard error has
`stopped at 1000000 choices`, and the status is 1.

With `--seeds 1..1000` there is a run for each of these seeds: first PLAN, if
there is one, then any thread that can continue, by the seed, to the end. A line
is written for each state in which a run ended, the most frequent first: how
many runs ended in it, `all`, `stuck` or `live`, with `+died` if a thread died,
and the seed and the schedule of the first of them.

With `--limit N` each seed makes at most N choices after PLAN, like `?7*N`. With
`--expect STATE` (`vuthgal run --help`) the exit status is 1 if any run ended
differently, and standard error names the first such seed: `expected ended: ?7
state stuck`.

With `--names` the threads have their names instead of numbers. What is written
then is a plan and no schedule: `vuthgal run FILE --plan-file F` plays it.

Example: vuthgal plan examples/meeting.asm - <<< 't0. t1. t0.'";

const EXPLAIN: &str = "\
Says in words what a line on standard error means: what is wrong, what helps, a
command that causes it, and where the documents say more. Or what an instruction
or a directive of a program is: its operands, Java's method, what it does, and a
program with its schedule in which it is played.

The words are those of the line. You can leave out a place: `explain asm 5` is
the fifth kind of a program text's fault. `explain status 4` is an exit status,
`explain exception 6` the number of an exception. `explain not a trace`,
`explain none` and `explain ?` are words of traces and sessions. `explain paaa`
is an instruction, `explain .thread` a directive. Without words it lists what
you can ask.

Example: vuthgal explain refused asm 2 5";

/// Returns the long help of a command. Any name that isn't listed here is `explain`.
pub fn of(command: &str) -> &'static str {
    match command {
        "asm" => ASM,
        "list" => LIST,
        "run" => RUN,
        "compare" => COMPARE,
        "debug" => DEBUG,
        "show" => SHOW,
        "draw" => DRAW,
        "live" => LIVE,
        "race" => RACE,
        "choices" => CHOICES,
        "plan" => PLAN,
        _ => EXPLAIN,
    }
}
