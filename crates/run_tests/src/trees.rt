//! Trees of phasers: what each call returns, and what is seen afterwards.

ghost use Rattle.std.specs.Prelude.{◌≡◌, ◌<◌, length, true, false, IfSome};
ghost use Rattle.tier_tree.specs.{Declaration.AreAllFresh, PhaseEnd.after_phase_end, Stored.phasers_of};

use Plan::{Child, Root, RootWith};
use packed_phaser::Policy;
use phase_number::Phase;
use std::alloc::Global;
use tier_tree::{Arrived, DeclareFault, Forest, PhaserId, Registered};

/// A phaser to declare.
#[derive(Clone, Copy)]
enum Plan {
    /// The parties.
    Root(i32),
    /// The parties, the policy and the first phase.
    RootWith(i32, Policy, i32),
    /// The parent and the parties.
    Child(u8, i32),
}

/// A call and its expected effect. The first number is that of the phaser that it names.
#[derive(Clone, Copy)]
enum Step {
    /// `register` of so many parties, and its result.
    Registers(u8, u32, Registered),
    /// What `register` of so many parties would return, by `registration`.
    Asks(u8, u32, Registered),
    /// The arrival of a party that stays, and its result.
    Arrives(u8, Arrived),
    /// The arrival of a party that leaves, and its result.
    Leaves(u8, Arrived),
    /// The arrival is the last in the tree of phaser 0: the phase, and the root's parties. The party stays.
    ArrivesLast(u8, i32, u16),
    /// The same, and the party leaves.
    LeavesLast(u8, i32, u16),
    /// The end of the phase of a turned root: all parties have arrived. If true, it terminates the root.
    Finishes(u8, bool),
    /// So many arrivals at a root end each phase, from the phase of the first number up to the one before the second.
    EndsEach(u8, u16, i32, i32),
    /// The termination of the phaser's tree, which has no result.
    Forces(u8),
    /// What getters return: the view, the parties and the arrived.
    Shows(u8, i32, u16, u16),
    /// What other getters return: the parent, the root, the policy and the number of the phase.
    Is(u8, Option<PhaserId>, PhaserId, Policy, i32),
}

impl Step {
    /// Returns the number of the phaser that the call names.
    fn id(self) -> u8 {
        match self {
            Step::Registers(id, _, _) | Step::Asks(id, _, _) => id,
            Step::Arrives(id, _) | Step::Leaves(id, _) => id,
            Step::ArrivesLast(id, _, _) | Step::LeavesLast(id, _, _) => id,
            Step::Finishes(id, _) | Step::EndsEach(id, _, _, _) | Step::Forces(id) => id,
            Step::Shows(id, _, _, _) | Step::Is(id, _, _, _, _) => id,
        }
    }
}

/// Returns the phaser of this number, if the forest has it.
fn known(forest: &Forest, id: u8) -> Option<PhaserId>
    ensures { IfSome result (λ known. known.0 < length forest.now) }
{
    if (id as usize) < forest.len() {
        Some(PhaserId(id))
    } else {
        None
    }
}

/// Declares one more phaser. Returns false if it is refused.
fn is_planted(forest: &mut Forest, plan: Plan) -> bool
    requires { AreAllFresh (phasers_of forest.old) }
    ensures { AreAllFresh (phasers_of forest.new) }
{
    let (parent, parties, policy, phase) = match plan {
        Root(parties) => (None, parties, Policy::Default, 0),
        RootWith(parties, policy, phase) => (None, parties, policy, phase),
        Child(parent, parties) => (Some(PhaserId(parent)), parties, Policy::Default, 0),
    };
    let phase = Phase::prevailing(phase);
    forest.declare(parent, parties, policy, phase).is_ok()
}

/// Returns a forest of these phasers, copied so that copies are tested, too. `None`: one phaser is refused, or out of memory.
fn planted(alloc: Global, plans: &[Plan]) -> Option<Forest>
    ensures { IfSome result (λ forest. AreAllFresh (phasers_of forest)) }
{
    let mut forest = Forest::new(alloc).ok()?;
    for plan in plans {
        if !is_planted(&mut forest, *plan) {
            return None;
        }
    }
    forest.copy(alloc).ok()
}

/// Returns the expected result of the last arrival in the tree of phaser 0: `phase` is to be ended, the root has `parties`.
fn turning(phase: i32, parties: u16) -> Arrived {
    Arrived::Turning {
        root: PhaserId(0),
        phase,
        parties,
    }
}

/// Makes one party arrive at phaser `id`, and returns whether the result is `answer`. Returns false if there is no such phaser.
fn arrives(forest: &mut Forest, id: u8, answer: Arrived) -> bool {
    match known(forest, id) {
        Some(id) => forest.arrive(id, false) == answer,
        None => false,
    }
}

/// Ends the phase of `root`, if that is a turned root whose phase may end. With `ends` the root is terminated. Returns whether
/// this was done. The guards are what the contract of `finish_turn` asks for.
fn end_turned_phase(forest: &mut Forest, root: PhaserId, ends: bool) -> bool
    requires { root.0 < length forest.old }
    ensures ended { result ≡ true
        → phasers_of forest.new ≡ after_phase_end root.0 ends (phasers_of forest.old) }
    ensures refused { result ≡ false → forest.new ≡ forest.old }
{
    if forest.root(root).0 != root.0 || !forest.is_turned(root) {
        return false;
    }
    if forest.is_terminated(root) || forest.ended_phases(root) >= 2147483647 {
        return false;
    }
    forest.finish_turn(root, ends);
    true
}

/// Makes `parties` arrivals at a root in phase `phase`. Returns whether only the last turns it, and the phase then ends.
fn ends(forest: &mut Forest, root: u8, parties: u16, phase: i32) -> bool {
    for _ in 1..parties {
        if !arrives(forest, root, Arrived::At(phase)) {
            return false;
        }
    }
    let all = arrives(forest, root, turning(phase, parties));
    match known(forest, root) {
        Some(root) => all && end_turned_phase(forest, root, false),
        None => false,
    }
}

/// Makes `parties` arrivals at a root in each phase from `from` up to the one before `to`. Returns whether they end each phase.
fn ends_each(forest: &mut Forest, root: u8, parties: u16, from: i32, to: i32) -> bool {
    for phase in from..to {
        if !ends(forest, root, parties, phase) {
            return false;
        }
    }
    true
}

/// Makes the call of `step` at phaser `id`, which `step` names, and returns whether it has its expected effect. `Shows` and
/// `Is` compare what getters return, and `Forces` expects nothing.
fn comes_true_at(forest: &mut Forest, id: PhaserId, step: Step) -> bool
    requires { id.0 < length forest.old }
{
    match step {
        Step::Arrives(_, answer) => forest.arrive(id, false) == answer,
        Step::Leaves(_, answer) => forest.arrive(id, true) == answer,
        Step::ArrivesLast(_, phase, parties) => forest.arrive(id, false) == turning(phase, parties),
        Step::LeavesLast(_, phase, parties) => forest.arrive(id, true) == turning(phase, parties),
        Step::Registers(_, count, answer) => forest.register(id, count) == answer,
        Step::Asks(_, count, answer) => forest.registration(id, count) == answer,
        Step::Finishes(_, ends) => end_turned_phase(forest, id, ends),
        Step::EndsEach(_, parties, from, to) => ends_each(forest, id.0, parties, from, to),
        Step::Forces(_) => {
            forest.force(id);
            true
        }
        Step::Shows(_, view, parties, arrived) => {
            forest.phase(id) == view
                && forest.parties(id) == parties
                && forest.arrived(id) == arrived
                && forest.unarrived(id) == parties.saturating_sub(arrived)
        }
        Step::Is(_, parent, root, policy, phase) => {
            forest.parent(id) == parent
                && forest.root(id) == root
                && forest.policy(id) == policy
                && forest.phase_number(id).number() == phase
        }
    }
}

/// Makes the call of `step`, and returns whether it has its expected effect: false if it names a phaser that isn't there.
fn comes_true(forest: &mut Forest, step: Step) -> bool {
    match known(forest, step.id()) {
        Some(id) => comes_true_at(forest, id, step),
        None => false,
    }
}

/// Returns how many steps have their expected effects before the first that does not.
fn right_steps(forest: &mut Forest, steps: &[Step]) -> usize {
    for (n, step) in steps.iter().enumerate() {
        if !comes_true(forest, *step) {
            return n;
        }
    }
    steps.len()
}

/// What happens, the phasers, and the calls.
type Row = (&'static str, &'static [Plan], &'static [Step]);

static ROWS: [Row; 13] = [
    (
        "children arrive and leave with their parties",
        &[Root(0), Child(0, 1), Child(0, 1)],
        &[
            Step::Shows(0, 0, 2, 0),
            Step::Arrives(1, Arrived::At(0)),
            Step::Registers(1, 1, Registered::Held),
            Step::Shows(1, 0, 1, 1),
            Step::LeavesLast(2, 0, 1),
            Step::Finishes(0, false),
            Step::Shows(0, 1, 1, 0),
            Step::Shows(1, 1, 1, 0),
            Step::Shows(2, 1, 0, 0),
            Step::Registers(1, 1, Registered::At(1)),
            Step::Shows(1, 1, 2, 0),
            Step::Shows(0, 1, 1, 0),
        ],
    ),
    (
        "children that were never used are in the fifth phase",
        &[Root(1), Child(0, 1), Child(0, 1)],
        &[
            Step::EndsEach(0, 3, 0, 5),
            Step::Shows(1, 5, 1, 0),
            Step::Arrives(1, Arrived::At(5)),
            Step::Shows(0, 5, 3, 1),
        ],
    ),
    (
        "one child lags behind by 10 phases, and one that was never used by 15",
        &[Root(1), Child(0, 1), Child(0, 1)],
        &[
            Step::EndsEach(0, 3, 0, 5),
            Step::Arrives(1, Arrived::At(5)),
            Step::Arrives(0, Arrived::At(5)),
            Step::ArrivesLast(0, 5, 3),
            Step::Finishes(0, false),
            Step::EndsEach(0, 3, 6, 15),
            Step::Shows(1, 15, 1, 0),
            Step::Shows(2, 15, 1, 0),
            Step::Arrives(2, Arrived::At(15)),
            Step::Shows(0, 15, 3, 1),
        ],
    ),
    (
        "a termination reaches lagging children",
        &[Root(1), Child(0, 2), Child(0, 1)],
        &[
            Step::Arrives(1, Arrived::At(0)),
            Step::Arrives(0, Arrived::At(0)),
            Step::Arrives(0, Arrived::At(0)),
            Step::ArrivesLast(0, 0, 3),
            Step::Finishes(0, false),
            Step::Shows(0, 1, 3, 0),
            Step::Shows(1, 1, 2, 0),
            Step::Forces(0),
            Step::Shows(0, -2147483647, 3, 3),
            Step::Shows(1, -2147483647, 2, 2),
            Step::Arrives(1, Arrived::Dead(-2147483647)),
            Step::Registers(2, 1, Registered::Dead(-2147483647)),
            Step::Forces(2),
            Step::Shows(0, -2147483647, 3, 3),
        ],
    ),
    (
        "phase 0 follows the last phase",
        &[RootWith(1, Policy::Default, 2147483647), Child(0, 0)],
        &[
            Step::Shows(1, 2147483647, 0, 0),
            Step::ArrivesLast(0, 2147483647, 1),
            Step::Finishes(0, false),
            Step::Shows(0, 0, 1, 0),
            Step::Shows(1, 0, 0, 0),
            Step::Registers(1, 1, Registered::At(0)),
            Step::Shows(0, 0, 2, 0),
        ],
    ),
    (
        "nobody comes while a routine runs",
        &[RootWith(1, Policy::Routine, 0), Child(0, 1), Child(0, 1)],
        &[
            Step::Arrives(0, Arrived::At(0)),
            Step::Arrives(0, Arrived::At(0)),
            Step::ArrivesLast(0, 0, 3),
            Step::Asks(0, 1, Registered::Held),
            Step::Arrives(1, Arrived::NotThere),
            Step::Shows(1, 0, 1, 0),
            Step::Finishes(0, false),
            Step::Shows(0, 1, 3, 0),
        ],
    ),
    (
        "a child outlives the parties of its root",
        &[RootWith(1, Policy::Never, 0), Child(0, 1)],
        &[
            Step::Leaves(0, Arrived::At(0)),
            Step::LeavesLast(0, 0, 0),
            Step::Finishes(0, false),
            Step::Arrives(1, Arrived::NotThere),
            Step::Shows(1, 1, 1, 0),
            Step::Registers(1, 1, Registered::At(1)),
            Step::Shows(1, 1, 2, 0),
        ],
    ),
    (
        "a tree ends when its child is left",
        &[Root(0), Child(0, 2)],
        &[
            Step::Leaves(1, Arrived::At(0)),
            Step::LeavesLast(1, 0, 0),
            Step::Finishes(0, true),
            Step::Shows(0, -2147483647, 0, 0),
            Step::Leaves(1, Arrived::Dead(-2147483647)),
        ],
    ),
    (
        "a refused climb changes nothing",
        &[Root(0), Child(0, 0), Child(1, 1)],
        &[
            Step::ArrivesLast(0, 0, 1),
            Step::Arrives(2, Arrived::NotThere),
            Step::Leaves(2, Arrived::NotThere),
            Step::Shows(2, 0, 1, 0),
            Step::Shows(1, 0, 1, 0),
            Step::Registers(2, 1, Registered::At(0)),
            Step::Shows(2, 0, 2, 0),
            Step::Registers(2, 65535, Registered::TooMany),
        ],
    ),
    (
        "an empty child has left its parent",
        &[Root(1), Child(0, 1)],
        &[
            Step::Leaves(1, Arrived::At(0)),
            Step::Shows(0, 0, 1, 0),
            Step::Registers(1, 3, Registered::At(0)),
            Step::Shows(0, 0, 2, 0),
            Step::Leaves(0, Arrived::At(0)),
            Step::Leaves(1, Arrived::At(0)),
            Step::Leaves(1, Arrived::At(0)),
            Step::LeavesLast(1, 0, 0),
        ],
    ),
    (
        "registrations are asked for in order",
        &[Root(1)],
        &[
            Step::Asks(0, 1, Registered::At(0)),
            Step::LeavesLast(0, 0, 0),
            Step::Asks(0, 0, Registered::At(0)),
            Step::Asks(0, 1, Registered::Held),
            Step::Asks(0, 65536, Registered::TooMany),
            Step::Finishes(0, true),
            Step::Asks(0, 65536, Registered::Dead(-2147483647)),
        ],
    ),
    (
        "a phaser of the third level",
        &[RootWith(1, Policy::Until(9), 5), Child(0, 1), Child(1, 1)],
        &[
            Step::Is(0, None, PhaserId(0), Policy::Until(9), 5),
            Step::Is(2, Some(PhaserId(1)), PhaserId(0), Policy::Default, 5),
            Step::Forces(1),
            Step::Is(2, Some(PhaserId(1)), PhaserId(0), Policy::Default, 5),
        ],
    ),
    (
        "a party arrives through an empty parent",
        &[Root(0), Child(0, 0), Child(1, 1)],
        &[
            Step::ArrivesLast(2, 0, 1),
            Step::Shows(2, 0, 1, 1),
            Step::Shows(1, 0, 1, 1),
            Step::Finishes(0, false),
            Step::Shows(0, 1, 1, 0),
            Step::Shows(2, 1, 1, 0),
        ],
    ),
];

/// Each call of a row has its expected effect on the row's tree.
#[test]
fn what_is_to_come_comes_true(rt: HostRuntime) {
    for (name, plans, steps) in &ROWS {
        match planted(rt.alloc(), plans) {
            Some(mut forest) => {
                let right = right_steps(&mut forest, steps);
                assert!(rt; right == steps.len(), "{name}: {right}");
            }
            None => assert!(rt; false, "{name}"),
        }
    }
}

/// The parties of the nine lines of `nine_lines` arrive one after another, and the last ends the phase.
static NINE_ARRIVE: [Step; 13] = [
    Step::Arrives(7, Arrived::At(0)),
    Step::Arrives(14, Arrived::At(0)),
    Step::Arrives(21, Arrived::At(0)),
    Step::Arrives(28, Arrived::At(0)),
    Step::Arrives(35, Arrived::At(0)),
    Step::Arrives(42, Arrived::At(0)),
    Step::Arrives(49, Arrived::At(0)),
    Step::Arrives(56, Arrived::At(0)),
    Step::Shows(7, 0, 1, 1),
    Step::ArrivesLast(63, 0, 9),
    Step::Finishes(0, false),
    Step::Shows(63, 1, 1, 0),
    Step::Shows(0, 1, 9, 0),
];

/// Returns 64 phasers of a tree: 9 lines of 7 phasers below the root. In a line each is the child of the one before. The last
/// of a line has a party, the others have none.
fn nine_lines() -> [Plan; 64] {
    let mut plans = [Root(0); 64];
    for id in 1..64u8 {
        let above = if id % 7 == 1 { 0 } else { id - 1 };
        plans[id as usize] = Child(above, if id % 7 == 0 { 1 } else { 0 });
    }
    plans
}

/// A copy of a tree of 64 phasers ends its phase when the party of its ninth line arrives.
#[test]
fn a_full_forest(rt: HostRuntime) {
    match planted(rt.alloc(), &nine_lines()) {
        Some(mut forest) => {
            let right = right_steps(&mut forest, &NINE_ARRIVE);
            assert!(rt; right == NINE_ARRIVE.len(), "{right}");
        }
        None => assert!(rt; false),
    }
}

/// Returns the fault of a declaration after those of `plans`, or `None` if it has none or one of `plans` is refused.
fn fault_of(
    alloc: Global,
    plans: &[Plan],
    parent: Option<PhaserId>,
    parties: i32,
    phase: i32,
) -> Option<DeclareFault> {
    let phase = Phase::prevailing(phase);
    match planted(alloc, plans) {
        Some(mut forest) => {
            forest
                .declare(parent, parties, Policy::Default, phase)
                .err()
        }
        None => None,
    }
}

static EIGHT_LEVELS: [Plan; 8] = [
    Root(65535),
    Child(0, 0),
    Child(1, 0),
    Child(2, 0),
    Child(3, 0),
    Child(4, 0),
    Child(5, 0),
    Child(6, 0),
];

/// The parent, the parties and the phase of a declaration after eight levels, and its fault.
static REFUSED: [(u8, i32, i32, DeclareFault); 6] = [
    (8, -1, 7, DeclareFault::NoParent),
    (7, -1, 7, DeclareFault::BadParties),
    (7, 65536, 7, DeclareFault::BadParties),
    (7, 65535, 7, DeclareFault::PhaseOnChild),
    (7, 65535, 0, DeclareFault::TooDeep),
    (6, 1, 0, DeclareFault::TooMany),
];

/// Checks that a declaration with several faults reports the one that comes first in `REFUSED`.
#[test]
fn declarations_are_refused_in_order(rt: HostRuntime) {
    for (parent, parties, phase, fault) in &REFUSED {
        let parent = Some(PhaserId(*parent));
        let answer = fault_of(rt.alloc(), &EIGHT_LEVELS, parent, *parties, *phase);
        assert!(rt; answer == Some(*fault), "{parties}");
    }
}

/// Checks that a forest has at most 64 phasers.
#[test]
fn a_full_forest_takes_no_more(rt: HostRuntime) {
    let answer = fault_of(rt.alloc(), &[Root(0); 64], None, 0, 0);
    assert!(rt; answer == Some(DeclareFault::TooManyPhasers));
}
