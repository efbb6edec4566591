// The plan from one sharding to another, as records/specs/Planning.antt defines it: an all-reduce, an all-gather and an all-slice, each left out where it
// names no axis. records/specs/Promises.antt is its promise.
#![tactic(auto)]

ghost use Rattle.std.specs.Prelude.{◌≡◌, List, [], ◌∷◌, ◌++◌, ℕ, ◌≤◌, ◌<◌, length, take, drop};
ghost use Rattle.rules.specs.Lists.{each, pick};
ghost use Rattle.rules.specs.Limits.{most_dims};
ghost use Rattle.rules.specs.Collectives as rules;
ghost use Rattle.types.specs.Types.{axes_of, dims_of, sharding_of};
ghost use Rattle.types.specs.Answers.{judged};
ghost use Rattle.records.specs.Planning.{common as common_of, rest_of_start, plan_steps, reachable};
ghost use Rattle.records.specs.PlanAnswer.{step_record_of, steps_from, step_count};
ghost use Rattle.records.specs.Promises.{PlanPromise};
ghost use Rattle.planner.specs.Routes.{judge_route};

use axes::{all_in, without};
use blocks::same_list;
use dims::{dims_within, names_axis};
use given::{judge_shape, judge_sharding, mesh_of, table_of};
use records::{Planned, Steps};
use types::{AxisList, Dim, DimLists, Reason, Refusal, Sharding, Step};

// How many axes two lists have in common from their beginning on.
fn common(start: AxisList, goal: AxisList) -> usize
    ensures { result ≡ common_of (axes_of start) (axes_of goal) }
{
    let count = start.len().min(goal.len());
    for i in 0..count {
        if start.at(i) != goal.at(i) {
            return i;
        }
    }
    count
}

// A list without its first axes; what stands past its end is free.
fn rest(list: AxisList, from: usize) -> AxisList
    requires { from ≤ length (axes_of list) }
    ensures { axes_of result ≡ drop from (axes_of list) }
{
    let mut tail = AxisList::empty();
    for i in from..list.len() {
        tail = tail.with(list.at(i));
    }
    tail
}

// What each dimension's list has behind its common beginning with another's; the lists past the rank stay.
fn rests(start: DimLists, goal: DimLists, rank: usize) -> DimLists
    requires { rank ≤ most_dims }
    ensures { (take rank (dims_of result) ≡ each rest_of_start (take rank (dims_of start)) (take rank (dims_of goal)))
        × (drop rank (dims_of result) ≡ drop rank (dims_of start)) }
{
    let mut next = start;
    for d in 0..rank {
        let dim = Dim(d as u8);
        let list = start.at(dim);
        let other = goal.at(dim);
        let shared = common(list, other);
        let tail = rest(list, shared);
        next = next.with(dim, tail);
    }
    next
}

// No steps.
fn no_steps() -> Steps
    ensures { result ≡ steps_from [] }
{
    Steps([None; 3])
}

// One step more, unless it names no axis.
fn with_step(steps: Steps, step: Step, naming: bool) -> Steps
    requires { step_count steps < 3 }
    ensures { (ts : List rules.Step) (t : rules.Step) → steps ≡ steps_from ts → step ≡ step_record_of t → result ≡ steps_from (pick naming (ts ++ t ∷ []) ts) }
{
    let mut next = steps;
    if naming {
        let at = steps.count();
        next.0[at] = Some(step);
    }
    next
}

// The steps from one sharding to another of a table of a rank.
pub fn plan_steps(start: Sharding, goal: Sharding, rank: usize) -> Steps
    requires { rank ≤ most_dims }
    ensures { result ≡ steps_from (plan_steps (sharding_of rank start) (sharding_of rank goal)) }
{
    let list = without(start.unreduced, goal.unreduced);
    let off = rests(start.dims, goal.dims, rank);
    let on = rests(goal.dims, start.dims, rank);
    let none = no_steps();
    let reduce = Step::AllReduce(list.cleared());
    let gather = Step::AllGather(dims_within(off, rank));
    let slice = Step::AllSlice(dims_within(on, rank));
    let one = with_step(none, reduce, list.len() != 0);
    let two = with_step(one, gather, names_axis(off, rank));
    with_step(two, slice, names_axis(on, rank))
}

// 40: the goal has an unreduced axis that the start lacks, or another replicated list.
fn judge_reach(start: Sharding, goal: Sharding) -> Result<(), Refusal>
    ensures { (rank : ℕ) → judged result ≡ reachable (sharding_of rank start) (sharding_of rank goal) }
{
    if !all_in(goal.unreduced, start.unreduced) || !same_list(start.replicated, goal.replicated) {
        return Err(Refusal::outside(Reason::GoalOutOfReach));
    }
    Ok(())
}

// All that a plan is asked for: mesh, order and table, the start, the goal, and that it can be reached.
fn judge_route<'a>(
    mesh: &'a [u16],
    order: &'a [u16],
    table: &'a [u16],
    start: Sharding,
    goal: Sharding,
) -> Result<(), Refusal>
    ensures { judged result ≡ judge_route mesh.now order.now table.now start goal }
{
    judge_shape(mesh, order, table, 0)?;
    let m = mesh_of(mesh);
    let t = table_of(table);
    judge_sharding(start, m, t)?;
    judge_sharding(goal, m, t)?;
    judge_reach(start, goal)
}

// The plan from one sharding to another.
// Stays: (a) mesh, order, table, start and goal one by one, as ishkrela's `plan` and its promise `PlanPromise` name them.
pub fn plan<'a>(
    mesh: &'a [u16],
    order: &'a [u16],
    table: &'a [u16],
    start: Sharding,
    goal: Sharding,
) -> Planned
    ensures { PlanPromise mesh.now order.now table.now start goal result }
{
    match judge_route(mesh, order, table, start, goal) {
        Ok(()) => Planned {
            outcome: Ok(()),
            plan: plan_steps(start, goal, table.len()),
        },
        Err(refusal) => Planned {
            outcome: Err(refusal),
            plan: no_steps(),
        },
    }
}
