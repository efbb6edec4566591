// The judgement of a step, and the sharding after it. Order and numbers are those of Rattle.rules.specs.PlanFile; gather_off, slice_on and
// judge_step stand for the definitions of the same names.
#![tactic(auto)]

ghost use Rattle.std.specs.Prelude.{◌≡◌, List, ℕ, ◌≤◌, take, T};
ghost use Rattle.rules.specs.Lists.{flat};
ghost use Rattle.rules.specs.Limits.{most_axes, most_dims};
ghost use Rattle.rules.specs.Sharding.{named};
ghost use Rattle.rules.specs.Refusals.{accept};
ghost use Rattle.types.specs.Answers.{judged, judged_as};
ghost use Rattle.rules.specs.Collectives.{all_slice, all_reduce, all_to_all, reduce_scatter, step_axes, reduced as reduced_of};
ghost use Rattle.rules.specs.PlanFile.{all_below, two_dims, gather_off, slice_on, judge_kind, judge_named, judge_step};
ghost use Rattle.types.specs.Types.{axes_of, dims_of, sharding_of, step_of, mesh_of, sizes_of, WithinPlaces};
ghost use Rattle.axes.specs.Marks.{marks_with};
ghost use Rattle.dims.specs.Dims.{Room};
ghost use Rattle.judge.specs.Step.{Sharded};

use axes::{all_below, all_in, increasing, mark_list, without};
use dims::{
    ascending, cut_tails, divisible, join_lists, mark_dims, names_axis, names_below, shard_of,
    tails,
};
use start::{judge_dims, judge_list};
use types::{Axis, AxisList, Dim, DimLists, Mesh, Reason, Refusal, Sharding, Step, Table};

// The axes of a step's one list: 21, then 22.
fn named_list(list: AxisList, k: u16, n: usize) -> Result<(), Refusal>
    ensures { judged result ≡ judge_named n k (axes_of list) }
{
    let Some(_) = list.as_slice().first() else {
        return Err(Refusal {
            reason: Reason::NoAxis,
            step: k,
        });
    };
    let true = all_below(list, n) else {
        return Err(Refusal {
            reason: Reason::AxisTooLarge,
            step: k,
        });
    };
    Ok(())
}

// The axes of a step's lists by dimension: 21, then 22.
fn named_dims(lists: DimLists, k: u16, rank: usize, n: usize) -> Result<(), Refusal>
    requires { rank ≤ most_dims }
    ensures { judged result ≡ judge_named n k (flat (take rank (dims_of lists))) }
{
    let true = names_axis(lists, rank) else {
        return Err(Refusal {
            reason: Reason::NoAxis,
            step: k,
        });
    };
    let true = names_below(lists, rank, n) else {
        return Err(Refusal {
            reason: Reason::AxisTooLarge,
            step: k,
        });
    };
    Ok(())
}

// The axes that a step names, by its kind.
fn judge_named(step: Step, k: u16, rank: usize, n: usize) -> Result<(), Refusal>
    requires { rank ≤ most_dims }
    ensures { judged result ≡ judge_named n k (step_axes (step_of rank step)) }
{
    match step {
        Step::AllSlice(lists) | Step::AllGather(lists) | Step::ReduceScatter(lists) => {
            named_dims(lists, k, rank, n)
        }
        Step::AllReduce(list) | Step::AllToAll { list, .. } => named_list(list, k, n),
    }
}

// An all-gather: 24 by dimension, then the lists are cut off.
fn gather_off(lists: DimLists, k: u16, sharding: Sharding, rank: usize) -> Result<Sharding, Refusal>
    requires { rank ≤ most_dims }
    ensures { judged_as (sharding_of rank) result ≡ gather_off k (take rank (dims_of lists)) (sharding_of rank sharding) }
{
    if !tails(sharding.dims, lists, rank) {
        return Err(Refusal {
            reason: Reason::NotTail,
            step: k,
        });
    }
    let mut cut = sharding;
    cut.dims = cut_tails(sharding.dims, lists, rank);
    Ok(cut)
}

// A slice: 25 by dimension, of the present shard sizes, then the lists are joined.
fn slice_on(
    lists: DimLists,
    k: u16,
    sharding: Sharding,
    mesh: Mesh,
    table: Table,
) -> Result<Sharding, Refusal>
    requires { WithinPlaces mesh table × Room (take table.rank (dims_of sharding.dims)) (take table.rank (dims_of lists)) }
    ensures { judged_as (sharding_of table.rank) result
        ≡ slice_on (mesh_of mesh) (sizes_of table) k (take table.rank (dims_of lists)) (sharding_of table.rank sharding) }
{
    let shard = shard_of(table, sharding.dims, mesh);
    if !divisible(shard, lists, mesh) {
        return Err(Refusal {
            reason: Reason::ShardNotDivisible,
            step: k,
        });
    }
    let mut joined = sharding;
    joined.dims = join_lists(sharding.dims, lists, table.rank);
    Ok(joined)
}

// Marks all axes that a sharding names.
fn mark_named(sharding: Sharding, rank: usize, marks: &mut [bool])
    requires { rank ≤ most_dims }
    ensures { marks.new ≡ marks_with marks.old (named (sharding_of rank sharding)) }
{
    mark_dims(sharding.dims, rank, marks);
    mark_list(marks, sharding.unreduced);
    mark_list(marks, sharding.replicated);
}

// All-slice: 23, then the slice. The axes are below n already, so judge_dims refuses an axis that is named, and nothing else.
fn judge_slice(
    lists: DimLists,
    k: u16,
    sharding: Sharding,
    mesh: Mesh,
    table: Table,
) -> Result<Sharding, Refusal>
    requires { Sharded mesh table sharding × T (all_below mesh.n (flat (take table.rank (dims_of lists)))) }
    ensures { judged_as (sharding_of table.rank) result
        ≡ judge_kind (mesh_of mesh) (sizes_of table) k (all_slice (take table.rank (dims_of lists))) (sharding_of table.rank sharding) }
{
    let mut marks = [false; Axis::MOST];
    mark_named(sharding, table.rank, &mut marks);
    let fresh = judge_dims(lists, table.rank, mesh.n, &mut marks);
    let Ok(()) = fresh else {
        return Err(Refusal {
            reason: Reason::NotReplicated,
            step: k,
        });
    };
    slice_on(lists, k, sharding, mesh, table)
}

fn reduced(list: AxisList, sharding: Sharding) -> Sharding
    ensures { (rank : ℕ) → sharding_of rank result ≡ reduced_of (axes_of list) (sharding_of rank sharding) }
{
    let mut next = sharding;
    next.unreduced = without(sharding.unreduced, list);
    next
}

// All-reduce: 26, then 27, then the axes are replicated. The axes are below n already and increase, so judge_list refuses an axis that splits a dimension or
// is explicitly replicated, and nothing else.
fn judge_reduce(
    list: AxisList,
    k: u16,
    sharding: Sharding,
    rank: usize,
    n: usize,
) -> Result<Sharding, Refusal>
    requires { (rank ≤ most_dims) × (n ≤ most_axes) × T (all_below n (axes_of list)) }
    ensures { (mesh sizes : List ℕ) → judged_as (sharding_of rank) result
        ≡ judge_kind mesh sizes k (all_reduce (axes_of list)) (sharding_of rank sharding) }
{
    if !increasing(list) {
        return Err(Refusal {
            reason: Reason::NotIncreasing,
            step: k,
        });
    }
    let mut marks = [false; Axis::MOST];
    mark_dims(sharding.dims, rank, &mut marks);
    mark_list(&mut marks, sharding.replicated);
    let free = judge_list(list, n, false, &mut marks);
    let Ok(()) = free else {
        return Err(Refusal {
            reason: Reason::NotReducible,
            step: k,
        });
    };
    Ok(reduced(list, sharding))
}

// 28: two dimensions below the rank.
fn two_dims(source: Dim, target: Dim, rank: usize) -> bool
    ensures { result ≡ two_dims rank source.0 target.0 }
{
    (source.0 as usize) < rank && (target.0 as usize) < rank && source != target
}

// All-to-all: 28, then the gather off the source, then the slice on the target.
fn judge_all_to_all(
    source: Dim,
    target: Dim,
    list: AxisList,
    k: u16,
    sharding: Sharding,
    mesh: Mesh,
    table: Table,
) -> Result<Sharding, Refusal>
    requires { Sharded mesh table sharding × T (all_below mesh.n (axes_of list)) }
    ensures { judged_as (sharding_of table.rank) result
        ≡ judge_kind (mesh_of mesh) (sizes_of table) k (all_to_all source.0 target.0 (axes_of list)) (sharding_of table.rank sharding) }
{
    if !two_dims(source, target, table.rank) {
        return Err(Refusal {
            reason: Reason::WrongDims,
            step: k,
        });
    }
    let none = DimLists::empty();
    let off = none.with(source, list);
    let between = gather_off(off, k, sharding, table.rank)?;
    let on = none.with(target, list);
    slice_on(on, k, between, mesh, table)
}

// Reduce-scatter: 23 over the whole step, then 27, then the slice of the sharding whose axes are reduced. The axes are below n already, so judge_dims
// refuses an axis that is named twice, and nothing else.
fn judge_scatter(
    lists: DimLists,
    k: u16,
    from: Sharding,
    mesh: Mesh,
    table: Table,
) -> Result<Sharding, Refusal>
    requires { Sharded mesh table from × T (all_below mesh.n (flat (take table.rank (dims_of lists)))) }
    ensures { judged_as (sharding_of table.rank) result
        ≡ judge_kind (mesh_of mesh) (sizes_of table) k (reduce_scatter (take table.rank (dims_of lists))) (sharding_of table.rank from) }
{
    let mut marks = [false; Axis::MOST];
    let fresh = judge_dims(lists, table.rank, mesh.n, &mut marks);
    let Ok(()) = fresh else {
        return Err(Refusal {
            reason: Reason::NotReplicated,
            step: k,
        });
    };
    let axes = ascending(lists, table.rank, mesh.n);
    if !all_in(axes, from.unreduced) {
        return Err(Refusal {
            reason: Reason::NotReducible,
            step: k,
        });
    }
    let between = reduced(axes, from);
    slice_on(lists, k, between, mesh, table)
}

// A step whose axes are judged, by its kind.
fn judge_kind(
    step: Step,
    k: u16,
    sharding: Sharding,
    mesh: Mesh,
    table: Table,
) -> Result<Sharding, Refusal>
    requires { Sharded mesh table sharding × (judge_named mesh.n k (step_axes (step_of table.rank step)) ≡ accept tt) }
    ensures { judged_as (sharding_of table.rank) result
        ≡ judge_kind (mesh_of mesh) (sizes_of table) k (step_of table.rank step) (sharding_of table.rank sharding) }
{
    match step {
        Step::AllSlice(lists) => judge_slice(lists, k, sharding, mesh, table),
        Step::AllGather(lists) => gather_off(lists, k, sharding, table.rank),
        Step::AllReduce(list) => judge_reduce(list, k, sharding, table.rank, mesh.n),
        Step::AllToAll {
            source,
            target,
            list,
        } => judge_all_to_all(source, target, list, k, sharding, mesh, table),
        Step::ReduceScatter(lists) => judge_scatter(lists, k, sharding, mesh, table),
    }
}

// Step k of a plan, after the steps that left a sharding: the sharding after it. Its lists past the rank are free, and so are the places of a list past
// its count.
pub fn judge_step(
    step: Step,
    k: u16,
    sharding: Sharding,
    mesh: Mesh,
    table: Table,
) -> Result<Sharding, Refusal>
    requires { Sharded mesh table sharding }
    ensures { judged_as (sharding_of table.rank) result
        ≡ judge_step (mesh_of mesh) (sizes_of table) k (step_of table.rank step) (sharding_of table.rank sharding) }
{
    judge_named(step, k, table.rank, mesh.n)?;
    judge_kind(step, k, sharding, mesh, table)
}
