// One step of a plan: from the words of the old state to those of the new one, by the step's kind. A reduction keeps the shape of the shards and is
// done in place; a step that moves words goes over to another buffer; a reduce-scatter sums in place, once a group, and slices each sum over to the
// other buffer. specs/Stepping.antt says what a step asks for and leaves.
#![tactic(auto)]

ghost use Rattle.std.specs.Prelude.{◌≡◌, ℕ, length, take};
ghost use Rattle.rules.specs.Lists.{pick};
ghost use Rattle.rules.specs.Spread.{add_words};
ghost use Rattle.rules.specs.Collectives.{reduce_scatter};
ghost use Rattle.types.specs.Types.{axes_of, dims_of, step_of};
ghost use Rattle.sums.specs.Sums.{Reducing, reduced_buffer};
ghost use Rattle.step.specs.Stepping.{Stepping, stepped_buffer, spent_buffer, in_place};

use dims::ascending;
use moves::{move_first, move_into};
use sums::{reduce_in, sum_first};
use types::{AxisList, DimLists, Step};

// Whether a step leaves the new state in the buffer of the old one.
pub fn in_place(step: Step) -> bool
    ensures { (rank : ℕ) → result ≡ in_place (step_of rank step) }
{
    matches!(step, Step::AllReduce(_))
}

// All-reduce, in the buffer of the old state. The other buffer is lent too, as to every step, and stays.
fn reduce_here(here: &mut [u32], there: &mut [u32], mesh: &[u16], shape: &[u16], axes: AxisList)
    requires { Reducing mesh.now shape.now (axes_of axes) (length here.old) }
    ensures here_after { here.new ≡ reduced_buffer add_words 0 mesh.now shape.now (axes_of axes) here.old }
    ensures there_unchanged { there.new ≡ there.old }
{
    reduce_in(here, mesh, shape, axes);
}

// Reduce-scatter: each group is summed into its first member's shard, by increasing axes, and each device's piece is cut from there. No other device
// needs the whole sum, and no state between needs room of its own.
fn scatter(
    here: &mut [u32],
    there: &mut [u32],
    mesh: &[u16],
    shape: &[u16],
    lists: DimLists,
    words: usize,
)
    requires { Stepping mesh.now shape.now (reduce_scatter (take (length shape.now) (dims_of lists))) words (length here.old) (length there.old) }
    ensures here_after { here.new ≡ spent_buffer add_words 0 mesh.now shape.now
        (reduce_scatter (take (length shape.now) (dims_of lists))) here.old }
    ensures there_after { there.new ≡ stepped_buffer add_words 0 mesh.now shape.now
        (reduce_scatter (take (length shape.now) (dims_of lists))) words here.old there.old }
{
    let none = DimLists::empty();
    let along = ascending(lists, shape.len(), mesh.len());
    sum_first(here, mesh, shape, along);
    move_first(here, there, mesh, shape, along, none, lists, words);
}

// From the state at the front of here, the new one, of shards of the given words: at the front of here where the step is done in place, else at the
// front of there. The other words of that buffer stay. So does the other buffer, but that a reduce-scatter leaves each group's sum at its first member.
pub fn step_from(
    here: &mut [u32],
    there: &mut [u32],
    mesh: &[u16],
    shape: &[u16],
    step: Step,
    words: usize,
)
    requires { Stepping mesh.now shape.now (step_of (length shape.now) step) words (length here.old) (length there.old) }
    ensures here_after { here.new ≡ pick (in_place (step_of (length shape.now) step)) (stepped_buffer add_words 0 mesh.now shape.now
        (step_of (length shape.now) step) words here.old here.old)
        (spent_buffer add_words 0 mesh.now shape.now (step_of (length shape.now) step) here.old) }
    ensures there_after { there.new ≡ pick (in_place (step_of (length shape.now) step)) there.old (stepped_buffer add_words 0 mesh.now shape.now
        (step_of (length shape.now) step) words here.old there.old) }
{
    let none = DimLists::empty();
    match step {
        Step::AllSlice(lists) => move_into(here, there, mesh, shape, none, lists, words),
        Step::AllGather(lists) => move_into(here, there, mesh, shape, lists, none, words),
        Step::AllReduce(list) => reduce_here(here, there, mesh, shape, list),
        Step::AllToAll {
            source,
            target,
            list,
        } => {
            let off = none.with(source, list);
            let on = none.with(target, list);
            move_into(here, there, mesh, shape, off, on, words)
        }
        Step::ReduceScatter(lists) => scatter(here, there, mesh, shape, lists, words),
    }
}
