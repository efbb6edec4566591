// One step of a plan, read and judged; the words of a shard after it, and the words that it moves between devices. specs/Taking.antt says what a step
// taken is, specs/Charges.antt what is asked of one that is charged.
#![tactic(auto)]

ghost use Rattle.std.specs.Prelude.{◌≡◌, ℕ, ◌*◌, ◌≤◌, length, take};
ghost use Rattle.rules.specs.Lists.{product};
ghost use Rattle.rules.specs.Sharding.{shard_sizes};
ghost use Rattle.rules.specs.Limits.{most_axes, most_devices, most_dims, most_words};
ghost use Rattle.rules.specs.Mesh as sizes;
ghost use Rattle.rules.specs.Collectives.{step_axes};
ghost use Rattle.rules.specs.Moved.{moved_from, closed_form};
ghost use Rattle.types.specs.Types.{Sized, dims_of, sharding_of, step_of, mesh_of, sizes_of};
ghost use Rattle.reader.specs.Reading.{reading};
ghost use Rattle.judge.specs.Step.{Sharded};
ghost use Rattle.taking.specs.Charges.{ChargesStep};
ghost use Rattle.taking.specs.Taking.{take_step, taken_of};

use axes::span;
use dims::span_dims;
use judge::judge_step;
use reader::{Read, read_step};
use types::{Mesh, Refusal, Sharding, Step, Table};

// A step that was read and judged, and the sharding after it.
#[derive(Clone, Copy)]
pub struct Taken {
    pub step: Step,
    pub sharding: Sharding,
}

// Step k, read and judged.
pub fn take_step(
    file: &[u8],
    at: usize,
    k: u16,
    mesh: Mesh,
    table: Table,
    sharding: Sharding,
) -> Result<Read<Taken>, Refusal>
    requires { Sharded mesh table sharding }
    ensures { reading (taken_of table.rank) result
        ≡ take_step (mesh_of mesh) (sizes_of table) k file.now at (sharding_of table.rank sharding) }
{
    let read = read_step(file, at, mesh.n, table.rank, k)?;
    let step = read.value;
    let after = judge_step(step, k, sharding, mesh, table)?;
    Ok(Read {
        value: Taken {
            step,
            sharding: after,
        },
        next: read.next,
    })
}

// The words of one shard of a table of so many words. The table's words are divided once, by the span of all axes that split it.
pub fn shard_words(total: usize, mesh: Mesh, table: Table, sharding: Sharding) -> usize
    requires { Sharded mesh table sharding × (total ≡ product (sizes_of table)) }
    ensures { result ≡ product (shard_sizes (mesh_of mesh) (sizes_of table) (take table.rank (dims_of sharding.dims))) }
{
    total / span_dims(sharding.dims, table.rank, mesh)
}

// The devices of a mesh, and the words of a table.
#[derive(Clone, Copy)]
pub struct Extent {
    pub devices: usize,
    pub words: usize,
}

// The devices of a group along all axes of a step.
fn group_size(step: Step, rank: usize, mesh: Mesh) -> usize
    requires { (rank ≤ most_dims) × Sized (mesh_of mesh) × (length (step_axes (step_of rank step)) ≤ most_axes) }
    ensures { result ≡ sizes.span (mesh_of mesh) (step_axes (step_of rank step)) }
{
    match step {
        Step::AllSlice(lists) | Step::AllGather(lists) | Step::ReduceScatter(lists) => {
            span_dims(lists, rank, mesh)
        }
        Step::AllReduce(list) | Step::AllToAll { list, .. } => span(list, mesh),
    }
}

// The words that a step moves between so many devices with so many words each, in groups of this size.
fn charge(step: Step, devices: usize, words: usize, group: usize) -> u64
    requires { (devices * words ≤ most_devices * most_words) × (1 ≤ group) × (group ≤ most_devices) }
    ensures { (rank : ℕ) → result ≡ closed_form (step_of rank step) devices words group }
{
    let others = group - 1;
    let all = devices * words * others;
    match step {
        Step::AllSlice(_) => 0,
        Step::AllGather(_) | Step::AllReduce(_) => all as u64,
        Step::AllToAll { .. } | Step::ReduceScatter(_) => (all / group) as u64,
    }
}

// The words that an accepted step moves between devices, from the shards of the sharding before it.
pub fn charge_step(step: Step, extent: Extent, mesh: Mesh, table: Table, sharding: Sharding) -> u64
    requires { ChargesStep extent mesh table (step_of table.rank step) sharding }
    ensures { result ≡ moved_from (mesh_of mesh) (sizes_of table) (step_of table.rank step) (sharding_of table.rank sharding) }
{
    let words = shard_words(extent.words, mesh, table, sharding);
    let group = group_size(step, table.rank, mesh);
    charge(step, extent.devices, words, group)
}
