// Accepted steps on two lent buffers: a plain step, a repeat in its rounds, and so many steps in turn. Nothing is unrolled: each step is read where it
// stands, in every round again. No plan is named; specs/Rounds.antt says what each part asks for and leaves, in the judgements of
// rules/specs/PlanFile.antt.
#![tactic(auto)]

ghost use Rattle.std.specs.Prelude.{◌≡◌, ℕ, length};
ghost use Rattle.rules.specs.Lists.{pick};
ghost use Rattle.types.specs.Types.{mesh_of, sizes_of, step_of};
ghost use Rattle.rules.specs.Limits.{every_kind};
ghost use Rattle.rules.specs.PlanFile.{steps_at, plain_at, item_at};
ghost use Rattle.rounds.specs.Rounds.{Turning, Turned, stands_after, block_at, CanRun, HasRun};

use blocks::is_repeat;
use dims::{shard_of, words};
use reader::Read;
use step::{in_place, step_from};
use taking::{Taken, take_step};
use types::{Mesh, Sharding, Step, Table};

// Where a run is: the place of the next kind byte and its number, whether the state stands at the front of work (else at that of spare), and its
// sharding.
#[derive(Clone, Copy)]
pub struct Progress {
    pub at: usize,
    pub number: u16,
    pub in_work: bool,
    pub sharding: Sharding,
}

// Step k, read again and done: from the state in here, the next one at the front of here where the step is done in place, else at that of there. The
// other words of that buffer stay, and so does the other buffer, but for the sums of a reduce-scatter.
fn do_step(
    file: &[u8],
    at: usize,
    k: u16,
    mesh: Mesh,
    table: Table,
    sharding: Sharding,
    here: &mut [u32],
    there: &mut [u32],
) -> Read<Taken>
    requires { Turning file.now at k mesh table sharding (length here.old) (length there.old) }
    ensures { Turned file.now at k mesh table sharding here.old there.old here.new there.new result }
{
    let read = take_step(file, at, k, mesh, table, sharding).unwrap();
    let taken = read.value;
    let before = shard_of(table, sharding.dims, mesh);
    let size = words(shard_of(table, taken.sharding.dims, mesh));
    let axes = &mesh.sizes[..mesh.n];
    let shape = &before.sizes[..before.rank];
    step_from(here, there, axes, shape, taken.step, size);
    read
}

// Whether the state stands in work after a step: one that moves words leaves it in the other buffer.
fn stands_after(step: Step, in_work: bool) -> bool
    ensures { (rank : ℕ) → result ≡ stands_after (step_of rank step) in_work }
{
    if in_place(step) { in_work } else { !in_work }
}

// Step k between the two buffers: from the one in which the state stands.
fn do_turn(
    file: &[u8],
    at: usize,
    k: u16,
    mesh: Mesh,
    table: Table,
    sharding: Sharding,
    in_work: bool,
    work: &mut [u32],
    spare: &mut [u32],
) -> Read<Taken>
    requires { Turning file.now at k mesh table sharding (length (pick in_work work.old spare.old)) (length (pick in_work spare.old work.old)) }
    ensures { Turned file.now at k mesh table sharding
        (pick in_work work.old spare.old) (pick in_work spare.old work.old)
        (pick in_work work.new spare.new) (pick in_work spare.new work.new) result }
{
    if in_work {
        do_step(file, at, k, mesh, table, sharding, work, spare)
    } else {
        do_step(file, at, k, mesh, table, sharding, spare, work)
    }
}

// A plain step.
fn run_plain(
    file: &[u8],
    mesh: Mesh,
    table: Table,
    from: Progress,
    work: &mut [u32],
    spare: &mut [u32],
) -> Progress
    requires { CanRun (plain_at (mesh_of mesh) (sizes_of table) file.now) file.now mesh table from (length work.old) (length spare.old) }
    ensures { HasRun (plain_at (mesh_of mesh) (sizes_of table) file.now) mesh table from
        work.old spare.old work.new spare.new result }
{
    let read = do_turn(
        file,
        from.at,
        from.number,
        mesh,
        table,
        from.sharding,
        from.in_work,
        work,
        spare,
    );
    let taken = read.value;
    Progress {
        at: read.next,
        number: from.number + 1,
        in_work: stands_after(taken.step, from.in_work),
        sharding: taken.sharding,
    }
}

// A repeat, its inner steps nested at most so deep: rounds of them, each from the sharding that the repeat was given, which is the one after each round
// too.
#[cycle(run_block_run_item_run_row)]
fn run_block(
    file: &[u8],
    mesh: Mesh,
    table: Table,
    depth: usize,
    from: Progress,
    work: &mut [u32],
    spare: &mut [u32],
) -> Progress
    requires { CanRun (block_at (mesh_of mesh) (sizes_of table) file.now depth) file.now mesh table from (length work.old) (length spare.old) }
    ensures { HasRun (block_at (mesh_of mesh) (sizes_of table) file.now depth) mesh table from
        work.old spare.old work.new spare.new result }
{
    let at = from.at;
    let sharding = from.sharding;
    let rounds = file[at + 1] as usize;
    let inner = file[at + 2] as usize;
    let mut here = from;
    for i in 0..rounds {
        let first = Progress {
            at: at + 3,
            number: from.number + 1,
            in_work: here.in_work,
            sharding,
        };
        here = run_row(file, mesh, table, inner, depth, first, work, spare);
    }
    here
}

// A step or a repeat, where repeats nest at most so deep.
#[cycle(run_block_run_item_run_row)]
fn run_item(
    file: &[u8],
    mesh: Mesh,
    table: Table,
    depth: usize,
    from: Progress,
    work: &mut [u32],
    spare: &mut [u32],
) -> Progress
    requires { CanRun (item_at every_kind (mesh_of mesh) (sizes_of table) file.now depth) file.now mesh table from (length work.old) (length spare.old) }
    ensures { HasRun (item_at every_kind (mesh_of mesh) (sizes_of table) file.now depth) mesh table from
        work.old spare.old work.new spare.new result }
{
    if is_repeat(file, from.at) {
        run_block(file, mesh, table, depth - 1, from, work, spare)
    } else {
        run_plain(file, mesh, table, from, work, spare)
    }
}

// So many steps in turn, each a step or a repeat.
#[cycle(run_block_run_item_run_row)]
pub fn run_row(
    file: &[u8],
    mesh: Mesh,
    table: Table,
    count: usize,
    depth: usize,
    from: Progress,
    work: &mut [u32],
    spare: &mut [u32],
) -> Progress
    requires { CanRun (steps_at (item_at every_kind (mesh_of mesh) (sizes_of table) file.now depth) count) file.now mesh table from
        (length work.old) (length spare.old) }
    ensures { HasRun (steps_at (item_at every_kind (mesh_of mesh) (sizes_of table) file.now depth) count) mesh table from
        work.old spare.old work.new spare.new result }
{
    let mut here = from;
    for done in 0..count {
        here = run_item(file, mesh, table, depth, here, work, spare);
    }
    here
}
