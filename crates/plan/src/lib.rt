// The check of a plan file: its outermost steps in turn after what stands before them, and the answer.
// Order and numbers are those of rules/specs/PlanFile.antt; specs/Parts.antt says what the parts answer.
#![tactic(auto)]

ghost use Rattle.std.specs.Prelude.{◌≡◌, ◌≤◌, ◌<◌, IfOk};
ghost use Rattle.rules.specs.Refusals.{accept};
ghost use Rattle.types.specs.Answers.{refused_with, judged_as, checked_of};
ghost use Rattle.types.specs.Types.{sharding_of, mesh_of, sizes_of};
ghost use Rattle.types.specs.Promises.{CheckPromise};
ghost use Rattle.plan.specs.Parts.{Begins, walk_at, walk_read};
ghost use Rattle.plan.specs.Parts.{whole_of, WholeTells, KeepingTells, Bounded, answer_of, state_at, StateTells, Shaped};

use blocks::judge_item;
use dims::{lists_within, no_lists, shard_of, sizes_within, words};
use opening::{Opening, open};
use taking::{Extent, shard_words};
use types::{Checked, Dim, Mesh, Reason, Refusal, Sharding, Step, Table, Totals};

// The sharding after some outermost steps, the one that was kept on the way, the most words that a shard had, the words moved between devices, and where
// the next byte is.
#[derive(Clone, Copy)]
struct Walk {
    at: usize,
    most: usize,
    moved: u64,
    sharding: Sharding,
    kept: Sharding,
}

// The sharding to keep after one step more than k: the later one until the state is passed.
fn kept_until(state: usize, k: usize, earlier: Sharding, later: Sharding) -> Sharding
    ensures { (k < state → result ≡ later) × (state ≤ k → result ≡ earlier) }
{
    if k < state { later } else { earlier }
}

// All outermost steps in turn, from the start; the sharding after a state's steps is kept, or the last one where there are fewer.
fn walk_steps(file: &[u8], opening: Opening, state: usize) -> Result<Walk, Refusal>
    requires { Begins file.now opening.at opening.steps opening.devices opening.mesh opening.table opening.start }
    ensures { judged_as (walk_read opening.table.rank) result ≡ walk_at (mesh_of opening.mesh) (sizes_of opening.table) state opening.steps
        file.now opening.at (sharding_of opening.table.rank opening.start) }
{
    let mesh = opening.mesh;
    let table = opening.table;
    let start = opening.start;
    let total = words(table);
    let extent = Extent {
        devices: opening.devices,
        words: total,
    };
    let depth = Step::MOST_DEPTH;
    let mut after = start;
    let mut kept = start;
    let mut most = shard_words(total, mesh, table, start);
    let mut moved: u64 = 0;
    let mut at = opening.at;
    let mut number: u16 = 1;
    let mut ran: usize = 0;
    for k in 0..opening.steps {
        let item = judge_item(file, at, number, depth, mesh, table, extent, most, after)?;
        ran += item.runs;
        if Step::MOST_RUN < ran {
            return Err(Refusal {
                reason: Reason::TooManyRun,
                step: number,
            });
        }
        at = item.at;
        number = item.number;
        most = item.largest;
        moved += item.moved;
        after = item.sharding;
        kept = kept_until(state, k, kept, after);
    }
    Ok(Walk {
        at,
        most,
        moved,
        sharding: after,
        kept,
    })
}

// A file that was judged whole: what stands before its steps, where these begin, the most words of a shard, the words moved between devices, and the last
// sharding.
#[derive(Clone, Copy)]
pub struct Whole {
    pub at: usize,
    pub devices: usize,
    pub steps: usize,
    pub most: usize,
    pub moved: u64,
    pub mesh: Mesh,
    pub table: Table,
    pub start: Sharding,
    pub last: Sharding,
}

// A file that was judged whole, and a sharding that was kept on the way.
#[derive(Clone, Copy)]
struct Keeping {
    whole: Whole,
    kept: Sharding,
}

// The whole file; the sharding after a state's steps is kept.
fn judge_keeping(file: &[u8], state: usize) -> Result<Keeping, Refusal>
    ensures { KeepingTells file.now state result }
{
    let opening = open(file)?;
    let walk = walk_steps(file, opening, state)?;
    if walk.at != file.len() {
        return Err(Refusal::outside(Reason::BytesLeft));
    }
    let whole = Whole {
        at: opening.at,
        devices: opening.devices,
        steps: opening.steps,
        most: walk.most,
        moved: walk.moved,
        mesh: opening.mesh,
        table: opening.table,
        start: opening.start,
        last: walk.sharding,
    };
    Ok(Keeping {
        whole,
        kept: walk.kept,
    })
}

// The whole file.
pub fn judge_file(file: &[u8]) -> Result<Whole, Refusal>
    ensures { WholeTells (whole_of file.now) result }
{
    let keeping = judge_keeping(file, 0)?;
    Ok(keeping.whole)
}

// No lists and no sizes, beside a refusal.
fn refused(refusal: Refusal) -> Checked
    ensures { result ≡ checked_of (refused_with refusal) }
{
    Checked {
        outcome: Err(refusal),
        sharding: no_lists(),
        shard: [0; Dim::MOST],
    }
}

// The answer for a plan that passed.
fn passed(whole: Whole) -> Checked
    requires { Bounded whole }
    ensures { result ≡ checked_of (accept (answer_of whole)) }
{
    let table = whole.table;
    let last = whole.last;
    let shard = sizes_within(shard_of(table, last.dims, whole.mesh));
    let sharding = lists_within(last, table.rank);
    let room = whole.devices * whole.most;
    let totals = Totals {
        room: room as u32,
        devices: whole.devices as u16,
        steps: whole.steps as u16,
        rank: table.rank,
        moved: whole.moved,
    };
    Checked {
        outcome: Ok(totals),
        sharding,
        shard,
    }
}

// The check: the room, D, the number of steps, the rank, the words that a run moves between devices, the final sharding and its shard sizes, or the
// refusal.
pub fn check(file: &[u8]) -> Checked
    ensures { CheckPromise file.now result }
{
    match judge_file(file) {
        Ok(whole) => passed(whole),
        Err(refusal) => refused(refusal),
    }
}

// A state of a plan that passed: where the plan's steps begin, mesh and table, the announced sharding and shard sizes.
#[derive(Clone, Copy)]
pub struct State {
    pub at: usize,
    pub devices: usize,
    pub mesh: Mesh,
    pub table: Table,
    pub sharding: Sharding,
    pub shard: Table,
}

// What the plan announces after so many outermost steps; 34 where it has fewer.
pub fn state_after(file: &[u8], state: usize) -> Result<State, Refusal>
    ensures { StateTells file.now (state_at file.now state) result × IfOk result Shaped }
{
    let keeping = judge_keeping(file, state)?;
    let whole = keeping.whole;
    if whole.steps < state {
        return Err(Refusal::outside(Reason::NoSuchState));
    }
    let mesh = whole.mesh;
    let table = whole.table;
    let sharding = keeping.kept;
    let shard = shard_of(table, sharding.dims, mesh);
    Ok(State {
        at: whole.at,
        devices: whole.devices,
        mesh,
        table,
        sharding,
        shard,
    })
}
