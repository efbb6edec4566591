// The arguments of the writer's and the planner's calls, judged: mesh, order, table and sharding, and step records of 38 bytes each.
// records/specs/Writing.antt is the judgement and records/specs/Forms.antt what the arguments stand for; specs/Given.antt is what the parts ask and answer.
#![tactic(auto)]

ghost use Rattle.std.specs.Prelude.{◌≡◌, true, false, ℕ, ◌+◌, ◌*◌, ◌≤◌, ◌<◌, map, length, get_or, leb, IfOk};
ghost use Rattle.rules.specs.Limits.{most_axes, most_devices, most_dims};
ghost use Rattle.rules.specs.Lists.{tab};
ghost use Rattle.rules.specs.Mesh.{devices as devices_of, OnMesh};
ghost use Rattle.rules.specs.Refusals.{refuse, need};
ghost use Rattle.types.specs.Answers.{judged, judged_as, number_of, refused_with};
ghost use Rattle.types.specs.Types.{sharding_of, mesh_of, sizes_of};
ghost use Rattle.types.specs.declared.Step.{Step};
ghost use Rattle.blocks.specs.Blocks.{head_of, head_at};
ghost use Rattle.records.specs.Writing.{judge_counts, judge_sharding, judge_order, step_numbered, judge_records};
ghost use Rattle.records.specs.Forms.{list_given, sharding_given, step_given, given_kind, records_given};
ghost use Rattle.given.specs.Given.{judge_limits, mesh_from, table_from, Shaped, lists_in, judge_form, repeat_here, bytes_given, place_given};
ghost use Rattle.given.specs.Given.{plain_given, repeat_given, item_given, summary_in, Judging, Closing, closed};
ghost use Rattle.given.specs.Given.{verdict_of, judge_shape, outermost_given, judge_rest};

use blocks::{Repeat, same_sharding};
use encode::{StepRecord, outermost_steps, step_record};
use judge::judge_step;
use mesh::product_from;
use order::order_allowed;
use reader::judge_sizes;
use start::judge_start;
use types::{Axis, AxisList, Device, Dim, Mesh, Reason, Refusal, Sharding, Step, Table};

// 5: "n, rank or step count outside its limits"; the steps that count are the outermost ones.
pub fn judge_limits(n: usize, rank: usize, steps: usize) -> Result<(), Refusal>
    ensures { judged result ≡ judge_limits n rank steps }
{
    let axes = (1..=Axis::MOST).contains(&n);
    let dims = (1..=Dim::MOST).contains(&rank);
    if axes && dims && steps <= Step::MOST {
        Ok(())
    } else {
        Err(Refusal::outside(Reason::CountOutsideLimits))
    }
}

// 19: the order of so many devices, which no mesh need have. "An order of no numbers counts as none"
pub fn judge_order(order: &[u16], devices: usize) -> Result<(), Refusal>
    requires { devices ≤ most_devices }
    ensures { judged result ≡ judge_order devices order.now }
{
    if order.is_empty() {
        return Ok(());
    }
    if order_allowed(order, devices) {
        Ok(())
    } else {
        Err(Refusal::outside(Reason::WrongOrder))
    }
}

// 19: the order of a mesh that passed, whose devices are counted only where an order is given.
pub fn judge_mesh_order(mesh: &[u16], order: &[u16]) -> Result<(), Refusal>
    requires { OnMesh mesh.now }
    ensures { judged result ≡ judge_order (devices_of mesh.now) order.now }
{
    if order.is_empty() {
        return Ok(());
    }
    if order_allowed(order, product_from(mesh, 0)) {
        Ok(())
    } else {
        Err(Refusal::outside(Reason::WrongOrder))
    }
}

// The sizes in so many places; a place past the last holds 1.
fn places<const N: usize>(sizes: &[u16]) -> [u16; N]
    ensures { result ≡ tab N (λ i. get_or sizes.now i 1) }
{
    let count = sizes.len().min(N);
    let mut places = [1u16; N];
    places[..count].copy_from_slice(&sizes[..count]);
    places
}

// The mesh of these sizes.
pub fn mesh_of(sizes: &[u16]) -> Mesh
    ensures { result ≡ mesh_from sizes.now }
{
    let n = sizes.len();
    let places = places(sizes);
    Mesh { n, sizes: places }
}

// The table of these sizes.
pub fn table_of(sizes: &[u16]) -> Table
    ensures { result ≡ table_from sizes.now }
{
    let rank = sizes.len();
    let places = places(sizes);
    Table {
        rank,
        sizes: places,
    }
}

// 8: the count of a list as it stands there, which may be past the places.
fn judge_count(list: AxisList, n: usize) -> Result<(), Refusal>
    requires { n ≤ most_axes }
    ensures { judged result ≡ need (leb (length (list_given list)) n) 8 }
{
    if n < usize::from(list.count) {
        return Err(Refusal::outside(Reason::ListTooLong));
    }
    Ok(())
}

// 8: the counts of lists.
fn judge_counts(lists: &[AxisList], n: usize) -> Result<(), Refusal>
    requires { n ≤ most_axes }
    ensures { judged result ≡ judge_counts n (map list_given lists.now) }
{
    for list in lists {
        judge_count(*list, n)?;
    }
    Ok(())
}

// A sharding: 8 over all its lists, then 14, 15, 16 axis by axis, then 17.
pub fn judge_sharding(sharding: Sharding, mesh: Mesh, table: Table) -> Result<(), Refusal>
    requires { Shaped mesh table }
    ensures { judged result ≡ judge_sharding (mesh_of mesh) (sizes_of table) (sharding_given table.rank sharding) }
{
    judge_counts(&sharding.dims.0[..table.rank], mesh.n)?;
    judge_counts(&[sharding.unreduced, sharding.replicated], mesh.n)?;
    judge_start(sharding, mesh, table)
}

// Whether record i is there and is a repeat.
pub fn is_repeat(steps: &[u8], i: usize) -> bool
    ensures { result ≡ repeat_here steps.now i }
{
    if steps.len() / StepRecord::BYTES <= i {
        return false;
    }
    // Stays: (d) a repeat has no kind of step; 9 is its byte in the records, as in the file.
    steps[StepRecord::BYTES * i] == 9
}

// The refusal of record i for this reason. A step number has 16 bits: past them 2.
fn refusal_at(reason: Reason, i: usize) -> Refusal
    ensures { refused_with {A = Unit {0}} result ≡ step_numbered (refuse (number_of reason) (i + 1)) }
{
    if StepRecord::MOST <= i {
        return Refusal::outside(Reason::FileTooLong);
    }
    let step = (i + 1) as u16;
    Refusal { reason, step }
}

// 8: the counts of a step's lists.
fn judge_lists(step: Step, rank: usize, n: usize) -> Result<(), Refusal>
    requires { (rank ≤ most_dims) × (n ≤ most_axes) }
    ensures { judged result ≡ judge_counts n (lists_in (step_given rank step)) }
{
    match step {
        Step::AllSlice(lists) | Step::AllGather(lists) | Step::ReduceScatter(lists) => {
            judge_counts(&lists.0[..rank], n)
        }
        Step::AllReduce(list) | Step::AllToAll { list, .. } => judge_count(list, n),
    }
}

// The step that record i has, before it is judged: 20, then 8 over its lists.
fn judge_form(step: Option<Step>, i: usize, rank: usize, n: usize) -> Result<Step, Refusal>
    requires { (rank ≤ most_dims) × (n ≤ most_axes) }
    ensures judges { judged_as (λ (t : Step). tt) result ≡ step_numbered (judge_form n (i + 1) (given_kind rank step)) }
    ensures gives { IfOk result (λ t. Some t ≡ step) }
{
    let Some(known) = step else {
        return Err(refusal_at(Reason::UnknownKind, i));
    };
    judge_lists(known, rank, n)?;
    Ok(known)
}

// Records that were judged: the next one, how many plain steps are run, and the sharding after them.
#[derive(Clone, Copy)]
pub struct RecordsJudged {
    pub at: usize,
    pub runs: usize,
    pub sharding: Sharding,
}

// Record i, which is no repeat: 7 past the last record, then 20, then 8 over its lists, then the step.
fn judge_plain(
    steps: &[u8],
    i: usize,
    mesh: Mesh,
    table: Table,
    sharding: Sharding,
) -> Result<RecordsJudged, Refusal>
    requires { Judging steps.now i mesh table sharding × (repeat_here steps.now i ≡ false) }
    ensures { judged_as (summary_in table.rank) result
        ≡ plain_given (mesh_of mesh) (sizes_of table) table.rank steps.now i (sharding_of table.rank sharding) }
{
    if steps.len() / StepRecord::BYTES <= i {
        return Err(Refusal::outside(Reason::SectionPastEnd));
    }
    let record = step_record(steps, StepRecord::BYTES * i);
    let step = judge_form(record, i, table.rank, mesh.n)?;
    // A step is judged alike under every number; the refusal gets its own.
    match judge_step(step, 0, sharding, mesh, table) {
        Ok(after) => Ok(RecordsJudged {
            at: i + 1,
            runs: 1,
            sharding: after,
        }),
        Err(refusal) => Err(refusal_at(refusal.reason, i)),
    }
}

// How often the block of record i is run and how many steps it has, where repeats may nest so deep, this one included: 44, then 42.
fn read_head(steps: &[u8], i: usize, depth: usize) -> Result<Repeat, Refusal>
    requires { repeat_here steps.now i ≡ true }
    ensures { (rank : ℕ) → judged_as head_of result
        ≡ step_numbered (head_at depth (i + 1) (bytes_given rank steps.now) (place_given rank steps.now i + 1)) }
{
    let at = StepRecord::BYTES * i;
    let count = steps[at + 1];
    let inner = steps[at + 2];
    if count == 0 || inner == 0 {
        return Err(refusal_at(Reason::RepeatOfNothing, i));
    }
    if depth == 0 {
        return Err(refusal_at(Reason::TooDeep, i));
    }
    Ok(Repeat { count, inner })
}

// The end of the block of record i: the sharding is the one before it, and so many rounds are not too many steps.
fn close_repeat(
    i: usize,
    count: u8,
    block: RecordsJudged,
    before: Sharding,
    rank: usize,
) -> Result<RecordsJudged, Refusal>
    requires { Closing block rank }
    ensures { judged_as (summary_in rank) result ≡ closed (i + 1) count rank before block }
{
    if !same_sharding(block.sharding, before, rank) {
        return Err(refusal_at(Reason::ShardingChanged, i));
    }
    let rounds = usize::from(count);
    let runs = rounds * block.runs;
    if Step::MOST_RUN < runs {
        return Err(refusal_at(Reason::TooManyRun, i));
    }
    Ok(RecordsJudged { runs, ..block })
}

// The repeat that record i is, with all steps inside it, where repeats may nest so deep, this one included.
#[cycle(judge_record_judge_repeat)]
pub fn judge_repeat(
    steps: &[u8],
    i: usize,
    depth: usize,
    mesh: Mesh,
    table: Table,
    sharding: Sharding,
) -> Result<RecordsJudged, Refusal>
    requires { Judging steps.now i mesh table sharding × (repeat_here steps.now i ≡ true) }
    ensures { judged_as (summary_in table.rank) result
        ≡ repeat_given (mesh_of mesh) (sizes_of table) table.rank steps.now depth i (sharding_of table.rank sharding) }
{
    let head = read_head(steps, i, depth)?;
    let below = depth - 1;
    let mut block = RecordsJudged {
        at: i + 1,
        runs: 0,
        sharding,
    };
    for n in 0..head.inner {
        let item = judge_record(steps, block.at, below, mesh, table, block.sharding)?;
        block = RecordsJudged {
            runs: block.runs + item.runs,
            ..item
        };
    }
    close_repeat(i, head.count, block, sharding, table.rank)
}

// Record i, with all steps inside it if it is a repeat, where repeats may nest so deep.
#[cycle(judge_record_judge_repeat)]
pub fn judge_record(
    steps: &[u8],
    i: usize,
    depth: usize,
    mesh: Mesh,
    table: Table,
    sharding: Sharding,
) -> Result<RecordsJudged, Refusal>
    requires { Judging steps.now i mesh table sharding }
    ensures { judged_as (summary_in table.rank) result
        ≡ item_given (mesh_of mesh) (sizes_of table) table.rank steps.now depth i (sharding_of table.rank sharding) }
{
    if is_repeat(steps, i) {
        judge_repeat(steps, i, depth, mesh, table, sharding)
    } else {
        judge_plain(steps, i, mesh, table, sharding)
    }
}

// So many outermost steps, from the first record on; 43 "after each outermost step for the plan so far".
fn judge_outermost(
    steps: &[u8],
    count: usize,
    mesh: Mesh,
    table: Table,
    start: Sharding,
) -> Result<(), Refusal>
    requires { Judging steps.now 0 mesh table start }
    ensures { judged result ≡ step_numbered (outermost_given (mesh_of mesh) (sizes_of table) table.rank steps.now count (sharding_of table.rank start)) }
{
    let mut after = start;
    let mut place: usize = 0;
    let mut ran: usize = 0;
    for n in 0..count {
        let item = judge_record(steps, place, Step::MOST_DEPTH, mesh, table, after)?;
        ran += item.runs;
        if Step::MOST_RUN < ran {
            return Err(refusal_at(Reason::TooManyRun, place));
        }
        place = item.at;
        after = item.sharding;
    }
    Ok(())
}

// The starting sharding, then the records, of which so many stand in no block.
fn judge_rest(
    steps: &[u8],
    count: usize,
    mesh: Mesh,
    table: Table,
    start: Sharding,
) -> Result<(), Refusal>
    requires { Shaped mesh table }
    ensures { judged result ≡ judge_rest (mesh_of mesh) (sizes_of table) table.rank start steps.now count }
{
    judge_sharding(start, mesh, table)?;
    judge_outermost(steps, count, mesh, table, start)
}

// Mesh, order and table, with so many outermost steps: 5, 10, 11, 19, 12, 13.
pub fn judge_shape<'a>(
    mesh: &'a [u16],
    order: &'a [u16],
    sizes: &'a [u16],
    steps: usize,
) -> Result<(), Refusal>
    ensures { judged result ≡ judge_shape mesh.now order.now sizes.now steps }
{
    judge_limits(mesh.len(), sizes.len(), steps)?;
    judge_sizes(
        mesh,
        Device::MOST,
        Reason::MeshSizeZero,
        Reason::TooManyDevices,
    )?;
    judge_mesh_order(mesh, order)?;
    judge_sizes(
        sizes,
        Table::MOST,
        Reason::TensorSizeZero,
        Reason::TooManyWords,
    )?;
    Ok(())
}

// All arguments of a plan, in the check's order; the plan itself is not made.
pub fn judge_records<'a>(
    mesh: &'a [u16],
    order: &'a [u16],
    sizes: &'a [u16],
    start: Sharding,
    steps: &[u8],
) -> Result<(), Refusal>
    ensures { judged result
        ≡ verdict_of (judge_records (records_given mesh.now order.now sizes.now start steps.now)) }
{
    let count = outermost_steps(steps);
    judge_shape(mesh, order, sizes, count)?;
    let axes = mesh_of(mesh);
    let table = table_of(sizes);
    judge_rest(steps, count, axes, table, start)
}

#[cfg(test)]
mod tests;
