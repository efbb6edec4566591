// The library's calls for C, Rust and Python; include/ishkrela.h declares them.
// What they answer is defined in specs/Boundary.antt, from the definitions of the library's calls (rules/specs/Calls.antt, records/specs).
#![tactic(auto)]

ghost use Rattle.std.specs.Prelude.{◌≡◌, ◌≤◌, ◌+◌, ◌*◌, Ok};
ghost use Rattle.rules.specs.Limits.{most_axes, most_dims};
ghost use Rattle.types.specs.Answers.{number_of, refused_with, judged};
ghost use Rattle.rules.specs.Calls.{check_of, place_of, groups_of, groups_leave, groups_ordered_of, groups_ordered_leave, run_of};
ghost use Rattle.records.specs.Writing.{write_of, write_leaves};
ghost use Rattle.records.specs.Forms.{records_given};
ghost use Rattle.records.specs.Reading.{read_of, read_leaves_order, read_leaves_steps};
ghost use Rattle.records.specs.PlanAnswer.{steps_planned};
ghost use Rattle.placements.specs.PlaceAll.{place_all_of, placed_before, place_all_leaves};
ghost use Rattle.marshal.specs.Structs.{sharding_in};
ghost use Rattle.capi.specs.Boundary.{refusal_code, check_reply, ran_reply, place_reply, checked_reply, placed_reply, written_reply, opened_reply, planned_reply, read_reply, made_reply, placed_all_reply};

use ishkrela::{
    Axis, Checked, Device, Dim, Opened, Placed, ReadCounts, Refusal, Sharding, Steps, Totals,
};
use marshal::{ShardingReply, StepReply, no_sharding, no_step};
use reasons::number_of;

// C's ishkrela_checked: the numbers that stand for the check's answer.
#[repr(C)]
#[derive(Clone, Copy)]
pub struct CheckReply {
    pub refusal: u32,
    pub room: u32,
    pub devices: u16,
    pub steps: u16,
    pub rank: u16,
    pub shard: [u16; Dim::MOST],
    pub sharding: ShardingReply,
    pub moved: u64,
}

// C's ishkrela_ran: the refusal, and the words that the run moved between devices.
#[repr(C)]
#[derive(Clone, Copy)]
pub struct RunReply {
    pub refusal: u32,
    pub moved: u64,
}

// C's ishkrela_placed: the numbers that stand for the placement's answer.
#[repr(C)]
#[derive(Clone, Copy)]
pub struct PlaceReply {
    pub refusal: u32,
    pub rank: u16,
    pub shard: [u16; Dim::MOST],
    pub first: [u16; Dim::MOST],
    pub sharding: ShardingReply,
}

// C's ishkrela_placed_all: the numbers that stand for the answer of the placement of a list of devices.
#[repr(C)]
#[derive(Clone, Copy)]
pub struct PlaceAllReply {
    pub refusal: u32,
    pub place: usize,
}

// C's ishkrela_written: the numbers that stand for the writer's answer.
#[repr(C)]
#[derive(Clone, Copy)]
pub struct WriteReply {
    pub refusal: u32,
    pub bytes: usize,
}

// C's ishkrela_opened: the numbers that stand for the reading call's answer.
#[repr(C)]
#[derive(Clone, Copy)]
pub struct ReadReply {
    pub refusal: u32,
    pub n: u16,
    pub rank: u16,
    pub mesh: [u16; Axis::MOST],
    pub table: [u16; Dim::MOST],
    pub start: ShardingReply,
    pub order: usize,
    pub steps_bytes: usize,
}

// C's ishkrela_planned: the numbers that stand for the planner's answer.
#[repr(C)]
#[derive(Clone, Copy)]
pub struct PlanReply {
    pub refusal: u32,
    pub count: u32,
    pub steps: [StepReply; 3],
}

// The refusal as one number.
fn code_of(refusal: Refusal) -> u32
    ensures { result ≡ number_of refusal.reason + 256 * refusal.step }
{
    u32::from(number_of(refusal.reason)) + 256 * u32::from(refusal.step)
}

// An outcome as one number, 0 where there is no refusal.
fn outcome_code<T: Copy>(outcome: Result<T, Refusal>) -> u32
    ensures { result ≡ refusal_code (judged outcome) }
{
    match outcome {
        Ok(_) => 0,
        Err(refusal) => code_of(refusal),
    }
}

fn check_refused(refusal: Refusal) -> CheckReply
    ensures { result ≡ check_reply (refused_with refusal) }
{
    CheckReply {
        refusal: code_of(refusal),
        room: 0,
        devices: 0,
        steps: 0,
        rank: 0,
        shard: [0; Dim::MOST],
        sharding: no_sharding(),
        moved: 0,
    }
}

fn check_passed(totals: Totals, checked: Checked) -> CheckReply
    requires { totals.rank ≤ most_dims }
    ensures { result ≡ checked_reply (Ok totals) checked }
{
    let shard = checked.shard;
    CheckReply {
        refusal: 0,
        room: totals.room,
        devices: totals.devices,
        steps: totals.steps,
        rank: totals.rank as u16,
        shard,
        sharding: ShardingReply::from(checked.sharding),
        moved: totals.moved,
    }
}

// The check of a plan file.
#[unsafe(no_mangle)]
pub extern "C" fn ishkrela_check(file: &[u8]) -> CheckReply
    ensures { result ≡ check_reply (check_of file.now) }
{
    let checked = ishkrela::check(file);
    match checked.outcome {
        Ok(totals) => check_passed(totals, checked),
        Err(refusal) => check_refused(refusal),
    }
}

fn place_refused(refusal: Refusal) -> PlaceReply
    ensures { result ≡ place_reply (refused_with refusal) }
{
    PlaceReply {
        refusal: code_of(refusal),
        rank: 0,
        shard: [0; Dim::MOST],
        first: [0; Dim::MOST],
        sharding: no_sharding(),
    }
}

fn place_found(rank: usize, placed: Placed) -> PlaceReply
    requires { rank ≤ most_dims }
    ensures { result ≡ placed_reply (Ok rank) placed }
{
    let shard = placed.shard;
    let first = placed.first;
    PlaceReply {
        refusal: 0,
        rank: rank as u16,
        shard,
        first,
        sharding: ShardingReply::from(placed.sharding),
    }
}

// The placement of a device in a state.
#[unsafe(no_mangle)]
pub extern "C" fn ishkrela_place(file: &[u8], state: u16, device: u16) -> PlaceReply
    ensures { result ≡ place_reply (place_of file.now state device) }
{
    let placed = ishkrela::place(file, state, Device(device));
    match placed.outcome {
        Ok(rank) => place_found(rank, placed),
        Err(refusal) => place_refused(refusal),
    }
}

// The placement of a list of devices in a state.
#[unsafe(no_mangle)]
pub extern "C" fn ishkrela_place_all(
    file: &[u8],
    state: u16,
    devices: &[u16],
    first: &mut [u16],
) -> PlaceAllReply
    ensures answers { result ≡ placed_all_reply (place_all_of file.now state devices.now first.old) (placed_before file.now state devices.now) }
    ensures leaves { first.new ≡ place_all_leaves file.now state devices.now first.old }
{
    let placed = ishkrela::place_all(file, state, devices, first);
    PlaceAllReply {
        refusal: outcome_code(placed.outcome),
        place: placed.place,
    }
}

// The group listing.
#[unsafe(no_mangle)]
pub extern "C" fn ishkrela_groups(mesh: &[u16], axes: &[u8], out: &mut [u16]) -> u32
    ensures answers { result ≡ refusal_code (groups_of mesh.now axes.now out.old) }
    ensures leaves { out.new ≡ groups_leave mesh.now axes.now out.old }
{
    outcome_code(ishkrela::groups(mesh, axes, out))
}

// The group listing by an order of the devices.
#[unsafe(no_mangle)]
pub extern "C" fn ishkrela_groups_ordered(
    mesh: &[u16],
    order: &[u16],
    axes: &[u8],
    out: &mut [u16],
) -> u32
    ensures answers { result ≡ refusal_code (groups_ordered_of mesh.now order.now axes.now out.old) }
    ensures leaves { out.new ≡ groups_ordered_leave mesh.now order.now axes.now out.old }
{
    outcome_code(ishkrela::groups_ordered(mesh, order, axes, out))
}

// The run of a plan.
#[unsafe(no_mangle)]
pub extern "C" fn ishkrela_run(file: &[u8], work: &mut [u32], spare: &mut [u32]) -> RunReply
    ensures answers { result ≡ ran_reply (run_of file.now work.old spare.old) }
    ensures leaves { work.new ≡ (run_of file.now work.old spare.old).work }
    ensures clears { spare.new ≡ (run_of file.now work.old spare.old).spare }
{
    let ran = ishkrela::run(file, work, spare);
    RunReply {
        refusal: outcome_code(ran.outcome),
        moved: ran.moved,
    }
}

// The write of a plan file from records.
#[unsafe(no_mangle)]
pub extern "C" fn ishkrela_write<'a>(
    mesh: &'a [u16],
    order: &'a [u16],
    table: &'a [u16],
    start: ShardingReply,
    steps: &[u8],
    file: &mut [u8],
) -> WriteReply
    ensures answers { result ≡ written_reply (write_of (records_given mesh.now order.now table.now (sharding_in start) steps.now) file.old) }
    ensures leaves { file.new ≡ write_leaves (records_given mesh.now order.now table.now (sharding_in start) steps.now) file.old }
{
    let sharding = Sharding::from(start);
    let outcome = ishkrela::write(mesh, order, table, sharding, steps, file);
    WriteReply {
        refusal: outcome_code(outcome),
        bytes: outcome.unwrap_or(0),
    }
}

fn read_refused(refusal: Refusal) -> ReadReply
    ensures { result ≡ opened_reply (refused_with refusal) }
{
    ReadReply {
        refusal: code_of(refusal),
        n: 0,
        rank: 0,
        mesh: [0; Axis::MOST],
        table: [0; Dim::MOST],
        start: no_sharding(),
        order: 0,
        steps_bytes: 0,
    }
}

fn read_opened(counts: ReadCounts, opened: Opened) -> ReadReply
    requires { (counts.n ≤ most_axes) × (counts.rank ≤ most_dims) }
    ensures { result ≡ read_reply (Ok counts) opened }
{
    let mesh = opened.mesh;
    let table = opened.table;
    ReadReply {
        refusal: 0,
        n: counts.n as u16,
        rank: counts.rank as u16,
        mesh,
        table,
        start: ShardingReply::from(opened.start),
        order: counts.order,
        steps_bytes: counts.steps,
    }
}

// The records of an accepted file.
#[unsafe(no_mangle)]
pub extern "C" fn ishkrela_read(file: &[u8], order: &mut [u16], steps: &mut [u8]) -> ReadReply
    ensures answers { result ≡ opened_reply (read_of file.now order.old steps.old) }
    ensures leaves_order { order.new ≡ read_leaves_order file.now order.old steps.old }
    ensures leaves_steps { steps.new ≡ read_leaves_steps file.now order.old steps.old }
{
    let opened = ishkrela::read(file, order, steps);
    match opened.outcome {
        Ok(counts) => read_opened(counts, opened),
        Err(refusal) => read_refused(refusal),
    }
}

fn plan_refused(refusal: Refusal) -> PlanReply
    ensures { result ≡ planned_reply (refused_with refusal) }
{
    PlanReply {
        refusal: code_of(refusal),
        count: 0,
        steps: [no_step(); 3],
    }
}

fn plan_made(plan: Steps) -> PlanReply
    ensures { result ≡ made_reply plan }
{
    PlanReply {
        refusal: 0,
        count: plan.count() as u32,
        steps: plan.0.map(StepReply::from),
    }
}

// The plan from one sharding to another.
#[unsafe(no_mangle)]
pub extern "C" fn ishkrela_plan<'a>(
    mesh: &'a [u16],
    order: &'a [u16],
    table: &'a [u16],
    start: ShardingReply,
    goal: ShardingReply,
) -> PlanReply
    ensures { result ≡ planned_reply (steps_planned mesh.now order.now table.now (sharding_in start) (sharding_in goal)) }
{
    let from = Sharding::from(start);
    let to = Sharding::from(goal);
    let planned = ishkrela::plan(mesh, order, table, from, to);
    match planned.outcome {
        Ok(()) => plan_made(planned.plan),
        Err(refusal) => plan_refused(refusal),
    }
}
