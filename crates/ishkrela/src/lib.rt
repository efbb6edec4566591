// The library as its users see it: the calls, and the types of what they take and answer.
// No call asks anything of its input; what each promises is in types/specs/Promises.antt, and of the calls on records in records/specs/Promises.antt.
#![tactic(auto)]

ghost use Rattle.types.specs.Promises.{CheckPromise, PlacePromise, GroupsPromise, GroupsOrderedPromise, RunPromise};
ghost use Rattle.placements.specs.PlaceAll.{PlaceAllPromise};
ghost use Rattle.records.specs.Promises.{WritePromise, ReadPromise, PlanPromise};

pub use placements::PlacedAll;
pub use records::{Opened, Planned, ReadCounts, Steps};
pub use types::{
    Axis, AxisList, Checked, Device, Dim, DimLists, Kind, Placed, Ran, Reason, Refusal, Sharding,
    Step, Totals,
};

// Judges a plan file: the room, D, the number of steps, the rank, the words that a run moves between devices, the final sharding and its shard sizes, or the
// refusal.
pub fn check(file: &[u8]) -> Checked
    ensures { CheckPromise file.now result }
{
    plan::check(file)
}

// Where a device's shard lies in a state: the state's sharding, its shard sizes and the device's first indexes, or the refusal.
pub fn place(file: &[u8], state: u16, device: Device) -> Placed
    ensures { PlacePromise file.now state device.0 result }
{
    place::place(file, state, device)
}

// The same for a list of devices, the file judged once: first indexes, as many per device as the rank, at the front of first. Beside refusal 32 stands the place
// in the list, from 0, of the first device that is not there.
pub fn place_all(file: &[u8], state: u16, devices: &[u16], first: &mut [u16]) -> PlacedAll
    ensures { PlaceAllPromise file.now state devices.now first.old result first.new }
{
    placements::place_all(file, state, devices, first)
}

// Lists the devices of a mesh group by group along an axis list, at the front of out.
pub fn groups(mesh: &[u16], axes: &[u8], out: &mut [u16]) -> Result<usize, Refusal>
    ensures { GroupsPromise mesh.now axes.now out.old result out.new }
{
    groups::groups(mesh, axes, out)
}

// The same by an order of the devices: the device at each coordinate tuple, in row-major order.
pub fn groups_ordered(
    mesh: &[u16],
    order: &[u16],
    axes: &[u8],
    out: &mut [u16],
) -> Result<usize, Refusal>
    ensures { GroupsOrderedPromise mesh.now order.now axes.now out.old result out.new }
{
    groups::groups_ordered(mesh, order, axes, out)
}

// Runs a plan: the last state at the front of work, and 0 in the rest of work and in all of spare. Answers the words that were moved between devices, 0 beside
// a refusal.
pub fn run(file: &[u8], work: &mut [u32], spare: &mut [u32]) -> Ran
    ensures { RunPromise file.now work.old spare.old result work.new spare.new }
{
    run::run(file, work, spare)
}

// Writes the file of a plan that is given as records: mesh, order of the devices (none where it has no numbers), table, start, and step records of 38 bytes
// each. Answers how many bytes were written.
pub fn write<'a>(
    mesh: &'a [u16],
    order: &'a [u16],
    table: &'a [u16],
    start: Sharding,
    steps: &[u8],
    file: &mut [u8],
) -> Result<usize, Refusal>
    ensures { WritePromise mesh.now order.now table.now start steps.now file.old result file.new }
{
    writer::write(mesh, order, table, start, steps, file)
}

// Reads an accepted file back as the records that the write takes: mesh, table and start are answered, the order and the step records written at the front of
// two lists.
pub fn read(file: &[u8], order: &mut [u16], steps: &mut [u8]) -> Opened
    ensures { ReadPromise file.now order.old steps.old result order.new steps.new }
{
    decode::read(file, order, steps)
}

// Makes the plan from one sharding of a table to another: at most three steps.
pub fn plan<'a>(
    mesh: &'a [u16],
    order: &'a [u16],
    table: &'a [u16],
    start: Sharding,
    goal: Sharding,
) -> Planned
    ensures { PlanPromise mesh.now order.now table.now start goal result }
{
    planner::plan(mesh, order, table, start, goal)
}
