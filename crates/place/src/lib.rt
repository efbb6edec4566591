// The placement: a state's sharding and shard sizes, and a device's first indexes.
// What it answers is defined in rules/specs/Calls.antt (place_of); specs/Placing.antt has what the parts ask for.
#![tactic(auto)]

ghost use Rattle.std.specs.Prelude.{◌≡◌, ◌*◌, ◌≤◌, ◌<◌, take};
ghost use Rattle.rules.specs.Mesh.{coords, place_in};
ghost use Rattle.rules.specs.Sharding.{first_indexes};
ghost use Rattle.rules.specs.Limits.{most_axes, most_devices, most_words};
ghost use Rattle.types.specs.Answers.{refused_with, placed_of};
ghost use Rattle.types.specs.Types.{dims_of, sizes_of};
ghost use Rattle.types.specs.Promises.{PlacePromise};
ghost use Rattle.reader.specs.Reading.{order_in};
ghost use Rattle.place.specs.Placing.{Placing};

use dims::{lists_within, no_lists, sizes_within};
use mesh::position_of;
use order::place_in;
use plan::state_after;
use reader::{carries_order, read_order};
use types::{Device, Dim, DimLists, Placed, PlanFile, Reason, Refusal, Table};

// "its first index there is block number times shard size"
fn first_index(block: usize, size: u16) -> u16
    requires { block * size < most_words }
    ensures { result ≡ block * size }
{
    let words = size as usize;
    (block * words) as u16
}

// The first indexes of the device at a place.
pub fn first_indexes(mesh: &[u16], dims: DimLists, shard: Table, place: usize) -> Table
    requires { Placing mesh.now dims shard place }
    ensures { (result.rank ≡ shard.rank) × (sizes_of result ≡ first_indexes mesh.now (take shard.rank (dims_of dims))
        (sizes_of shard) (coords mesh.now place)) }
{
    let mut first = shard;
    for d in 0..shard.rank {
        let list = dims.at(Dim(d as u8));
        let size = shard.sizes[d];
        first.sizes[d] = first_index(position_of(mesh, list, place), size);
    }
    first
}

// The place of a device: where the file carries no order, its number.
fn place_of(file: &[u8], n: usize, devices: usize, device: Device) -> usize
    requires { (n ≤ most_axes) × (devices ≤ most_devices) × (device.0 < devices) }
    ensures { result ≡ place_in device.0 (order_in file.now n devices) }
{
    let d = device.0 as usize;
    if !carries_order(file) {
        return d;
    }
    let mut order = [0u16; Device::MOST];
    read_order(file, PlanFile::LEAST + 2 * n, &mut order[0..devices]);
    place_in(&order[0..devices], d)
}

// No lists, no sizes and no indexes, beside a refusal.
fn refused(refusal: Refusal) -> Placed
    ensures { result ≡ placed_of (refused_with refusal) }
{
    Placed {
        outcome: Err(refusal),
        sharding: no_lists(),
        shard: [0; Dim::MOST],
        first: [0; Dim::MOST],
    }
}

// The placement: the file's refusal, then 34, then 32; or the state's sharding, its shard sizes and the device's first indexes.
pub fn place(file: &[u8], state: u16, device: Device) -> Placed
    ensures { PlacePromise file.now state device.0 result }
{
    let found = match state_after(file, state as usize) {
        Ok(found) => found,
        Err(refusal) => return refused(refusal),
    };
    if found.devices <= device.0 as usize {
        return refused(Refusal::outside(Reason::NoSuchDevice));
    }
    let n = found.mesh.n;
    let mesh = found.mesh.sizes;
    let announced = found.sharding;
    let sizes = found.shard;
    let place = place_of(file, n, found.devices, device);
    let indexes = first_indexes(&mesh[..n], announced.dims, sizes, place);
    let sharding = lists_within(announced, sizes.rank);
    let shard = sizes_within(sizes);
    let first = sizes_within(indexes);
    Placed {
        outcome: Ok(sizes.rank),
        sharding,
        shard,
        first,
    }
}
