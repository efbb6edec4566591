// The placement for a whole list of devices: the file is judged once, and the order of its devices is read once.
// What it answers is defined in specs/PlaceAll.antt; specs/Placing.antt has what the parts ask for and leave.
#![tactic(auto)]

ghost use Rattle.std.specs.Prelude.{◌≡◌, ◌++◌, map, ◌*◌, ◌≤◌, ◌<◌, length, get_or, drop, leb, MatchOption};
ghost use Rattle.rules.specs.Lists.{flat};
ghost use Rattle.rules.specs.Limits.{most_axes, most_devices, most_dims};
ghost use Rattle.rules.specs.Mesh.{plain_order, Rearrangement};
ghost use Rattle.reader.specs.Reading.{order_in};
ghost use Rattle.order.specs.Order.{places_of};
ghost use Rattle.placements.specs.PlaceAll.{PlaceAllPromise};
ghost use Rattle.placements.specs.Placing.{refused_at, leading, firsts_at, PlacingAll};

use order::invert;
use place::first_indexes;
use plan::state_after;
use reader::{carries_order, read_order};
use types::{Device, DimLists, PlanFile, Reason, Refusal, Table};

// Beside refusal 32 the place in the list, from 0, of the first device that is refused; beside every other outcome 0.
#[derive(Clone, Copy)]
pub struct PlacedAll {
    pub outcome: Result<(), Refusal>,
    pub place: usize,
}

// A refusal outside the steps.
fn refused(reason: Reason, place: usize) -> PlacedAll
    ensures { result ≡ refused_at reason place }
{
    PlacedAll {
        outcome: Err(Refusal::outside(reason)),
        place,
    }
}

// Whether so many devices have room for an index for each dimension. A list may have any length, so that no product is made.
fn has_room(devices: usize, rank: usize, room: usize) -> bool
    requires { 1 ≤ rank }
    ensures { result ≡ leb (devices * rank) room }
{
    devices <= room / rank
}

// The place in the list of the first device number that is not below D.
fn first_missing(devices: &[u16], most: usize) -> Option<usize>
    ensures { MatchOption result (leading most devices.now ≡ length devices.now) (λ i. (i ≡ leading most devices.now) × (i < length devices.now)) }
{
    devices.iter().position(|device| most <= *device as usize)
}

// In plain order the place of each device is its number.
fn number_places(places: &mut [u16])
    requires { length places.old ≤ most_devices }
    ensures { places.new ≡ plain_order (length places.old) }
{
    for (i, place) in places.iter_mut().enumerate() {
        *place = i as u16;
    }
}

// The place of every device.
fn find_places(file: &[u8], n: usize, places: &mut [u16])
    requires { (n ≤ most_axes) × (length places.old ≤ most_devices) × Rearrangement (length places.old) (order_in file.now n (length places.old)) }
    ensures { places.new ≡ places_of (order_in file.now n (length places.old)) }
{
    if !carries_order(file) {
        number_places(places);
        return;
    }
    let devices = places.len();
    let mut order = [0u16; Device::MOST];
    read_order(file, PlanFile::LEAST + 2 * n, &mut order[0..devices]);
    invert(&order[0..devices], places);
}

// The first indexes of each device of the list, by its place; what stands behind them stays.
fn put_firsts<'a>(
    mesh: &'a [u16],
    dims: DimLists,
    shard: Table,
    places: &'a [u16],
    devices: &'a [u16],
    out: &mut [u16],
)
    requires { PlacingAll mesh.now dims shard places.now devices.now (length out.old) }
    ensures { out.new ≡ flat (map (firsts_at mesh.now dims shard places.now) devices.now)
        ++ drop (length devices.now * shard.rank) out.old }
{
    let rank = shard.rank;
    for (i, device) in devices.iter().enumerate() {
        let place = places[*device as usize] as usize;
        let first = first_indexes(mesh, dims, shard, place);
        let from = i * rank;
        out[from..from + rank].copy_from_slice(&first.sizes[..rank]);
    }
}

// The placement of each device of a list: the file's refusal, 34, then 33, then 32; or each device's first indexes at the front of out.
pub fn place_all(file: &[u8], state: u16, devices: &[u16], out: &mut [u16]) -> PlacedAll
    ensures { PlaceAllPromise file.now state devices.now out.old result out.new }
{
    let found = match state_after(file, state as usize) {
        Ok(found) => found,
        Err(refusal) => {
            return PlacedAll {
                outcome: Err(refusal),
                place: 0,
            };
        }
    };
    let shard = found.shard;
    if !has_room(devices.len(), shard.rank, out.len()) {
        return refused(Reason::OutputTooShort, 0);
    }
    if let Some(place) = first_missing(devices, found.devices) {
        return refused(Reason::NoSuchDevice, place);
    }
    let n = found.mesh.n;
    let mesh = found.mesh.sizes;
    let announced = found.sharding;
    let all = found.devices;
    let mut places = [0u16; Device::MOST];
    find_places(file, n, &mut places[0..all]);
    put_firsts(
        &mesh[..n],
        announced.dims,
        shard,
        &places[0..all],
        devices,
        out,
    );
    PlacedAll {
        outcome: Ok(()),
        place: 0,
    }
}
