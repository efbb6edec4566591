// Shardings and steps in C's structs, out and in, for the boundary (crates/capi). What each stands for is defined in specs/Structs.antt.
#![tactic(auto)]

ghost use Rattle.std.specs.Prelude.{◌≡◌, ◌<◌, ◌*◌, map, length};
ghost use Rattle.rules.specs.Lists.{tab};
ghost use Rattle.rules.specs.Limits.{most_axes, most_dims};
ghost use Rattle.types.specs.Types.{axes_of, dims_of, sharding_of};
ghost use Rattle.records.specs.Forms.{six_places};
ghost use Rattle.marshal.specs.Structs.{lists, axis_among, sharding_reply, blank_sharding, list_in, sharding_in, record_reply, step_numbers, blank_step, step_in_place};

use types::{Axis, AxisList, Dim, DimLists, Sharding, Step};

// A list for each dimension, the unreduced axes, and the replicated ones.
const LISTS: usize = Dim::MOST + 2;

// The places of their axes.
const PLACES: usize = LISTS * Axis::MOST;

// A step has a list for each dimension, and one list.
const STEP_LISTS: usize = Dim::MOST + 1;

const STEP_PLACES: usize = STEP_LISTS * Axis::MOST;

// C's ishkrela_sharding: how many axes each list has, and the axes of each in six places.
#[repr(C)]
#[derive(Clone, Copy)]
pub struct ShardingReply {
    pub counts: [u8; LISTS],
    pub axes: [u8; PLACES],
}

// C's ishkrela_step: a step record.
#[repr(C)]
#[derive(Clone, Copy)]
pub struct StepReply {
    pub kind: u8,
    pub source: u8,
    pub target: u8,
    pub counts: [u8; STEP_LISTS],
    pub axes: [u8; STEP_PLACES],
}

// How many axes a list has.
fn count_of(list: AxisList) -> u8
    ensures { result ≡ length (axes_of list) }
{
    list.len() as u8
}

// The axes of a list in its six places.
#[tactic(auto, unfolding(types::specs::Types::list_from))]
fn places_of(list: AxisList) -> [u8; Axis::MOST]
    ensures { result ≡ six_places (axes_of list) }
{
    list.cleared().axes.map(|axis| axis.0)
}

// The axes of lists, each in its six places.
fn put_lists(axes: &mut [u8], lists: &[AxisList])
    requires { length axes.old ≡ length lists.now * most_axes }
    ensures { axes.new ≡ tab (length lists.now * most_axes) (axis_among (map axes_of lists.now)) }
{
    for (d, list) in lists.iter().enumerate() {
        let first = d * Axis::MOST;
        let end = first + Axis::MOST;
        axes[first..end].copy_from_slice(&places_of(*list));
    }
}

// A sharding in numbers: a list for each dimension, then the unreduced axes, then the replicated ones.
impl From<Sharding> for ShardingReply {
    ghost from_gives = { λ sharding reply. reply ≡ sharding_reply (sharding_of most_dims sharding) };

    fn from(sharding: Sharding) -> ShardingReply {
        let dims = sharding.dims;
        let lists = [
            dims.at(Dim(0)),
            dims.at(Dim(1)),
            dims.at(Dim(2)),
            dims.at(Dim(3)),
            sharding.unreduced,
            sharding.replicated,
        ];
        let mut axes = [0; PLACES];
        put_lists(&mut axes, &lists);
        ShardingReply {
            counts: lists.map(count_of),
            axes,
        }
    }
}

// No axes, beside a refusal.
pub fn no_sharding() -> ShardingReply
    ensures { result ≡ blank_sharding }
{
    ShardingReply {
        counts: [0; LISTS],
        axes: [0; PLACES],
    }
}

// A list of C's sharding, its count as it stands there.
fn list_in(sharding: ShardingReply, d: usize) -> AxisList
    requires { d < lists }
    ensures { result ≡ list_in sharding d }
{
    let axes = sharding.axes;
    let first = Axis::MOST * d;
    let axes = [
        Axis(axes[first]),
        Axis(axes[first + 1]),
        Axis(axes[first + 2]),
        Axis(axes[first + 3]),
        Axis(axes[first + 4]),
        Axis(axes[first + 5]),
    ];
    AxisList {
        count: u16::from(sharding.counts[d]),
        axes,
        align: [],
    }
}

// C's sharding as the library takes it.
impl From<ShardingReply> for Sharding {
    ghost from_gives = { λ reply sharding. sharding ≡ sharding_in reply };

    fn from(reply: ShardingReply) -> Sharding {
        let lists = [
            list_in(reply, 0),
            list_in(reply, 1),
            list_in(reply, 2),
            list_in(reply, 3),
        ];
        Sharding {
            dims: DimLists(lists),
            unreduced: list_in(reply, 4),
            replicated: list_in(reply, 5),
        }
    }
}

// A step's record: its kind byte, source and target, its lists by dimension and its one list.
fn record(kind: u8, source: Dim, target: Dim, dims: DimLists, list: AxisList) -> StepReply
    ensures { result ≡ record_reply kind source.0 target.0 (dims_of dims) (axes_of list) }
{
    let lists = [
        dims.at(Dim(0)),
        dims.at(Dim(1)),
        dims.at(Dim(2)),
        dims.at(Dim(3)),
        list,
    ];
    let mut axes = [0; STEP_PLACES];
    put_lists(&mut axes, &lists);
    StepReply {
        kind,
        source: source.0,
        target: target.0,
        counts: lists.map(count_of),
        axes,
    }
}

// A step in numbers.
impl From<Step> for StepReply {
    ghost from_gives = { λ step reply. reply ≡ step_numbers step };

    fn from(step: Step) -> StepReply {
        let no_dim = Dim(0);
        let no_dims = DimLists::empty();
        let no_list = AxisList::empty();
        match step {
            Step::AllSlice(lists) => record(1, no_dim, no_dim, lists, no_list),
            Step::AllGather(lists) => record(2, no_dim, no_dim, lists, no_list),
            Step::AllReduce(list) => record(3, no_dim, no_dim, no_dims, list),
            Step::AllToAll {
                source,
                target,
                list,
            } => record(4, source, target, no_dims, list),
            Step::ReduceScatter(lists) => record(5, no_dim, no_dim, lists, no_list),
        }
    }
}

// No step, beside a refusal.
pub fn no_step() -> StepReply
    ensures { result ≡ blank_step }
{
    StepReply {
        kind: 0,
        source: 0,
        target: 0,
        counts: [0; STEP_LISTS],
        axes: [0; STEP_PLACES],
    }
}

// A place of a plan in numbers: of a plan with fewer steps than places the others have none.
impl From<Option<Step>> for StepReply {
    ghost from_gives = { λ place reply. reply ≡ step_in_place place };

    fn from(place: Option<Step>) -> StepReply {
        match place {
            Some(step) => StepReply::from(step),
            None => no_step(),
        }
    }
}
