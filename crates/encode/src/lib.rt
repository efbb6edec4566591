// The bytes of a plan file, written from the arguments of the writer's call. A byte past the end of the buffer is left out, so that a buffer with no
// place measures. What is written is defined in records/specs/Records.antt, what the arguments stand for in records/specs/Forms.antt.
#![tactic(auto)]

ghost use Rattle.std.specs.Prelude.{◌≡◌, [], ◌∷◌, ◌++◌, ℕ, ◌+◌, ◌*◌, ◌≤◌, ◌<◌, length, drop};
ghost use Rattle.rules.specs.Lists.{pick};
ghost use Rattle.rules.specs.Limits.{most_axes, most_devices, most_dims, most_steps, least_bytes, most_bytes};
ghost use Rattle.rules.specs.PlanFile.{some};
ghost use Rattle.types.specs.Types.{axes_of};
ghost use Rattle.records.specs.Records.{u16_bytes, u16s_bytes, list_bytes, lists_bytes, replicated_bytes, sharding_bytes, inner_of, outermost, step_bytes, given_bytes, steps_bytes, file_length, file_of};
ghost use Rattle.records.specs.Writing.{most_records};
ghost use Rattle.records.specs.RoundTrip.{ShortLists, ShortSharding, ShortStep, ShortGiven};
ghost use Rattle.records.specs.Forms.{list_given, dims_given, sharding_given, record_bytes, list_record, lists_record, step_record, step_given, given_at, record_count, steps_given, records_given};
ghost use Rattle.encode.specs.Putting.{Put, farthest, ShortSteps, front_bytes, header_of, Encodable, Writable};

use types::{Axis, AxisList, Dim, DimLists, Kind, PlanFile, Sharding, Step};

// A step record, by where it begins in the bytes of the records.
#[derive(Clone, Copy)]
pub struct StepRecord(pub usize);

impl StepRecord {
    pub const BYTES: usize = 38;

    pub fn bytes() -> usize
        ensures { result ≡ record_bytes }
    {
        StepRecord::BYTES
    }

    // The most records that have a number: a step number has 16 bits.
    pub const MOST: usize = 65535;

    pub fn most() -> usize
        ensures { result ≡ most_records }
    {
        StepRecord::MOST
    }
}

// One byte, and where the next one goes.
pub fn put_byte(out: &mut [u8], at: usize, byte: u8) -> usize
    requires { at + 1 ≤ farthest }
    ensures { Put out.old out.new at result (byte ∷ []) }
{
    if at < out.len() {
        out[at] = byte;
    }
    at + 1
}

// A number of 16 bits, little-endian.
fn put_u16(out: &mut [u8], at: usize, number: u16) -> usize
    requires { at + 2 ≤ farthest }
    ensures { Put out.old out.new at result (u16_bytes number) }
{
    let [low, high] = number.to_le_bytes();
    let next = put_byte(out, at, low);
    put_byte(out, next, high)
}

// Numbers of 16 bits: sizes, an order, the header.
fn put_u16s(out: &mut [u8], at: usize, numbers: &[u16]) -> usize
    requires { at + 2 * length numbers.now ≤ farthest }
    ensures { Put out.old out.new at result (u16s_bytes numbers.now) }
{
    let mut place = at;
    for number in numbers {
        place = put_u16(out, place, *number);
    }
    place
}

// A list: its count, then its axes.
fn put_list(out: &mut [u8], at: usize, list: AxisList) -> usize
    requires { (at + 7 ≤ farthest) × (length (axes_of list) ≤ most_axes) }
    ensures { Put out.old out.new at result (list_bytes (axes_of list)) }
{
    let axes = list.as_slice();
    let mut place = put_byte(out, at, axes.len() as u8);
    for axis in axes {
        place = put_byte(out, place, axis.0);
    }
    place
}

// A list for each dimension.
fn put_lists(out: &mut [u8], at: usize, lists: DimLists, rank: usize) -> usize
    requires { (at + 28 ≤ farthest) × (rank ≤ most_dims) × ShortLists (dims_given rank lists) }
    ensures { Put out.old out.new at result (lists_bytes (dims_given rank lists)) }
{
    let mut place = at;
    for list in &lists.0[..rank] {
        place = put_list(out, place, *list);
    }
    place
}

// The replicated list, which editions 2 and 3 carry.
fn put_replicated(out: &mut [u8], at: usize, list: AxisList, edition: usize) -> usize
    requires { (at + 7 ≤ farthest) × (length (axes_of list) ≤ most_axes) }
    ensures { Put out.old out.new at result (replicated_bytes edition (axes_of list)) }
{
    if 2 <= edition {
        return put_list(out, at, list);
    }
    at
}

// A sharding: a list for each dimension, the unreduced list, the replicated list.
fn put_sharding(out: &mut [u8], at: usize, sharding: Sharding, rank: usize, edition: usize) -> usize
    requires { (at + 42 ≤ farthest) × (rank ≤ most_dims) × ShortSharding (sharding_given rank sharding) }
    ensures { Put out.old out.new at result (sharding_bytes edition (sharding_given rank sharding)) }
{
    let dims = sharding.dims;
    let second = put_lists(out, at, dims, rank);
    let unreduced = sharding.unreduced;
    let third = put_list(out, second, unreduced);
    let replicated = sharding.replicated;
    put_replicated(out, third, replicated, edition)
}

// A step with a list for each dimension, by its kind byte.
fn put_per_dim(out: &mut [u8], at: usize, kind: u8, lists: DimLists, rank: usize) -> usize
    requires { (at + 31 ≤ farthest) × (rank ≤ most_dims) × ShortLists (dims_given rank lists) }
    ensures { Put out.old out.new at result (kind ∷ lists_bytes (dims_given rank lists)) }
{
    let next = put_byte(out, at, kind);
    put_lists(out, next, lists, rank)
}

// An all-reduce.
fn put_reduce(out: &mut [u8], at: usize, list: AxisList) -> usize
    requires { (at + 31 ≤ farthest) × (length (list_given list) ≤ most_axes) }
    ensures { Put out.old out.new at result (3 ∷ list_bytes (list_given list)) }
{
    let next = put_byte(out, at, 3);
    put_list(out, next, list)
}

// Three bytes: an all-to-all up to its list, or a repeat.
pub fn put_three(out: &mut [u8], at: usize, kind: u8, first: u8, second: u8) -> usize
    requires { at + 3 ≤ farthest }
    ensures { Put out.old out.new at result (kind ∷ first ∷ second ∷ []) }
{
    let next = put_byte(out, at, kind);
    let last = put_byte(out, next, first);
    put_byte(out, last, second)
}

// An all-to-all.
fn put_to_all(out: &mut [u8], at: usize, source: Dim, target: Dim, list: AxisList) -> usize
    requires { (at + 31 ≤ farthest) × (length (list_given list) ≤ most_axes) }
    ensures { Put out.old out.new at result (4 ∷ source.0 ∷ target.0 ∷ list_bytes (list_given list)) }
{
    let next = put_three(out, at, 4, source.0, target.0);
    put_list(out, next, list)
}

// A plain step.
fn put_step(out: &mut [u8], at: usize, step: Step, rank: usize) -> usize
    requires { (at + 31 ≤ farthest) × (rank ≤ most_dims) × ShortStep (step_given rank step) }
    ensures { Put out.old out.new at result (step_bytes (step_given rank step)) }
{
    match step {
        Step::AllSlice(lists) => put_per_dim(out, at, 1, lists, rank),
        Step::AllGather(lists) => put_per_dim(out, at, 2, lists, rank),
        Step::AllReduce(list) => put_reduce(out, at, list),
        Step::AllToAll {
            source,
            target,
            list,
        } => put_to_all(out, at, source, target, list),
        Step::ReduceScatter(lists) => put_per_dim(out, at, 5, lists, rank),
    }
}

// A list of a record, the lists by dimension, and its step, from their bytes.
// All six places are read at once: a list stored byte by byte and then handed on as a whole makes the processor wait.
fn list_record(steps: &[u8], at: usize, list: usize) -> AxisList
    requires { (at + record_bytes ≤ length steps.now) × (list ≤ 4) }
    ensures { result ≡ list_record steps.now at list }
{
    let first = at + 8 + 6 * list;
    let axes = [
        Axis(steps[first]),
        Axis(steps[first + 1]),
        Axis(steps[first + 2]),
        Axis(steps[first + 3]),
        Axis(steps[first + 4]),
        Axis(steps[first + 5]),
    ];
    AxisList {
        count: u16::from(steps[at + 3 + list]),
        axes,
        align: [],
    }
}

fn lists_record(steps: &[u8], at: usize) -> DimLists
    requires { at + record_bytes ≤ length steps.now }
    ensures { result ≡ lists_record steps.now at }
{
    DimLists([
        list_record(steps, at, 0),
        list_record(steps, at, 1),
        list_record(steps, at, 2),
        list_record(steps, at, 3),
    ])
}

// None where there is no kind of its byte.
pub fn step_record(steps: &[u8], at: usize) -> Option<Step>
    requires { at + record_bytes ≤ length steps.now }
    ensures { result ≡ step_record steps.now at }
{
    let kind = Kind::try_from(steps[at]).ok()?;
    Some(match kind {
        Kind::AllSlice => Step::AllSlice(lists_record(steps, at)),
        Kind::AllGather => Step::AllGather(lists_record(steps, at)),
        Kind::AllReduce => Step::AllReduce(list_record(steps, at, 4)),
        Kind::AllToAll => Step::AllToAll {
            source: Dim(steps[at + 1]),
            target: Dim(steps[at + 2]),
            list: list_record(steps, at, 4),
        },
        Kind::ReduceScatter => Step::ReduceScatter(lists_record(steps, at)),
    })
}

// The record that begins at a place of the records; of a kind that there is not, the byte that is no kind's.
fn put_record(out: &mut [u8], at: usize, steps: &[u8], from: usize, rank: usize) -> usize
    requires { (at + 31 ≤ farthest) × (rank ≤ most_dims) × (from + record_bytes ≤ length steps.now) × ShortGiven (given_at rank steps.now from) }
    ensures { Put out.old out.new at result (given_bytes (given_at rank steps.now from)) }
{
    // Stays: (d) a repeat has no kind of step; 9 is its byte in the records, as in the file.
    if steps[from] == 9 {
        return put_three(out, at, 9, steps[from + 1], steps[from + 2]);
    }
    match step_record(steps, from) {
        Some(step) => put_step(out, at, step, rank),
        None => put_byte(out, at, 0),
    }
}

// All records; bytes after the last whole one count for nothing.
fn put_steps(out: &mut [u8], at: usize, steps: &[u8], rank: usize) -> usize
    requires { (at + 31 * record_count steps.now ≤ farthest) × (rank ≤ most_dims) × ShortSteps rank steps.now }
    ensures { Put out.old out.new at result (steps_bytes (steps_given rank steps.now)) }
{
    let count = steps.len() / StepRecord::BYTES;
    let mut place = at;
    for i in 0..count {
        place = put_record(out, place, steps, StepRecord::BYTES * i, rank);
    }
    place
}

// How many steps a record says to stand right inside it.
fn inner_at(steps: &[u8], from: usize) -> usize
    requires { from + record_bytes ≤ length steps.now }
    ensures { (result ≤ 255) × ((rank : ℕ) → result ≡ inner_of (given_at rank steps.now from)) }
{
    // Stays: (d) a repeat has no kind of step; 9 is its byte in the records, as in the file.
    if steps[from] == 9 {
        usize::from(steps[from + 2])
    } else {
        0
    }
}

// The number of outermost steps: records that come where no open block still asks for any. Where the open blocks ask for as many records as are left, no
// other one is outermost.
pub fn outermost_steps(steps: &[u8]) -> usize
    ensures { (rank : ℕ) → result ≡ outermost (steps_given rank steps.now) }
{
    let count = steps.len() / StepRecord::BYTES;
    let mut outer: usize = 0;
    let mut still: usize = 0;
    for i in 0..count {
        if count - i <= still {
            break;
        }
        outer += usize::from(still == 0);
        still = still.saturating_sub(1) + inner_at(steps, StepRecord::BYTES * i);
    }
    outer
}

// The edition: 3 with an order, 2 with axes that must stay replicated, else 1.
fn edition_of(order: &[u16], replicated: AxisList) -> usize
    ensures { result ≡ pick (some order.now) 3 (pick (some (axes_of replicated)) 2 1) }
{
    if !order.is_empty() {
        3
    } else if replicated.len() != 0 {
        2
    } else {
        1
    }
}

// What stands between the header and the steps; it answers where the steps begin.
fn put_front<'a>(
    out: &mut [u8],
    edition: usize,
    mesh: &'a [u16],
    order: &'a [u16],
    sizes: &'a [u16],
    start: Sharding,
) -> usize
    requires { (length mesh.now ≤ most_axes) × (length order.now ≤ most_devices) × (length sizes.now ≤ most_dims) × ShortSharding (sharding_given (length sizes.now) start) }
    ensures { Put out.old out.new least_bytes result (front_bytes edition mesh.now order.now sizes.now (sharding_given (length sizes.now) start)) }
{
    let rank = sizes.len();
    let second = put_u16s(out, PlanFile::LEAST, mesh);
    let third = put_u16s(out, second, order);
    let fourth = put_u16s(out, third, sizes);
    put_sharding(out, fourth, start, rank, edition)
}

// The header.
fn put_header(
    out: &mut [u8],
    edition: usize,
    n: usize,
    devices: usize,
    rank: usize,
    outer: usize,
    first: usize,
    total: usize,
) -> usize
    requires { (edition ≤ 3) × (n ≤ most_axes) × (devices ≤ most_devices) × (rank ≤ most_dims) × (outer ≤ most_steps) × (first ≤ most_bytes) × (total ≤ most_bytes) }
    ensures { Put out.old out.new 0 result (u16s_bytes (header_of edition n devices rank outer first total)) }
{
    let tensor = PlanFile::LEAST + 2 * n + 2 * devices;
    let sharding = tensor + 2 * rank;
    let numbers = [
        edition as u16,
        n as u16,
        rank as u16,
        outer as u16,
        18u16,
        tensor as u16,
        sharding as u16,
        first as u16,
        total as u16,
    ];
    put_u16s(out, 0, &numbers)
}

// The length of the file, measured in a buffer of one place.
pub fn file_length<'a>(
    mesh: &'a [u16],
    order: &'a [u16],
    sizes: &'a [u16],
    start: Sharding,
    steps: &[u8],
) -> usize
    requires { Encodable mesh.now order.now sizes.now start steps.now }
    ensures { result ≡ file_length (records_given mesh.now order.now sizes.now start steps.now) }
{
    let rank = sizes.len();
    let replicated = start.replicated;
    let edition = edition_of(order, replicated);
    let mut none = [0u8; 1];
    let first = put_front(&mut none, edition, mesh, order, sizes, start);
    put_steps(&mut none, first, steps, rank)
}

// The whole file, at the front of a buffer that holds it; it answers its length. The header goes last, when the places that it names are known.
pub fn put_file<'a>(
    out: &mut [u8],
    mesh: &'a [u16],
    order: &'a [u16],
    sizes: &'a [u16],
    start: Sharding,
    steps: &[u8],
) -> usize
    requires { Writable mesh.now order.now sizes.now start steps.now out.old }
    ensures answers { result ≡ file_length (records_given mesh.now order.now sizes.now start steps.now) }
    ensures leaves { out.new ≡ file_of (records_given mesh.now order.now sizes.now start steps.now) ++ drop result out.old }
{
    let rank = sizes.len();
    let replicated = start.replicated;
    let edition = edition_of(order, replicated);
    let outer = outermost_steps(steps);
    let first = put_front(out, edition, mesh, order, sizes, start);
    let total = put_steps(out, first, steps, rank);
    put_header(
        out,
        edition,
        mesh.len(),
        order.len(),
        rank,
        outer,
        first,
        total,
    );
    total
}
