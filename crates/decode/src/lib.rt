// The reading call: the records of an accepted file, as the writer takes them. What it answers and leaves is defined in records/specs/Reading.antt, the
// bytes of a record in records/specs/Forms.antt.
#![tactic(auto)]

ghost use Rattle.std.specs.Prelude.{◌≡◌, [], ◌∷◌, ◌++◌, map, ◌+◌, ◌*◌, ◌≤◌, length, take, drop};
ghost use Rattle.rules.specs.Lists.{tab, pick, flat};
ghost use Rattle.rules.specs.Limits.{most_axes, most_devices, most_dims};
ghost use Rattle.rules.specs.Refusals.{accept};
ghost use Rattle.types.specs.Answers.{refused_with};
ghost use Rattle.rules.specs.PlanFile.{u16_at, edition, carries_order, plain, repeat};
ghost use Rattle.types.specs.Types.{axes_of, dims_of, mesh_of, step_of};
ghost use Rattle.records.specs.Forms.{record_bytes, five_lists, six_places, form_bytes, record_of, records_bytes};
ghost use Rattle.records.specs.Reading.{opened_of};
ghost use Rattle.records.specs.Promises.{ReadPromise};
ghost use Rattle.reader.specs.Reading.{Counted};
ghost use Rattle.encode.specs.Putting.{Put, farthest};
ghost use Rattle.decode.specs.Decoding.{SomeStands, Copies, records_in, StepsStand, answer_of};

use dims::{list_at, lists_within, no_lists, sizes_within};
use encode::{StepRecord, put_byte, put_three};
use plan::{Whole, judge_file};
use reader::{carries_order, read_order, read_step};
use records::{Opened, ReadCounts};
use types::{Axis, AxisList, Dim, DimLists, Mesh, PlanFile, Reason, Refusal, Step};

// How many axes a list has, as a byte.
fn count_of(list: AxisList) -> u8
    ensures { result ≡ length (axes_of list) }
{
    list.len() as u8
}

// The counts of a record's five lists.
fn put_counts(out: &mut [u8], at: usize, lists: DimLists, rank: usize, list: AxisList) -> usize
    requires { at + 5 ≤ farthest }
    ensures { Put out.old out.new at result (map length (five_lists (take rank (dims_of lists)) (axes_of list))) }
{
    let mut next = at;
    for d in 0..Dim::MOST {
        next = put_byte(out, next, count_of(list_at(lists, rank, d)));
    }
    put_byte(out, next, count_of(list))
}

// The six places of a list.
fn put_places(out: &mut [u8], at: usize, list: AxisList) -> usize
    requires { at + 6 ≤ farthest }
    ensures { Put out.old out.new at result (six_places (axes_of list)) }
{
    let mut next = at;
    for i in 0..Axis::MOST {
        next = put_byte(out, next, list.at(i).0);
    }
    next
}

// The places of a record's five lists.
fn put_axes(out: &mut [u8], at: usize, lists: DimLists, rank: usize, list: AxisList) -> usize
    requires { at + 30 ≤ farthest }
    ensures { Put out.old out.new at result (flat (map six_places (five_lists (take rank (dims_of lists)) (axes_of list)))) }
{
    let mut next = at;
    for d in 0..Dim::MOST {
        next = put_places(out, next, list_at(lists, rank, d));
    }
    put_places(out, next, list)
}

// A record: kind, source and target, then the lists by dimension, as many as the rank, and the one list.
fn put_form(
    out: &mut [u8],
    at: usize,
    kind: u8,
    source: u8,
    target: u8,
    lists: DimLists,
    rank: usize,
    list: AxisList,
) -> usize
    requires { at + record_bytes ≤ farthest }
    ensures { Put out.old out.new at result (form_bytes (kind ∷ source ∷ target ∷ []) (five_lists (take rank (dims_of lists)) (axes_of list))) }
{
    let counts = put_three(out, at, kind, source, target);
    let axes = put_counts(out, counts, lists, rank, list);
    put_axes(out, axes, lists, rank, list)
}

// The record of a plain step.
fn put_plain(out: &mut [u8], at: usize, step: Step, rank: usize) -> usize
    requires { at + record_bytes ≤ farthest }
    ensures { Put out.old out.new at result (record_of (plain (step_of rank step))) }
{
    let no_lists = DimLists::empty();
    let none = AxisList::empty();
    match step {
        Step::AllSlice(lists) => put_form(out, at, 1, 0, 0, lists, rank, none),
        Step::AllGather(lists) => put_form(out, at, 2, 0, 0, lists, rank, none),
        Step::AllReduce(list) => put_form(out, at, 3, 0, 0, no_lists, 0, list),
        Step::AllToAll {
            source,
            target,
            list,
        } => put_form(out, at, 4, source.0, target.0, no_lists, 0, list),
        Step::ReduceScatter(lists) => put_form(out, at, 5, 0, 0, lists, rank, none),
    }
}

// The record of a repeat.
fn put_repeat(out: &mut [u8], at: usize, count: u8, number: u8) -> usize
    requires { at + record_bytes ≤ farthest }
    ensures { Put out.old out.new at result (record_of (repeat count number)) }
{
    let lists = DimLists::empty();
    let none = AxisList::empty();
    put_form(out, at, 9, count, number, lists, 0, none)
}

// The record of what stands at a kind byte; it answers where the next kind byte is. The file was judged before: here every list is read that has places for
// its axes, and none is refused.
fn copy_record(out: &mut [u8], to: usize, file: &[u8], at: usize, rank: usize) -> usize
    requires { (to + record_bytes ≤ farthest) × (rank ≤ most_dims) × SomeStands file.now at rank }
    ensures { Copies file.now at rank out.old out.new to result }
{
    // Stays: (d) a repeat has no kind of step; 9 is its byte.
    if file[at] == 9 {
        put_repeat(out, to, file[at + 1], file[at + 2]);
        return at + 3;
    }
    let read = read_step(file, at, Axis::MOST, rank, 0).unwrap();
    put_plain(out, to, read.value, rank);
    read.next
}

// The records of an accepted file, whose steps stand from a place on; it answers their bytes. A buffer of one place measures.
fn put_records(out: &mut [u8], file: &[u8], at: usize, rank: usize) -> usize
    requires { StepsStand file.now at rank }
    ensures { Put out.old out.new 0 result (records_bytes (records_in file.now)) }
{
    let mut place = at;
    let mut to: usize = 0;
    // Stays: (d) each turn goes on by the length of the record that stands there, so no range has the turns.
    while place < file.len() {
        place = copy_record(out, to, file, place, rank);
        to += StepRecord::BYTES;
    }
    to
}

// The bytes of those records.
fn records_length(file: &[u8], at: usize, rank: usize) -> usize
    requires { StepsStand file.now at rank }
    ensures { result ≡ length (records_bytes (records_in file.now)) }
{
    let mut none = [0u8; 1];
    put_records(&mut none, file, at, rank)
}

// How many device numbers a file gives: those of all devices, or none.
fn order_length(file: &[u8], devices: usize) -> usize
    ensures { result ≡ pick (carries_order (edition file.now)) devices 0 }
{
    if carries_order(file) { devices } else { 0 }
}

// The first device numbers, right behind the n sizes of the mesh.
fn put_order(file: &[u8], n: usize, numbers: usize, order: &mut [u16])
    requires { (n ≤ most_axes) × (numbers ≤ most_devices) × (numbers ≤ length order.old) }
    ensures { order.new ≡ tab numbers (λ i. u16_at file.now (18 + 2 * n + 2 * i)) ++ drop numbers order.old }
{
    read_order(file, PlanFile::LEAST + 2 * n, &mut order[0..numbers]);
}

// The sizes of a mesh, 0 past the last.
fn mesh_within(mesh: Mesh) -> [u16; Axis::MOST]
    ensures { result ≡ six_places (mesh_of mesh) }
{
    let mut sizes = mesh.sizes;
    sizes[mesh.n.min(Axis::MOST)..].fill(0);
    sizes
}

// No sizes and no lists, beside a refusal.
fn refused(refusal: Refusal) -> Opened
    ensures { result ≡ opened_of (refused_with refusal) }
{
    Opened {
        outcome: Err(refusal),
        mesh: [0; Axis::MOST],
        table: [0; Dim::MOST],
        start: no_lists(),
    }
}

// The answer for a plan that passed, of which so many device numbers and bytes of records are written.
fn opened(whole: Whole, order: usize, steps: usize) -> Opened
    requires { Counted whole.devices whole.mesh whole.table }
    ensures { result ≡ opened_of (accept (answer_of whole order steps)) }
{
    let mesh = whole.mesh;
    let table = whole.table;
    let counts = ReadCounts {
        n: mesh.n,
        rank: table.rank,
        order,
        steps,
    };
    Opened {
        outcome: Ok(counts),
        mesh: mesh_within(mesh),
        table: sizes_within(table),
        start: lists_within(whole.start, table.rank),
    }
}

// The reading call: the file's refusal, then 33 where a lent list is too short; or mesh, table and start, with the order and the step records written to the
// front of the lent lists.
pub fn read(file: &[u8], order: &mut [u16], steps: &mut [u8]) -> Opened
    ensures { ReadPromise file.now order.old steps.old result order.new steps.new }
{
    let whole = match judge_file(file) {
        Ok(whole) => whole,
        Err(refusal) => return refused(refusal),
    };
    let rank = whole.table.rank;
    let n = whole.mesh.n;
    let numbers = order_length(file, whole.devices);
    let bytes = records_length(file, whole.at, rank);
    if order.len() < numbers || steps.len() < bytes {
        return refused(Refusal::outside(Reason::OutputTooShort));
    }
    put_order(file, n, numbers, order);
    put_records(steps, file, whole.at, rank);
    opened(whole, numbers, bytes)
}
