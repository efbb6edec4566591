// Reading the bytes of a plan file into values, with refusals 1 to 8, 10 to 13, 19 and 20.
// What each function answers is a definition of rules/specs/PlanFile.antt; specs/Reading.antt says what the answers stand for.
#![tactic(auto)]

ghost use Rattle.std.specs.Prelude.{◌≡◌, ◌&&◌, List, ℕ, ◌+◌, ◌*◌, ◌≤◌, length, get_or, take, leb, IfOk};
ghost use Rattle.rules.specs.Lists.{tab, product};
ghost use Rattle.rules.specs.Limits.{most_axes, most_devices, most_dims, most_words, most_bytes, latest_edition};
ghost use Rattle.rules.specs.Refusals.{accept};
ghost use Rattle.rules.specs.PlanFile.{u16_at, edition, judge_sizes, sizes_at, carries_order, order_at, mesh_and_table_at, list_read_at, lists_at, carries_replicated, replicated_at, sharding_at};
ghost use Rattle.rules.specs.PlanFile.{AllToAll, lists_of, step_at};
ghost use Rattle.types.specs.Answers.{number_of, judged, judged_as};
ghost use Rattle.types.specs.Types.{axes_of, dims_of, sizes_of, sharding_of, step_of};
ghost use Rattle.reader.specs.Reading.{reading, numbers_of, header_of, first_sizes, order_of, mesh_at, ShapeTells};

use order::order_allowed;
use types::{
    Axis, AxisList, Device, Dim, DimLists, Kind, Mesh, PlanFile, Reason, Refusal, Sharding, Step,
    Table,
};

// A value that was read, and where the next byte is.
#[derive(Clone, Copy)]
pub struct Read<T> {
    pub value: T,
    pub next: usize,
}

impl<T> Read<T> {
    // Another value that is made of it, with the same next byte.
    fn map<U, F: FnOnce(T) -> U>(self, f: F) -> Read<U>
        requires { F.pre f self.value }
        ensures post { F.post f self.value result.value }
        ensures next { result.next ≡ self.next }
    {
        Read {
            value: f(self.value),
            next: self.next,
        }
    }
}

// The 16-bit number at a position, little-endian; bytes past the end count as 0.
fn u16_at(file: &[u8], at: usize) -> u16
    ensures { result ≡ u16_at file.now at }
{
    let Some(low) = file.get(at) else {
        return 0;
    };
    let high = file.get(at + 1).copied().unwrap_or(0);
    u16::from_le_bytes([*low, high])
}

// The numbers of a header: the edition, the counts, and where the sections begin. The last, the file's length, is only tested.
#[derive(Clone, Copy)]
pub struct Header {
    pub edition: usize,
    pub axes: usize,
    pub rank: usize,
    pub steps: usize,
    pub mesh_at: usize,
    pub table_at: usize,
    pub sharding_at: usize,
    pub steps_at: usize,
}

impl Header {
    // The latest edition of plan files.
    pub const LATEST_EDITION: usize = 3;

    pub fn latest_edition() -> usize
        ensures { result ≡ latest_edition }
    {
        Header::LATEST_EDITION
    }

    // Whether the starting sharding has a list of axes that must stay replicated: "Edition 2 files carry it".
    fn carries_replicated(self) -> bool
        ensures { result ≡ carries_replicated self.edition }
    {
        2 <= self.edition
    }

    // Whether the devices have an order of their own: "Edition 3 files hold, right after the mesh sizes, D 16-bit device numbers".
    fn carries_order(self) -> bool
        ensures { result ≡ carries_order self.edition }
    {
        3 <= self.edition
    }
}

// The numbers of a header, none of them judged.
fn numbers_of(file: &[u8]) -> Header
    ensures { result ≡ numbers_of file.now }
{
    Header {
        edition: u16_at(file, 0) as usize,
        axes: u16_at(file, 2) as usize,
        rank: u16_at(file, 4) as usize,
        steps: u16_at(file, 6) as usize,
        mesh_at: u16_at(file, 8) as usize,
        table_at: u16_at(file, 10) as usize,
        sharding_at: u16_at(file, 12) as usize,
        steps_at: u16_at(file, 14) as usize,
    }
}

// Whether a file has an order of its devices.
pub fn carries_order(file: &[u8]) -> bool
    ensures { result ≡ carries_order (edition file.now) }
{
    numbers_of(file).carries_order()
}

// "Order: 1, 2, 3, 4, 5."
pub fn read_header(file: &[u8]) -> Result<Header, Refusal>
    ensures { judged result ≡ header_of file.now }
{
    if file.len() < PlanFile::LEAST {
        return Err(Refusal::outside(Reason::FileTooShort));
    }
    if PlanFile::MOST < file.len() {
        return Err(Refusal::outside(Reason::FileTooLong));
    }
    let header = numbers_of(file);
    if !(1..=Header::LATEST_EDITION).contains(&header.edition) {
        return Err(Refusal::outside(Reason::UnknownEdition));
    }
    if u16_at(file, 16) as usize != file.len() {
        return Err(Refusal::outside(Reason::WrongLength));
    }
    if !(1..=Axis::MOST).contains(&header.axes) {
        return Err(Refusal::outside(Reason::CountOutsideLimits));
    }
    if !(1..=Dim::MOST).contains(&header.rank) {
        return Err(Refusal::outside(Reason::CountOutsideLimits));
    }
    if Step::MOST < header.steps {
        return Err(Refusal::outside(Reason::CountOutsideLimits));
    }
    Ok(header)
}

// The 16-bit numbers that stand from a position on: device numbers, or sizes.
pub fn read_order(file: &[u8], at: usize, numbers: &mut [u16])
    requires { (at ≤ most_bytes) × (length numbers.old ≤ most_devices) }
    ensures { numbers.new ≡ tab (length numbers.old) (λ i. u16_at file.now (at + 2 * i)) }
{
    for (i, number) in numbers.iter_mut().enumerate() {
        *number = u16_at(file, at + 2 * i);
    }
}

// "each size in turn (zero, then running product)": the product.
pub fn judge_sizes(sizes: &[u16], most: usize, zero: Reason, over: Reason) -> Result<usize, Refusal>
    requires { most ≤ most_words }
    ensures judges { judged_as (λ (p : ℕ). tt) result ≡ judge_sizes most (number_of zero) (number_of over) 1 sizes.now }
    ensures multiplies { IfOk result (λ p. p ≡ product sizes.now) }
{
    let mut product: usize = 1;
    for size in sizes {
        if *size == 0 {
            return Err(Refusal::outside(zero));
        }
        product *= *size as usize;
        if most < product {
            return Err(Refusal::outside(over));
        }
    }
    Ok(product)
}

// Sizes that were read, and their product.
#[derive(Clone, Copy)]
struct Sizes<const N: usize> {
    pub product: usize,
    pub sizes: [u16; N],
}

// A section of sizes: "its offset (6) .. 7 if they don't fit, then each size in turn (zero, then running product)".
fn read_sizes<const N: usize>(
    file: &[u8],
    at: usize,
    offset: usize,
    count: usize,
    most: usize,
    zero: Reason,
    over: Reason,
) -> Result<Read<Sizes<N>>, Refusal>
    requires { (at ≤ length file.now) × (length file.now ≤ most_bytes) × (count ≤ N) × (count ≤ most_axes) × (most ≤ most_words) }
    ensures reads { reading (first_sizes count) result ≡ sizes_at most (number_of zero) (number_of over) count offset file.now at }
    ensures multiplies { IfOk result (λ r. r.value.product ≡ product (first_sizes count r.value)) }
{
    if offset != at {
        return Err(Refusal::outside(Reason::WrongOffset));
    }
    if file.len() - at < 2 * count {
        return Err(Refusal::outside(Reason::SectionPastEnd));
    }
    let mut sizes = [1u16; N];
    read_order(file, at, &mut sizes[..count]);
    let product = judge_sizes(&sizes[..count], most, zero, over)?;
    Ok(Read {
        value: Sizes { product, sizes },
        next: at + 2 * count,
    })
}

// The order of the devices, where the file carries one: 7 if its bytes don't fit, then 19. It is judged and left; who needs it reads it again.
fn judge_order(file: &[u8], at: usize, devices: usize, carried: bool) -> Result<usize, Refusal>
    requires { (at ≤ length file.now) × (length file.now ≤ most_bytes) × (devices ≤ most_devices) }
    ensures { judged_as (λ next. record { value = order_of carried devices file.now at; next = next }) result ≡ order_at carried devices file.now at }
{
    if !carried {
        return Ok(at);
    }
    if file.len() - at < 2 * devices {
        return Err(Refusal::outside(Reason::SectionPastEnd));
    }
    let mut order = [0u16; Device::MOST];
    read_order(file, at, &mut order[..devices]);
    if !order_allowed(&order[..devices], devices) {
        return Err(Refusal::outside(Reason::WrongOrder));
    }
    Ok(at + 2 * devices)
}

// The mesh section: its sizes, and the order of the devices.
fn read_mesh(file: &[u8], header: Header) -> Result<Read<Sizes<{ Axis::MOST }>>, Refusal>
    requires { header_of file.now ≡ accept header }
    ensures reads { reading (first_sizes header.axes) result ≡ mesh_at (carries_order header.edition) header.axes header.mesh_at file.now }
    ensures multiplies { IfOk result (λ r. r.value.product ≡ product (first_sizes header.axes r.value)) }
{
    let read = read_sizes(
        file,
        PlanFile::LEAST,
        header.mesh_at,
        header.axes,
        Device::MOST,
        Reason::MeshSizeZero,
        Reason::TooManyDevices,
    )?;
    let value = read.value;
    let next = judge_order(file, read.next, value.product, header.carries_order())?;
    Ok(Read { value, next })
}

// The sizes of mesh and table, and how many devices there are.
#[derive(Clone, Copy)]
pub struct Shape {
    pub devices: usize,
    pub mesh: Mesh,
    pub table: Table,
}

// The mesh and the tensor sections.
pub fn read_shape(file: &[u8], header: Header) -> Result<Read<Shape>, Refusal>
    requires { header_of file.now ≡ accept header }
    ensures { ShapeTells file.now
        (mesh_and_table_at (carries_order header.edition) header.axes header.rank file.now) result }
{
    let first = read_mesh(file, header)?;
    let second = read_sizes(
        file,
        first.next,
        header.table_at,
        header.rank,
        Table::MOST,
        Reason::TensorSizeZero,
        Reason::TooManyWords,
    )?;
    let sizes = first.value.sizes;
    let mesh = Mesh {
        n: header.axes,
        sizes,
    };
    let sizes = second.value.sizes;
    let table = Table {
        rank: header.rank,
        sizes,
    };
    Ok(Read {
        value: Shape {
            devices: first.value.product,
            mesh,
            table,
        },
        next: second.next,
    })
}

// The axis in one of a list's places, axis 0 past the list.
fn axis_in(axes: &[u8], i: usize) -> Axis
    ensures { result.0 ≡ get_or axes.now i 0 }
{
    Axis(axes.get(i).copied().unwrap_or(0))
}

// "A list is a count byte and that many axis bytes."
// The axes are put in place all at once: a list stored byte by byte and then handed on as a whole makes the processor wait.
fn read_list(file: &[u8], at: usize, n: usize) -> Result<Read<AxisList>, Refusal>
    requires { n ≤ most_axes }
    ensures { reading axes_of result ≡ list_read_at n file.now at }
{
    let Some(byte) = file.get(at) else {
        return Err(Refusal::outside(Reason::SectionPastEnd));
    };
    let count = *byte as usize;
    if n < count {
        return Err(Refusal::outside(Reason::ListTooLong));
    }
    let first = at + 1;
    if file.len() - first < count {
        return Err(Refusal::outside(Reason::SectionPastEnd));
    }
    let next = first + count;
    let named = &file[first..next];
    let axes = [
        axis_in(named, 0),
        axis_in(named, 1),
        axis_in(named, 2),
        axis_in(named, 3),
        axis_in(named, 4),
        axis_in(named, 5),
    ];
    let value = AxisList {
        count: count as u16,
        axes,
        align: [],
    };
    Ok(Read { value, next })
}

// One list for each dimension.
fn read_lists(file: &[u8], at: usize, n: usize, rank: usize) -> Result<Read<DimLists>, Refusal>
    requires { (n ≤ most_axes) × (rank ≤ most_dims) }
    ensures { reading (λ l. take rank (dims_of l)) result ≡ lists_at n rank file.now at }
{
    let mut lists = [AxisList::empty(); Dim::MOST];
    let mut next = at;
    for list in &mut lists[..rank] {
        let read = read_list(file, next, n)?;
        *list = read.value;
        next = read.next;
    }
    Ok(Read {
        value: DimLists(lists),
        next,
    })
}

// The axes that must stay replicated, where the file carries them: "Edition 1 reads as an empty list."
fn read_replicated(
    file: &[u8],
    at: usize,
    n: usize,
    carried: bool,
) -> Result<Read<AxisList>, Refusal>
    requires { n ≤ most_axes }
    ensures { reading axes_of result ≡ replicated_at carried n file.now at }
{
    if carried {
        return read_list(file, at, n);
    }
    Ok(Read {
        value: AxisList::empty(),
        next: at,
    })
}

// "The sharding is one list per dimension, then the unreduced list.", then the list of the axes that must stay replicated.
pub fn read_sharding(file: &[u8], at: usize, header: Header) -> Result<Read<Sharding>, Refusal>
    requires { (header.axes ≤ most_axes) × (header.rank ≤ most_dims) }
    ensures { reading (sharding_of header.rank) result ≡ sharding_at (carries_replicated header.edition) header.axes header.rank header.sharding_at
        file.now at }
{
    if header.sharding_at != at {
        return Err(Refusal::outside(Reason::WrongOffset));
    }
    let dims = read_lists(file, at, header.axes, header.rank)?;
    let unreduced = read_list(file, dims.next, header.axes)?;
    let replicated = read_replicated(
        file,
        unreduced.next,
        header.axes,
        header.carries_replicated(),
    )?;
    Ok(Read {
        value: Sharding {
            dims: dims.value,
            unreduced: unreduced.value,
            replicated: replicated.value,
        },
        next: replicated.next,
    })
}

// An all-to-all after its kind byte: "source byte, target byte, one list".
fn read_all_to_all(file: &[u8], at: usize, n: usize) -> Result<Read<Step>, Refusal>
    requires { n ≤ most_axes }
    ensures { (rank k : ℕ) → reading (step_of rank) result ≡ lists_of n rank k file.now at AllToAll }
{
    let Some(source) = file.get(at) else {
        return Err(Refusal::outside(Reason::SectionPastEnd));
    };
    let Some(target) = file.get(at + 1) else {
        return Err(Refusal::outside(Reason::SectionPastEnd));
    };
    let list = read_list(file, at + 2, n)?;
    Ok(Read {
        value: Step::AllToAll {
            source: Dim(*source),
            target: Dim(*target),
            list: list.value,
        },
        next: list.next,
    })
}

// Step k: "A step is a kind byte and its lists"; "A kind or count byte is judged when read."
pub fn read_step(
    file: &[u8],
    at: usize,
    n: usize,
    rank: usize,
    k: u16,
) -> Result<Read<Step>, Refusal>
    requires { (n ≤ most_axes) × (rank ≤ most_dims) }
    ensures { reading (step_of rank) result ≡ step_at n rank k file.now at }
{
    let Some(byte) = file.get(at) else {
        return Err(Refusal::outside(Reason::SectionPastEnd));
    };
    let Ok(kind) = Kind::try_from(*byte) else {
        return Err(Refusal {
            reason: Reason::UnknownKind,
            step: k,
        });
    };
    let at = at + 1;
    match kind {
        Kind::AllSlice => Ok(read_lists(file, at, n, rank)?.map(Step::AllSlice)),
        Kind::AllGather => Ok(read_lists(file, at, n, rank)?.map(Step::AllGather)),
        Kind::AllReduce => Ok(read_list(file, at, n)?.map(Step::AllReduce)),
        Kind::AllToAll => read_all_to_all(file, at, n),
        Kind::ReduceScatter => Ok(read_lists(file, at, n, rank)?.map(Step::ReduceScatter)),
    }
}
