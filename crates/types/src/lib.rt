// The types of plans on a device mesh, their limits, the refusals, and the outcomes of the calls. What they stand for in the rules is in specs/.
#![tactic(auto)]

ghost use Rattle.std.specs.Prelude.{◌≡◌, List, [], ◌∷◌, ◌++◌, ℕ, ◌+◌, ◌<◌, ◌≤◌, length, get_or, set, replicate};
ghost use Rattle.rules.specs.Limits.{most_axes, most_devices, most_dims, most_words, most_steps, most_run, most_depth, least_bytes, most_bytes};
ghost use Rattle.types.specs.Types.{axes_of, mesh_of, dims_of, list_from, numbers_of, kind_read};

// An axis number of a mesh.
#[derive(Clone, Copy, PartialEq, Eq, Debug)]
pub struct Axis(pub u8);

impl Axis {
    // The most axes of a mesh.
    pub const MOST: usize = 6;

    pub fn most() -> usize
        ensures { result ≡ most_axes }
    {
        Axis::MOST
    }
}

// A dimension of a tensor.
#[derive(Clone, Copy, PartialEq, Eq, Debug)]
pub struct Dim(pub u8);

impl Dim {
    // The most dimensions of a table.
    pub const MOST: usize = 4;

    pub fn most() -> usize
        ensures { result ≡ most_dims }
    {
        Dim::MOST
    }
}

// A device number.
#[derive(Clone, Copy, PartialEq, Eq, Debug)]
pub struct Device(pub u16);

impl Device {
    // The most devices of a mesh.
    pub const MOST: usize = 1024;

    pub fn most() -> usize
        ensures { result ≡ most_devices }
    {
        Device::MOST
    }
}

// A list of axes: the first `count` places; what the others hold is free, and 0 in an answer of a call. Eight bytes in all, so that lists are cheap to hand on.
// `align` holds nothing: it puts a list at a multiple of eight, where nothing that an enum's other variants hold, as a refusal, cuts it in two when it is copied.
#[derive(Clone, Copy)]
pub struct AxisList {
    pub count: u16,
    pub axes: [Axis; Axis::MOST],
    pub align: [usize; 0],
}

// A list of axes for each dimension.
#[derive(Clone, Copy)]
pub struct DimLists(pub [AxisList; Dim::MOST]);

// A sharding: the lists that split the dimensions, the unreduced axes, and the axes that must stay replicated.
#[derive(Clone, Copy)]
pub struct Sharding {
    pub dims: DimLists,
    pub unreduced: AxisList,
    pub replicated: AxisList,
}

// A mesh: the sizes of its axes are the first `n` places.
#[derive(Clone, Copy)]
pub struct Mesh {
    pub n: usize,
    pub sizes: [u16; Axis::MOST],
}

impl Mesh {
    // The size of an axis, 1 past the last.
    pub fn size(self, a: Axis) -> usize
        ensures { result ≡ get_or (mesh_of self) a.0 1 }
    {
        let i = a.0 as usize;
        if Axis::MOST <= i {
            return 1;
        }
        if self.n <= i {
            return 1;
        }
        self.sizes[i] as usize
    }
}

// The sizes of a table: the first `rank` places.
#[derive(Clone, Copy)]
pub struct Table {
    pub rank: usize,
    pub sizes: [u16; Dim::MOST],
}

impl Table {
    // The most words of a table.
    pub const MOST: usize = 65536;

    pub fn most() -> usize
        ensures { result ≡ most_words }
    {
        Table::MOST
    }
}

// The kinds of step, by their kind bytes.
#[derive(Clone, Copy, PartialEq, Eq, Debug)]
pub enum Kind {
    AllSlice,
    AllGather,
    AllReduce,
    AllToAll,
    ReduceScatter,
}

// "1 all-slice, 2 all-gather .., 3 all-reduce .., 4 all-to-all"; 5 is a reduce-scatter.
impl TryFrom<u8> for Kind {
    type Error = Reason;

    ghost try_from_gives = { λ byte r. kind_read byte r };

    fn try_from(byte: u8) -> Result<Kind, Reason> {
        match byte {
            1 => Ok(Kind::AllSlice),
            2 => Ok(Kind::AllGather),
            3 => Ok(Kind::AllReduce),
            4 => Ok(Kind::AllToAll),
            5 => Ok(Kind::ReduceScatter),
            _ => Err(Reason::UnknownKind),
        }
    }
}

// A step: all-slice, all-gather and reduce-scatter have lists by dimension, all-reduce and all-to-all have one list.
#[derive(Clone, Copy)]
pub enum Step {
    AllSlice(DimLists),
    AllGather(DimLists),
    AllReduce(AxisList),
    AllToAll {
        source: Dim,
        target: Dim,
        list: AxisList,
    },
    ReduceScatter(DimLists),
}

impl Step {
    // The most outermost steps of a plan.
    pub const MOST: usize = 64;

    // The most plain steps that a plan runs.
    pub const MOST_RUN: usize = 4096;

    // The most depth of repeats; an outermost one has depth 1.
    pub const MOST_DEPTH: usize = 4;

    pub fn most() -> usize
        ensures { result ≡ most_steps }
    {
        Step::MOST
    }

    pub fn most_run() -> usize
        ensures { result ≡ most_run }
    {
        Step::MOST_RUN
    }

    pub fn most_depth() -> usize
        ensures { result ≡ most_depth }
    {
        Step::MOST_DEPTH
    }
}

// A plan file, by its number of bytes.
#[derive(Clone, Copy)]
pub struct PlanFile(pub usize);

impl PlanFile {
    // The least and the most bytes of a plan file.
    pub const LEAST: usize = 18;

    pub const MOST: usize = 8192;

    pub fn least() -> usize
        ensures { result ≡ least_bytes }
    {
        PlanFile::LEAST
    }

    pub fn most() -> usize
        ensures { result ≡ most_bytes }
    {
        PlanFile::MOST
    }
}

// Why a call is refused, a variant for each refusal number.
#[derive(Clone, Copy, PartialEq, Eq, Debug)]
pub enum Reason {
    FileTooShort,
    FileTooLong,
    UnknownEdition,
    WrongLength,
    CountOutsideLimits,
    WrongOffset,
    SectionPastEnd,
    ListTooLong,
    BytesLeft,
    MeshSizeZero,
    TooManyDevices,
    TensorSizeZero,
    TooManyWords,
    StartAxisTooLarge,
    StartAxisRepeated,
    StartNotIncreasing,
    StartNotDivisible,
    ReplicatedEmpty,
    WrongOrder,
    UnknownKind,
    NoAxis,
    AxisTooLarge,
    NotReplicated,
    NotTail,
    ShardNotDivisible,
    NotIncreasing,
    NotReducible,
    WrongDims,
    WorkTooShort,
    SpareTooShort,
    NoSuchDevice,
    OutputTooShort,
    NoSuchState,
    BufferTooShort,
    GoalOutOfReach,
    ShardingChanged,
    TooDeep,
    TooManyRun,
    RepeatOfNothing,
}

// A refusal: a reason, and the step that it is given in, counted from 1; 0 outside the steps. It is the `Err` of each call's outcome.
#[derive(Clone, Copy, PartialEq, Eq, Debug)]
pub struct Refusal {
    pub reason: Reason,
    pub step: u16,
}

// The check's totals; `moved` is the words that a run moves between devices.
#[derive(Clone, Copy)]
pub struct Totals {
    pub room: u32,
    pub devices: u16,
    pub steps: u16,
    pub rank: usize,
    pub moved: u64,
}

// The check's answer: beside the outcome, the final sharding and its shard sizes. Past the rank there are no axes, and sizes are 0; so it is in every
// place beside a refusal. Places of a list that are not used are 0.
#[derive(Clone, Copy)]
pub struct Checked {
    pub outcome: Result<Totals, Refusal>,
    pub sharding: Sharding,
    pub shard: [u16; Dim::MOST],
}

// The placement's answer: beside the rank of the table or the refusal, the state's sharding and shard sizes, and the device's first indexes; past the rank
// as the check's.
#[derive(Clone, Copy)]
pub struct Placed {
    pub outcome: Result<usize, Refusal>,
    pub sharding: Sharding,
    pub shard: [u16; Dim::MOST],
    pub first: [u16; Dim::MOST],
}

// The run's answer: beside the outcome, the words that it moved between devices, 0 beside a refusal.
#[derive(Clone, Copy)]
pub struct Ran {
    pub outcome: Result<(), Refusal>,
    pub moved: u64,
}

impl Refusal {
    // A refusal outside the steps.
    pub fn outside(reason: Reason) -> Refusal
        ensures { result ≡ record { reason = reason; step = 0 } }
    {
        Refusal { reason, step: 0 }
    }
}

impl AxisList {
    // No axes; what its places hold is free.
    pub fn empty() -> AxisList
        ensures { axes_of result ≡ [] }
    {
        AxisList {
            count: 0,
            axes: [Axis(0); Axis::MOST],
            align: [],
        }
    }

    // The number of axes; a count past the places names those that there are.
    pub fn len(self) -> usize
        ensures { result ≡ length (axes_of self) }
    {
        let count = self.count as usize;
        if Axis::MOST < count {
            Axis::MOST
        } else {
            count
        }
    }

    // The axes, in order.
    pub fn as_slice(&self) -> &[Axis]
        ensures { numbers_of result.now ≡ axes_of self.now }
    {
        &self.axes[..self.len()]
    }

    // The axis at a place of the list, axis 0 past its end.
    pub fn at(self, i: usize) -> Axis
        ensures { result.0 ≡ get_or (axes_of self) i 0 }
    {
        if i < self.len() {
            self.axes[i]
        } else {
            Axis(0)
        }
    }

    // The list with one axis more at its end; what stands past it is free.
    pub fn with(self, a: Axis) -> AxisList
        requires { length (axes_of self) < most_axes }
        ensures { axes_of result ≡ axes_of self ++ (a.0 ∷ []) }
    {
        let at = self.count as usize;
        let mut next = self;
        next.axes[at] = a;
        next.count = (at + 1) as u16;
        next
    }

    // The same axes, with axis 0 in the places that are not used.
    pub fn cleared(self) -> AxisList
        ensures { result ≡ list_from (axes_of self) }
    {
        let count = self.len() as u16;
        AxisList {
            count,
            axes: [
                self.at(0),
                self.at(1),
                self.at(2),
                self.at(3),
                self.at(4),
                self.at(5),
            ],
            align: [],
        }
    }
}

impl DimLists {
    // No axes in any list; what the places of its lists hold is free.
    pub fn empty() -> DimLists
        ensures { dims_of result ≡ replicate most_dims [] }
    {
        let none = AxisList::empty();
        DimLists([none; Dim::MOST])
    }

    // The list of a dimension, no axes past the last; what stands past its axes is free.
    pub fn at(self, d: Dim) -> AxisList
        ensures { axes_of result ≡ get_or (dims_of self) d.0 [] }
    {
        let i = d.0 as usize;
        if i < Dim::MOST {
            self.0[i]
        } else {
            AxisList::empty()
        }
    }

    // The lists with another one for a dimension, unchanged past the last.
    pub fn with(self, d: Dim, l: AxisList) -> DimLists
        ensures { dims_of result ≡ set (dims_of self) d.0 (axes_of l) }
    {
        let i = d.0 as usize;
        let mut next = self;
        if i < Dim::MOST {
            next.0[i] = l;
        }
        next
    }
}

impl Sharding {
    // No axes in any list: all are replicated, and none has to be. What the places of its lists hold is free.
    pub fn none() -> Sharding
        ensures { (dims_of result.dims ≡ replicate most_dims []) × (axes_of result.unreduced ≡ []) × (axes_of result.replicated ≡ []) }
    {
        let dims = DimLists::empty();
        let none = AxisList::empty();
        Sharding {
            dims,
            unreduced: none,
            replicated: none,
        }
    }
}
