// Dimension by dimension: the tests and changes of one axis list for each dimension, and shard sizes. One loop over the dimensions each.
// At the end, the arrays of an answer, with nothing past the rank and 0 in every place that is not used.
#![tactic(auto)]

ghost use Rattle.std.specs.Prelude.{◌≡◌, [], ◌++◌, ◌/◌, ◌%◌, ◌≤◌, ◌<◌, eqb, length, get_or, take, drop};
ghost use Rattle.rules.specs.Lists.{each, both, flat, product, ascending as ascending_of};
ghost use Rattle.rules.specs.Limits.{most_axes, most_dims};
ghost use Rattle.rules.specs.Mesh.{span as span_of};
ghost use Rattle.rules.specs.Sharding.{divisible as divisible_of, shard_sizes};
ghost use Rattle.rules.specs.Collectives.{cut_tail};
ghost use Rattle.rules.specs.PlanFile.{some, all_below, is_tail};
ghost use Rattle.types.specs.Types.{axes_of, dims_of, sharding_of, four_places, lists_from, sharding_from, no_lists, mesh_of, Sized, sizes_of};
ghost use Rattle.axes.specs.Marks.{marks_with};
ghost use Rattle.dims.specs.Dims.{Room};

use axes::{all_below, cut_tail, is_tail, join, mark_list, marked_below, span};
use types::{Axis, AxisList, Dim, DimLists, Mesh, Sharding, Table};

// Whether the lists name an axis.
pub fn names_axis(lists: DimLists, rank: usize) -> bool
    requires { rank ≤ most_dims }
    ensures { result ≡ some (flat (take rank (dims_of lists))) }
{
    for d in 0..rank {
        let list = lists.at(Dim(d as u8));
        if list.len() != 0 {
            return true;
        }
    }
    false
}

// Whether each axis of the lists is below n.
pub fn names_below(lists: DimLists, rank: usize, n: usize) -> bool
    requires { rank ≤ most_dims }
    ensures { result ≡ all_below n (flat (take rank (dims_of lists))) }
{
    for d in 0..rank {
        let list = lists.at(Dim(d as u8));
        if !all_below(list, n) {
            return false;
        }
    }
    true
}

// Marks the axes of the lists.
pub fn mark_dims(lists: DimLists, rank: usize, marks: &mut [bool])
    requires { rank ≤ most_dims }
    ensures { marks.new ≡ marks_with marks.old (flat (take rank (dims_of lists))) }
{
    for d in 0..rank {
        let list = lists.at(Dim(d as u8));
        mark_list(marks, list);
    }
}

// The axes below n of all the lists, in increasing order.
pub fn ascending(lists: DimLists, rank: usize, n: usize) -> AxisList
    requires { (rank ≤ most_dims) × (n ≤ most_axes) }
    ensures { axes_of result ≡ ascending_of n (flat (take rank (dims_of lists))) }
{
    let mut marks = [false; Axis::MOST];
    mark_dims(lists, rank, &mut marks);
    marked_below(&marks, n)
}

// Whether each list is the tail of its dimension's list.
pub fn tails(dims: DimLists, lists: DimLists, rank: usize) -> bool
    requires { rank ≤ most_dims }
    ensures { result ≡ both is_tail (take rank (dims_of dims)) (take rank (dims_of lists)) }
{
    for d in 0..rank {
        let list = dims.at(Dim(d as u8));
        let tail = lists.at(Dim(d as u8));
        if !is_tail(list, tail) {
            return false;
        }
    }
    true
}

// The dimensions' lists, each without the tail that is given for it. Lists past the rank stay.
pub fn cut_tails(dims: DimLists, lists: DimLists, rank: usize) -> DimLists
    requires { rank ≤ most_dims }
    ensures { (take rank (dims_of result) ≡ each cut_tail (take rank (dims_of dims)) (take rank (dims_of lists)))
        × (drop rank (dims_of result) ≡ drop rank (dims_of dims)) }
{
    let mut next = dims;
    for d in 0..rank {
        let dim = Dim(d as u8);
        let list = dims.at(dim);
        let tail = lists.at(dim);
        next = next.with(dim, cut_tail(list, tail));
    }
    next
}

// The dimensions' lists, each with the list that is given for it joined to its end. Lists past the rank stay.
pub fn join_lists(dims: DimLists, lists: DimLists, rank: usize) -> DimLists
    requires { (rank ≤ most_dims) × Room (take rank (dims_of dims)) (take rank (dims_of lists)) }
    ensures { (take rank (dims_of result) ≡ each ◌++◌ (take rank (dims_of dims)) (take rank (dims_of lists)))
        × (drop rank (dims_of result) ≡ drop rank (dims_of dims)) }
{
    let mut next = dims;
    for d in 0..rank {
        let dim = Dim(d as u8);
        let list = dims.at(dim);
        let tail = lists.at(dim);
        next = next.with(dim, join(list, tail));
    }
    next
}

// Whether each size of a table is divisible by the span of its dimension's list.
pub fn divisible(table: Table, lists: DimLists, mesh: Mesh) -> bool
    requires { (table.rank ≤ most_dims) × Sized (mesh_of mesh) }
    ensures { result ≡ divisible_of (mesh_of mesh) (sizes_of table) (take table.rank (dims_of lists)) }
{
    let rank = table.rank;
    for d in 0..rank {
        let list = lists.at(Dim(d as u8));
        if table.sizes[d] as usize % span(list, mesh) != 0 {
            return false;
        }
    }
    true
}

// The product of the sizes of all axes of the lists.
pub fn span_dims(lists: DimLists, rank: usize, mesh: Mesh) -> usize
    requires { (rank ≤ most_dims) × Sized (mesh_of mesh) × (length (flat (take rank (dims_of lists))) ≤ most_axes) }
    ensures { result ≡ span_of (mesh_of mesh) (flat (take rank (dims_of lists))) }
{
    let mut product: usize = 1;
    for d in 0..rank {
        let list = lists.at(Dim(d as u8));
        product *= span(list, mesh);
    }
    product
}

// One shard of a table whose dimensions the lists split, itself a table. Sizes past the rank stay.
pub fn shard_of(table: Table, dims: DimLists, mesh: Mesh) -> Table
    requires { (table.rank ≤ most_dims) × Sized (mesh_of mesh) }
    ensures { (result.rank ≡ table.rank) × (sizes_of result ≡ shard_sizes (mesh_of mesh) (sizes_of table) (take table.rank (dims_of dims)))
        × (drop table.rank result.sizes ≡ drop table.rank table.sizes) }
{
    let rank = table.rank;
    let mut shard = table;
    for d in 0..rank {
        let list = dims.at(Dim(d as u8));
        shard.sizes[d] = (table.sizes[d] as usize / span(list, mesh)) as u16;
    }
    shard
}

// The words of a table.
pub fn words(table: Table) -> usize
    requires { table.rank ≤ most_dims }
    ensures { result ≡ product (sizes_of table) }
{
    let rank = table.rank;
    let mut product: usize = 1;
    for d in 0..rank {
        product *= table.sizes[d] as usize;
    }
    product
}

// The list of a dimension, no axes past the rank.
pub fn list_at(lists: DimLists, rank: usize, d: usize) -> AxisList
    requires { d < most_dims }
    ensures { axes_of result ≡ get_or (take rank (dims_of lists)) d [] }
{
    if d < rank {
        lists.at(Dim(d as u8))
    } else {
        AxisList::empty()
    }
}

// The lists of the dimensions below a rank, with no axes past it and every place fixed that is not used.
pub fn dims_within(lists: DimLists, rank: usize) -> DimLists
    ensures { result ≡ lists_from (take rank (dims_of lists)) }
{
    DimLists([
        list_at(lists, rank, 0).cleared(),
        list_at(lists, rank, 1).cleared(),
        list_at(lists, rank, 2).cleared(),
        list_at(lists, rank, 3).cleared(),
    ])
}

// The sharding of a table of a rank, with no axes past it and every place fixed that is not used.
pub fn lists_within(sharding: Sharding, rank: usize) -> Sharding
    ensures { result ≡ sharding_from (sharding_of rank sharding) }
{
    Sharding {
        dims: dims_within(sharding.dims, rank),
        unreduced: sharding.unreduced.cleared(),
        replicated: sharding.replicated.cleared(),
    }
}

// No axes in any list: the sharding beside a refusal.
pub fn no_lists() -> Sharding
    ensures { result ≡ sharding_from no_lists }
{
    lists_within(Sharding::none(), 0)
}

// The size of a dimension, 0 past the rank.
fn size_at(table: Table, d: usize) -> u16
    requires { d < most_dims }
    ensures { result ≡ get_or (sizes_of table) d 0 }
{
    if d < table.rank { table.sizes[d] } else { 0 }
}

// The sizes of a table, 0 past the rank.
pub fn sizes_within(table: Table) -> [u16; Dim::MOST]
    ensures { result ≡ four_places 0 (sizes_of table) }
{
    [
        size_at(table, 0),
        size_at(table, 1),
        size_at(table, 2),
        size_at(table, 3),
    ]
}
