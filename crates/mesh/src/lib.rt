// Sizes, strides, coordinates, positions and spans on a mesh that is given by its axis sizes. A device is given by its place on the mesh, the
// row-major number of its coordinates.
// What each function answers is a definition of rules/specs/Mesh.antt; specs/Fitting.antt has what they ask for.
#![tactic(auto)]

ghost use Rattle.std.specs.Prelude.{◌≡◌, get_or, drop};
ghost use Rattle.rules.specs.Lists.{product as product_of};
ghost use Rattle.rules.specs.Mesh.{coords, span, position};
ghost use Rattle.types.specs.Types.{axes_of};
ghost use Rattle.mesh.specs.Fitting.{Factors, IsPlace, Members};

use types::{Axis, AxisList};

// The size of an axis, 1 past the last.
pub fn size_at(mesh: &[u16], axis: Axis) -> usize
    ensures { result ≡ get_or mesh.now axis.0 1 }
{
    mesh.get(axis.0 as usize).map_or(1, |size| *size as usize)
}

// The product of the sizes from one on: D of a mesh and the words of a shard from 0 on, the stride of an axis from the next one on.
pub fn product_from(mesh: &[u16], first: usize) -> usize
    requires { Factors mesh.now }
    ensures { result ≡ product_of (drop first mesh.now) }
{
    let mut product: usize = 1;
    for i in first..mesh.len() {
        product *= mesh[i] as usize;
    }
    product
}

// The coordinate of a place along an axis, 0 past the last axis.
pub fn coordinate(mesh: &[u16], axis: Axis, place: usize) -> usize
    requires { IsPlace mesh.now place }
    ensures { result ≡ get_or (coords mesh.now place) axis.0 0 }
{
    let stride = product_from(mesh, axis.0 as usize + 1);
    let size = size_at(mesh, axis);
    place / stride % size
}

// The position of a place in its group along a list.
pub fn position_of(mesh: &[u16], list: AxisList, place: usize) -> usize
    requires { IsPlace mesh.now place }
    ensures { result ≡ position mesh.now (axes_of list) (coords mesh.now place) }
{
    let mut position: usize = 0;
    for axis in list.as_slice() {
        let size = size_at(mesh, *axis);
        let digit = coordinate(mesh, *axis, place);
        position = position * size + digit;
    }
    position
}

// The number of members of a group.
pub fn span_of(mesh: &[u16], list: AxisList) -> usize
    requires { Members mesh.now (axes_of list) }
    ensures { result ≡ span mesh.now (axes_of list) }
{
    let mut count: usize = 1;
    for i in (0..list.len()).rev() {
        count = size_at(mesh, list.at(i)) * count;
    }
    count
}
