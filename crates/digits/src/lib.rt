// The set-up of a step's digits: the strides of the devices, and the digits of a group's axes and of all devices.
// Digits are written from the end of a slice to its front. specs/Digits.antt says what they are.
#![tactic(auto)]

ghost use Rattle.std.specs.Prelude.{◌≡◌, ◌-◌, ◌*◌, ◌≤◌, ◌++◌, length, take, drop};
ghost use Rattle.rules.specs.Lists.{product};
ghost use Rattle.rules.specs.Mesh.{span};
ghost use Rattle.types.specs.Types.{axes_of};
ghost use Rattle.digits.specs.Digits.{most_room, mesh_strides, cleared, axis_digits, mesh_digits, HasStrides, Axes, Devices};

use mesh::{product_from, size_at};
use strided::put_digit;
use types::AxisList;

// The strides of the devices, for shards of m words.
pub fn fill_strides(strides: &mut [usize], mesh: &[u16], m: usize)
    requires { HasStrides strides.old mesh.now × (product mesh.now * m ≤ most_room) }
    ensures { strides.new ≡ mesh_strides mesh.now m }
{
    for i in (0..mesh.len()).rev() {
        strides[i] = product_from(mesh, i + 1) * m;
    }
}

// The digits of a list of axes, before those at end; their strides are cleared. Answers the words that all these digits count.
pub fn axis_digits(
    digits: &mut [usize],
    strides: &mut [usize],
    mesh: &[u16],
    axes: AxisList,
    end: usize,
    inner: usize,
) -> usize
    requires { Axes digits.old strides.old mesh.now (axes_of axes) end inner }
    ensures value { result ≡ span mesh.now (axes_of axes) * inner }
    ensures digits_after { digits.new ≡ take (end - 3 * length (axes_of axes)) digits.old ++ axis_digits mesh.now
        (axes_of axes) strides.old (drop end digits.old) }
    ensures strides_after { strides.new ≡ cleared (axes_of axes) strides.old }
{
    let mut first = end;
    let mut count = inner;
    for i in (0..axes.len()).rev() {
        first -= 3;
        let axis = axes.at(i);
        let size = size_at(mesh, axis);
        let a = axis.0 as usize;
        let stride = strides[a];
        put_digit(digits, first, size, count, stride);
        strides[a] = 0;
        count = size * count;
    }
    count
}

// The digits of all devices, before those at end.
pub fn mesh_digits(digits: &mut [usize], strides: &[usize], mesh: &[u16], end: usize, inner: usize)
    requires { Devices digits.old strides.now mesh.now end inner }
    ensures { digits.new ≡ take (end - 3 * length mesh.now) digits.old ++ mesh_digits mesh.now
        strides.now (drop end digits.old) }
{
    let mut first = end;
    let mut count = inner;
    for i in (0..mesh.len()).rev() {
        first -= 3;
        let size = mesh[i] as usize;
        put_digit(digits, first, size, count, strides[i]);
        count = size * count;
    }
}
