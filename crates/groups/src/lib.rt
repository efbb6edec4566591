// The group listing: the devices of a mesh, group by group along an axis list, in plain order or in one that is given.
// What its two calls answer and leave is defined in rules/specs/Calls.antt (groups_of, groups_leave, groups_ordered_of, groups_ordered_leave). Both judge and
// list by place, specs/Ordering.antt; under an order the places are looked up at the end.
#![tactic(auto)]

ghost use Rattle.std.specs.Prelude.{◌≡◌, [], ◌++◌, ◌≤◌, length, drop};
ghost use Rattle.rules.specs.Lists.{tab, without};
ghost use Rattle.rules.specs.Mesh.{devices};
ghost use Rattle.rules.specs.Limits.{most_axes, most_devices};
ghost use Rattle.rules.specs.Refusals.{accept, need};
ghost use Rattle.rules.specs.PlanFile.{judge_sizes};
ghost use Rattle.types.specs.Types.{axes_of};
ghost use Rattle.types.specs.Answers.{number_of, judged};
ghost use Rattle.types.specs.Promises.{GroupsPromise, GroupsOrderedPromise};
ghost use Rattle.groups.specs.Ordering.{judge_mesh, ByPlace, axis_order, along, repeated, IsList, IsAxisOrder, Repeats};

use axes::is_in;
use mesh::{product_from, size_at};
use order::{look_up, order_allowed};
use start::judge_axes;
use types::{Axis, AxisList, Device, Reason, Refusal};

// A test that is refused with a reason unless it passes.
fn need(passes: bool, reason: Reason) -> Result<(), Refusal>
    ensures { judged result ≡ need passes (number_of reason) }
{
    if passes {
        Ok(())
    } else {
        Err(Refusal::outside(reason))
    }
}

// 10, 11: "each size in turn (zero, then running product)"
fn judge_sizes(mesh: &[u16]) -> Result<(), Refusal>
    ensures { judged result ≡ judge_sizes most_devices 10 11 1 mesh.now }
{
    let mut product: usize = 1;
    for size in mesh {
        if *size == 0 {
            return Err(Refusal::outside(Reason::MeshSizeZero));
        }
        product *= *size as usize;
        if Device::MOST < product {
            return Err(Refusal::outside(Reason::TooManyDevices));
        }
    }
    Ok(())
}

// 5: "n .. outside its limits"; 10, 11
fn judge_mesh(mesh: &[u16]) -> Result<(), Refusal>
    ensures { judged result ≡ judge_mesh mesh.now }
{
    let n = mesh.len();
    need(1 <= n && n <= Axis::MOST, Reason::CountOutsideLimits)?;
    judge_sizes(mesh)
}

// The axes of a lent list.
// Stays: (d) a From would take any list, and this one asks for at most six axes.
fn list_of(axes: &[u8]) -> AxisList
    requires { length axes.now ≤ most_axes }
    ensures { axes_of result ≡ axes.now }
{
    let mut list = AxisList::empty();
    for axis in axes {
        list = list.with(Axis(*axis));
    }
    list
}

// All axes of a mesh of n axes, in increasing order.
fn axes_below(n: usize) -> AxisList
    requires { n ≤ most_axes }
    ensures { axes_of result ≡ tab n (λ a. a) }
{
    let mut all = AxisList::empty();
    for a in 0..n {
        all = all.with(Axis(a as u8));
    }
    all
}

// A list with those axes of another at its end that are none of a third's.
fn extended(list: AxisList, more: AxisList, but: AxisList) -> AxisList
    requires { length (axes_of list ++ without (axes_of more) (axes_of but)) ≤ most_axes }
    ensures { axes_of result ≡ axes_of list ++ without (axes_of more) (axes_of but) }
{
    let mut whole = list;
    for axis in more.as_slice() {
        if !is_in(*axis, but) {
            whole = whole.with(*axis);
        }
    }
    whole
}

// The axes in the order of the listing's places: the remaining ones, then those of the list.
fn axis_order(list: AxisList, n: usize) -> AxisList
    requires { IsList n (axes_of list) }
    ensures { axes_of result ≡ axis_order n (axes_of list) }
{
    let none = AxisList::empty();
    let all = axes_below(n);
    let rest = extended(none, all, list);
    extended(rest, list, none)
}

// The first entries of the output again and again up to an end, a stride further on each time.
fn repeat_devices(out: &mut [u16], count: usize, end: usize, stride: usize)
    requires { Repeats out.old count end stride }
    ensures { out.new ≡ tab end (repeated out.old count stride) ++ drop end out.old }
{
    for place in count..end {
        let device = out[place - count] as usize + stride;
        out[place] = device as u16;
    }
}

// The places along the axes, at the front of the output: place 0, then those along one axis more, from the last axis on.
fn write_devices(mesh: &[u16], axes: AxisList, out: &mut [u16])
    requires { IsAxisOrder mesh.now (axes_of axes) (length out.old) }
    ensures { out.new ≡ tab (devices mesh.now) (along mesh.now (axes_of axes)) ++ drop (devices
        mesh.now) out.old }
{
    let mut count: usize = 1;
    out[0] = 0;
    for i in (0..axes.len()).rev() {
        let axis = axes.at(i);
        let stride = product_from(mesh, axis.0 as usize + 1);
        let end = size_at(mesh, axis) * count;
        repeat_devices(out, count, end, stride);
        count = end;
    }
}

// Judges the rest on a mesh that passed, with the verdict on an order, and lists the groups by place: the first D entries of the output.
fn list_places(
    mesh: &[u16],
    ordered: Result<(), Refusal>,
    axes: &[u8],
    out: &mut [u16],
) -> Result<usize, Refusal>
    requires { judge_mesh mesh.now ≡ accept tt }
    ensures { ByPlace (judged ordered) mesh.now axes.now out.old result out.new }
{
    let n = mesh.len();
    let devices = product_from(mesh, 0);
    let named = judge_axes(axes, n);
    let fits = need(devices <= out.len(), Reason::OutputTooShort);
    // 19, then 14 and 15, then 33
    ordered?;
    named?;
    fits?;
    let list = list_of(axes);
    let all = axis_order(list, n);
    write_devices(mesh, all, out);
    Ok(devices)
}

// Lists the devices of each group along the axes, in order of position: the first D entries of the output, which a refusal leaves as it was.
pub fn groups(mesh: &[u16], axes: &[u8], out: &mut [u16]) -> Result<usize, Refusal>
    ensures { GroupsPromise mesh.now axes.now out.old result out.new }
{
    judge_mesh(mesh)?;
    list_places(mesh, Ok(()), axes, out)
}

// The same by the numbers that an order gives the devices.
pub fn groups_ordered(
    mesh: &[u16],
    order: &[u16],
    axes: &[u8],
    out: &mut [u16],
) -> Result<usize, Refusal>
    ensures { GroupsOrderedPromise mesh.now order.now axes.now out.old result out.new }
{
    judge_mesh(mesh)?;
    let allowed = order_allowed(order, product_from(mesh, 0));
    let ordered = need(allowed, Reason::WrongOrder);
    let devices = list_places(mesh, ordered, axes, out)?;
    look_up(&mut out[..devices], order);
    Ok(devices)
}
