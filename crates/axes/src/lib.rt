// One axis list at a time: the tests and changes of lists that a judgement is made of, marks of named axes, and the sizes of a mesh.
#![tactic(auto)]

ghost use Rattle.std.specs.Prelude.{◌≡◌, true, false, [], ◌∷◌, ◌++◌, ◌+◌, ◌≤◌, ◌<◌, length, get_or, set};
ghost use Rattle.rules.specs.Lists.{tab, pick, mem, keep, without as without_of};
ghost use Rattle.rules.specs.Limits.{most_axes};
ghost use Rattle.rules.specs.Mesh.{span as span_of};
ghost use Rattle.rules.specs.Collectives.{cut_tail};
ghost use Rattle.rules.specs.PlanFile.{all_below, increasing_from, all_in, is_tail};
ghost use Rattle.types.specs.Types.{axes_of, mesh_of, Sized};
ghost use Rattle.axes.specs.Marks.{marks_with};

use types::{Axis, AxisList, Mesh};

// The product of the sizes of a list's axes.
pub fn span(list: AxisList, mesh: Mesh) -> usize
    requires { Sized (mesh_of mesh) }
    ensures { result ≡ span_of (mesh_of mesh) (axes_of list) }
{
    let mut product: usize = 1;
    for axis in list.as_slice() {
        product *= mesh.size(*axis);
    }
    product
}

// Whether each axis is below n.
pub fn all_below(list: AxisList, n: usize) -> bool
    ensures { result ≡ all_below n (axes_of list) }
{
    list.as_slice().iter().all(|a| (a.0 as usize) < n)
}

// Whether the axes strictly increase.
pub fn increasing(list: AxisList) -> bool
    ensures { result ≡ increasing_from 0 (axes_of list) }
{
    let mut low: usize = 0;
    for axis in list.as_slice() {
        let a = axis.0 as usize;
        if a < low {
            return false;
        }
        low = a + 1;
    }
    true
}

// Whether an axis is one of the list.
pub fn is_in(a: Axis, list: AxisList) -> bool
    ensures { result ≡ mem a.0 (axes_of list) }
{
    list.as_slice().contains(&a)
}

// Whether each axis of a list is one of another.
pub fn all_in(list: AxisList, other: AxisList) -> bool
    ensures { result ≡ all_in (axes_of list) (axes_of other) }
{
    list.as_slice().iter().all(|a| is_in(*a, other))
}

// The axes of a list that are none of another's, in their order.
pub fn without(list: AxisList, other: AxisList) -> AxisList
    ensures { axes_of result ≡ without_of (axes_of list) (axes_of other) }
{
    let mut kept = AxisList::empty();
    for axis in list.as_slice() {
        if !is_in(*axis, other) {
            kept = kept.with(*axis);
        }
    }
    kept
}

// Whether a list ends with another.
pub fn is_tail(list: AxisList, tail: AxisList) -> bool
    ensures { result ≡ is_tail (axes_of list) (axes_of tail) }
{
    list.as_slice().ends_with(tail.as_slice())
}

// A list without so many axes at its end as another has.
pub fn cut_tail(list: AxisList, tail: AxisList) -> AxisList
    ensures { axes_of result ≡ cut_tail (axes_of list) (axes_of tail) }
{
    let have = list.len();
    let want = tail.len();
    let mut front = list;
    if have < want {
        front.count = 0;
    } else {
        front.count = (have - want) as u16;
    }
    front
}

// A list with another at its end.
pub fn join(list: AxisList, tail: AxisList) -> AxisList
    requires { length (axes_of list) + length (axes_of tail) ≤ most_axes }
    ensures { axes_of result ≡ axes_of list ++ axes_of tail }
{
    let mut whole = list;
    for axis in tail.as_slice() {
        whole = whole.with(*axis);
    }
    whole
}

// Whether an axis is marked; one past the last place has no mark.
pub fn is_marked(marks: &[bool], a: Axis) -> bool
    ensures { result ≡ get_or marks.now a.0 false }
{
    let i = a.0 as usize;
    if i < marks.len() { marks[i] } else { false }
}

// The axes below n that are marked, in increasing order.
pub fn marked_below(marks: &[bool], n: usize) -> AxisList
    requires { n ≤ most_axes }
    ensures { axes_of result ≡ keep (λ a. get_or marks.now a false) (tab n (λ a. a)) }
{
    let mut kept = AxisList::empty();
    for i in 0..n {
        let axis = Axis(i as u8);
        if is_marked(marks, axis) {
            kept = kept.with(axis);
        }
    }
    kept
}

// Marks one axis more. Marks are lent: handed on by value they would be copied for each axis.
pub fn mark(marks: &mut [bool], a: Axis)
    ensures { marks.new ≡ set marks.old a.0 true }
{
    let i = a.0 as usize;
    if i < marks.len() {
        marks[i] = true;
    }
}

// Marks the axes of a list.
pub fn mark_list(marks: &mut [bool], list: AxisList)
    ensures { marks.new ≡ marks_with marks.old (axes_of list) }
{
    for axis in list.as_slice() {
        mark(marks, *axis);
    }
}
