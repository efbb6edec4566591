// The judgement of axes in turn and of a starting sharding. Order and numbers are those of Rattle.rules.specs.PlanFile.
#![tactic(auto)]

ghost use Rattle.std.specs.Prelude.{◌≡◌, ℕ, false, [], ◌+◌, ◌≤◌, map, length, take};
ghost use Rattle.rules.specs.Lists.{flat, pick};
ghost use Rattle.rules.specs.Limits.{most_axes, most_dims};
ghost use Rattle.types.specs.Answers.{judged};
ghost use Rattle.rules.specs.PlanFile.{judge_axis, judge_axes, judge_start};
ghost use Rattle.types.specs.Types.{axes_of, dims_of, sharding_of, mesh_of, sizes_of, WithinPlaces};
ghost use Rattle.axes.specs.Marks.{marked};
ghost use Rattle.start.specs.Start.{marks_after, judge_rising};

use axes::{is_marked, mark};
use dims::divisible;
use types::{Axis, AxisList, DimLists, Mesh, Reason, Refusal, Sharding, Table};

// One axis of a starting sharding: 14, 15, 16.
fn judge_axis(a: Axis, n: usize, low: usize, marks: &[bool]) -> Result<(), Refusal>
    ensures { judged result ≡ judge_axis n low (marked marks.now) a.0 }
{
    let i = a.0 as usize;
    if n <= i {
        return Err(Refusal::outside(Reason::StartAxisTooLarge));
    }
    if is_marked(marks, a) {
        return Err(Refusal::outside(Reason::StartAxisRepeated));
    }
    if i < low {
        return Err(Refusal::outside(Reason::StartNotIncreasing));
    }
    Ok(())
}

fn next_low(increasing: bool, a: Axis) -> usize
    ensures { result ≡ pick increasing (a.0 + 1) 0 }
{
    if increasing { a.0 as usize + 1 } else { 0 }
}

// What names an axis: one of a list, or its number in a lent list.
trait Named: Copy {
    ghost number: { Self → ℕ };

    fn axis(self) -> Axis
        ensures { result.0 ≡ number self };
}

impl Named for Axis {
    ghost number = { λ axis. axis.0 };

    fn axis(self) -> Axis {
        self
    }
}

impl Named for u8 {
    ghost number = { λ byte. byte };

    fn axis(self) -> Axis {
        Axis(self)
    }
}

// Axes in turn, after the marked ones; those that pass are marked, up to the first that is refused.
fn judge_turn<A: Named>(
    axes: &[A],
    n: usize,
    increasing: bool,
    marks: &mut [bool],
) -> Result<(), Refusal>
    requires { n ≤ length marks.old }
    ensures result_value { judged result ≡ judge_axes n increasing 0 (marked marks.old) (map A.number axes.now) }
    ensures marks_after { marks.new ≡ marks_after n increasing 0 marks.old (map A.number axes.now) }
{
    let mut low: usize = 0;
    for name in axes {
        let axis = name.axis();
        judge_axis(axis, n, low, marks)?;
        mark(marks, axis);
        low = next_low(increasing, axis);
    }
    Ok(())
}

// The axes of a list in turn, as judge_turn.
pub fn judge_list(
    list: AxisList,
    n: usize,
    increasing: bool,
    marks: &mut [bool],
) -> Result<(), Refusal>
    requires { n ≤ length marks.old }
    ensures result_value { judged result ≡ judge_axes n increasing 0 (marked marks.old) (axes_of list) }
    ensures marks_after { marks.new ≡ marks_after n increasing 0 marks.old (axes_of list) }
{
    judge_turn(list.as_slice(), n, increasing, marks)
}

// The axes of a lent list in turn, as the group listing names them.
pub fn judge_axes(axes: &[u8], n: usize) -> Result<(), Refusal>
    requires { n ≤ most_axes }
    ensures { judged result ≡ judge_axes n false 0 [] axes.now }
{
    let mut marks = [false; Axis::MOST];
    judge_turn(axes, n, false, &mut marks)
}

// The axes of the dimensions' lists in turn, after the marked ones; those that pass are marked, up to the first that is refused.
pub fn judge_dims(lists: DimLists, rank: usize, n: usize, marks: &mut [bool]) -> Result<(), Refusal>
    requires { (rank ≤ most_dims) × (n ≤ length marks.old) }
    ensures result_value { judged result ≡ judge_axes n false 0 (marked marks.old) (flat (take rank (dims_of lists))) }
    ensures marks_after { marks.new ≡ marks_after n false 0 marks.old (flat (take rank (dims_of lists))) }
{
    for list in &lists.0[..rank] {
        judge_list(*list, n, false, marks)?;
    }
    Ok(())
}

// The unreduced axes, then the replicated ones: two increasing lists in turn, after the marked axes.
fn judge_rising(
    unreduced: AxisList,
    replicated: AxisList,
    n: usize,
    marks: [bool; Axis::MOST],
) -> Result<(), Refusal>
    requires { n ≤ most_axes }
    ensures { judged result ≡ judge_rising n (marked marks) (axes_of unreduced) (axes_of replicated) }
{
    let mut named = marks;
    judge_list(unreduced, n, true, &mut named)?;
    judge_list(replicated, n, true, &mut named)
}

// A starting sharding: its axes in file order, then 17.
pub fn judge_start(sharding: Sharding, mesh: Mesh, table: Table) -> Result<(), Refusal>
    requires { WithinPlaces mesh table }
    ensures { judged result ≡ judge_start (mesh_of mesh) (sizes_of table) (sharding_of table.rank sharding) }
{
    let mut marks = [false; Axis::MOST];
    judge_dims(sharding.dims, table.rank, mesh.n, &mut marks)?;
    judge_rising(sharding.unreduced, sharding.replicated, mesh.n, marks)?;
    if !divisible(table, sharding.dims, mesh) {
        return Err(Refusal::outside(Reason::StartNotDivisible));
    }
    Ok(())
}
