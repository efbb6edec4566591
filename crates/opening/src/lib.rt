// What stands before the steps of a plan file: header, mesh, table and starting sharding, read and judged.
// Order and numbers are those of rules/specs/PlanFile.antt (judge_front); specs/Opening.antt says what the answer stands for.
#![tactic(auto)]

ghost use Rattle.std.specs.Prelude.{◌≡◌};
ghost use Rattle.rules.specs.PlanFile.{one_meaning};
ghost use Rattle.types.specs.Answers.{judged};
ghost use Rattle.types.specs.Types.{axes_of, sharding_of, mesh_of, sizes_of, WithinPlaces};
ghost use Rattle.opening.specs.Opening.{judge_opening, Opened};

use reader::{read_header, read_shape, read_sharding};
use start::judge_start;
use types::{AxisList, Mesh, Reason, Refusal, Sharding, Table};

// What stands before the steps, and where they begin.
#[derive(Clone, Copy)]
pub struct Opening {
    pub at: usize,
    pub devices: usize,
    pub steps: usize,
    pub mesh: Mesh,
    pub table: Table,
    pub start: Sharding,
}

// Edition 2 is for a replicated list that is not empty.
fn one_meaning(edition: usize, replicated: AxisList) -> bool
    ensures { result ≡ one_meaning edition (axes_of replicated) }
{
    edition != 2 || replicated.len() != 0
}

// The starting sharding of a file: 14 to 17, then 18.
fn judge_opening(start: Sharding, mesh: Mesh, table: Table, edition: usize) -> Result<(), Refusal>
    requires { WithinPlaces mesh table }
    ensures { judged result ≡ judge_opening edition (mesh_of mesh) (sizes_of table) (sharding_of table.rank start) }
{
    judge_start(start, mesh, table)?;
    if !one_meaning(edition, start.replicated) {
        return Err(Refusal::outside(Reason::ReplicatedEmpty));
    }
    Ok(())
}

// What stands before the steps of a file.
pub fn open(file: &[u8]) -> Result<Opening, Refusal>
    ensures { Opened file.now result }
{
    let header = read_header(file)?;
    let shape = read_shape(file, header)?;
    let start = read_sharding(file, shape.next, header)?;
    if header.steps_at != start.next {
        return Err(Refusal::outside(Reason::WrongOffset));
    }
    let mesh = shape.value.mesh;
    let table = shape.value.table;
    judge_opening(start.value, mesh, table, header.edition)?;
    Ok(Opening {
        at: start.next,
        devices: shape.value.devices,
        steps: header.steps,
        mesh,
        table,
        start: start.value,
    })
}
