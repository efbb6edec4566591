// The writer: a plan given as records, judged and written into a lent buffer, as records/specs/Writing.antt defines it;
// records/specs/Promises.antt is its promise.
#![tactic(auto)]

ghost use Rattle.records.specs.Promises.{WritePromise};

use encode::{file_length, put_file};
use given::judge_records;
use types::{PlanFile, Reason, Refusal, Sharding};

// The file of the records that the arguments stand for: written where they pass and it fits, else nothing is written.
// Stays: (a) mesh, order, table, start and steps one by one, as ishkrela's `write` and its promise `WritePromise` name them.
pub fn write<'a>(
    mesh: &'a [u16],
    order: &'a [u16],
    table: &'a [u16],
    start: Sharding,
    steps: &[u8],
    file: &mut [u8],
) -> Result<usize, Refusal>
    ensures { WritePromise mesh.now order.now table.now start steps.now file.old result file.new }
{
    judge_records(mesh, order, table, start, steps)?;
    let length = file_length(mesh, order, table, start, steps);
    if PlanFile::MOST < length {
        return Err(Refusal::outside(Reason::FileTooLong));
    }
    if file.len() < length {
        return Err(Refusal::outside(Reason::BufferTooShort));
    }
    Ok(put_file(file, mesh, order, table, start, steps))
}
