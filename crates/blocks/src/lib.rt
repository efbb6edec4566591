// Repeats: what stands at a kind byte, a plain step or a repeat with all steps inside it, read and judged (document 02, Ask 11).
// Judging a block calls judging an item, which calls judging a block; the bytes left fall. specs/Blocks.antt says what is asked and answered.
#![tactic(auto)]

ghost use Rattle.std.specs.Prelude.{◌≡◌, ℕ, ◌+◌, ◌≤◌, length, take};
ghost use Rattle.rules.specs.Limits.{most_dims, every_kind};
ghost use Rattle.rules.specs.Lists.{both};
ghost use Rattle.rules.specs.PlanFile.{same, plain_at, positive_at, same_sharding, repeat_at, is_repeat, item_at};
ghost use Rattle.types.specs.Answers.{judged, judged_as};
ghost use Rattle.types.specs.Types.{axes_of, dims_of, sharding_of, mesh_of, sizes_of};
ghost use Rattle.blocks.specs.Blocks.{head_of, head_at, inner_at, summarized, steps_of, Judging, Closing, closed};

use taking::{Extent, charge_step, shard_words, take_step};
use types::{AxisList, Dim, DimLists, Mesh, Reason, Refusal, Sharding, Step, Table};

// The byte at a position, in the repeat with number k; it is not 0.
pub fn positive_at(file: &[u8], at: usize, k: u16) -> Result<u8, Refusal>
    ensures { judged result ≡ positive_at k file.now at }
{
    let Some(&byte) = file.get(at) else {
        return Err(Refusal::outside(Reason::SectionPastEnd));
    };
    if byte == 0 {
        return Err(Refusal {
            reason: Reason::RepeatOfNothing,
            step: k,
        });
    }
    Ok(byte)
}

// How often a block is run, and how many steps it has.
#[derive(Clone, Copy)]
pub struct Repeat {
    pub count: u8,
    pub inner: u8,
}

// The two bytes behind the kind byte of the repeat with number k, where repeats may nest so deep, this one included.
pub fn read_repeat(file: &[u8], at: usize, k: u16, depth: usize) -> Result<Repeat, Refusal>
    requires { at ≤ length file.now }
    ensures { judged_as head_of result ≡ head_at depth k file.now at }
{
    let count = positive_at(file, at, k)?;
    let inner = positive_at(file, at + 1, k)?;
    if depth == 0 {
        return Err(Refusal {
            reason: Reason::TooDeep,
            step: k,
        });
    }
    Ok(Repeat { count, inner })
}

// Whether a repeat stands at a position.
pub fn is_repeat(file: &[u8], at: usize) -> bool
    ensures { result ≡ is_repeat file.now at }
{
    matches!(file.get(at), Some(9))
}

// Whether two lists name the same axes in the same order.
pub fn same_list(a: AxisList, b: AxisList) -> bool
    ensures { result ≡ same (axes_of a) (axes_of b) }
{
    a.as_slice() == b.as_slice()
}

fn same_lists(a: DimLists, b: DimLists, rank: usize) -> bool
    requires { rank ≤ most_dims }
    ensures { result ≡ both same (take rank (dims_of a)) (take rank (dims_of b)) }
{
    for d in 0..rank {
        let dim = Dim(d as u8);
        if !same_list(a.at(dim), b.at(dim)) {
            return false;
        }
    }
    true
}

// Whether two shardings of a table of a rank are the same, list for list.
pub fn same_sharding(a: Sharding, b: Sharding, rank: usize) -> bool
    requires { rank ≤ most_dims }
    ensures { result ≡ same_sharding (sharding_of rank a) (sharding_of rank b) }
{
    same_lists(a.dims, b.dims, rank)
        && same_list(a.unreduced, b.unreduced)
        && same_list(a.replicated, b.replicated)
}

// Steps that were judged: where the next byte is, the number of the kind byte there, how many plain steps are run, the most words that a shard had so
// far, the words moved between devices, and the sharding after them.
#[derive(Clone, Copy)]
pub struct StepsJudged {
    pub at: usize,
    pub number: u16,
    pub runs: usize,
    pub largest: usize,
    pub moved: u64,
    pub sharding: Sharding,
}

// The plain step with number k; the shards before it had so many words at most.
fn judge_plain(
    file: &[u8],
    at: usize,
    k: u16,
    mesh: Mesh,
    table: Table,
    extent: Extent,
    largest: usize,
    sharding: Sharding,
) -> Result<StepsJudged, Refusal>
    requires { Judging file.now at k mesh table extent largest sharding }
    ensures { judged_as (steps_of table.rank) result
        ≡ summarized (mesh_of mesh) (sizes_of table) k largest (sharding_of table.rank sharding)
        (plain_at (mesh_of mesh) (sizes_of table) file.now k at (sharding_of table.rank sharding)) }
{
    let read = take_step(file, at, k, mesh, table, sharding)?;
    let taken = read.value;
    let after = taken.sharding;
    let moved = charge_step(taken.step, extent, mesh, table, sharding);
    let words = shard_words(extent.words, mesh, table, after);
    Ok(StepsJudged {
        at: read.next,
        number: k + 1,
        runs: 1,
        largest: largest.max(words),
        moved,
        sharding: after,
    })
}

// The end of the block with number k: the sharding is the one before it, and so many rounds are not too many steps.
fn close_block(
    k: u16,
    count: u8,
    block: StepsJudged,
    before: Sharding,
    rank: usize,
) -> Result<StepsJudged, Refusal>
    requires { Closing block rank }
    ensures { judged_as (steps_of rank) result ≡ closed k count rank before block }
{
    if !same_sharding(block.sharding, before, rank) {
        return Err(Refusal {
            reason: Reason::ShardingChanged,
            step: k,
        });
    }
    let rounds = usize::from(count);
    let runs = rounds * block.runs;
    if Step::MOST_RUN < runs {
        return Err(Refusal {
            reason: Reason::TooManyRun,
            step: k,
        });
    }
    let moved = u64::from(count) * block.moved;
    Ok(StepsJudged {
        runs,
        moved,
        ..block
    })
}

// The repeat with number k, from behind its kind byte on, where repeats may nest so deep, this one included.
#[cycle(judge_block_judge_item)]
pub fn judge_block(
    file: &[u8],
    at: usize,
    k: u16,
    depth: usize,
    mesh: Mesh,
    table: Table,
    extent: Extent,
    largest: usize,
    sharding: Sharding,
) -> Result<StepsJudged, Refusal>
    requires { Judging file.now at (k + 1) mesh table extent largest sharding }
    ensures { judged_as (steps_of table.rank) result
        ≡ summarized (mesh_of mesh) (sizes_of table) k largest (sharding_of table.rank sharding)
        (repeat_at (inner_at (mesh_of mesh) (sizes_of table) file.now depth k) file.now k at (sharding_of table.rank sharding)) }
{
    let head = read_repeat(file, at, k, depth)?;
    let below = depth - 1;
    let mut block = StepsJudged {
        at: at + 2,
        number: k + 1,
        runs: 0,
        largest,
        moved: 0,
        sharding,
    };
    for i in 0..head.inner {
        let item = judge_item(
            file,
            block.at,
            block.number,
            below,
            mesh,
            table,
            extent,
            block.largest,
            block.sharding,
        )?;
        block = StepsJudged {
            runs: block.runs + item.runs,
            moved: block.moved + item.moved,
            ..item
        };
    }
    close_block(k, head.count, block, sharding, table.rank)
}

// What stands at the kind byte with number k, where repeats may nest so deep; the shards before it had so many words at most.
#[cycle(judge_block_judge_item)]
pub fn judge_item(
    file: &[u8],
    at: usize,
    k: u16,
    depth: usize,
    mesh: Mesh,
    table: Table,
    extent: Extent,
    largest: usize,
    sharding: Sharding,
) -> Result<StepsJudged, Refusal>
    requires { Judging file.now at k mesh table extent largest sharding }
    ensures { judged_as (steps_of table.rank) result
        ≡ summarized (mesh_of mesh) (sizes_of table) k largest (sharding_of table.rank sharding)
        (item_at every_kind (mesh_of mesh) (sizes_of table) file.now depth k at (sharding_of table.rank sharding)) }
{
    if is_repeat(file, at) {
        judge_block(
            file,
            at + 1,
            k,
            depth,
            mesh,
            table,
            extent,
            largest,
            sharding,
        )
    } else {
        judge_plain(file, at, k, mesh, table, extent, largest, sharding)
    }
}
