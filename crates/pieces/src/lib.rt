// The check of a plan file that comes in pieces. What is held after each byte, and answered at the end, are definitions of crate units
// (specs/Units.antt); specs/Held.antt says what the types here stand for.
#![tactic(auto)]

ghost use Rattle.std.specs.Prelude.{◌≡◌, true, false, not, ◌&&◌, List, ◌∷◌, length, get_or, set, ltb, ℕ, ◌+◌, ◌≤◌, ◌<◌, Some, None};
ghost use Rattle.rules.specs.Limits.{most_devices, most_depth, least_bytes, most_bytes};
ghost use Rattle.rules.specs.PlanFile.{is_repeat};
ghost use Rattle.types.specs.Answers.{judged, judged_as};
ghost use Rattle.types.specs.Types.{step_of, mesh_of, sizes_of};
ghost use Rattle.reader.specs.Reading.{header_of};
ghost use Rattle.rules.specs.Refusals.{accept};
ghost use Rattle.blocks.specs.Blocks.{head_of};
ghost use Rattle.units.specs.Units.{in_steps, headed, after_plain, counted, after_head, step_in};
ghost use Rattle.pieces.specs.Held.{open_of, first_of, standing_of, turn_as, Closes, step_done, ClosedTo, Goes};
ghost use Rattle.pieces.specs.Held.{numbers_of, waiting_as, awaited_as};

use blocks::{Repeat, is_repeat, read_repeat, same_sharding};
use judge::judge_step;
use reader::{Header, read_header, read_step};
use taking::shard_words;
use types::{Mesh, PlanFile, Reason, Refusal, Sharding, Step, Table};

// A header in a file of so many bytes: 1 to 5. They are judged by the header's bytes and the length alone, so any file with these serves; here it is one
// of zeros.
pub fn judge_header(head: &[u8], bytes: usize) -> Result<Header, Refusal>
    requires { (length head.now ≡ least_bytes) × (bytes ≤ most_bytes + 1) }
    ensures { judged result ≡ header_of (headed head.now bytes) }
{
    let mut file = [0u8; PlanFile::MOST + 1];
    file[..PlanFile::LEAST].copy_from_slice(head);
    read_header(&file[..bytes])
}

// A repeat whose block is being read: its number, how often the block is run, how many steps of the list around it come behind it and how many plain
// ones are run before it, and the sharding before it.
#[derive(Clone, Copy)]
pub struct Frame {
    pub number: u16,
    pub count: u8,
    pub behind: usize,
    pub ran: usize,
    pub sharding: Sharding,
}

// The repeats that are open, innermost first; `None` stands behind them.
#[derive(Clone, Copy)]
pub struct Frames(pub [Option<Frame>; Step::MOST_DEPTH]);

impl Frames {
    // How many are open.
    pub fn depth(self) -> usize
        ensures { (result ≡ length (open_of self)) × (result ≤ most_depth) }
    {
        match self.0 {
            [None, _, _, _] => 0,
            [_, None, _, _] => 1,
            [_, _, None, _] => 2,
            [_, _, _, None] => 3,
            _ => 4,
        }
    }

    // The innermost.
    pub fn innermost(self) -> Option<Frame>
        ensures { result ≡ first_of self }
    {
        self.0[0]
    }

    // With one more, the innermost.
    pub fn with(self, frame: Frame) -> Frames
        requires { length (open_of self) < most_depth }
        ensures { open_of result ≡ frame ∷ open_of self }
    {
        let [first, second, third, _] = self.0;
        Frames([Some(frame), first, second, third])
    }

    // Without the innermost.
    pub fn around(self) -> Frames
        ensures { (frame : Frame) → first_of self ≡ Some frame → open_of self ≡ frame ∷ open_of result }
    {
        let [_, second, third, fourth] = self.0;
        Frames([second, third, fourth, None])
    }
}

// Where the steps stand: the repeats that are open; of the list that is being read, how many steps come behind the next one and how many plain ones are
// run; the number of the next kind byte, the most words that a shard had, and the sharding.
#[derive(Clone, Copy)]
pub struct Standing {
    pub frames: Frames,
    pub behind: usize,
    pub ran: usize,
    pub number: u16,
    pub largest: usize,
    pub sharding: Sharding,
}

// What comes after a step: another one, or the file's end.
#[derive(Clone, Copy)]
pub enum Turn {
    Steps(Standing),
    End { largest: usize, sharding: Sharding },
}

// The outermost step with number k is done, and so many are left: "More than 4,096 plain steps run in all is 43, tested .. after each outermost step".
fn after_outermost(standing: Standing, k: u16, left: usize) -> Result<Turn, Refusal>
    requires { first_of standing.frames ≡ None }
    ensures { (mesh sizes : List ℕ) (rank : ℕ) → judged_as (turn_as mesh sizes rank) result ≡ step_done mesh sizes rank standing k left }
{
    if Step::MOST_RUN < standing.ran {
        return Err(Refusal {
            reason: Reason::TooManyRun,
            step: k,
        });
    }
    if left == 0 {
        return Ok(Turn::End {
            largest: standing.largest,
            sharding: standing.sharding,
        });
    }
    Ok(Turn::Steps(Standing {
        behind: left - 1,
        ..standing
    }))
}

// The innermost block, of this repeat, is read: "The sharding after the block must equal the one before it, .. else 41 at the repeat's number", then 43
// for the repeat alone.
fn close_block(standing: Standing, frame: Frame, rank: usize) -> Result<Standing, Refusal>
    requires { Closes rank standing × (first_of standing.frames ≡ Some frame) }
    ensures { ClosedTo rank standing frame result }
{
    let step = frame.number;
    if !same_sharding(standing.sharding, frame.sharding, rank) {
        return Err(Refusal {
            reason: Reason::ShardingChanged,
            step,
        });
    }
    let runs = usize::from(frame.count) * standing.ran;
    if Step::MOST_RUN < runs {
        return Err(Refusal {
            reason: Reason::TooManyRun,
            step,
        });
    }
    Ok(Standing {
        frames: standing.frames.around(),
        ran: frame.ran + runs,
        ..standing
    })
}

// The step with number k is done, and so many are left in its list: blocks that end with it are closed.
pub fn after_step(standing: Standing, k: u16, left: usize, rank: usize) -> Result<Turn, Refusal>
    requires { Closes rank standing }
    ensures { (mesh sizes : List ℕ) → judged_as (turn_as mesh sizes rank) result ≡ step_done mesh sizes rank standing k left }
{
    let mut here = standing;
    let mut step = k;
    let mut rest = left;
    while let Some(frame) = here.frames.innermost() {
        if rest != 0 {
            return Ok(Turn::Steps(Standing {
                behind: rest - 1,
                ..here
            }));
        }
        here = close_block(here, frame, rank)?;
        step = frame.number;
        rest = frame.behind;
    }
    after_outermost(here, step, rest)
}

// A plain step that is next: it is judged, and what follows it. The table has so many words.
pub fn after_plain(
    step: Step,
    standing: Standing,
    mesh: Mesh,
    table: Table,
    total: usize,
) -> Result<Turn, Refusal>
    requires { Goes mesh table total standing }
    ensures { judged_as (turn_as (mesh_of mesh) (sizes_of table) table.rank) result
        ≡ after_plain (mesh_of mesh) (sizes_of table) (standing_of table.rank standing) (step_of table.rank step) }
{
    let k = standing.number;
    let after = judge_step(step, k, standing.sharding, mesh, table)?;
    let words = shard_words(total, mesh, table, after);
    let next = Standing {
        sharding: after,
        largest: standing.largest.max(words),
        number: k + 1,
        ran: standing.ran + 1,
        ..standing
    };
    after_step(next, k, standing.behind, table.rank)
}

// A repeat that is next: the first of its inner steps is next then.
pub fn after_head(standing: Standing, head: Repeat) -> Standing
    requires { (length (open_of standing.frames) < most_depth) × (standing.number ≤ most_bytes + 1) × (0 < head.inner) }
    ensures { (mesh sizes : List ℕ) (rank : ℕ) → accept (in_steps mesh sizes (standing_of rank result))
        ≡ after_head mesh sizes (standing_of rank standing) (head_of head) }
{
    let frame = Frame {
        number: standing.number,
        count: head.count,
        behind: standing.behind,
        ran: standing.ran,
        sharding: standing.sharding,
    };
    Standing {
        frames: standing.frames.with(frame),
        behind: usize::from(head.inner) - 1,
        ran: 0,
        number: standing.number + 1,
        ..standing
    }
}

// The bytes of a unit that may be a step lead to what follows, or to `None` where more of them are awaited: 7 is for bytes that are not there yet.
fn awaited(refusal: Refusal) -> Result<Option<Turn>, Refusal>
    ensures { result ≡ awaited_as refusal }
{
    match refusal.reason {
        Reason::SectionPastEnd => Ok(None),
        _ => Err(refusal),
    }
}

// The bytes of a plain step so far.
fn feed_plain(
    unit: &[u8],
    standing: Standing,
    mesh: Mesh,
    table: Table,
    total: usize,
) -> Result<Option<Turn>, Refusal>
    requires { Goes mesh table total standing }
    ensures { waiting_as (mesh_of mesh) (sizes_of table) table.rank unit.now standing result
        ≡ step_in false (mesh_of mesh) (sizes_of table) (standing_of table.rank standing) unit.now }
{
    let step = match read_step(unit, 0, mesh.n, table.rank, standing.number) {
        Ok(read) => read.value,
        Err(refusal) => return awaited(refusal),
    };
    let turn = after_plain(step, standing, mesh, table, total)?;
    Ok(Some(turn))
}

// The bytes of a repeat's head so far.
fn feed_head(unit: &[u8], standing: Standing) -> Result<Option<Turn>, Refusal>
    requires { (0 < length unit.now) × (standing.number ≤ most_bytes + 1) }
    ensures { (mesh sizes : List ℕ) (rank : ℕ) → waiting_as mesh sizes rank unit.now standing result
        ≡ step_in true mesh sizes (standing_of rank standing) unit.now }
{
    let depth = Step::MOST_DEPTH - standing.frames.depth();
    match read_repeat(unit, 1, standing.number, depth) {
        Ok(head) => Ok(Some(Turn::Steps(after_head(standing, head)))),
        Err(refusal) => awaited(refusal),
    }
}

// The bytes of what stands at a kind byte so far, that byte included: a plain step, or the head of a repeat.
pub fn feed_step(
    unit: &[u8],
    standing: Standing,
    mesh: Mesh,
    table: Table,
    total: usize,
) -> Result<Option<Turn>, Refusal>
    requires { Goes mesh table total standing × (0 < length unit.now) }
    ensures { waiting_as (mesh_of mesh) (sizes_of table) table.rank unit.now standing result
        ≡ step_in (is_repeat unit.now 0) (mesh_of mesh) (sizes_of table) (standing_of table.rank standing) unit.now }
{
    if is_repeat(unit, 0) {
        return feed_head(unit, standing);
    }
    feed_plain(unit, standing, mesh, table, total)
}

// Device numbers of an order so far: how many, whether all are below D and none came twice, whether each is its own place.
#[derive(Clone, Copy)]
pub struct Numbers {
    pub count: usize,
    pub fine: bool,
    pub plain: bool,
}

// Whether a device number is below n and has no mark.
fn is_new(marks: &[bool], n: usize, device: usize) -> bool
    requires { n ≤ length marks.now }
    ensures { result ≡ ltb device n && not (get_or marks.now device false) }
{
    device < n && !marks[device]
}

// A mark for a device number; one that has no place gets none.
// Stays: (d) axes::mark takes an axis number, which is a byte; a function for both would take the number apart at each of its calls.
fn mark(marks: &mut [bool], device: usize)
    ensures { marks.new ≡ set marks.old device true }
{
    if device < marks.len() {
        marks[device] = true;
    }
}

// One number more of an order of n devices.
pub fn count_number(numbers: Numbers, marks: &mut [bool], n: usize, device: usize) -> Numbers
    requires { (n ≤ length marks.old) × (numbers.count < most_devices) }
    ensures { numbers_of result marks.new ≡ counted n (numbers_of numbers marks.old) device }
{
    let fine = numbers.fine && is_new(marks, n, device);
    let plain = numbers.plain && device == numbers.count;
    mark(marks, device);
    Numbers {
        count: numbers.count + 1,
        fine,
        plain,
    }
}
