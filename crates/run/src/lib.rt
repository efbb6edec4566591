// The run of a plan: its judgement, the tests of the two buffers, the steps in turn, and zeros behind the last state.
// What it answers and leaves is defined in rules/specs/Calls.antt (run_of); types/specs/Promises.antt has its promise, specs/Runs.antt what the parts
// ask for and leave.
#![tactic(auto)]

ghost use Rattle.std.specs.Prelude.{◌≡◌, ◌*◌, ◌≤◌, ◌++◌, length, take, drop, replicate, Err};
ghost use Rattle.rules.specs.Lists.{pick, product};
ghost use Rattle.rules.specs.Limits.{most_devices, most_words};
ghost use Rattle.types.specs.Types.{WithinPlaces};
ghost use Rattle.types.specs.Promises.{RunPromise};
ghost use Rattle.plan.specs.Parts.{Bounded, answer_of};
ghost use Rattle.order.specs.Order.{words_by_place, ShardsFit};
ghost use Rattle.rounds.specs.Rounds.{shape_of};
ghost use Rattle.run.specs.Runs.{Runs, RunsOrdered, StepsTaken, BeginsWithLast};

use dims::{shard_of, words};
use order::{invert, place_shards};
use plan::{Whole, judge_file};
use reader::{carries_order, read_order};
use rounds::{Progress, run_row};
use types::{Device, PlanFile, Ran, Reason, Refusal, Sharding, Step};

// Words of spare that are taken to work, with zeros left behind, so that spare is passed over once.
fn take_home(work: &mut [u32], spare: &mut [u32])
    requires { length work.old ≡ length spare.old }
    ensures work_after { work.new ≡ spare.old }
    ensures spare_after { spare.new ≡ replicate (length spare.old) 0 }
{
    for i in 0..work.len() {
        work[i] = spare[i];
        spare[i] = 0;
    }
}

// The steps in turn, from the state by place in work, its home, or in spare. Answers whether the last state stands at the front of work; else it stands
// at that of spare.
fn run_steps(file: &[u8], whole: Whole, home: bool, work: &mut [u32], spare: &mut [u32]) -> bool
    requires { Runs file.now whole (length work.old) (length spare.old) }
    ensures { StepsTaken file.now (pick home work.old spare.old) (pick result work.new spare.new) }
{
    let first = Progress {
        at: whole.at,
        number: 1,
        in_work: home,
        sharding: whole.start,
    };
    let end = run_row(
        file,
        whole.mesh,
        whole.table,
        whole.steps,
        Step::MOST_DEPTH,
        first,
        work,
        spare,
    );
    end.in_work
}

// The words of one shard of a sharding.
fn words_of(whole: Whole, sharding: Sharding) -> usize
    requires { WithinPlaces whole.mesh whole.table }
    ensures { result ≡ product (shape_of whole.mesh whole.table sharding) }
{
    words(shard_of(whole.table, sharding.dims, whole.mesh))
}

// Shards of m words by place, from the buffer in which they stand to the other one, by device number.
fn number_shards(in_work: bool, places: &[u16], m: usize, work: &mut [u32], spare: &mut [u32])
    requires { ShardsFit places.now m (length spare.old) (length work.old) × ShardsFit places.now m (length work.old) (length spare.old) }
    ensures { pick in_work spare.new work.new ≡ words_by_place 0 places.now m (pick in_work work.old spare.old)
        ++ drop (length places.now * m) (pick in_work spare.old work.old) }
{
    if in_work {
        place_shards(spare, work, places, m);
    } else {
        place_shards(work, spare, places, m);
    }
}

// A plan whose devices have an order, with room for it and for its inverse. The steps know places alone: shards go there before the first step, and back
// after the last.
fn run_by_place(
    file: &[u8],
    whole: Whole,
    order: &mut [u16],
    places: &mut [u16],
    work: &mut [u32],
    spare: &mut [u32],
) -> bool
    requires { RunsOrdered file.now whole (length work.old) (length spare.old) × (length order.old ≡ whole.devices) × (length places.old ≡ whole.devices) }
    ensures { BeginsWithLast file.now work.old (pick result work.new spare.new) }
{
    read_order(file, PlanFile::LEAST + 2 * whole.mesh.n, order);
    invert(order, places);
    let m = words_of(whole, whole.start);
    place_shards(spare, work, order, m);
    let in_work = run_steps(file, whole, false, work, spare);
    let last = words_of(whole, whole.last);
    number_shards(in_work, places, last, work, spare);
    !in_work
}

fn run_ordered(file: &[u8], whole: Whole, work: &mut [u32], spare: &mut [u32]) -> bool
    requires { RunsOrdered file.now whole (length work.old) (length spare.old) }
    ensures { BeginsWithLast file.now work.old (pick result work.new spare.new) }
{
    let devices = whole.devices;
    let mut order = [0u16; Device::MOST];
    let mut places = [0u16; Device::MOST];
    run_by_place(
        file,
        whole,
        &mut order[0..devices],
        &mut places[0..devices],
        work,
        spare,
    )
}

// The whole plan, from the words of work. Answers whether the last state stands at the front of work; else it stands at that of spare.
fn run_plan(file: &[u8], whole: Whole, work: &mut [u32], spare: &mut [u32]) -> bool
    requires { Runs file.now whole (length work.old) (length spare.old) }
    ensures { BeginsWithLast file.now work.old (pick result work.new spare.new) }
{
    if carries_order(file) {
        run_ordered(file, whole, work, spare)
    } else {
        run_steps(file, whole, true, work, spare)
    }
}

// The last state, of so many words, at the front of work, whichever buffer it stands in; and 0 in all of spare.
fn bring_home(in_work: bool, last: usize, work: &mut [u32], spare: &mut [u32])
    requires { (last ≤ length work.old) × (last ≤ length spare.old) }
    ensures spare_after { spare.new ≡ replicate (length spare.old) 0 }
    ensures work_after { take last work.new ≡ take last (pick in_work work.old spare.old) }
{
    if in_work {
        spare.fill(0);
        return;
    }
    take_home(&mut work[0..last], &mut spare[0..last]);
    spare[last..].fill(0);
}

// The words of the last state.
fn last_words(whole: Whole) -> usize
    requires { Bounded whole × (whole.devices * product (answer_of whole).shard ≤ most_devices * most_words) }
    ensures { result ≡ whole.devices * product (answer_of whole).shard }
{
    let shard = shard_of(whole.table, whole.last.dims, whole.mesh);
    whole.devices * words(shard)
}

// Refused, with no words moved.
fn refused(refusal: Refusal) -> Ran
    ensures { result ≡ record { outcome = Err refusal; moved = 0 } }
{
    Ran {
        outcome: Err(refusal),
        moved: 0,
    }
}

// The run: the file's refusal, then 30, then 31; or the steps in order, with the words that they move between devices, and 0 in the rest of work and in
// all of spare.
pub fn run(file: &[u8], work: &mut [u32], spare: &mut [u32]) -> Ran
    ensures { RunPromise file.now work.old spare.old result work.new spare.new }
{
    let whole = match judge_file(file) {
        Ok(whole) => whole,
        Err(refusal) => return refused(refusal),
    };
    let room = whole.devices * whole.most;
    if work.len() < room {
        return refused(Refusal::outside(Reason::WorkTooShort));
    }
    if spare.len() < room {
        return refused(Refusal::outside(Reason::SpareTooShort));
    }
    let in_work = run_plan(file, whole, work, spare);
    let last = last_words(whole);
    bring_home(in_work, last, work, spare);
    work[last..].fill(0);
    Ran {
        outcome: Ok(()),
        moved: whole.moved,
    }
}
