// What the programs print of a plan file: `no NUMBER STEP`, or `ok STEPS` and a line for each state, its number and
// its shard sizes. `ishkrela::check` judges the file once; where it passed, each outermost step is read again once, with
// the steps inside it, and the sizes are those of `dims::shard_of` after it. These calls answer document 01's
// definitions; that the lines are 01's is tested (tests/plans.txt). And how they read what they print of.
// A read that fails counts as the end of the input, and a write that fails is let go: the answers are what is promised.
#![tactic(auto)]

ghost use Rattle.std.specs.Prelude.{◌≡◌, ◌≤◌, length, take};
ghost use Rattle.std.specs.Io.KnownBytes.{Consumes};
ghost use Rattle.types.specs.Answers.{number_of};
ghost use Rattle.types.specs.Promises.{CheckPromise};
ghost use Rattle.plan.specs.Parts.{Begins};

use blocks::judge_item;
use dims::{shard_of, words};
use ishkrela::{Checked, Refusal, check};
use opening::{Opening, open};
use reasons::number_of;
use std::io::Read;
use taking::{Extent, shard_words};
use types::{Step, Table};

// Reads until the buffer is full, the input ends or a read fails. Answers how many bytes, those that were taken from the
// input, stand at the buffer's front.
pub fn read_full<R: Read>(input: &mut R, buffer: &mut [u8]) -> usize
    ensures few { result ≤ length buffer.new }
    ensures bytes { Consumes (R.remaining input.old) (R.remaining input.new) (take result buffer.new) }
{
    let mut done = 0;
    // Stays: (d) each turn goes on by what was read, so no range has the turns.
    while done < buffer.len() {
        let Ok(n) = input.read(&mut buffer[done..]) else {
            return done;
        };
        if n == 0 {
            return done;
        }
        done += n;
    }
    done
}

// "A refusal prints `no`, number and step on one line." Answers the number.
pub fn print_refusal(rt: &impl Print, refusal: Refusal) -> u8
    ensures { result ≡ number_of refusal.reason }
{
    let number = number_of(refusal.reason);
    let _ = println!(rt; "no {number} {}", refusal.step);
    number
}

// Nothing past the rank: a table of two dimensions has two sizes on its line.
fn print_state(rt: &impl Print, k: usize, shard: Table) {
    let _ = print!(rt; "{k}");
    for size in shard.sizes.iter().take(shard.rank) {
        let _ = print!(rt; " {size}");
    }
    let _ = println!(rt; "");
}

// A line for the state after each outermost step, as it is read again.
fn print_steps(rt: &impl Print, file: &[u8], opening: Opening)
    requires { Begins file.now opening.at opening.steps opening.devices opening.mesh opening.table opening.start }
{
    let mesh = opening.mesh;
    let table = opening.table;
    let extent = Extent {
        devices: opening.devices,
        words: words(table),
    };
    let mut after = opening.start;
    let mut most = shard_words(extent.words, mesh, table, after);
    let mut at = opening.at;
    let mut number: u16 = 1;
    for k in 0..opening.steps {
        let Ok(item) = judge_item(
            file,
            at,
            number,
            Step::MOST_DEPTH,
            mesh,
            table,
            extent,
            most,
            after,
        ) else {
            return;
        };
        at = item.at;
        number = item.number;
        most = item.largest;
        after = item.sharding;
        print_state(rt, k + 1, shard_of(table, after.dims, mesh));
    }
}

// The start is state 0, so there is one line more than there are outermost steps.
fn print_states(rt: &impl Print, file: &[u8]) {
    let Ok(opening) = open(file) else {
        return;
    };
    let start = opening.start;
    print_state(rt, 0, shard_of(opening.table, start.dims, opening.mesh));
    print_steps(rt, file, opening);
}

// Prints the outcome for a plan file. Answers what the check answered.
pub fn print_answer(rt: &impl Print, file: &[u8]) -> Checked
    ensures { CheckPromise file.now result }
{
    let checked = check(file);
    match checked.outcome {
        Ok(totals) => {
            let _ = println!(rt; "ok {}", totals.steps);
            print_states(rt, file);
        }
        Err(refusal) => {
            print_refusal(rt, refusal);
        }
    }
    checked
}
