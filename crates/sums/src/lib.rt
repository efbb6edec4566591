// All-reduce: each device gets the word_by_word sum over its group, whole shards at a time. The shape stays, so the words are summed where they are,
// which touches half the memory of two buffers: each group is added once, into its first member's shard, and the other members repeat that sum at
// once, while it is in the cache. A reduce-scatter needs the sum at the first member alone. Nothing is divided. specs/Sums.antt says what the tables
// hold.
#![tactic(auto)]

ghost use Rattle.std.specs.Prelude.{◌≡◌, ◌+◌, ◌*◌, ◌<◌, ◌≤◌, [], length, take, slice_index};
ghost use Rattle.rules.specs.Lists.{tab, pick, product};
ghost use Rattle.rules.specs.Mesh.{span};
ghost use Rattle.rules.specs.Spread.{add_words};
ghost use Rattle.types.specs.Types.{axes_of};
ghost use Rattle.strided.specs.Strided.{offset, most_places, Counts};
ghost use Rattle.digits.specs.Digits.{cleared, axis_digits, mesh_digits};
ghost use Rattle.sums.specs.Sums.{written, added_word, group_word, reduced_buffer, summed_buffer, first_words, shift_words};
ghost use Rattle.sums.specs.Sums.{Behind, Group, Next, Some, Shared, Groups, Summed, Shifting, Firsts, Tables, Reducing};

use digits::{axis_digits, fill_strides, mesh_digits};
use mesh::product_from;
use types;

// The numbers of the digits of a group's axes, or of all devices.
const ROOM: usize = 3 * types::Axis::MOST;

// The words of each shard that are summed before the sum is repeated: few enough that the sum stays in the nearest cache, and as many as that allows,
// for each member is then read in long runs.
const BLOCK: usize = 4096;

// The shard at first once more, at another place.
fn repeat_shard(words: &mut [u32], first: usize, at: usize, m: usize)
    requires { Behind first at m (length words.old) }
    ensures { words.new ≡ written words.old at m (λ o. slice_index words.old (first + o)) }
{
    // Stays: (a) copy_from_slice between two parts of one buffer needs memmove, a name from outside that the archive for C had no need of.
    for t in 0..m {
        words[at + t] = words[first + t];
    }
}

// The shards of one group, of m words each: the first one begins at `at`, the others so far after it as the shifts say.
#[derive(Clone, Copy)]
struct Shards<'a> {
    shifts: &'a [usize],
    at: usize,
    m: usize,
}

impl Shards<'_> {
    // Word t of the first shard and of K members from position q on, added modulo 2^32.
    fn added_word<const K: usize>(self, words: &[u32], q: usize, t: usize) -> u32
        requires group { Group self.shifts.now self.m self.at (length words.now) }
        requires next { Next q K self.shifts.now }
        requires inside { t < self.m }
        ensures { result ≡ added_word words.now self.entry.shifts.now self.entry.at q K t }
    {
        let mut sum = words[self.at + t];
        for j in 0..K {
            sum = sum.wrapping_add(words[self.at + self.shifts[q + j] + t]);
        }
        sum
    }

    // Adds the words of K members, from position q on, to those of the first shard.
    fn add_members<const K: usize>(self, words: &mut [u32], q: usize)
        requires group { Group self.shifts.now self.m self.at (length words.old) }
        requires next { Next q K self.shifts.now }
        ensures { words.new ≡ written words.old self.entry.at self.entry.m (added_word words.old self.entry.shifts.now self.entry.at q K) }
    {
        for t in 0..self.m {
            words[self.at + t] = self.added_word::<K>(words, q, t);
        }
    }

    // Adds as many members at a time as the shards that are left allow, since each time passes over the sum: with it, eight are as many as the nearest
    // cache has places for words that lie a power of two apart. Answers how many that is.
    fn add_some(self, words: &mut [u32], q: usize) -> usize
        requires group { Group self.shifts.now self.m self.at (length words.old) }
        requires next { Next q 1 self.shifts.now }
        ensures result_nonzero { (0 < result) × (q + result ≤ length self.entry.shifts.now) }
        ensures words_after { words.new ≡ written words.old self.entry.at self.entry.m (added_word words.old self.entry.shifts.now self.entry.at q result) }
    {
        if q + 6 < self.shifts.len() {
            self.add_members::<7>(words, q);
            return 7;
        }
        if q + 2 < self.shifts.len() {
            self.add_members::<3>(words, q);
            return 3;
        }
        self.add_members::<1>(words, q);
        1
    }

    // The sum of the shards, in place of the first one.
    fn sum(self, words: &mut [u32])
        requires { Group self.shifts.now self.m self.at (length words.old) }
        ensures { words.new ≡ written words.old self.entry.at self.entry.m (group_word add_words 0 words.old self.entry.shifts.now self.entry.at) }
    {
        let mut q: usize = 1;
        // Stays: (d) each turn adds as many members as the call answers, and a range goes on by one number alone.
        while q < self.shifts.len() {
            q += self.add_some(words, q);
        }
    }

    // The first shard once more, for the others of the first n members.
    fn repeat(self, words: &mut [u32], n: usize)
        requires group { Group self.shifts.now self.m self.at (length words.old) }
        requires some { Some n self.shifts.now }
        ensures { Shared 0 words.old self.entry.shifts.now self.entry.at self.entry.m n (λ o. slice_index words.old (self.entry.at + o)) words.new }
    {
        for shift in &self.shifts[1..n] {
            repeat_shard(words, self.at, self.at + *shift, self.m);
        }
    }

    // The sum of the shards in place of those of the first n members.
    fn reduce_block(self, words: &mut [u32], n: usize)
        requires group { Group self.shifts.now self.m self.at (length words.old) }
        requires some { Some n self.shifts.now }
        ensures { Shared 0 words.old self.entry.shifts.now self.entry.at self.entry.m n
            (group_word add_words 0 words.old self.entry.shifts.now self.entry.at) words.new }
    {
        self.sum(words);
        self.repeat(words, n);
    }

    // The same, block by block.
    fn reduce(self, words: &mut [u32], n: usize)
        requires group { Group self.shifts.now self.m self.at (length words.old) }
        requires some { Some n self.shifts.now }
        ensures { Shared 0 words.old self.entry.shifts.now self.entry.at self.entry.m n
            (group_word add_words 0 words.old self.entry.shifts.now self.entry.at) words.new }
    {
        for done in (0..self.m).step_by(BLOCK) {
            let block = Shards {
                shifts: self.shifts,
                at: self.at + done,
                m: BLOCK.min(self.m - done),
            };
            block.reduce_block(words, n);
        }
    }
}

// All groups, each when the first of its members is met.
fn reduce_groups(words: &mut [u32], firsts: &[usize], shifts: &[usize], m: usize, n: usize)
    requires groups { Groups firsts.now shifts.now m (length words.old) }
    requires some { Some n shifts.now }
    ensures { Summed add_words 0 words.old firsts.now shifts.now m n (length firsts.now)
        words.new }
{
    for (d, first) in firsts.iter().enumerate() {
        let at = d * m;
        if *first == at {
            Shards { shifts, at, m }.reduce(words, n);
        }
    }
}

// The places that the digits count, from at on. Where they count one place, whatever digits of size 1 are left, that is it.
fn list_offsets(to: &mut [usize], digits: &[usize], at: usize)
    requires { Counts digits.now (length to.old) at most_places }
    ensures { to.new ≡ tab (length to.old) (λ t. at + offset digits.now t) }
{
    if to.len() == 1 {
        to[0] = at;
        return;
    }
    let size = digits[0];
    let inner = digits[1];
    let stride = digits[2];
    for i in 0..size {
        let first = i * inner;
        list_offsets(&mut to[first..first + inner], &digits[3..], at + i * stride);
    }
}

// How far from its first member each member of a group is, at the front of shifts; the strides of the group's axes are cleared. Answers the
// number of members.
fn list_shifts(
    shifts: &mut [usize],
    strides: &mut [usize],
    mesh: &[u16],
    axes: types::AxisList,
) -> usize
    requires { Shifting shifts.old strides.old mesh.now (axes_of axes) }
    ensures value { result ≡ span mesh.now (axes_of axes) }
    ensures shifts_after { take result shifts.new ≡ tab result (offset (axis_digits mesh.now (axes_of axes) strides.old [])) }
    ensures strides_after { strides.new ≡ cleared (axes_of axes) strides.old }
{
    let mut digits = [0usize; ROOM];
    let members = axis_digits(&mut digits, strides, mesh, axes, ROOM, 1);
    let first = ROOM - 3 * axes.len();
    list_offsets(&mut shifts[..members], &digits[first..], 0);
    members
}

// Where each device is, by the strides.
fn list_firsts(firsts: &mut [usize], strides: &[usize], mesh: &[u16])
    requires { Firsts firsts.old strides.now mesh.now }
    ensures { firsts.new ≡ tab (product mesh.now) (offset (mesh_digits mesh.now strides.now [])) }
{
    let mut digits = [0usize; ROOM];
    mesh_digits(&mut digits, strides, mesh, ROOM, 1);
    let first = ROOM - 3 * mesh.len();
    list_offsets(firsts, &digits[first..], 0);
}

// Both tables. Answers the number of members of a group.
fn fill_tables(
    firsts: &mut [usize],
    shifts: &mut [usize],
    strides: &mut [usize],
    mesh: &[u16],
    axes: types::AxisList,
    m: usize,
) -> usize
    requires { Tables firsts.old shifts.old strides.old mesh.now (axes_of axes) m }
    ensures value { result ≡ span mesh.now (axes_of axes) }
    ensures firsts_after { firsts.new ≡ first_words mesh.now (axes_of axes) m }
    ensures shifts_after { take result shifts.new ≡ shift_words mesh.now (axes_of axes) m }
{
    fill_strides(strides, mesh, m);
    let members = list_shifts(shifts, strides, mesh, axes);
    list_firsts(firsts, strides, mesh);
    members
}

// How many members of a group get its sum: all of them, or the first one alone.
fn getters(all: bool, members: usize) -> usize
    ensures { result ≡ pick all members 1 }
{
    if all { members } else { 1 }
}

// The sum of each group in place of the shards of all its members, or of its first one's alone; the other words stay.
fn sum_into(words: &mut [u32], mesh: &[u16], shape: &[u16], axes: types::AxisList, all: bool)
    requires { Reducing mesh.now shape.now (axes_of axes) (length words.old) }
    ensures { words.new ≡ summed_buffer add_words 0 mesh.now shape.now (axes_of axes)
        (pick all (span mesh.now (axes_of axes)) 1) words.old }
{
    let m = product_from(shape, 0);
    let count = product_from(mesh, 0);
    let n = mesh.len();
    let mut strides = [0usize; types::Axis::MOST];
    let mut firsts = [0usize; types::Device::MOST];
    let firsts = &mut firsts[..count];
    let mut shifts = [0usize; types::Device::MOST];
    let members = fill_tables(firsts, &mut shifts, &mut strides[..n], mesh, axes, m);
    reduce_groups(words, firsts, &shifts[..members], m, getters(all, members));
}

// All-reduce: the new state at the front of words, in place of the old one; the other words stay.
pub fn reduce_in(words: &mut [u32], mesh: &[u16], shape: &[u16], axes: types::AxisList)
    requires { Reducing mesh.now shape.now (axes_of axes) (length words.old) }
    ensures { words.new ≡ reduced_buffer add_words 0 mesh.now shape.now (axes_of axes) words.old }
{
    sum_into(words, mesh, shape, axes, true);
}

// The sum of each group in place of its first member's shard; the other words stay.
pub fn sum_first(words: &mut [u32], mesh: &[u16], shape: &[u16], axes: types::AxisList)
    requires { Reducing mesh.now shape.now (axes_of axes) (length words.old) }
    ensures { words.new ≡ summed_buffer add_words 0 mesh.now shape.now (axes_of axes) 1 words.old }
{
    sum_into(words, mesh, shape, axes, false);
}
