// A copy of words with strides: the words that digits name, in row-major order of the digits. Nothing is divided. Digits are joined first where
// one goes on from the other, so that the innermost loops are long, and words that a digit names again are repeated by long copies. specs/Strided.antt
// says what digits are.
#![tactic(auto)]

ghost use Rattle.std.specs.Prelude.{◌≡◌, ◌∷◌, ◌++◌, ◌+◌, ◌≤◌, ◌<◌, length, get_or, take, drop};
ghost use Rattle.rules.specs.Lists.{tab};
ghost use Rattle.strided.specs.Strided.{digit_room, Row, Rows, Copy, Period, Part, Joining, Putting, Alike, plane_digits, row, rows, repeated, copied};

// The most numbers of a copy's digits, and of one more.
const ROOM: usize = 3 * 17;

// As many words as stay near the processor when they are read again and again.
const NEAR: usize = 4096;

// The first words of from, in fours: each four is read before it is written, so that the compiler can move it as one. Answers how many words that is.
// Stays: (b) by `for` over the fours, copies of rows of 3, 4 and 6 words take 1.6 to 1.8 times as long.
fn copy_fours(to: &mut [u32], from: &[u32]) -> usize
    requires { length to.old ≡ length from.now }
    ensures upper_bound { (result ≤ length to.old) × (length to.old < result + 4) }
    ensures to_after { to.new ≡ tab result (λ t. get_or from.now t 0) ++ drop result to.old }
{
    let mut t: usize = 0;
    while 4 <= to.len() - t {
        let a = from[t];
        let b = from[t + 1];
        let c = from[t + 2];
        let d = from[t + 3];
        to[t] = a;
        to[t + 1] = b;
        to[t + 2] = c;
        to[t + 3] = d;
        t += 4;
    }
    t
}

// The words of from.
// Stays: (b) by copy_from_slice, copies of rows of 3, 4 and 16 words take 1.8 to 2.9 times as long.
fn copy_run(to: &mut [u32], from: &[u32])
    requires { length to.old ≡ length from.now }
    ensures { to.new ≡ from.now }
{
    for t in copy_fours(to, from)..to.len() {
        to[t] = from[t];
    }
}

// The words of from that are a stride apart, from word at on.
fn copy_apart(to: &mut [u32], from: &[u32], stride: usize, at: usize)
    requires { Row (length to.old) stride at (length from.now) }
    ensures { to.new ≡ row 0 (length to.old) stride at from.now }
{
    for (t, word) in to.iter_mut().enumerate() {
        *word = from[at + t * stride];
    }
}

// The same; words that are next to each other are a run.
fn copy_row(to: &mut [u32], from: &[u32], stride: usize, at: usize)
    requires { Row (length to.old) stride at (length from.now) }
    ensures { to.new ≡ row 0 (length to.old) stride at from.now }
{
    if stride == 1 {
        let end = at + to.len();
        copy_run(to, &from[at..end]);
    } else {
        copy_apart(to, from, stride, at);
    }
}

// Rows of two words. A loop for each row costs more than its words: one turn of this loop copies both.
fn copy_pairs(to: &mut [u32], from: &[u32], count: usize, apart: usize, stride: usize, at: usize)
    requires { Rows (length to.old) count 2 apart stride at (length from.now) }
    ensures { to.new ≡ rows 0 (length to.old) 2 apart stride at from.now }
{
    for i in 0..count {
        let first = i * 2;
        let second = first + 1;
        let a = at + i * apart;
        to[first] = from[a];
        to[second] = from[a + stride];
    }
}

// Rows of len words, row by row.
fn copy_long(
    to: &mut [u32],
    from: &[u32],
    count: usize,
    len: usize,
    apart: usize,
    stride: usize,
    at: usize,
)
    requires { Rows (length to.old) count len apart stride at (length from.now) }
    ensures { to.new ≡ rows 0 (length to.old) len apart stride at from.now }
{
    for i in 0..count {
        let first = i * len;
        let end = first + len;
        copy_row(&mut to[first..end], from, stride, at + i * apart);
    }
}

// Rows of len words, the rows apart from each other, their words a stride apart.
fn copy_rows(
    to: &mut [u32],
    from: &[u32],
    count: usize,
    len: usize,
    apart: usize,
    stride: usize,
    at: usize,
)
    requires { Rows (length to.old) count len apart stride at (length from.now) }
    ensures { to.new ≡ rows 0 (length to.old) len apart stride at from.now }
{
    if len == 2 {
        copy_pairs(to, from, count, apart, stride, at);
    } else {
        copy_long(to, from, count, len, apart, stride, at);
    }
}

// Planes of two rows of two words: one turn of this loop copies a plane, which is read before it is written.
// Stays: (a) nothing is divided for a word (document 02, Ask 4): one loop for these and for pairs would divide a word's place by the row's length.
fn copy_squares(
    to: &mut [u32],
    from: &[u32],
    planes: usize,
    far: usize,
    apart: usize,
    stride: usize,
    at: usize,
)
    requires { Copy (plane_digits planes 4 far 2 2 apart stride) (length to.old) at (length from.now) }
    ensures { to.new ≡ copied 0 (plane_digits planes 4 far 2 2 apart stride) (length to.old) at from.now }
{
    for i in 0..planes {
        let first = i * 4;
        let near = at + i * far;
        let next = near + apart;
        let a = from[near];
        let b = from[near + stride];
        let c = from[next];
        let d = from[next + stride];
        to[first] = a;
        to[first + 1] = b;
        to[first + 2] = c;
        to[first + 3] = d;
    }
}

// Planes of rows, the planes far from each other. All that stands inside is called from here alone, so that the compiler has these loops in one.
fn copy_planes(
    to: &mut [u32],
    from: &[u32],
    planes: usize,
    inner: usize,
    far: usize,
    count: usize,
    len: usize,
    apart: usize,
    stride: usize,
    at: usize,
)
    requires { Copy (plane_digits planes inner far count len apart stride) (length to.old) at (length from.now) }
    ensures { to.new ≡ copied 0 (plane_digits planes inner far count len apart stride) (length to.old) at from.now }
{
    for i in 0..planes {
        let first = i * inner;
        let end = first + inner;
        copy_rows(
            &mut to[first..end],
            from,
            count,
            len,
            apart,
            stride,
            at + i * far,
        );
    }
}

// Planes of rows, the smallest of them apart.
fn copy_leaf(
    to: &mut [u32],
    from: &[u32],
    planes: usize,
    inner: usize,
    far: usize,
    count: usize,
    len: usize,
    apart: usize,
    stride: usize,
    at: usize,
)
    requires { Copy (plane_digits planes inner far count len apart stride) (length to.old) at (length from.now) }
    ensures { to.new ≡ copied 0 (plane_digits planes inner far count len apart stride) (length to.old) at from.now }
{
    if count == 2 {
        if len == 2 {
            copy_squares(to, from, planes, far, apart, stride, at);
            return;
        }
    }
    copy_planes(to, from, planes, inner, far, count, len, apart, stride, at);
}

// The first words again and again, so many as the period is.
fn repeat_words(to: &mut [u32], period: usize)
    requires { (0 < period) × (period ≤ length to.old) }
    ensures { to.new ≡ repeated 0 period (length to.old) to.old }
{
    for t in period..to.len() {
        to[t] = to[t - period];
    }
}

// How many words the next turn repeats: all that are done, or as many as the last turn where these no longer stay near, and no more than are left.
fn part_words(done: usize, last: usize, left: usize) -> usize
    requires { (0 < done) × (0 < last) × (0 < left) }
    ensures { Part done last left result }
{
    let part = if done < NEAR { done } else { last };
    part.min(left)
}

// The first words again and again, in turns that read nothing that they write: such a turn is one long copy.
fn repeat_block(to: &mut [u32], period: usize)
    requires { Period (length to.old) period }
    ensures { to.new ≡ repeated 0 period (length to.old) to.old }
{
    let mut done = period;
    let mut part = period;
    while done < to.len() {
        part = part_words(done, part, to.len() - done);
        let end = done + part;
        repeat_words(&mut to[0..end], done);
        done = end;
    }
}

// The words that the digits name, from word at on. A digit of stride 0 names the same words again: they are copied once and repeated. The last digits,
// three or fewer, are planes of rows.
fn copy_strided(to: &mut [u32], from: &[u32], digits: &[usize], at: usize)
    requires { Copy digits.now (length to.old) at (length from.now) }
    ensures { to.new ≡ copied 0 digits.now (length to.old) at from.now }
{
    let size = digits[0];
    let inner = digits[1];
    let stride = digits[2];
    let words = to.len();
    if inner == 1 {
        copy_leaf(to, from, 1, words, 0, 1, words, 0, stride, at);
        return;
    }
    if stride == 0 {
        copy_strided(&mut to[0..inner], from, &digits[3..], at);
        repeat_block(to, inner);
        return;
    }
    let len = digits[4];
    let next = digits[5];
    if len == 1 {
        copy_leaf(to, from, 1, words, 0, size, inner, stride, next, at);
        return;
    }
    if digits[7] == 1 {
        let rows = digits[3];
        let last = digits[8];
        copy_leaf(to, from, size, inner, stride, rows, len, next, last, at);
        return;
    }
    for i in 0..size {
        let first = i * inner;
        let end = first + inner;
        copy_strided(&mut to[first..end], from, &digits[3..], at + i * stride);
    }
}

// Stores one digit.
pub fn put_digit(digits: &mut [usize], first: usize, size: usize, inner: usize, stride: usize)
    requires { first + 3 ≤ length digits.old }
    ensures { digits.new ≡ take first digits.old ++ size ∷ inner ∷ stride ∷ drop (first + 3) digits.old }
{
    let second = first + 1;
    let third = first + 2;
    digits[first] = size;
    digits[second] = inner;
    digits[third] = stride;
}

// Puts one digit before those at first: in the place of a digit of size 1, not at all where its own size is 1, joined with the digit at first where
// it goes on from that one's end. Answers where the digits begin.
fn put_joined(joined: &mut [usize], first: usize, size: usize, inner: usize, stride: usize) -> usize
    requires { Putting joined.old first (size ∷ inner ∷ stride ∷ drop first joined.old) }
    ensures { (first ≤ result + 3) × Alike (size ∷ inner ∷ stride ∷ drop first joined.old) (drop result joined.new) }
{
    let next = joined[first];
    let apart = joined[first + 2];
    if next == 1 {
        put_digit(joined, first, size, inner, stride);
        return first;
    }
    if size == 1 {
        return first;
    }
    let end = next * apart;
    if stride == end {
        joined[first] = size * next;
        return first;
    }
    let before = first - 3;
    put_digit(joined, before, size, inner, stride);
    before
}

// Joins digits, from the last one to the first, at the end of another slice, where a digit of size 1 stands first. Answers where they begin.
fn join_digits(joined: &mut [usize], digits: &[usize]) -> usize
    requires { Joining digits.now × (length digits.now + 3 ≤ length joined.old) }
    ensures { Alike digits.now (drop result joined.new) }
{
    let mut first = joined.len() - 3;
    put_digit(joined, first, 1, 1, 1);
    for i in (0..digits.len() / 3).rev() {
        let at = i * 3;
        let size = digits[at];
        let inner = digits[at + 1];
        let stride = digits[at + 2];
        first = put_joined(joined, first, size, inner, stride);
    }
    first
}

// The words that the digits name.
pub fn copy_digits(to: &mut [u32], from: &[u32], digits: &[usize])
    requires copy { Copy digits.now (length to.old) 0 (length from.now) }
    requires digits_len_bound { length digits.now ≤ digit_room }
    ensures { to.new ≡ copied 0 digits.now (length to.old) 0 from.now }
{
    let mut joined = [0usize; ROOM];
    let first = join_digits(&mut joined, digits);
    copy_strided(to, from, &joined[first..], 0);
}
