// The steps that only move words, as one copy with strides: all-slice, all-gather and all-to-all, and the slices of a reduce-scatter, which are cut
// from the sums of the groups. The digits are set up once a step; nothing is divided after that. specs/Moves.antt says what the digits are.
#![tactic(auto)]

ghost use Rattle.std.specs.Prelude.{◌≡◌, ◌∷◌, ◌-◌, ◌*◌, ◌/◌, ◌≤◌, length, drop};
ghost use Rattle.rules.specs.Lists.{product};
ghost use Rattle.rules.specs.Mesh.{devices, span};
ghost use Rattle.rules.specs.Spread.{from};
ghost use Rattle.types.specs.Types.{axes_of};
ghost use Rattle.digits.specs.Digits.{mesh_strides, cleared, axis_digits};
ghost use Rattle.moves.specs.Moves.{moved_shape, lists, moved_buffer, first_buffer, with_slice, step_digits};
ghost use Rattle.moves.specs.Moves.{Moving, Along, Reading, Slicing, Adding, Dimension, Dimensions, DimensionsAt, Setting};

use digits::{axis_digits, fill_strides, mesh_digits};
use mesh::{product_from, size_at, span_of};
use strided::{copy_digits, put_digit};
use types;

// The most numbers of a step's digits.
const ROOM: usize = 3 * (types::Axis::MOST + types::Dim::MOST + types::Axis::MOST);

// The strides of the shards that are read, of m words: those of the devices, with those of a list of axes cleared.
fn read_strides(strides: &mut [usize], mesh: &[u16], axes: types::AxisList, m: usize)
    requires { Reading strides.old mesh.now (axes_of axes) m }
    ensures { strides.new ≡ cleared (axes_of axes) (mesh_strides mesh.now m) }
{
    fill_strides(strides, mesh, m);
    for axis in axes.as_slice() {
        strides[axis.0 as usize] = 0;
    }
}

// Adds the strides of a list of sliced axes, where the pieces are v words apart.
fn add_slice(added: &mut [usize], mesh: &[u16], axes: types::AxisList, v: usize)
    requires { Slicing added.old mesh.now (axes_of axes) v }
    ensures { added.new ≡ with_slice mesh.now (axes_of axes) v added.old }
{
    let mut words = v;
    for i in (0..axes.len()).rev() {
        let axis = axes.at(i);
        added[axis.0 as usize] += words;
        words *= size_at(mesh, axis);
    }
}

// Adds strides to others.
fn add_strides(strides: &mut [usize], added: &[usize])
    requires { Adding strides.old added.now }
    ensures { strides.new ≡ from strides.old added.now }
{
    for (i, more) in added.iter().enumerate() {
        strides[i] += *more;
    }
}

// The digits of one dimension of size n, whose words are w apart, before those at end. Answers the words that all these digits count.
fn dim_digits(
    digits: &mut [usize],
    strides: &mut [usize],
    added: &mut [usize],
    mesh: &[u16],
    gathered: types::AxisList,
    sliced: types::AxisList,
    n: usize,
    w: usize,
    end: usize,
    inner: usize,
) -> usize
    requires { Dimension digits.old strides.old added.old mesh.now (axes_of gathered) (axes_of sliced) n w end inner }
    ensures value { result ≡ span mesh.now (axes_of gathered) * (n / span mesh.now (axes_of sliced) * inner) }
    ensures digits_after { drop (end - 3 - 3 * length (axes_of gathered)) digits.new ≡ axis_digits mesh.now (axes_of gathered)
        strides.old ((n / span mesh.now (axes_of sliced)) ∷ inner ∷ w ∷ drop end digits.old) }
    ensures strides_after { strides.new ≡ cleared (axes_of gathered) strides.old }
    ensures added_after { added.new ≡ with_slice mesh.now (axes_of sliced) (n / span mesh.now (axes_of sliced) * w)
        added.old }
{
    let piece = n / span_of(mesh, sliced);
    let first = end - 3;
    put_digit(digits, first, piece, inner, w);
    let count = piece * inner;
    let all = axis_digits(digits, strides, mesh, gathered, first, count);
    add_slice(added, mesh, sliced, piece * w);
    all
}

// What a step does to the shards of a shape: each dimension is gathered and sliced by a list of axes.
#[derive(Clone, Copy)]
struct Move<'a> {
    mesh: &'a [u16],
    shape: &'a [u16],
    gathers: types::DimLists,
    slices: types::DimLists,
}

impl Move<'_> {
    // The digits of all dimensions, at the end of the slice. Answers where they begin.
    fn shape_digits(self, digits: &mut [usize], strides: &mut [usize], added: &mut [usize]) -> usize
        requires { Dimensions digits.old strides.old added.old self.mesh.now self.shape.now (lists self.shape.now self.gathers)
            (lists self.shape.now self.slices) }
        ensures { DimensionsAt self.entry.mesh.now self.entry.shape.now (lists self.entry.shape.now self.entry.gathers)
            (lists self.entry.shape.now self.entry.slices) strides.old added.old digits.new strides.new added.new result
            (product (moved_shape self.entry.mesh.now self.entry.shape.now (lists self.entry.shape.now self.entry.gathers) (lists self.entry.shape.now self.entry.slices)))
            (product self.entry.shape.now) 0 }
    {
        let mut first = digits.len();
        let mut count: usize = 1;
        let mut w: usize = 1;
        for j in (0..self.shape.len()).rev() {
            let dim = types::Dim(j as u8);
            let gathered = self.gathers.at(dim);
            let sliced = self.slices.at(dim);
            let n = self.shape[j] as usize;
            count = dim_digits(
                digits, strides, added, self.mesh, gathered, sliced, n, w, first, count,
            );
            first -= 3 + 3 * gathered.len();
            w *= n;
        }
        first
    }

    // The digits of the step, where new shards have so many words, at the end of the slice. Answers where they begin.
    fn make_digits(
        self,
        digits: &mut [usize],
        strides: &mut [usize],
        added: &mut [usize],
        along: types::AxisList,
        words: usize,
    ) -> usize
        requires { Setting digits.old strides.old added.old self.mesh.now self.shape.now (axes_of along) (lists self.shape.now self.gathers)
            (lists self.shape.now self.slices) words }
        ensures { drop result digits.new ≡ step_digits self.entry.mesh.now self.entry.shape.now (axes_of along)
            (lists self.entry.shape.now self.entry.gathers) (lists self.entry.shape.now self.entry.slices) }
    {
        let m = product_from(self.shape, 0);
        read_strides(strides, self.mesh, along, m);
        let end = self.shape_digits(digits, strides, added);
        add_strides(strides, added);
        mesh_digits(digits, strides, self.mesh, end, words);
        end - 3 * self.mesh.len()
    }
}

// A move of words in which each device reads the first member of its group along a list of axes in place of itself: the new state, of shards of the
// given words, at the front of new, whose other words stay.
pub fn move_first(
    old: &[u32],
    new: &mut [u32],
    mesh: &[u16],
    shape: &[u16],
    along: types::AxisList,
    gathers: types::DimLists,
    slices: types::DimLists,
    words: usize,
)
    requires moving { Moving mesh.now shape.now (lists shape.now gathers) (lists shape.now slices) }
    requires along { Along mesh.now (axes_of along) }
    requires words_value { words ≡ product (moved_shape mesh.now shape.now (lists shape.now gathers) (lists shape.now slices)) }
    requires shape_in_bounds { (devices mesh.now * product shape.now ≤ length old.now) × (devices mesh.now * words ≤ length new.old) }
    ensures { new.new ≡ first_buffer 0 mesh.now shape.now (axes_of along) (lists shape.now gathers)
        (lists shape.now slices) words old.now new.old }
{
    let n = mesh.len();
    let mut digits = [0usize; ROOM];
    let mut strides = [0usize; types::Axis::MOST];
    let mut added = [0usize; types::Axis::MOST];
    let step = Move {
        mesh,
        shape,
        gathers,
        slices,
    };
    let first = step.make_digits(
        &mut digits,
        &mut strides[..n],
        &mut added[..n],
        along,
        words,
    );
    let all = product_from(mesh, 0) * words;
    copy_digits(&mut new[..all], old, &digits[first..]);
}

// All-slice, all-gather, all-to-all: the same, where each device reads its own shard.
pub fn move_into(
    old: &[u32],
    new: &mut [u32],
    mesh: &[u16],
    shape: &[u16],
    gathers: types::DimLists,
    slices: types::DimLists,
    words: usize,
)
    requires moving { Moving mesh.now shape.now (lists shape.now gathers) (lists shape.now slices) }
    requires words_value { words ≡ product (moved_shape mesh.now shape.now (lists shape.now gathers) (lists shape.now slices)) }
    requires shape_in_bounds { (devices mesh.now * product shape.now ≤ length old.now) × (devices mesh.now * words ≤ length new.old) }
    ensures { new.new ≡ moved_buffer 0 mesh.now shape.now (lists shape.now gathers)
        (lists shape.now slices) words old.now new.old }
{
    let own = types::AxisList::empty();
    move_first(old, new, mesh, shape, own, gathers, slices, words);
}
