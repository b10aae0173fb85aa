// The rows that stand first in lent memory.
ghost use Rattle.std.specs.Prelude.{◌≡◌, ℕ, ◌+◌, ◌-◌, ◌*◌, ◌<◌, ◌≤◌, ◌↔◌, ◌++◌, Bool, [], ◌∷◌, IsTrue, MatchOption, length, take, drop, filter, slice_index_or, slice_set};
ghost use Rattle.rows.specs.Cells.{shifted};

use crate::access::{put, put_all};
use crate::cells::{clear, close, open};
use crate::limits::over;
use crate::row::Row;
use crate::search::Search;
use std::alloc::AllocError;
use std::marker::PhantomData;
use visit::{Ordered, Terms, place};

// Read only. Two types, as `&` and `&mut` are two: this one is copied, and a table changes.
#[derive(Copy)]
pub struct Rows<'a, R: Row> {
    pub cells: &'a [u64],
    pub len: usize,
    pub of: PhantomData<R>,
    ghost fits: { len * R.WIDTH ≤ length cells.now },
}

#[derive(Drop)]
pub struct Table<'a, R: Row> {
    pub cells: &'a mut [u64],
    pub len: usize,
    pub of: PhantomData<R>,
    ghost fits: { len * R.WIDTH ≤ length cells.now },
}

// By hand: a derive is refused over a ghost field.
impl<R: Row> Clone for Rows<'_, R> {
    ghost use Rattle.std.specs.Prelude.{⊤};

    ghost is_clone = { λ x y. y ≡ x };

    ghost is_infallible = { λ _. ⊤ };

    fn clone(&self) -> Result<Self, AllocError> {
        Ok(*self)
    }
}

impl<'a, R: Row> Rows<'a, R> {
    ghost use Rattle.rows.specs.Limits.{first_over};
    ghost use Rattle.rows.specs.Tables.{rows_seen};
    ghost use Rattle.std.specs.List.{repeat, slice_get};

    // Here the fact that the rows fit goes into the type.
    pub fn new(cells: &'a [u64], len: usize) -> Rows<'a, R>
        requires { len * R.WIDTH ≤ length cells.now }
        ensures cells { result.cells.now ≡ cells.now }
        ensures len { result.len ≡ len }
    {
        Rows {
            cells,
            len,
            of: PhantomData,
        }
    }

    pub fn row(&self, i: usize) -> R
        requires { i < self.now.len }
        ensures { (d : R) → result ≡ slice_index_or (rows_seen self.now) i d }
    {
        R::read(&self.cells[i * R::WIDTH..])
    }

    pub fn get(&self, i: usize) -> Option<R>
        ensures { result ≡ slice_get (rows_seen self.now) i }
    {
        if i < self.len {
            Some(self.row(i))
        } else {
            None
        }
    }

    // The first row, and the others.
    pub fn split_first(&self) -> Option<(R, Rows<'a, R>)>
        ensures { MatchOption result (rows_seen self.now ≡ []) (λ p. rows_seen self.now ≡ p.0 ∷ rows_seen p.1) }
    {
        if self.len == 0 {
            return None;
        }
        let rest = Rows::new(&self.cells[R::WIDTH..], self.len - 1);
        Some((self.row(0), rest))
    }

    // The rows before `at`, and those from there on.
    pub fn split_at(&self, at: usize) -> (Rows<'a, R>, Rows<'a, R>)
        requires { at ≤ self.now.len }
        ensures front { rows_seen result.0 ≡ take at (rows_seen self.now) }
        ensures rest { rows_seen result.1 ≡ drop at (rows_seen self.now) }
        ensures front_len { result.0.len ≡ at }
        ensures rest_len { result.1.len ≡ self.now.len - at }
    {
        let (front, rest) = self.cells.split_at(at * R::WIDTH);
        (Rows::new(front, at), Rows::new(rest, self.len - at))
    }

    // The place of the first number that is not below its limit.
    pub fn first_over(&self) -> Option<usize>
        ensures { result ≡ first_over 0 (repeat self.now.len R.limits) self.now.cells.now }
    {
        let w = R::WIDTH;
        // By place, since the answer is one.
        for i in 0..self.len {
            if let Some(cell) = over(&self.cells[i * w..i * w + w], R::limits()) {
                return Some(i * w + cell);
            }
        }
        None
    }
}

impl<R: Row + Ordered> Rows<'_, R> {
    ghost use Rattle.rows.specs.Search.{Allows};
    ghost use Rattle.rows.specs.Tables.{rows_seen};
    ghost use Rattle.std.specs.List.{prefix_len};
    ghost use Rattle.visit.specs.Order.{RisingBy};

    // How many rows come before this one, up to the first that does not.
    pub fn place(&self, row: R, terms: Terms, search: Search) -> usize
        requires order { Allows search (RisingBy (R.precedes terms) (rows_seen self.now)) }
        ensures within { result ≤ self.now.len }
        ensures before { result ≡ prefix_len (λ x. R.precedes terms x row) (rows_seen self.now) }
    {
        match search {
            Search::FromFront => place(self.iter(), row, terms),
            Search::ByHalves => self.place_by_halves(row, terms),
        }
    }

    // The place is `low` or up to `size` further. A step is chosen and not jumped to, since no processor could foretell which.
    #[tactic(auto, using(crate::proofs::Halves::place_within))]
    fn place_by_halves(&self, row: R, terms: Terms) -> usize
        requires order { RisingBy (R.precedes terms) (rows_seen self.now) }
        ensures within { result ≤ self.now.len }
        ensures before { result ≡ prefix_len (λ x. R.precedes terms x row) (rows_seen self.now) }
    {
        let mut low = 0;
        let mut size = self.len;
        while 1 < size {
            let half = size / 2;
            low += if self.is_before(low + half, row, terms) {
                half
            } else {
                0
            };
            size -= half;
        }
        if size == 1 && self.is_before(low, row, terms) {
            low + 1
        } else {
            low
        }
    }

    // Whether row `at` comes before this one, which in order says on which side of it the place is.
    fn is_before(&self, at: usize, row: R, terms: Terms) -> bool
        requires order { RisingBy (R.precedes terms) (rows_seen self.now) }
        requires within { at < self.now.len }
        ensures { IsTrue result ↔ at < prefix_len (λ x. R.precedes terms x row) (rows_seen self.now) }
    {
        self.row(at).before(row, terms)
    }
}

impl<'a, R: Row> Table<'a, R> {
    ghost use Rattle.rows.specs.Tables.{Becomes, HasRoom, rows_of, rows_seen};
    ghost use Rattle.rows.specs.Tests.{Answers};
    ghost use Rattle.std.specs.List.{insert, remove};

    // Here the fact that the rows fit goes into the type.
    pub fn new(cells: &'a mut [u64], len: usize) -> Table<'a, R>
        requires { len * R.WIDTH ≤ length cells.old }
        ensures same { result.cells.ghost_name ≡ cells.entry.ghost_name }
        ensures cells { result.cells.now ≡ cells.old }
        ensures len { result.len ≡ len }
    {
        Table {
            cells,
            len,
            of: PhantomData,
        }
    }

    pub fn rows(&self) -> Rows<'_, R>
        ensures cells { result.cells.now ≡ self.now.cells.now }
        ensures len { result.len ≡ self.now.len }
    {
        Rows::new(self.cells, self.len)
    }

    pub fn row(&self, i: usize) -> R
        requires { i < self.now.len }
        ensures { (d : R) → result ≡ slice_index_or (rows_of self.now) i d }
    {
        self.rows().row(i)
    }

    pub fn put(&mut self, i: usize, row: R)
        requires { i < self.old.len }
        ensures after { Becomes self.old self.new self.old.len (slice_set (rows_of self.old) i row) }
    {
        put(self.cells, i, row);
    }

    // The `gone` rows from `at` on give way to other rows, more or fewer. Where rows stood and none stands now, the cells are 0.
    pub fn replace(&mut self, at: usize, gone: usize, rows: &[R])
        requires place { at + gone ≤ self.old.len }
        requires room { HasRoom self.old (length rows.now - gone) }
        ensures after { Becomes self.old self.new (self.old.len + (length rows.now - gone)) (take at (rows_of self.old) ++ (rows.now ++ drop (at + gone) (rows_of self.old))) }
    {
        shift::<R>(self.cells, self.len, at + gone, at + rows.len());
        put_all(self.cells, at, rows);
        self.len = self.len - gone + rows.len();
    }

    pub fn insert(&mut self, at: usize, row: R)
        requires place { at ≤ self.old.len }
        requires room { HasRoom self.old 1 }
        ensures after { Becomes self.old self.new (self.old.len + 1) (insert (rows_of self.old) at row) }
    {
        shift::<R>(self.cells, self.len, at, at + 1);
        self.len += 1;
        self.put(at, row);
    }

    pub fn remove(&mut self, at: usize)
        requires { at < self.old.len }
        ensures after { Becomes self.old self.new self.old.len (remove (rows_of self.old) at) }
    {
        self.replace(at, 1, &[]);
    }

    // Only the first `len` rows stay.
    pub fn truncate(&mut self, len: usize)
        requires { len ≤ self.old.len }
        ensures after { Becomes self.old self.new self.old.len (take len (rows_of self.old)) }
    {
        self.replace(len, self.len - len, &[]);
    }

    // Rows that pass move to the front in their order, and the cells that they leave are 0.
    pub fn retain<F: Fn(R) -> bool>(&mut self, test: F)
        requires { F.IsAlwaysCallable test }
        ensures same { self.new.cells.ghost_name ≡ self.old.cells.ghost_name }
        ensures few { self.new.len ≤ self.old.len }
        ensures after { (p : R → Bool) → Answers (F.post test) p → Becomes self.old self.new self.old.len (filter p (rows_of self.old)) }
    {
        let mut to = 0;
        // By place, since the rows that are read are written too.
        for i in 0..self.len {
            let row = self.row(i);
            if test(row) {
                // What stays at its place is not written again.
                if to < i {
                    self.put(to, row);
                }
                to += 1;
            }
        }
        let w = R::WIDTH;
        clear(self.cells, to * w, self.len * w);
        self.len = to;
    }
}

// The rows from `from` up to n, moved so that they begin at row `to`. Over the cells: a method would have to say besides that the count and the memory stay.
#[tactic(auto, using(crate::proofs::Replaced::shifted_open, crate::proofs::Replaced::shifted_close, crate::proofs::Replaced::shifted_none))]
fn shift<R: Row>(table: &mut [u64], n: usize, from: usize, to: usize)
    requires place { from ≤ n }
    requires room { (n + (to - from)) * R.WIDTH ≤ length table.old }
    ensures { table.new ≡ shifted R.WIDTH n from to table.old }
{
    let w = R::WIDTH;
    if from < to {
        open(table, from * w, n * w, (to - from) * w);
    } else if to < from {
        close(table, to * w, n * w, (from - to) * w);
    }
}
