ghost use Rattle.std.specs.Prelude.{◌≡◌, ℕ, ◌+◌, ◌-◌, ◌≤◌, Bool};
ghost use Rattle.meaning.specs.Counts.{walk, how_many_from};
ghost use Rattle.search.specs.Tests.{Computes, alike, parts_at, orderly, led, reached_at};

use crate::order::{is_before, is_same, leads, reaches};
use frame::bound::WindowFrameBound;
use meaning::options::SortOptions;
use transcript::keys::KeyKind;
use transcript::view::Transcript;

// A test of line numbers. A public search is given one, and no closure: a function that calls a closure has
// to ask of its caller that it may be called.
pub trait LineTest {
    ghost passes: { Self → ℕ → Bool };

    fn passes_at(&self, n: u32) -> bool
        ensures { result ≡ passes self.now n };
}

// The first line from `from` on that does not pass; `total`, or `from` if that is larger, where all pass.
pub fn first_failing<T: LineTest>(test: &T, from: u32, total: u32) -> u32
    ensures { result ≡ walk (T.LineTest.passes test.now) from (total - from) }
{
    first_that_fails(from, total, |n| test.passes_at(n))
}

// How many lines from `from` to before `total` pass.
pub fn count_passing<T: LineTest>(test: &T, from: u32, total: u32) -> u32
    ensures { result ≡ how_many_from (T.LineTest.passes test.now) from (total - from) }
{
    how_many_pass(from, total, |n| test.passes_at(n))
}

// The first number from `from` on that does not pass; `total`, or `from` if that is larger, where all pass.
pub(crate) fn first_that_fails<F: Fn(u32) -> bool>(from: u32, total: u32, passes: F) -> u32
    requires { F.IsAlwaysCallable passes }
    ensures { (p : ℕ → Bool) → Computes (F.post passes) p from total → result ≡ walk p from (total - from) }
{
    (from..total)
        .find(|n| !passes(*n))
        .unwrap_or(total.max(from))
}

// How many numbers from `from` to before `total` pass.
pub(crate) fn how_many_pass<F: Fn(u32) -> bool>(from: u32, total: u32, passes: F) -> u32
    requires { F.IsAlwaysCallable passes }
    ensures counted { (p : ℕ → Bool) → Computes (F.post passes) p from total → result ≡ how_many_from p from (total - from) }
    ensures bound { result ≤ total - from }
{
    (from..total).filter(|n| passes(*n)).count() as u32
}

// Whether line `n` is the same as the one before it.
pub(crate) fn is_alike<K: KeyKind, V: Transcript<Key = K>>(view: &V, n: u32) -> bool
    ensures { result ≡ alike K.KeyKind.rank (V.Transcript.starts view.now) (V.Transcript.lines view.now) n }
{
    is_same(view.line(n.saturating_sub(1)), view.line(n))
}

// A line is the same as the one before it.
#[derive(Drop)]
pub struct Alike<'a, V> {
    pub view: &'a V,
}

impl<'a, K: KeyKind, V: Transcript<Key = K>> LineTest for Alike<'a, V> {
    ghost passes = { λ t j. alike K.KeyKind.rank (V.Transcript.starts t.view.now) (V.Transcript.lines t.view.now) j };

    fn passes_at(&self, n: u32) -> bool {
        is_alike(self.view, n)
    }
}

// A line is not the same as the one before it.
#[derive(Drop)]
pub struct Parts<'a, V> {
    pub view: &'a V,
}

impl<'a, K: KeyKind, V: Transcript<Key = K>> LineTest for Parts<'a, V> {
    ghost passes = { λ t j. parts_at K.KeyKind.rank (V.Transcript.starts t.view.now) (V.Transcript.lines t.view.now) j };

    fn passes_at(&self, n: u32) -> bool {
        !is_alike(self.view, n)
    }
}

// A line is not ordered before the one before it.
#[derive(Drop)]
pub struct Orderly<'a, V> {
    pub view: &'a V,
    pub options: SortOptions,
}

impl<'a, K: KeyKind, V: Transcript<Key = K>> LineTest for Orderly<'a, V> {
    ghost passes = { λ t j. orderly K.KeyKind.rank (V.Transcript.starts t.view.now) (V.Transcript.lines t.view.now) t.options j };

    fn passes_at(&self, n: u32) -> bool {
        let before = self.view.line(n.saturating_sub(1));
        !is_before(self.options, self.view.line(n), before)
    }
}

// A line is ordered before the target of a bound from another line.
#[derive(Drop)]
pub struct Leads<'a, V> {
    pub view: &'a V,
    pub options: SortOptions,
    pub bound: WindowFrameBound,
    pub line: u32,
}

impl<'a, K: KeyKind, V: Transcript<Key = K>> LineTest for Leads<'a, V> {
    ghost passes = { λ t j. led K.KeyKind.rank (V.Transcript.starts t.view.now) (V.Transcript.lines t.view.now) t.options t.bound t.line j };

    fn passes_at(&self, n: u32) -> bool {
        let asked = self.view.line(self.line);
        leads(self.options, self.bound, self.view.line(n), asked)
    }
}

// A line is not ordered after the target of a bound from another line.
#[derive(Drop)]
pub struct Reaches<'a, V> {
    pub view: &'a V,
    pub options: SortOptions,
    pub bound: WindowFrameBound,
    pub line: u32,
}

impl<'a, K: KeyKind, V: Transcript<Key = K>> LineTest for Reaches<'a, V> {
    ghost passes = { λ t j. reached_at K.KeyKind.rank (V.Transcript.starts t.view.now) (V.Transcript.lines t.view.now) t.options t.bound t.line j };

    fn passes_at(&self, n: u32) -> bool {
        let asked = self.view.line(self.line);
        reaches(self.options, self.bound, self.view.line(n), asked)
    }
}
