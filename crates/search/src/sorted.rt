ghost use Rattle.std.specs.Prelude.{◌≡◌, ℕ, ◌-◌, Bool};
ghost use Rattle.frame.specs.declared.bound.WindowFrameBound.{WindowFrameBound};
ghost use Rattle.meaning.specs.declared.options.SortOptions.{SortOptions};
ghost use Rattle.meaning.specs.Counts.{walk};
ghost use Rattle.search.specs.Tests.{ComputesAgainst, orderly, led, reached_at};
ghost use Rattle.search.specs.Views.{total_of, if_below};

use crate::order::{is_before, leads, reaches};
use crate::walks::first_that_fails;
use frame::bound::WindowFrameBound;
use meaning::options::SortOptions;
use transcript::keys::KeyKind;
use transcript::view::Transcript;

// The first line from `from` on that is ordered before the one before it, if any.
pub fn first_disorder<K: KeyKind, V: Transcript<Key = K>>(
    view: &V,
    options: SortOptions,
    from: u32,
) -> Option<u32>
    ensures { result ≡ if_below (total_of (V.Transcript.starts view.now) (V.Transcript.lines view.now)) (walk (orderly K.KeyKind.rank (V.Transcript.starts view.now) (V.Transcript.lines view.now) options) from (total_of (V.Transcript.starts view.now) (V.Transcript.lines view.now) - from)) }
{
    let total = view.total();
    if from >= total {
        return None;
    }
    let mut before = view.line(from.saturating_sub(1));
    for n in from..total {
        let here = view.line(n);
        if is_before(options, here, before) {
            return Some(n);
        }
        before = here;
    }
    None
}

// The first line from `from` on that fails a test against `line`, such as `leads` or `reaches`.
fn first_that_fails_against<
    K: KeyKind,
    V: Transcript<Key = K>,
    F: Fn(SortOptions, WindowFrameBound, Option<K>, Option<K>) -> bool,
>(view: &V, options: SortOptions, bound: WindowFrameBound, line: u32, from: u32, passes: F) -> u32
    requires { F.IsAlwaysCallable passes }
    ensures { (p : ℕ → Bool) → ComputesAgainst (F.post passes) (V.Transcript.starts view.now) (V.Transcript.lines view.now) options bound line p from → result ≡ walk p from (total_of (V.Transcript.starts view.now) (V.Transcript.lines view.now) - from) }
{
    let asked = view.line(line);
    first_that_fails(
        from,
        view.total(),
        |n| passes(options, bound, view.line(n), asked),
    )
}

// The first line from `from` on that is not ordered before the target of a bound from `line`.
pub fn range_start<K: KeyKind, V: Transcript<Key = K>>(
    view: &V,
    options: SortOptions,
    bound: WindowFrameBound,
    line: u32,
    from: u32,
) -> u32
    ensures { result ≡ walk (led K.KeyKind.rank (V.Transcript.starts view.now) (V.Transcript.lines view.now) options bound line) from (total_of (V.Transcript.starts view.now) (V.Transcript.lines view.now) - from) }
{
    first_that_fails_against(view, options, bound, line, from, leads)
}

// The first line from `from` on that is ordered after the target of a bound from `line`.
pub fn range_end<K: KeyKind, V: Transcript<Key = K>>(
    view: &V,
    options: SortOptions,
    bound: WindowFrameBound,
    line: u32,
    from: u32,
) -> u32
    ensures { result ≡ walk (reached_at K.KeyKind.rank (V.Transcript.starts view.now) (V.Transcript.lines view.now) options bound line) from (total_of (V.Transcript.starts view.now) (V.Transcript.lines view.now) - from) }
{
    first_that_fails_against(view, options, bound, line, from, reaches)
}

// A test of a line, a key or unmarked, against another, under a bound: as in `walks`, a type and no closure.
// `answers` relates two lines to what the test may answer of them.
pub trait RangeTest<L> {
    ghost answers: { Self → SortOptions → WindowFrameBound → L → L → Bool → Type 0 };

    fn passes_against(
        &self,
        options: SortOptions,
        bound: WindowFrameBound,
        tested: L,
        asked: L,
    ) -> bool
        ensures { answers self.now options bound tested asked result };
}

// The first line from `from` on that fails a test against `line`; the total, or `from` if that is larger, where
// all pass.
pub fn range_edge<K: KeyKind, V: Transcript<Key = K>, T: RangeTest<Option<K>>>(
    view: &V,
    options: SortOptions,
    bound: WindowFrameBound,
    line: u32,
    from: u32,
    test: &T,
) -> u32
    ensures { (p : ℕ → Bool) → ComputesAgainst (T.answers test.now) (V.Transcript.starts view.now) (V.Transcript.lines view.now) options bound line p from → result ≡ walk p from (total_of (V.Transcript.starts view.now) (V.Transcript.lines view.now) - from) }
{
    first_that_fails_against(
        view,
        options,
        bound,
        line,
        from,
        |o, b, x, y| test.passes_against(o, b, x, y),
    )
}

#[cfg(test)]
mod tests {
    use super::*;
    use std::test::Fail;
    use transcript::keys::elapsed::Elapsed;
    use transcript::stamps::StampView;

    // Whether a line is ordered before the other, whatever the bound.
    #[derive(Drop)]
    struct Before;

    impl<K: KeyKind> RangeTest<Option<K>> for Before {
        ghost use Rattle.std.specs.Option.{option_map};
        ghost use Rattle.meaning.specs.Ranges.{before};

        ghost answers = { λ t o b x y r. r ≡ before o (option_map K.KeyKind.rank x) (option_map K.KeyKind.rank y) };

        fn passes_against(
            &self,
            options: SortOptions,
            _bound: WindowFrameBound,
            tested: Option<K>,
            asked: Option<K>,
        ) -> bool {
            is_before(options, tested, asked)
        }
    }

    #[test]
    fn a_range_edge_is_where_a_test_first_fails(rt: HostRuntime) -> Result<(), Fail> {
        let stamps = [100, 100, 200, 300].map(|t| Some(Elapsed(t)));
        let view = StampView::new(7, &stamps)?;
        let bound = WindowFrameBound::CurrentRow;
        let rising = SortOptions {
            descending: false,
            unmarked_first: false,
        };
        let falling = SortOptions {
            descending: true,
            ..rising
        };
        assert_eq!(rt; range_edge(&view, rising, bound, 9, 7, &Before), 9);
        assert_eq!(rt; range_edge(&view, rising, bound, 7, 7, &Before), 7);
        assert_eq!(rt; range_edge(&view, falling, bound, 9, 7, &Before), 7);
        assert_eq!(rt; range_edge(&view, falling, bound, 9, 10, &Before), 11);
        assert_eq!(rt; range_edge(&view, rising, bound, 9, 12, &Before), 12);
        Ok(())
    }
}
