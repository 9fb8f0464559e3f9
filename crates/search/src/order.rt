ghost use Rattle.std.specs.Prelude.{◌≡◌, true, false, not, if◌then◌else◌};
ghost use Rattle.std.specs.Option.{option_map};
ghost use Rattle.meaning.specs.Clause.{same_line};
ghost use Rattle.meaning.specs.Ranges.{before, key_leads, target};

use frame::bound::WindowFrameBound;
use meaning::options::SortOptions;
use transcript::keys::KeyKind;

// Whether two lines are the same: the same keys, or both unmarked.
pub fn is_same<K: KeyKind>(x: Option<K>, y: Option<K>) -> bool
    ensures { result ≡ same_line (option_map K.KeyKind.rank x) (option_map K.KeyKind.rank y) }
{
    match (x, y) {
        (Some(a), Some(b)) => a.same(b),
        (None, None) => true,
        _ => false,
    }
}

// Two keys as they rise: the other way round where lines are ordered falling.
fn as_rising<K>(options: SortOptions, a: K, b: K) -> (K, K)
    ensures { result ≡ (if options.descending then (b, a) else (a, b)) }
{
    if options.descending { (b, a) } else { (a, b) }
}

// Whether line `x` is ordered before line `y`.
pub fn is_before<K: KeyKind>(options: SortOptions, x: Option<K>, y: Option<K>) -> bool
    ensures { result ≡ before options (option_map K.KeyKind.rank x) (option_map K.KeyKind.rank y) }
{
    match (x, y) {
        (Some(a), Some(b)) => {
            if options.descending {
                b.before(a)
            } else {
                a.before(b)
            }
        }
        (Some(_), None) => !options.unmarked_first,
        (None, Some(_)) => options.unmarked_first,
        (None, None) => false,
    }
}

// Whether key `a` is ordered before the target of a bound from key `b`, where `a` and `b` are the two keys as
// they rise.
fn key_leads<K: KeyKind>(bound: WindowFrameBound, a: K, b: K) -> bool
    ensures rising { result ≡ key_leads false bound (K.KeyKind.rank a) (K.KeyKind.rank b) }
    ensures falling { result ≡ key_leads true bound (K.KeyKind.rank b) (K.KeyKind.rank a) }
{
    match bound {
        WindowFrameBound::Preceding(n) => !a.within(b, n),
        WindowFrameBound::Following(n) if n > 0 => b.within(a, n - 1),
        _ => a.before(b),
    }
}

// Whether line `x` is ordered before the target of a bound from line `y`.
pub fn leads<K: KeyKind>(
    options: SortOptions,
    bound: WindowFrameBound,
    x: Option<K>,
    y: Option<K>,
) -> bool
    ensures { result ≡ before options (option_map K.KeyKind.rank x) (target options bound (option_map K.KeyKind.rank y)) }
{
    match (x, y) {
        (Some(a), Some(b)) => {
            let (a, b) = as_rising(options, a, b);
            key_leads(bound, a, b)
        }
        _ => is_before(options, x, y),
    }
}

// Whether line `x` is not ordered after the target of a bound from line `y`: `y` is not ordered before the
// target, as far the other way, from `x`.
pub fn reaches<K: KeyKind>(
    options: SortOptions,
    bound: WindowFrameBound,
    x: Option<K>,
    y: Option<K>,
) -> bool
    ensures { result ≡ not (before options (target options bound (option_map K.KeyKind.rank y)) (option_map K.KeyKind.rank x)) }
{
    !leads(options, bound.turn(), y, x)
}
