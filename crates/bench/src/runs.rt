use crate::lines::mixed;
use frame::refusal::Refusal;
use packed::scan::scan;
use packed::view::PackedView;
use std::time::Instant;
use transcript::keys::elapsed::Elapsed;
use transcript::view::Transcript;

fn checksum(places: &[u32]) -> u64 {
    places.iter().fold(
        0,
        |sum: u64, place| sum.wrapping_mul(31).wrapping_add(u64::from(*place)),
    )
}

// Every line of a view asked once: how many have a key, and a checksum of the keys.
fn walked<V: Transcript<Key = Elapsed>>(view: &V) -> (u64, u64) {
    (view.first()..view.total())
        .filter_map(|n| view.line(n))
        .fold(
            (0, 0),
            |(marked, sum): (u64, u64), Elapsed(ms)| (
                marked.wrapping_add(1),
                sum.wrapping_mul(31).wrapping_add(ms),
            ),
        )
}

// What a step gives, once its time has been told.
pub(crate) fn timed<T: Drop, F: FnOnce() -> T>(
    rt: &HostRuntime,
    name: &str,
    step: F,
) -> anyhow::Result<T>
    requires { F.IsAlwaysCallable step }
{
    let start = Instant::now(rt)?;
    let given = step();
    let took = start.elapsed(rt)?.as_nanos();
    eprintln!(rt; "{name}: {took} ns")?;
    Ok(given)
}

fn scanned(rt: &HostRuntime, bytes: &[u8], places: &mut [u32]) -> anyhow::Result<()> {
    match timed(rt, "scan", || scan(places, bytes))? {
        Ok(n) => {
            let sum = checksum(places);
            println!(rt; "scan {n} checksum {sum}")?;
        }
        Err(_) => println!(rt; "scan refused")?,
    }
    Ok(())
}

fn viewed(rt: &HostRuntime, bytes: &[u8], places: &[u32]) -> anyhow::Result<()> {
    let made: Result<PackedView<Elapsed>, Refusal> = timed(
        rt,
        "view made",
        || PackedView::new(0, bytes, places),
    )?;
    match made {
        Ok(view) => {
            let (marked, sum) = timed(rt, "view walked", || walked(&view))?;
            println!(rt; "view marked {marked} checksum {sum}")?;
        }
        Err(_) => println!(rt; "view refused")?,
    }
    Ok(())
}

// Scans packed bytes, makes a view of them, and walks it.
pub fn packed(rt: &HostRuntime, size: usize) -> anyhow::Result<()> {
    let heap = rt.alloc();
    let (bytes, count) = mixed(heap, size)?;
    let len = bytes.len();
    println!(rt; "bytes {len}")?;
    let mut places: Vec<u32> = vec![in heap; 0; count]?;
    scanned(rt, bytes.as_slice(), places.as_mut_slice())?;
    viewed(rt, bytes.as_slice(), places.as_slice())
}
