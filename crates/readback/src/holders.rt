use crate::answer::{push_keys, push_numbers};
use crate::args::Args;
use crate::asks::Call;
use crate::command::{Mistake, Trouble};
use crate::keys::{ScriptKey, read_key};
use frame::refusal::Refusal;
use packed::reads::PackedKey;
use packed::scan::scan;
use packed::view::PackedView;
use std::alloc::{AllocError, Global};
use std::marker::PhantomData;
use tracker::filing::{file_packed, file_roll};
use tracker::roll::Roll;
use tracker::tracker::Tracker;
use transcript::stamps::StampView;

// What holds the lines of a sitting: it shows them, has them filed away, and has commands of its own.
pub trait Holder {
    type Key: ScriptKey;

    // With no lines yet, and a table of its own of so many entries.
    fn empty(heap: Global, size: usize) -> Result<Self, AllocError>;

    fn window(
        &self,
        tracker: &mut Tracker<'_, Self::Key>,
        line: u32,
    ) -> Result<(u32, u32), Refusal>;

    fn file(&mut self, tracker: &mut Tracker<'_, Self::Key>, n: u32) -> Result<(u32, u32), Refusal>;

    fn own(&mut self, heap: Global, call: Call, args: &mut Args) -> Result<String, Trouble>;
}

// A roll over an array of slots.
#[derive(Drop)]
pub struct RollHolder<K> {
    pub roll: Roll,
    pub slots: Vec<Option<K>>,
}

impl<K: ScriptKey> RollHolder<K> {
    // The answer to `line KEY`.
    fn add_line(&mut self, heap: Global, args: &mut Args) -> Result<String, Trouble> {
        let key: Option<K> = read_key(args.word()?)?;
        args.end()?;
        let n = self.roll.add(self.slots.as_mut_slice(), key)?;
        Ok(format!(in heap; "line {n}")?)
    }

    // The answer to `roll`.
    fn shown(&self, heap: Global, args: &mut Args) -> Result<String, Trouble> {
        args.end()?;
        let (first, count) = self.roll.numbers();
        let mut text = format!(in heap; "roll {first} {count}")?;
        push_keys(&mut text, self.slots.as_slice())?;
        Ok(text)
    }
}

impl<K: ScriptKey> Holder for RollHolder<K> {
    type Key = K;

    fn empty(heap: Global, size: usize) -> Result<RollHolder<K>, AllocError> {
        Ok(RollHolder {
            roll: Roll::starting(0),
            slots: (0..size).map(|_| None).collect(heap)?,
        })
    }

    fn window(&self, tracker: &mut Tracker<'_, K>, line: u32) -> Result<(u32, u32), Refusal> {
        let view: StampView<K> = self.roll.view(self.slots.as_slice())?;
        tracker.window(&view, line)
    }

    fn file(&mut self, tracker: &mut Tracker<'_, K>, n: u32) -> Result<(u32, u32), Refusal> {
        file_roll(tracker, &mut self.roll, self.slots.as_mut_slice(), n)
    }

    fn own(&mut self, heap: Global, call: Call, args: &mut Args) -> Result<String, Trouble> {
        match call {
            Call::Line => self.add_line(heap, args),
            Call::Roll => self.shown(heap, args),
            _ => Err(Trouble::Script(Mistake::NotHere)),
        }
    }
}

// Packed bytes from the first kept line on, and the table of their places.
#[derive(Drop)]
pub struct PackedHolder<K> {
    pub first: u32,
    pub bytes: Vec<u8>,
    pub places: Vec<u32>,
    // how many bytes in front belong to lines that are filed
    pub filed: usize,
    pub kind: PhantomData<K>,
}

// What stands behind so many bytes.
fn behind(bytes: &[u8], n: usize) -> &[u8] {
    bytes.get(n..).unwrap_or(&[])
}

impl<K: PackedKey + ScriptKey> PackedHolder<K> {
    fn view(&self) -> Result<PackedView<'_, '_, K>, Refusal> {
        PackedView::new(
            self.first,
            behind(self.bytes.as_slice(), self.filed),
            self.places.as_slice(),
        )
    }

    // The answer to `feed HEX`. The table is written only if every line is good.
    fn feed(&mut self, heap: Global, args: &mut Args) -> Result<String, Trouble> {
        let more = args.bytes(heap)?;
        args.end()?;
        let mut bytes = Vec::from_slice(heap, behind(self.bytes.as_slice(), self.filed))?;
        bytes.extend_from_slice(more.as_slice())?;
        let n = scan(self.places.as_mut_slice(), bytes.as_slice())?;
        self.bytes = bytes;
        self.filed = 0;
        Ok(format!(in heap; "lines {n}")?)
    }

    // The answer to `places`.
    fn shown(&self, heap: Global, args: &mut Args) -> Result<String, Trouble> {
        args.end()?;
        let mut text = String::from_str(heap, "places")?;
        push_numbers(&mut text, self.places.as_slice())?;
        Ok(text)
    }
}

impl<K: PackedKey + ScriptKey> Holder for PackedHolder<K> {
    type Key = K;

    fn empty(heap: Global, size: usize) -> Result<PackedHolder<K>, AllocError> {
        Ok(PackedHolder {
            first: 0,
            bytes: Vec::new(heap),
            places: vec![in heap; 0; size]?,
            filed: 0,
            kind: PhantomData,
        })
    }

    fn window(&self, tracker: &mut Tracker<'_, K>, line: u32) -> Result<(u32, u32), Refusal> {
        let view = self.view()?;
        tracker.window(&view, line)
    }

    fn file(&mut self, tracker: &mut Tracker<'_, K>, n: u32) -> Result<(u32, u32), Refusal> {
        let (from, kept) = {
            let view = self.view()?;
            let (from, rest) = file_packed(tracker, &view, n)?;
            (from, rest.len())
        };
        self.first = n;
        self.filed = self.bytes.len().saturating_sub(kept);
        let _ = scan(
            self.places.as_mut_slice(),
            behind(self.bytes.as_slice(), self.filed),
        );
        Ok((from, n))
    }

    fn own(&mut self, heap: Global, call: Call, args: &mut Args) -> Result<String, Trouble> {
        match call {
            Call::Feed => self.feed(heap, args),
            Call::Places => self.shown(heap, args),
            _ => Err(Trouble::Script(Mistake::NotHere)),
        }
    }
}

#[cfg(test)]
mod tests {
    use super::*;
    use std::test::Fail;
    use transcript::keys::elapsed::Elapsed;

    #[test]
    fn empty_holders_have_their_tables(rt: HostRuntime) -> Result<(), Fail> {
        let heap = rt.alloc();
        let roll: RollHolder<Elapsed> = RollHolder::empty(heap, 4)?;
        assert_eq!(rt; roll.slots.len(), 4);
        let packed: PackedHolder<Elapsed> = PackedHolder::empty(heap, 3)?;
        assert_eq!(rt; packed.places.len(), 3);
        Ok(())
    }
}
