ghost use Rattle.std.specs.Prelude.{◌≡◌, true, false};
ghost use Rattle.packed.specs.Fields.{seen, next, number, text_of, line_of};
ghost use Rattle.packed.specs.Decoded.{decoded};

// What is wrong with the bytes of a line.
#[derive(Clone, Copy, Debug, PartialEq, Eq)]
pub enum LineFault {
    UnknownBits,
    CutShort,
}

// One line. A field that is absent is none, also where a present one would be 0 or empty.
#[derive(Clone, Copy, Debug, PartialEq, Eq)]
pub struct PackedLine<'a> {
    pub speaker: Option<u8>,
    pub question: Option<u32>,
    pub elapsed: Option<u64>,
    pub text: Option<&'a [u8]>,
}

// A field of one byte. In this project a field's bytes are named one by one, in a slice pattern, so each
// width has a reader of its own.
fn speaker(bytes: &[u8]) -> Result<(u8, &[u8]), LineFault>
    ensures { seen (λ s. s) result ≡ number 1 bytes.now }
{
    let [b, rest @ ..] = bytes else {
        return Err(LineFault::CutShort);
    };
    Ok((*b, rest))
}

fn question(bytes: &[u8]) -> Result<(u32, &[u8]), LineFault>
    ensures { seen (λ q. q) result ≡ number 4 bytes.now }
{
    let [b0, b1, b2, b3, rest @ ..] = bytes else {
        return Err(LineFault::CutShort);
    };
    Ok((u32::from_le_bytes([*b0, *b1, *b2, *b3]), rest))
}

fn elapsed(bytes: &[u8]) -> Result<(u64, &[u8]), LineFault>
    ensures { seen (λ e. e) result ≡ number 8 bytes.now }
{
    let [b0, b1, b2, b3, b4, b5, b6, b7, rest @ ..] = bytes else {
        return Err(LineFault::CutShort);
    };
    Ok((
        u64::from_le_bytes([*b0, *b1, *b2, *b3, *b4, *b5, *b6, *b7]),
        rest,
    ))
}

fn text(bytes: &[u8]) -> Result<(&[u8], &[u8]), LineFault>
    ensures { seen (λ t. Some t.now) result ≡ text_of true bytes.now }
{
    let [len, rest @ ..] = bytes else {
        return Err(LineFault::CutShort);
    };
    let n = *len as usize;
    if n > rest.len() {
        return Err(LineFault::CutShort);
    }
    Ok(rest.split_at(n))
}

// What is read of the bytes, if its bit is set, and the bytes behind it.
fn if_set<'a, T, F: FnOnce(&'a [u8]) -> Result<(T, &'a [u8]), LineFault>>(
    is_set: bool,
    bytes: &'a [u8],
    read: F,
) -> Result<(Option<T>, &'a [u8]), LineFault>
    requires { F.IsAlwaysCallable read }
    ensures unset { is_set ≡ false → result ≡ Ok (None, bytes.entry) }
    ensures set { is_set ≡ true → (r : _) × F.post read bytes.entry r × (result ≡ next r (λ x. Ok (Some x.0, x.1))) }
{
    if !is_set {
        return Ok((None, bytes));
    }
    let (value, rest) = read(bytes)?;
    Ok((Some(value), rest))
}

impl<'a> PackedLine<'a> {
    // The line at the front of the bytes, and the bytes behind it.
    pub fn read(bytes: &'a [u8]) -> Result<(PackedLine<'a>, &'a [u8]), LineFault>
        ensures { seen decoded result ≡ line_of bytes.now }
    {
        let [map, rest @ ..] = bytes else {
            return Err(LineFault::CutShort);
        };
        let map = *map;
        if map & 0xf0 != 0 {
            return Err(LineFault::UnknownBits);
        }
        let (speaker, rest) = if_set(map & 1 != 0, rest, speaker)?;
        let (question, rest) = if_set(map & 2 != 0, rest, question)?;
        let (elapsed, rest) = if_set(map & 4 != 0, rest, elapsed)?;
        let (text, rest) = if_set(map & 8 != 0, rest, text)?;
        Ok((
            PackedLine {
                speaker,
                question,
                elapsed,
                text,
            },
            rest,
        ))
    }
}
