use crate::asks::{Ask, Call, read_ask};
use crate::calls::{call_line, table_line};
use crate::holders::Holder;
use crate::keys::ScriptKey;
use crate::opens::{Request, Start, read_open};
use crate::session::{Session, told};
use std::io::{BufRead, BufReader, Split, Stdin};

// The lines that are still to be read.
type Lines = Split<BufReader<Stdin>>;

// Tries to open the next sitting, and says how that went.
fn opened(rt: &HostRuntime, session: &Session, args: &[u8]) -> anyhow::Result<Option<Request>> {
    let heap = rt.alloc();
    match read_open(heap, session.frame(), args) {
        Ok((kind, request)) => {
            println!(rt; "open {kind}")?;
            Ok(Some(request))
        }
        Err(trouble) => {
            let text = told(heap, Err(trouble))?;
            println!(rt; "{text}")?;
            Ok(None)
        }
    }
}

// Answers lines while nothing is open, until a sitting can begin or no line is left.
fn before_opening(
    rt: &HostRuntime,
    lines: &mut Lines,
    session: &mut Session,
) -> anyhow::Result<Option<Request>> {
    let heap = rt.alloc();
    for line in lines.by_ref() {
        let line = line?;
        if let Some(Ask::Open(args)) = read_ask(line.as_slice()) {
            if let Some(request) = opened(rt, session, args)? {
                return Ok(Some(request));
            }
        } else if let Some(answer) = session.answer(heap, line.as_slice())? {
            println!(rt; "{answer}")?;
        }
    }
    Ok(None)
}

// A sitting: answers lines until the next one can begin or no line is left.
fn sit<K: ScriptKey, H: Holder<Key = K> + Drop>(
    rt: &HostRuntime,
    lines: &mut Lines,
    session: &mut Session,
    start: Start<K, H>,
) -> anyhow::Result<Option<Request>> {
    let heap = rt.alloc();
    let Start {
        opening,
        mut table,
        mut holder,
    } = start;
    let mut tracker = opening.track(table.as_mut_slice());
    for line in lines.by_ref() {
        let line = line?;
        match read_ask(line.as_slice()) {
            Some(Ask::Open(args)) => {
                if let Some(request) = opened(rt, session, args)? {
                    return Ok(Some(request));
                }
            }
            Some(Ask::Of(Call::Table, args)) => {
                let answer = told(heap, table_line(heap, &tracker, args))?;
                println!(rt; "{answer}")?;
            }
            Some(Ask::Of(call, args)) => {
                let answer = told(heap, call_line(heap, &mut tracker, &mut holder, call, args))?;
                println!(rt; "{answer}")?;
            }
            None => {
                if let Some(answer) = session.answer(heap, line.as_slice())? {
                    println!(rt; "{answer}")?;
                }
            }
        }
    }
    Ok(None)
}

fn sit_on(
    rt: &HostRuntime,
    lines: &mut Lines,
    session: &mut Session,
    request: Request,
) -> anyhow::Result<Option<Request>> {
    match request {
        Request::Plain(start) => sit(rt, lines, session, start),
        Request::Elapsed(start) => sit(rt, lines, session, start),
        Request::Mark(start) => sit(rt, lines, session, start),
        Request::Turn(start) => sit(rt, lines, session, start),
        Request::PackedElapsed(start) => sit(rt, lines, session, start),
        Request::PackedTurn(start) => sit(rt, lines, session, start),
    }
}

pub fn run(rt: &HostRuntime) -> anyhow::Result<()> {
    let heap = rt.alloc();
    let mut lines = BufReader::new(heap, rt.stdin())?.split(heap, b'\n');
    let mut session = Session::new();
    let mut next = before_opening(rt, &mut lines, &mut session)?;
    // Every loop has to be shown to end, and nothing else bounds how many sittings a script opens.
    for _ in 0..u64::MAX {
        match next {
            Some(request) => next = sit_on(rt, &mut lines, &mut session, request)?,
            None => return Ok(()),
        }
    }
    Ok(())
}
