ghost use Rattle.std.specs.Prelude.{◌≡◌, ◌≤◌, length, take, IfOk, IfSome, IsTrue, OnOk};
ghost use Rattle.std.specs.Io.KnownBytes.{Appends};
ghost use Rattle.tl_io.specs.Counts.{Rises, more};

use crate::{
    Depot, DepotError, FalseDepot, MemDepot, MemSink, MemSource, Sink, SinkError, Source, StdSink,
    StdSource, SureDepot, SureSink, SureSource, Ticket,
};
use std::alloc::Global;
use std::io::{self, ErrorKind, Read, Write};
use std::test::Fail;

// The bytes of the source: all of them where they are at most 100.
fn read_text<S: Source>(alloc: Global, source: &mut S) -> Result<Vec<u8>, SinkError>
    ensures whole { IfOk result (λ text.
        length text.items ≤ 100 → IfSome (S.left source.old) (λ xs. text.items ≡ xs)) }
    ensures given { IfOk result (λ text.
        S.given source.new ≡ more (S.given source.old) (length text.items)) }
    ensures failed { result ≡ Err SinkError.Failed → Rises (S.faults source.old) (S.faults source.new) }
{
    let mut text = Vec::new(alloc);
    let mut piece = [0u8; 7];
    'pieces: while text.len() <= 100 {
        match source.read(&mut piece) {
            Ok(0) => return Ok(text),
            Ok(n) => text.extend_from_slice(&piece[..n])?,
            Err(_) => return Err(SinkError::Failed),
        }
    }
    Ok(text)
}

// Writes the whole text.
fn write_text<O: Sink>(sink: &mut O, text: &[u8]) -> Result<(), SinkError>
    ensures whole { OnOk result (Appends (O.held sink.old) (O.held sink.new) text.now) }
    ensures failed { result ≡ Err SinkError.Failed → Rises (O.faults sink.old) (O.faults sink.new) }
{
    let mut at = 0;
    'pieces: while at < text.len() {
        at += sink.write(&text[at..])?;
    }
    Ok(())
}

// A device whose calls all fail.
#[derive(Drop)]
struct Broken;

impl Read for Broken {
    fn read(&mut self, _buf: &mut [u8]) -> io::Result<usize> {
        Err(io::Error::from(ErrorKind::Interrupted))
    }
}

impl Write for Broken {
    fn write(&mut self, _buf: &[u8]) -> io::Result<usize> {
        Err(io::Error::from(ErrorKind::Interrupted))
    }

    fn flush(&mut self) -> io::Result<()> {
        Ok(())
    }
}

const TEXT: &[u8] = b"the quick brown fox jumps over the lazy dog";

#[test]
fn sources_give_their_bytes(rt: HostRuntime) -> Result<(), Fail> {
    let alloc = rt.alloc();
    let mut memory = MemSource::new(TEXT.to_vec(alloc)?, [9].to_vec(alloc)?);
    assert_eq!(rt; read_text(alloc, &mut memory)?.as_slice(), TEXT);
    let mut sure = SureSource::new(TEXT.to_vec(alloc)?);
    assert_eq!(rt; read_text(alloc, &mut sure)?.as_slice(), TEXT);
    let mut reader = StdSource::new(TEXT);
    assert_eq!(rt; read_text(alloc, &mut reader)?.as_slice(), TEXT);
    Ok(())
}

#[test]
fn sinks_take_their_bytes(rt: HostRuntime) -> Result<(), Fail> {
    let alloc = rt.alloc();
    let mut memory = MemSink::new(alloc, [4].to_vec(alloc)?);
    write_text(&mut memory, TEXT)?;
    assert_eq!(rt; memory.bytes(), TEXT);
    let mut bytes = Vec::new(alloc);
    write_text(&mut StdSink::new(&mut bytes), TEXT)?;
    assert_eq!(rt; bytes.as_slice(), TEXT);
    let mut sure = SureSink::new();
    write_text(&mut sure, TEXT)?;
    Ok(())
}

#[test]
fn listed_calls_fail(rt: HostRuntime) -> Result<(), Fail> {
    let alloc = rt.alloc();
    let mut source = MemSource::new(TEXT.to_vec(alloc)?, [2, 4].to_vec(alloc)?);
    let mut sink = MemSink::new(alloc, [2, 4].to_vec(alloc)?);
    let mut into = [0u8; 5];
    for fails in [false, true, false, true, false, false] {
        assert_eq!(rt; source.read(&mut into).is_err(), fails);
        assert_eq!(rt; sink.write(b"abc") == Err(SinkError::Failed), fails);
    }
    assert_eq!(rt; into.as_slice(), b" fox ".as_slice());
    assert_eq!(rt; sink.bytes(), b"abcabcabcabc".as_slice());
    Ok(())
}

#[test]
fn errors_of_devices_are_failures(rt: HostRuntime) -> Result<(), Fail> {
    let alloc = rt.alloc();
    assert_eq!(rt;
        read_text(alloc, &mut StdSource::new(Broken)),
        Err(SinkError::Failed)
    );
    assert_eq!(rt;
        write_text(&mut StdSink::new(Broken), TEXT),
        Err(SinkError::Failed)
    );
    let mut room = [0u8; 10];
    assert_eq!(rt;
        write_text(&mut StdSink::new(room.as_mut_slice()), TEXT),
        Err(SinkError::Failed)
    );
    Ok(())
}

// Saves the text, copies the ticket, and loads at most `limit` bytes by the copy.
fn load_copy<D: Depot>(alloc: Global, depot: &mut D, limit: usize) -> Result<Vec<u8>, DepotError>
    ensures { IfOk result (λ bytes. IsTrue D.Ticket.tells → bytes.items ≡ take limit TEXT.now) }
{
    let ticket = depot.save(alloc, TEXT)?.copy()?;
    depot.load(alloc, &ticket, limit)
}

#[test]
fn depots_keep_bytes(rt: HostRuntime) -> Result<(), Fail> {
    let alloc = rt.alloc();
    let mut memory = MemDepot::new([3, 6].to_vec(alloc)?);
    for fails in [false, true, false, true, false] {
        let loaded = load_copy(alloc, &mut memory, 9);
        if fails {
            assert_eq!(rt; loaded, Err(DepotError::Failed));
        } else {
            assert_eq!(rt; loaded?.as_slice(), b"the quick".as_slice());
        }
    }
    let mut sure = SureDepot::new();
    assert_eq!(rt; load_copy(alloc, &mut sure, 1000)?.as_slice(), TEXT);
    let mut liar = FalseDepot::new(b"lies".to_vec(alloc)?);
    assert_eq!(rt;
        load_copy(alloc, &mut liar, 1)?.as_slice(),
        b"lies".as_slice()
    );
    Ok(())
}
