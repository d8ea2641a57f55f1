ghost use Rattle.std.specs.Prelude.{◌≡◌, [], IfOk, OnOk};
ghost use Rattle.stream.specs.Streams.{stream_of, MakesUp};

use super::event::Spelled;
use super::fault::StreamFault;
use super::reader::Reader;
use std::alloc::{AllocError, Global};

// The events of a stream, and the fault that ends it, if one does.
#[derive(Debug, Drop)]
pub struct Stream {
    pub events: Vec<Spelled>,
    pub fault: Option<StreamFault>,
}

// Gathers the events of a stream, and tells the fault that ends it.
fn gather(input: &[u8], events: &mut Vec<Spelled>) -> Result<Option<StreamFault>, AllocError>
    requires { events.old.items ≡ [] }
    ensures events { OnOk result (events.new.items ≡ (stream_of input.now).events) }
    ensures fault { IfOk result (λ fault. fault ≡ (stream_of input.now).fault) }
    ensures whole { IfOk result (λ fault. MakesUp input.now events.new.items fault) }
{
    let mut reader = Reader::new(input);
    loop {
        match reader.next_event() {
            Ok(Some(spelled)) => events.push(spelled)?,
            Ok(None) => return Ok(None),
            Err(fault) => return Ok(Some(fault)),
        }
    }
}

// Reads a whole stream: exactly the events that the bytes spell, up to the end or to the first fault.
pub fn read_stream(alloc: Global, input: &[u8]) -> Result<Stream, AllocError>
    ensures events { IfOk result (λ s. s.events.items ≡ (stream_of input.now).events) }
    ensures fault { IfOk result (λ s. s.fault ≡ (stream_of input.now).fault) }
    ensures whole { IfOk result (λ s. MakesUp input.now s.events.items s.fault) }
{
    let mut events = Vec::new(alloc);
    let fault = gather(input, &mut events)?;
    Ok(Stream { events, fault })
}
