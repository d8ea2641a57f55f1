ghost use Rattle.std.specs.Prelude.{◌≡◌, ◌+◌, ◌≤◌, length, drop};
ghost use Rattle.stream.specs.Fields.{field_from, event_from, offset_after, plain_field, plainly, spelled_by, ValueInPlace};

use super::Reader;
use crate::decode::decode;
use crate::event::Spelled;
use crate::fault::{StreamFault, StreamWhy};
use crate::field::Field;

// The field at the front of what is left of a stream from an offset on.
fn front(offset: usize, left: &[u8]) -> Result<Option<Field>, StreamFault>
    ensures { plainly result ≡ field_from offset left.now }
{
    let cut_short = StreamFault {
        why: StreamWhy::CutShort,
        offset,
    };
    match left {
        [] => Ok(None),
        [tag, high, low, values @ ..] => {
            let length = usize::from(u16::from_be_bytes([*high, *low]));
            let value = values.get(..length).ok_or(cut_short)?;
            Ok(Some(Field {
                offset,
                tag: *tag,
                value,
            }))
        }
        _ => Err(cut_short),
    }
}

// The field at an offset of the input.
fn field_at(input: &[u8], offset: usize) -> Result<Option<Field>, StreamFault>
    requires { offset ≤ length input.now }
    ensures field { plainly result ≡ field_from offset (drop offset input.now) }
    ensures value { ValueInPlace input.now result }
{
    front(offset, &input[offset..])
}

// The event that a field spells, with the field's offset.
#[tactic(auto, unfolding(crate::specs::Fields::spelled_by))]
fn spelled(field: Field) -> Result<Spelled, StreamFault>
    ensures { result ≡ spelled_by (plain_field field.entry) }
{
    let event = decode(field)?;
    Ok(Spelled {
        offset: field.offset,
        event,
    })
}

impl<'a> Reader<'a> {
    // A reader at the start of its input.
    pub fn new(input: &'a [u8]) -> Reader<'a>
        ensures start { result.position ≡ 0 }
        ensures whole { result.input.now ≡ input.now }
    {
        Reader { input, position: 0 }
    }

    // Reads the next field, or tells the end; where the field is cut short the reader stays before it.
    pub fn next_field(&mut self) -> Result<Option<Field<'a>>, StreamFault>
        ensures same { self.new.input.now ≡ self.old.input.now }
        ensures field { plainly result ≡ field_from self.old.position (drop self.old.position self.old.input.now) }
        ensures value { ValueInPlace self.old.input.now result }
        ensures moved { self.new.position ≡ offset_after self.old.position (drop self.old.position self.old.input.now) result }
    {
        let next = field_at(self.input, self.position)?;
        if let Some(found) = &next {
            self.position += 3 + found.value.len();
        }
        Ok(next)
    }

    // Reads the next event, or tells the end; at a fault the reader stays before its field.
    pub fn next_event(&mut self) -> Result<Option<Spelled>, StreamFault>
        ensures same { self.new.input.now ≡ self.old.input.now }
        ensures event { result ≡ event_from self.old.position (drop self.old.position self.old.input.now) }
        ensures moved { self.new.position ≡ offset_after self.old.position (drop self.old.position self.old.input.now) result }
    {
        let Some(field) = field_at(self.input, self.position)? else {
            return Ok(None);
        };
        let spelled = spelled(field)?;
        self.position += 3 + field.value.len();
        Ok(Some(spelled))
    }
}
