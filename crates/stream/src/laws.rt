ghost use Rattle.stream.specs.Spelling.{RoundTrip};
ghost use Rattle.stream.specs.Streams.{FieldByField};

// What is left of a stream says what its first field says and then, without gap, what is left behind that field.
pub fn read_field_by_field()
    ensures { FieldByField }
{}

// Reading what was written gives the same events, with the offsets of their fields, and no fault.
pub fn round_trip_holds()
    ensures { RoundTrip }
{}
