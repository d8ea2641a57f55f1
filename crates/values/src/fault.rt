ghost use Rattle.std.specs.Prelude.{◌≡◌};
ghost use Rattle.values.specs.Refusals.{value_fault_number};

// The values' refusal: a number or sum is outside its range, or a limit is below its reserve.
// The offset is that of the field of a stream which has the number, and 0 outside a stream.
#[derive(Clone, Copy, Debug)]
pub struct ValueFault {
    pub offset: usize,
}

impl ValueFault {
    // The refusal where no field of a stream is at fault.
    pub const OUTSIDE_STREAM: ValueFault = ValueFault { offset: 0 };

    // The number by which the refusal is told. (A method and no conversion: a refusal is more than its number.)
    pub fn number(self) -> u8
        ensures { result ≡ value_fault_number self }
    {
        5
    }
}
