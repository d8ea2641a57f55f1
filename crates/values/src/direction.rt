ghost use Rattle.std.specs.Prelude.{◌≡◌};
ghost use Rattle.values.specs.Direction.{direction_number, Decodes};

use super::fault::ValueFault;

// Whether an I/O reads or writes, with the number that stands for it.
#[derive(Clone, Copy, Debug, PartialEq, Eq)]
pub enum Direction {
    Read = 0,
    Write = 1,
}

// The number that stands for a direction.
impl From<Direction> for u8 {
    ghost from_gives = { λ direction number. number ≡ direction_number direction };

    fn from(direction: Direction) -> u8 {
        direction as u8
    }
}

// The direction that a number stands for; refused exactly where it stands for none.
impl TryFrom<u8> for Direction {
    type Error = ValueFault;

    ghost try_from_gives = { Decodes };

    fn try_from(number: u8) -> Result<Direction, ValueFault> {
        match number {
            0 => Ok(Direction::Read),
            1 => Ok(Direction::Write),
            _ => Err(ValueFault::OUTSIDE_STREAM),
        }
    }
}
