ghost use Rattle.std.specs.Prelude.{◌≡◌};
ghost use Rattle.crn_ctext.specs.Records.{Free, Rising};
ghost use Rattle.crn_ctext.specs.Kinds.{small};
ghost use Rattle.crn_ctext.specs.PartLines.{IsRun, field_of};

use crn_ctext::Field;

/// This many numbers from the least to the greatest.
pub fn small_run(count: u32, least: u32, greatest: u32) -> Field
    ensures field { field_of result ≡ small count least greatest }
    ensures run { IsRun result }
{
    Field {
        count,
        least: i128::from(least),
        greatest: i128::from(greatest),
        free: false,
        ascending: false,
    }
}

/// This many free numbers.
pub fn free_run(count: u32) -> Field
    ensures field { field_of result ≡ Free count }
    ensures run { IsRun result }
{
    Field {
        count,
        least: 0,
        greatest: 0,
        free: true,
        ascending: false,
    }
}

/// This many ascending numbers from 1 to the greatest.
pub fn rising_run(count: u32, greatest: u32) -> Field
    ensures field { field_of result ≡ Rising count greatest }
    ensures run { IsRun result }
{
    Field {
        count,
        least: 1,
        greatest: i128::from(greatest),
        free: false,
        ascending: true,
    }
}
