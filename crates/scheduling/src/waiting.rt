ghost use Rattle.std.specs.Prelude.{◌≡◌, ℕ, ◌<◌, None, slice_index_or};
ghost use Rattle.line.specs.Line.{records_of};
ghost use Rattle.scheduling.specs.Sending.{present_name, used_of};
ghost use Rattle.service.specs.Rows.{session};

use line::Line;
use service::rows::{Session, Tables};
use values::io::Io;

// The waiting records: of a longer line only the first 4,096 are used.
pub(crate) fn used<'a>(waiting: &'a Line<'_, Io>) -> &'a [Io]
    ensures { result.now ≡ used_of (records_of waiting.now.places.now waiting.now.len) }
{
    let records = waiting.records();
    let end = records.len().min(4096);
    &records[..end]
}

// The name of the session at a place, if one is present there.
pub(crate) fn present_name(row: &Session) -> Option<u32>
    ensures { result ≡ present_name row.now }
{
    row.state.is_present().then_some(row.name)
}

// Those of all places, beside the table in fixed memory: the scan for head runs knows names and not sessions.
pub(crate) fn present_names(tables: &Tables) -> [Option<u32>; 64]
    ensures { (k : ℕ) → k < 64 → slice_index_or result k None ≡ present_name (session tables.now k) }
{
    std::array::from_fn(|place| present_name(&tables.sessions[place]))
}
