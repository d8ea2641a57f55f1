ghost use Rattle.std.specs.Prelude.{◌≡◌};
ghost use Rattle.heads.specs.Heads.{head_says};
ghost use Rattle.scheduling.specs.Sending.{MaySend, SentAs, sent_tables};

use heads::head::Head;
use service::rows::{Session, Tables};
use values::instant::Instant;
use values::io::Run;

// The run that a session's head run is sent as.
pub(crate) fn run_of(row: &Session, head: Head) -> Run
    ensures { SentAs row.now (head_says head) result }
{
    Run {
        session: row.name,
        first: row.accepted.saturating_sub(row.unsent),
        count: head.count,
        direction: head.direction,
        extent: head.extent,
    }
}

// A run of so many I/Os is sent from the session at a place, at the latest accepted instant: its account and its pool's are
// charged, re-marked and counted with one order number, and the I/Os are inside from now on.
pub(crate) fn send_from(tables: &mut Tables, place: usize, due: bool, count: u8)
    requires may { MaySend tables.old place count }
    ensures { tables.new ≡ sent_tables tables.old place due count }
{
    let present = Instant {
        micros: tables.latest,
    };
    let number = tables.orders;
    let row = &mut tables.sessions[place];
    // Neither account refuses, since both are sound.
    let _ = row.account.send(present, number, due);
    row.unsent -= u32::from(count);
    row.inside += u32::from(count);
    let pool = &mut tables.pools[usize::from(row.pool)];
    let _ = pool.account.send(present, number, due);
    tables.orders = number + 1;
}
