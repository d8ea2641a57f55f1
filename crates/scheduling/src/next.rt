ghost use Rattle.std.specs.Prelude.{◌≡◌, ◌<◌};
ghost use Rattle.device.specs.Meaning.{held_by, Put};
ghost use Rattle.heads.specs.Heads.{head_says};
ghost use Rattle.line.specs.Line.{Closed, records_of, without};
ghost use Rattle.scheduling.specs.Exact.{HeadsRight, NextSent, PastKept};
ghost use Rattle.scheduling.specs.Sending.{MaySend, SentAs, most_runs, owner_of, sent_tables, used_of};
ghost use Rattle.service.specs.Moments.{moment_of};
ghost use Rattle.service.specs.Rows.{session};
ghost use Rattle.service.specs.Sound.{Numbers};
ghost use Rattle.values.specs.declared.io.Run.{Run};

use crate::send::{run_of, send_from};
use crate::waiting::used;
use choosing::choose::Choice;
use choosing::free::usable;
use choosing::view::View;
use device::device::Device;
use heads::head::Head;
use heads::head::scan::head_of;
use line::Line;
use service::rows::Tables;
use sharing::rule::SharingRule;
use values::instant::Instant;
use values::io::Io;

// Sends the head run of the chosen session: out of the waiting line, onto the device by one put, with both accounts charged.
fn send_head<D: Device>(
    tables: &mut Tables,
    waiting: &mut Line<'_, Io>,
    device: &mut D,
    choice: Choice,
    head: Head,
)
    requires may { MaySend tables.old choice.place head.count }
    requires room { held_by (D.means device.old) < (D.means device.old).depth }
    ensures tables { tables.new ≡ sent_tables tables.old choice.place choice.due head.count }
    ensures same { waiting.new.places.ghost_name ≡ waiting.old.places.ghost_name }
    ensures line { Closed (without owner_of (session tables.old choice.place).name head.count (used_of (records_of waiting.old.places.now waiting.old.len))) waiting.old.places.now waiting.new.places.now waiting.new.len }
    ensures put { (run : Run) × SentAs (session tables.old choice.place) (head_says head) run × Put (D.means device.old) run (D.means device.new) × D.puts device.old run device.new }
{
    let row = tables.sessions[choice.place];
    let run = run_of(&row, head);
    // There is room, so the device takes the run.
    let _ = device.put(run);
    waiting.take_first(4096, row.name, usize::from(head.count));
    send_from(tables, choice.place, choice.due, head.count);
}

// Sends from the session that goes next, and answers whether it was due; none, and nothing changed, where no session is free to go.
// The present instant is the latest accepted one. (The lent places are no struct: see `send_all`.)
// The head runs are those of the moment, before and after: only the session's own is looked for again.
pub(crate) fn send_next<R: SharingRule, D: Device>(
    tables: &mut Tables,
    rule: &R,
    waiting: &mut Line<'_, Io>,
    device: &mut D,
    heads: &mut [Option<Head>; 64],
) -> Option<bool>
    requires numbers { Numbers tables.old }
    requires found { HeadsRight (moment_of tables.old waiting.old.places.now waiting.old.len (D.means device.old)) heads.old }
    requires room { held_by (D.means device.old) < most_runs (moment_of tables.old waiting.old.places.now waiting.old.len (D.means device.old)) }
    ensures sent { NextSent D.puts (R.level rule.now) result (moment_of tables.old waiting.old.places.now waiting.old.len (D.means device.old)) (moment_of tables.new waiting.new.places.now waiting.new.len (D.means device.new)) device.old device.new }
    ensures found { HeadsRight (moment_of tables.new waiting.new.places.now waiting.new.len (D.means device.new)) heads.new }
    ensures same { waiting.new.places.ghost_name ≡ waiting.old.places.ghost_name }
    ensures past { PastKept waiting.old.places.now waiting.new.places.now }
{
    let present = Instant {
        micros: tables.latest,
    };
    let view = View {
        tables,
        heads,
        present,
    };
    let choice = view.choose(rule)?;
    let head = usable(&tables.sessions[choice.place], heads[choice.place])?;
    send_head(tables, waiting, device, choice, head);
    heads[choice.place] = head_of(used(waiting), tables.sessions[choice.place].name);
    Some(choice.due)
}
