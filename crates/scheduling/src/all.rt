ghost use Rattle.std.specs.Prelude.{◌≡◌, None};
ghost use Rattle.scheduling.specs.Exact.{HeadsRight, PastKept, SentSoFar};
ghost use Rattle.scheduling.specs.Sending.{next_choice};
ghost use Rattle.service.specs.Moments.{moment_of};
ghost use Rattle.service.specs.Sound.{Numbers};

use crate::next::send_next;
use device::device::Device;
use heads::head::Head;
use line::Line;
use service::rows::Tables;
use sharing::rule::SharingRule;
use values::io::Io;

// How many runs were sent, and how many of them due.
#[derive(Clone, Copy)]
pub struct Counts {
    pub sent: usize,
    pub due: usize,
}

// Sends until the device holds its depth or the cap, or no session is free to go; the present instant is the latest accepted one.
// The four lent places are no struct: its contracts would have to say of each field as well that it still lends the same place.
// The two counts are the answer, and no index: the sends end where the device holds its most runs or none is free.
pub(crate) fn send_all<R: SharingRule, D: Device>(
    tables: &mut Tables,
    rule: &R,
    waiting: &mut Line<'_, Io>,
    device: &mut D,
    heads: &mut [Option<Head>; 64],
) -> Counts
    requires numbers { Numbers tables.old }
    requires found { HeadsRight (moment_of tables.old waiting.old.places.now waiting.old.len (D.means device.old)) heads.old }
    ensures sent { SentSoFar D.puts (R.level rule.now) (moment_of tables.old waiting.old.places.now waiting.old.len (D.means device.old)) (moment_of tables.new waiting.new.places.now waiting.new.len (D.means device.new)) device.old device.new result.sent result.due }
    ensures over { next_choice (R.level rule.now) (moment_of tables.new waiting.new.places.now waiting.new.len (D.means device.new)) ≡ None }
    ensures numbers { Numbers tables.new }
    ensures latest { tables.new.latest ≡ tables.old.latest }
    ensures found { HeadsRight (moment_of tables.new waiting.new.places.now waiting.new.len (D.means device.new)) heads.new }
    ensures same { waiting.new.places.ghost_name ≡ waiting.old.places.ghost_name }
    ensures past { PastKept waiting.old.places.now waiting.new.places.now }
{
    let most = device.depth().min(usize::from(tables.cap));
    let mut sent = 0;
    let mut due = 0;
    while device.held() < most {
        let Some(was_due) = send_next(tables, rule, waiting, device, heads) else {
            return Counts { sent, due };
        };
        sent += 1;
        due += usize::from(was_due);
    }
    Counts { sent, due }
}
