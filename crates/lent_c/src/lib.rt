// The lent note under the name that a host in another language links: `note_lent`, in the archive of this crate. It is crate lent's function,
// with C's calling convention; what it does is said there.
#![tactic(auto)]

ghost use Rattle.std.specs.Prelude.{◌≡◌};
ghost use Rattle.lent.specs.Lent.{lent, lent_note};

use changes::ChangedAttrs;
use lent::LentAnswer;

// The host lends its log, and the note is entered there. A refusal leaves the log as it was.
#[unsafe(no_mangle)]
pub extern "C" fn note_lent(
    log: &mut ChangedAttrs,
    endpoint: u16,
    cluster: u32,
    attr: u32,
) -> LentAnswer
    ensures { lent result log.new ≡ lent_note log.old endpoint cluster attr }
{
    lent::note_lent(log, endpoint, cluster, attr)
}
