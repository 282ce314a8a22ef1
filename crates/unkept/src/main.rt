// Refusal 7 as the compiled code gives it. Every call that takes a table is handed states with one clause of "Well kept" broken, then
// well-kept ones, with and without rubbish where nothing is held. A line says the state, the call, its code, its answer where it acts, and,
// of a call that may change the table, whether it did. What calls answer is proved in the crates below; here the code itself is run.
#![tactic(auto)]

ghost use Rattle.std.specs.Prelude.{◌≡◌, true, ◌<◌};

use answers::flag;
use changes::ChangedAttrs;
use choices::Choice;
use entries::ChangedAttr;
use instants::Instant;
use notes::Held;
use places::{Ended, Handed, Heard, Load, Table};
use refusal::Refusal;
use round::Ending;
use std::io;
use subscription::{Request, SENT, Settings, Subscription};
use time::KeepAlive;

const REQUEST: Request = Request {
    peer: 7,
    shortest: 1,
    longest: 60,
    rx: 5,
    fabric: 1,
};

fn main(rt: HostRuntime) -> io::Result<()> {
    unkept(&rt)?;
    kept(&rt)
}

// Each clause broken alone. In `busy` the ids 3 and 2 are stored in the places 0 and 1, and the priming 4 and the report 1 are open in the
// places 78 and 79.
fn unkept(rt: &impl Print) -> io::Result<()> {
    let busy = three(clean()).and_then(reporting).and_then(priming);
    tried(rt, b"nothing broken", busy, 1)?;
    tried(rt, b"capacity 0", Ok(table::new(0).1), 1)?;
    let t = Table {
        capacity: 81,
        ..clean()
    };
    tried(rt, b"capacity 81", Ok(t), 1)?;
    let t = busy.map(|t| Table { capacity: 3, ..t });
    tried(rt, b"over capacity", t, 1)?;
    tried(rt, b"17 entries", busy.map(|t| with_log(t, 17, 2)), 1)?;
    tried(rt, b"identity 0", busy.map(|t| with_log(t, 1, 0)), 1)?;
    badly_filled(rt, busy)?;
    let t = three(clean()).and_then(priming);
    let t = t.map(|t| Table { cancel: 9, ..t });
    tried(rt, b"a reason without a report", t, 4)
}

// Each clause on the live ones broken alone.
fn badly_filled(rt: &impl Print, busy: Result<Table, Refusal>) -> io::Result<()> {
    tried(rt, b"an id stored twice", busy.map(|t| with_id(t, 1, 3)), 1)?;
    tried(rt, b"an id open twice", busy.map(|t| with_id(t, 78, 1)), 1)?;
    let t = busy.map(|t| with_id(t, 78, 3));
    tried(rt, b"an id stored and open", t, 1)?;
    let t = busy.map(|t| without_fabric(t, 1));
    tried(rt, b"fabric 0 stored", t, 1)?;
    tried(rt, b"fabric 0 open", busy.map(|t| without_fabric(t, 78)), 1)?;
    tried(rt, b"two reports", busy.map(|t| with_report(t, 78)), 1)
}

// Well-kept states, each without rubbish and with it, which changes no answer. Refused are only a second report, a clear while a priming is
// open, and a completion or a question that asks for one that is not open.
fn kept(rt: &impl Print) -> io::Result<()> {
    let neat = three(clean());
    let orphans = three(strewn(0));
    let others = three(strewn(1));
    tried(rt, b"nothing open", neat, 1)?;
    tried(rt, b"nothing open, rubbish", orphans, 1)?;
    tried(rt, b"a report open", neat.and_then(reporting), 1)?;
    tried(
        rt,
        b"a report open, rubbish",
        orphans.and_then(reporting),
        1,
    )?;
    tried(rt, b"a priming open", neat.and_then(priming), 4)?;
    tried(rt, b"a priming open, rubbish", others.and_then(priming), 4)
}

// A table that has been told of one change: attribute 0 in cluster 6 of endpoint 3.
fn clean() -> Table {
    start(Subscription::BLANK, ChangedAttr::BLANK)
}

// The same with rubbish in every place, of the given fabric, and in the log behind its one entry. Were it held, an id would be live twice,
// too many reports open, and a later change in the log.
fn strewn(fabric: u8) -> Table {
    let x = Subscription {
        peer: 8,
        reported: Instant::FIRST,
        id: 2,
        fabric,
        reporting: true,
        ..Subscription::BLANK
    };
    start(x, entry(9))
}

fn start(place: Subscription, rest: ChangedAttr) -> Table {
    let mut entries = [rest; 16];
    entries[0] = entry(1);
    Table {
        places: [place; 80],
        log: ChangedAttrs {
            held: Held { entries, len: 1 },
            next: 2,
        },
        stored: 0,
        opens: 0,
        next: 1,
        capacity: 80,
        cancel: 0,
    }
}

fn entry(identity: u64) -> ChangedAttr {
    ChangedAttr {
        identity,
        cluster: 6,
        attr: 0,
        endpoint: 3,
    }
}

// Three are admitted and primed at instant 1000: 1, 2 and 3 are stored.
fn three(mut t: Table) -> Result<Table, Refusal> {
    for _ in 0..3u8 {
        let id = table::add(&mut t, REQUEST, 0, Instant::at(1000))?;
        table::complete(&mut t, id, SENT)?;
    }
    Ok(t)
}

// The first one is handed out, when it is due.
fn reporting(mut t: Table) -> Result<Table, Refusal> {
    table::report(&mut t, due())?;
    Ok(t)
}

// One more is admitted.
fn priming(mut t: Table) -> Result<Table, Refusal> {
    table::add(&mut t, REQUEST, 0, Instant::at(31000))?;
    Ok(t)
}

// Thirty seconds after the last report, when the next one is due.
fn due() -> Settings {
    Settings {
        now: Instant::at(31000),
        events: 0,
        kind: KeepAlive::Default,
        all: false,
    }
}

fn with_log(t: Table, len: usize, next: u64) -> Table {
    let held = Held { len, ..t.log.held };
    Table {
        log: ChangedAttrs { held, next },
        ..t
    }
}

// The table with the subscription in a place made another; a place that is none alters nothing.
fn with<F: FnOnce(Subscription) -> Subscription>(mut t: Table, i: usize, other: F) -> Table
    requires { F.IsAlwaysCallable other }
{
    if i < t.places.len() {
        t.places[i] = other(t.places[i]);
    }
    t
}

fn with_id(t: Table, i: usize, id: u32) -> Table {
    with(t, i, |x| Subscription { id, ..x })
}

fn without_fabric(t: Table, i: usize) -> Table {
    with(t, i, |x| Subscription { fabric: 0, ..x })
}

fn with_report(t: Table, i: usize) -> Table {
    with(
        t,
        i,
        |x| Subscription {
            reporting: true,
            ..x
        },
    )
}

// Everything that is asked of a state, if it could be made; `id` is whom completion and the questions to an open one ask for.
fn tried(rt: &impl Print, name: &[u8], made: Result<Table, Refusal>, id: u32) -> io::Result<()> {
    match made {
        Ok(table) => {
            let state = State { name, table };
            state.calls(rt, id)?;
            state.questions(rt, id)
        }
        Err(why) => {
            word(rt, name)?;
            print!(rt; " not made: {}\n", why.number())
        }
    }
}

// A table, and what is said of it.
#[derive(Clone, Copy)]
struct State<'a> {
    name: &'a [u8],
    table: Table,
}

impl State<'_> {
    // Every call that changes a table.
    fn calls(&self, rt: &impl Print, id: u32) -> io::Result<()> {
        let now = Instant::at(31000);
        self.call(rt, b"add", |t| table::add(t, REQUEST, 0, now))?;
        self.call(rt, b"resume", |t| table::resume(t, 9, REQUEST, 0))?;
        self.call(rt, b"note", |t| table::note(t, 3, 6, 1))?;
        self.call(rt, b"report", |t| table::report(t, due()))?;
        self.call(rt, b"complete", |t| table::complete(t, id, SENT))?;
        self.call(rt, b"remove", |t| table::remove(t, Choice::All, 9))?;
        self.call(rt, b"clear", |t| table::clear(t))?;
        self.call(rt, b"purge", |t| table::purge_reported_changes(t))?;
        self.round(rt)
    }

    // Every question.
    fn questions(&self, rt: &impl Print, id: u32) -> io::Result<()> {
        let t = &self.table;
        let kind = KeepAlive::Default;
        let now = Instant::at(2000);
        self.question(rt, b"attribute", table::should_report_attr(t, id, 3, 6, 0))?;
        self.question(
            rt,
            b"send if empty",
            table::should_send_if_empty(t, id, kind),
        )?;
        self.question(rt, b"next instant", table::next_report_at(t, 0, kind))?;
        self.question(
            rt,
            b"any reportable",
            table::any_reportable(t, now, 0, kind),
        )?;
        self.question(rt, b"next keep-alive", table::next_keep_alive_at(t))?;
        self.question(rt, b"statistics", table::load_stats(t, 1))?;
        self.question(
            rt,
            b"has subscription",
            table::has_subscription_for(t, 1, 8),
        )?;
        self.question(rt, b"well kept", Ok(table::is_kept(t)))
    }

    // What a call answers, and whether it leaves the table as it was.
    fn call<T: Tell, F: FnOnce(&mut Table) -> Result<T, Refusal>>(
        &self,
        rt: &impl Print,
        call: &[u8],
        act: F,
    ) -> io::Result<()>
        requires { F.IsAlwaysCallable act }
    {
        let mut t = self.table;
        self.answer(rt, call, act(&mut t))?;
        self.back(rt, &t)
    }

    // A round of two outcomes; behind the colon the ids, which were 77.
    fn round(&self, rt: &impl Print) -> io::Result<()> {
        let mut t = self.table;
        let mut ids = [77; 2];
        let made = round::round(&mut t, due(), &[SENT; 2], &mut ids);
        self.answer(rt, b"round", made)?;
        print!(rt; " : {} {}", ids[0], ids[1])?;
        self.back(rt, &t)
    }

    fn question<T: Tell>(
        &self,
        rt: &impl Print,
        call: &[u8],
        told: Result<T, Refusal>,
    ) -> io::Result<()> {
        self.answer(rt, call, told)?;
        word(rt, b"\n")
    }

    // The state and the call; then the code, and what is told where it acted.
    fn answer<T: Tell>(
        &self,
        rt: &impl Print,
        call: &[u8],
        told: Result<T, Refusal>,
    ) -> io::Result<()> {
        word(rt, self.name)?;
        word(rt, b": ")?;
        word(rt, call)?;
        match told {
            Ok(x) => {
                word(rt, b" 0")?;
                x.tell(rt)
            }
            Err(why) => print!(rt; " {}", why.number()),
        }
    }

    fn back(&self, rt: &impl Print, t: &Table) -> io::Result<()> {
        if same(&self.table, t) {
            word(rt, b" same\n")
        } else {
            word(rt, b" changed\n")
        }
    }
}

// Whether two tables are equal, every place and every field of them. The contract says that a yes can be trusted; that it is ever given is
// seen in the run.
fn same(a: &Table, b: &Table) -> bool
    ensures { result ≡ true → a.now ≡ b.now }
{
    a == b
}

// What a call tells where it acts, each value behind a space.
trait Tell: Copy {
    fn tell(self, rt: &impl Print) -> io::Result<()>;
}

impl Tell for () {
    fn tell(self, _: &impl Print) -> io::Result<()> {
        Ok(())
    }
}

// Whether it is so.
impl Tell for bool {
    fn tell(self, rt: &impl Print) -> io::Result<()> {
        print!(rt; " {}", flag(self))
    }
}

// An id.
impl Tell for u32 {
    fn tell(self, rt: &impl Print) -> io::Result<()> {
        print!(rt; " {self}")
    }
}

impl Tell for Instant {
    fn tell(self, rt: &impl Print) -> io::Result<()> {
        print!(rt; " {}", self.ms)
    }
}

impl Tell for Option<Instant> {
    fn tell(self, rt: &impl Print) -> io::Result<()> {
        match self {
            Some(at) => at.tell(rt),
            None => word(rt, b" never"),
        }
    }
}

// The identity, and whether it wakes.
impl Tell for Heard {
    fn tell(self, rt: &impl Print) -> io::Result<()> {
        print!(rt; " {} {}", self.identity, flag(self.wakes))
    }
}

// The id and the request number, or nothing.
impl Tell for Option<Handed> {
    fn tell(self, rt: &impl Print) -> io::Result<()> {
        match self {
            Some(Handed { id, rx }) => print!(rt; " {id} {rx}"),
            None => word(rt, b" nothing"),
        }
    }
}

// Whether it is kept, and whether its subscriber has gone quiet.
impl Tell for Ended {
    fn tell(self, rt: &impl Print) -> io::Result<()> {
        print!(rt; " {} {}", flag(self.kept), flag(self.failed))
    }
}

// Counted places, the stored of the fabric, and the ids given so far.
impl Tell for Load {
    fn tell(self, rt: &impl Print) -> io::Result<()> {
        print!(rt; " {} {} {}", self.places, self.fabric, self.established)
    }
}

// How many were handed out, and whether nothing is reportable then.
impl Tell for Ending {
    fn tell(self, rt: &impl Print) -> io::Result<()> {
        print!(rt; " {} {}", self.handouts, flag(self.silent))
    }
}

fn word(rt: &impl Print, text: &[u8]) -> io::Result<()> {
    rt.write_all(text)
}
