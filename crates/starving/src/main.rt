// "With three stored at minimum 0 and a note after each completion, the Rust hands out A, C, A, C and never B. Keep that.": a line for each
// hand-out, its instant and whom it goes to, as the compiled code does it. That they stand after four as they stood before, so that it goes
// on, is proved in crate rules.
#![tactic(auto)]

use instants::Instant;
use places::Table;
use refusal::Refusal;
use std::io;
use subscription::{Request, SENT, Settings};
use time::KeepAlive;

const REQUEST: Request = Request {
    peer: 7,
    shortest: 0,
    longest: 60,
    rx: 0,
    fabric: 1,
};

fn main(rt: HostRuntime) -> io::Result<()> {
    let Ok(mut t) = three_stored() else {
        return rt.write_all(b"refused\n");
    };
    for i in 2..10u64 {
        print!(&rt; "{}", i * 1000)?;
        rt.write_all(who(turn(&mut t, Instant::at(i * 1000))))?;
    }
    Ok(())
}

// Three are admitted, and their primings are sent.
fn three_stored() -> Result<Table, Refusal> {
    let (made, mut t) = table::new(80);
    made?;
    for _ in 0..3u8 {
        let id = table::add(&mut t, REQUEST, 0, Instant::at(1000))?;
        table::complete(&mut t, id, SENT)?;
    }
    Ok(t)
}

// The fridge warms up, and whoever comes first is told.
fn turn(t: &mut Table, now: Instant) -> Result<Option<u32>, Refusal> {
    table::note(t, 3, 6, 0)?;
    let at = Settings {
        now,
        events: 0,
        kind: KeepAlive::Default,
        all: false,
    };
    let Some(told) = table::report(t, at)? else {
        return Ok(None);
    };
    table::complete(t, told.id, SENT)?;
    Ok(Some(told.id))
}

// Who was told.
fn who(told: Result<Option<u32>, Refusal>) -> &'static [u8] {
    match told {
        Ok(Some(1)) => b" A\n",
        Ok(Some(2)) => b" B\n",
        Ok(Some(3)) => b" C\n",
        Ok(Some(_)) => b" somebody else\n",
        Ok(None) => b" nothing\n",
        Err(_) => b" refused\n",
    }
}
