//! What settler 0 does in a history of one put: it hears, asks, takes the answer, settles, and replies.
mod samples;

use crate::SettlerCore;
use ov_base::{Value, same};
use ov_event::{Entry, Kind, Start};
use ov_functor::Reply;
use ov_topology::Mode;
use ov_window::eval_all;
use samples::{
    WANTED, aborted, answer, asked, core, done, entry, first, five, get, gossip, key, look, put,
    resulted, settled, snapshot, taken, vector, version, want,
};
use std::alloc::Global;
use std::test::Fail;

/// Whether the answer is this entry.
fn says(answer: Option<Entry>, expected: &Entry) -> bool {
    match answer {
        Some(entry) => same(&entry, expected),
        None => false,
    }
}

/// Whether it hears the letter of this entry.
fn hears(core: &mut SettlerCore, sender: u64) -> Result<bool, Fail> {
    let heard = entry(Kind::Heard {
        place: first(sender),
        vector: vector()?,
    });
    Ok(says(core.heard(first(sender), &gossip()?), &heard))
}

/// What asking for a round answers.
fn ask(core: &mut SettlerCore) -> Result<Option<Entry>, Fail> {
    Ok(core.ask(Mode::Quorum)?)
}

/// Whether it asks for nothing before it hears, hears twice, and then asks as entry 8 does.
fn opens(core: &mut SettlerCore) -> Result<bool, Fail> {
    let early = ask(core)?.is_none();
    let heard = hears(core, 4)? && hears(core, 6)?;
    Ok(early && heard && says(ask(core)?, &asked()?))
}

/// Whether it takes no answer to another round, and that of entry 9 as entry 10 does.
fn gathers(alloc: Global, core: &mut SettlerCore) -> Result<bool, Fail> {
    let other = core.take(first(9), &answer(alloc, 2)?)?.is_none();
    let own = core.take(first(9), &answer(alloc, 1)?)?;
    Ok(other && says(own, &taken(alloc)?))
}

/// What settling the open round answers.
fn settle(alloc: Global, core: &mut SettlerCore) -> Result<Option<Entry>, Fail> {
    let Some(harvest) = core.harvest() else {
        return Ok(None);
    };
    let plan = core.plan(alloc, harvest)?;
    let values = eval_all(alloc, &plan)?;
    Ok(core.settle(&plan, values.as_slice())?)
}

/// Whether it admits entry 11, and settles so, once.
fn settles(alloc: Global, core: &mut SettlerCore) -> Result<bool, Fail> {
    let expected = settled(alloc)?;
    let admitted = core.admits(None, &expected)?;
    let once = says(settle(alloc, core)?, &expected);
    Ok(admitted && once && settle(alloc, core)?.is_none())
}

/// Whether x is absent just below the put and has 5 just above, and all is settled below the version of time 2.
fn keeps(core: &SettlerCore) -> Result<bool, Fail> {
    let at = version(1)?.number();
    let before = core.value_at(key()?, at);
    let after = core.value_at(key()?, at + 1);
    let upto = version(2)?.number();
    Ok(before == Value::Absent && after == Value::Number(five()?) && core.settled() == upto)
}

/// Whether it gives this reply to the command that starts so.
fn replies(core: &mut SettlerCore, start: Start, reply: Reply) -> Result<bool, Fail> {
    Ok(says(core.result(WANTED, &want(start))?, &resulted(reply)))
}

/// Whether it gives no reply to the command that starts so.
fn is_silent(core: &mut SettlerCore, start: Start) -> Result<bool, Fail> {
    Ok(core.result(WANTED, &want(start))?.is_none())
}

/// Whether it shows x at its watermark where the floor is not above that, and else gives no reply.
fn looks(alloc: Global, core: &mut SettlerCore) -> Result<bool, Fail> {
    let shown = replies(core, look(alloc, 2)?, snapshot(alloc)?)?;
    Ok(shown && is_silent(core, look(alloc, 3)?)?)
}

/// Whether it admits entry 12 with this reply.
fn admits(alloc: Global, core: &SettlerCore, reply: Reply) -> Result<bool, Fail> {
    let letter = want(put(alloc)?);
    Ok(core.admits(Some(&letter), &resulted(reply))?)
}

#[test]
fn a_put_is_heard_asked_for_settled_and_replied(rt: HostRuntime) -> Result<(), Fail> {
    let alloc = rt.alloc();
    let mut core = core(alloc)?;
    assert!(rt; opens(&mut core)?);
    assert!(rt; gathers(alloc, &mut core)?);
    assert!(rt; settles(alloc, &mut core)?);
    assert!(rt; keeps(&core)?);
    assert!(rt; replies(&mut core, put(alloc)?, done(alloc)?)?);
    assert!(rt; is_silent(&mut core, get(alloc, 2)?)?);
    assert!(rt; looks(alloc, &mut core)?);
    assert!(rt; admits(alloc, &core, done(alloc)?)? && !admits(alloc, &core, aborted(alloc)?)?);
    assert!(rt; core.stop().is_some() && core.stop().is_none());
    Ok(())
}
