//! Cases of stories: the command follows the schedule of a case, and what its story says is printed.
use crate::case::Case;
use crate::command::call;
use crate::fault::CaseFault;
use crate::line::print_count;
use ov_base::{Memory, print_number};
use ov_event::Kind;
use ov_functor::Reply;
use ov_journal::{has_line, print_entry};
use ov_script::Script;
use ov_top::Story;

/// The entries of the story, in their order.
pub fn entries(rt: &HostRuntime, case: &Case) -> Result<Vec<u8>, CaseFault> {
    let story = story_of(rt, case)?;
    let mut printed = Vec::new(rt.alloc());
    for entry in story.entries.as_slice() {
        if has_line(entry) {
            print_entry(rt.alloc(), entry, &mut printed)?;
            printed.extend_from_slice(b"\n")?;
        }
    }
    Ok(printed)
}

/// How many entries the story has, and its replies in their order.
pub fn briefly(rt: &HostRuntime, case: &Case) -> Result<Vec<u8>, CaseFault> {
    let story = story_of(rt, case)?;
    let mut printed = Vec::new(rt.alloc());
    print_count(
        "entries",
        story.entries.as_slice().len() as u64,
        &mut printed,
    )?;
    print_answers(&story, &mut printed)?;
    Ok(printed)
}

/// The replies of the story, in their order.
pub fn replies(rt: &HostRuntime, case: &Case) -> Result<Vec<u8>, CaseFault> {
    let story = story_of(rt, case)?;
    let mut printed = Vec::new(rt.alloc());
    print_answers(&story, &mut printed)?;
    Ok(printed)
}

/// The story of the command over the blocks of a case, which have to be accepted.
fn story_of(rt: &HostRuntime, case: &Case) -> Result<Story, CaseFault> {
    let called = call(rt, "step topology script schedule", case)?;
    match called.status {
        0 | 1 => Ok(called.story),
        9 => Err(CaseFault::Memory),
        _ => Err(
            case.head
                .fault("its topology, its script or its schedule is not accepted"),
        ),
    }
}

/// Prints the replies of a story in their order.
fn print_answers(story: &Story, printed: &mut Vec<u8>) -> Result<(), Memory> {
    let Some(script) = &story.script else {
        return Ok(());
    };
    for entry in story.entries.as_slice() {
        if let Kind::Replied {
            session,
            seq,
            reply,
            ..
        } = &entry.kind
        {
            print_answer(script, *session, *seq, reply, printed)?;
        }
    }
    Ok(())
}

/// The name of a session, the number of a command of it, and its reply.
fn print_answer(
    script: &Script,
    session: u32,
    seq: u32,
    reply: &Reply,
    printed: &mut Vec<u8>,
) -> Result<(), Memory> {
    if let Some(plan) = script.roster().sessions.as_slice().get(session as usize) {
        printed.extend_from_slice(plan.name.bytes())?;
    }
    printed.push(b' ')?;
    print_number(u64::from(seq), printed)?;
    printed.push(b' ')?;
    reply.print_to(printed)?;
    Ok(printed.push(b'\n')?)
}
