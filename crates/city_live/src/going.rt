//! Who holds a first command back.
use crate::in_the_way::InTheWay;
use crate::waiting::Waiting;
use crate::work::Work;
use city_locks::Mode;
use city_model::OutOfMemory;
use city_session::Session;
use std::alloc::Global;

/// Behind whom the first command is held back, if it is: one in its way when it died, or an older one waiting for a
/// lock of it.
pub fn held_back(
    alloc: Global,
    session: &Session,
    waiting: &Waiting,
    stamp: u64,
    work: &Work,
) -> Result<Option<(u64, Option<InTheWay>)>, OutOfMemory> {
    if let Some(other) = work.still_open(session) {
        return Ok(Some((other, None)));
    }
    if waiting.is_empty() {
        return Ok(None);
    }
    let Some(command) = work.command() else {
        return Ok(None);
    };
    let Some((id, mode, others)) = session.locks(stamp, command) else {
        return Ok(None);
    };
    if let Some(older) = waiting.older_at(id, stamp, mode) {
        return Ok(Some((
            older,
            Some(InTheWay::one(alloc, session.ended(), id, mode, older)?),
        )));
    }
    for id in others {
        if let Some(older) = waiting.older_at(id, stamp, Mode::Exclusive) {
            return Ok(Some((
                older,
                Some(InTheWay::one(alloc, session.ended(), id, Mode::Exclusive, older)?),
            )));
        }
    }
    Ok(None)
}
