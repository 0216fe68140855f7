//! What is left of what is known, once nothing more is found.

ghost use Rattle.std.specs.Prelude.{IfErr};
ghost use Rattle.zfind.specs.Finding.{IsLess, IsStopped};

use crate::code::Code;
use crate::error::FindError;
use crate::kind::Kind;
use crate::looking::{Known, look};
use crate::opened::Opened;
use crate::state::State;
use crate::visits::{Allowance, count_visit, count_work};
use crate::walk::Walk;
use crate::watch::Watch;
use std::alloc::Global;
use zruns::{Room, Tables};

/// What each place, global and routine is given by all that leads there, where this is known of each place. Where it is less than that,
/// a set was widened too far. A function of its own, since its tables lie on the stack.
#[inline(never)]
pub(crate) fn settled<V: Kind, W: Watch>(
    alloc: Global,
    code: &Code<'_>,
    walk: &mut Walk<'_, V>,
    left: &mut Allowance,
    watch: &W,
) -> Result<State<V>, FindError>
    ensures less { IsLess left.new left.old }
    ensures stopped { IfErr result (IsStopped left.new) }
{
    let ranges = walk.bytes.ranges(alloc)?;
    let mut room = Room::new();
    let tables = Tables::new(code.story, &ranges, &mut room);
    let opened = Opened::new(alloc);
    let known = Known {
        tables: &tables,
        opened: &opened,
    };
    let mut next = Walk::still(alloc, code)?;
    for index in 0..code.records().len() {
        settle(
            alloc,
            code,
            known,
            &walk.state,
            &mut next,
            index,
            left,
            watch,
        )?;
    }
    Ok(next.into_state())
}

/// Does what an instruction does by what is known, to what is found anew, if it was reached.
fn settle<V: Kind, W: Watch>(
    alloc: Global,
    code: &Code<'_>,
    known: Known<'_, '_, '_>,
    state: &State<V>,
    next: &mut Walk<'_, V>,
    index: usize,
    left: &mut Allowance,
    watch: &W,
) -> Result<(), FindError>
    ensures less { IsLess left.new left.old }
    ensures stopped { IfErr result (IsStopped left.new) }
{
    let Some(record) = code.records().get(index) else {
        return Ok(());
    };
    let before = next.calls_at(index);
    let Some(seen) = look(alloc, code, known, state, record, index, before.as_ref())? else {
        return Ok(());
    };
    count_visit(left, watch)?;
    next.note_pairs(index, seen.work);
    next.apply(index, state.routine_at(index), &seen.effects)?;
    count_work(left, next.take_work())
}
