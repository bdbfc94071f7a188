//! The end of a run whose report is in a buffer.
ghost use Rattle.std.specs.Prelude.{◌≡◌, IfErr, IfOk, OnOk};

use crate::details::{Detailed, Texts};
use crate::noting::Noting;
use crate::telling::More;
use desk_report::Spout;
use solver_check::RunFault;
use std::alloc::Global;
use std::io::{BufWriter, Write};

/// Sends what was written, where the run came to its end.
///
/// # Errors
///
/// The run's fault, or the writer's.
pub fn finish<T: Drop, F: Detailed + From<RunFault> + Drop, O: Write + Drop>(
    alloc: Global,
    ended: Result<T, F>,
    texts: Texts<'_>,
    writer: Spout<Noting<BufWriter<O>>>,
    more: &mut More,
) -> Result<T, F>
    ensures ok { IfOk result (λ value. ended ≡ Ok value) }
    ensures err { IfErr ended (λ fault. result ≡ Err fault) }
    ensures unsent { OnOk ended (IfErr result (F.from_gives RunFault.WriteFailed)) }
{
    let (mut buffered, why) = writer.into_inner().into_parts();
    match ended {
        Err(fault) => {
            match why {
                Some(why) => more.reason(alloc, &why),
                None => more.put(fault.more(alloc, texts)),
            }
            Err(fault)
        }
        Ok(value) => match buffered.flush() {
            Ok(()) => Ok(value),
            Err(why) => {
                more.reason(alloc, &why);
                Err(F::from(RunFault::WriteFailed))
            }
        },
    }
}
