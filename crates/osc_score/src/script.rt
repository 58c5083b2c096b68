// Writes the script that plays a score.
ghost use Rattle.std.specs.Prelude.{◌≡◌, ◌++◌, ◌≤◌, length, map, OnOk};
ghost use Rattle.osc_script.specs.Written.{written};
ghost use Rattle.osc_script.specs.declared.act.Act.TheVariants.{Add};
ghost use Rattle.osc_score.specs.Plans.{run_sends, run_ticks, run_batch, run_batches};

use crate::limits::BATCH_SIZE;
use crate::run::Run;
use osc_pattern::Address;
use osc_script::{put_digits, put_line};
use std::alloc::{AllocError, Global};

/// Adds an `add` for each address.
pub(crate) fn put_adds(script: &mut Vec<u8>, addresses: &[Address]) -> Result<(), AllocError>
    ensures { OnOk result (script.new.items ≡ script.old.items ++ written (map Add addresses.now)) }
{
    for address in addresses {
        put_line(script, b"add", address.bytes())?;
    }
    Ok(())
}

/// Adds the lines that play the runs, batch by batch.
pub(crate) fn put_batches(
    alloc: Global,
    script: &mut Vec<u8>,
    runs: &[Run],
) -> Result<(), AllocError>
    ensures { OnOk result
        (script.new.items ≡ script.old.items ++ written (run_batches (length runs.now) runs.now)) }
{
    let mut rest = runs;
    while !rest.is_empty() {
        let (batch, after) = rest.split_at(rest.len().min(BATCH_SIZE));
        put_batch(alloc, script, batch)?;
        rest = after;
    }
    Ok(())
}

/// Adds the lines that send a batch, and those that play it.
fn put_batch(alloc: Global, script: &mut Vec<u8>, runs: &[Run]) -> Result<(), AllocError>
    ensures { OnOk result (script.new.items ≡ script.old.items ++ written (run_batch runs.now)) }
{
    put_sends(alloc, script, runs)?;
    put_ticks(alloc, script, runs)
}

fn put_sends(alloc: Global, script: &mut Vec<u8>, runs: &[Run]) -> Result<(), AllocError>
    ensures { OnOk result (script.new.items ≡ script.old.items ++ written (run_sends runs.now)) }
{
    for run in runs {
        put_digits(alloc, script, b"send", run.bundle.as_slice())?;
    }
    Ok(())
}

fn put_ticks(alloc: Global, script: &mut Vec<u8>, runs: &[Run]) -> Result<(), AllocError>
    ensures { OnOk result (script.new.items ≡ script.old.items ++ written (run_ticks runs.now)) }
{
    for run in runs {
        put_digits(alloc, script, b"tick", &run.tag.to_be_bytes())?;
        script.extend_from_slice(b"pump\n")?;
    }
    Ok(())
}
