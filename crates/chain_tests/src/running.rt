//! The run of a chain with ample memory.

ghost use Rattle.std.specs.Prelude.{◌≡◌, ◌<◌, ◌+◌, ℕ, Option, Some, None, IfOk, OnOk};
ghost use Rattle.sam_model.specs.declared.tensors.Written.{Written};
ghost use Rattle.chain_tests.specs.Rows.{run_at, zeros as zeros_written};

use crate::rows::{chain, files, vector, zeros};
use sam_base::Name;
use sam_chain::ChainRun;
use std::alloc::{AllocError, Global};
use std::test::Fail;
use tns_io::result_text;

/// The run before its first step.
fn start(alloc: Global) -> Result<ChainRun, AllocError>
    ensures { IfOk result (λ run. run ≡ run_at 0 None) }
{
    Ok(ChainRun::new(chain(alloc)?, files(alloc)?))
}

/// Goes on with the zeros that each step lists.
fn give_first(alloc: Global, run: &mut ChainRun) -> Result<(), AllocError>
    requires { run.old ≡ run_at 0 None }
    ensures { OnOk result (run.new ≡ run_at 1 (Some zeros_written)) }
{
    run.give(alloc, zeros(alloc)?)
}

fn give_second(alloc: Global, run: &mut ChainRun) -> Result<(), AllocError>
    requires { run.old ≡ run_at 1 (Some zeros_written) }
    ensures { OnOk result (run.new ≡ run_at 2 (Some zeros_written)) }
{
    run.give(alloc, zeros(alloc)?)
}

/// The text of what the last step lists.
fn last_text(alloc: Global, run: &ChainRun) -> Result<Name, AllocError>
    requires { run.now ≡ run_at 2 (Some zeros_written) }
{
    result_text(alloc, &vector(alloc, "x", "")?, run.last())
}

#[test]
fn cancelled_entries_stay(rt: HostRuntime) -> Result<(), Fail> {
    let alloc = rt.alloc();
    let mut run = start(alloc)?;
    assert_eq!(rt; run.step(), 0);
    assert_eq!(rt; run.entries().len(), 1);
    give_first(alloc, &mut run)?;
    assert_eq!(rt; run.step(), 1);
    assert_eq!(rt; run.program().result.name.as_bytes(), b"x".as_slice());
    assert_eq!(rt; run.entries().len(), 2);
    let Some(listed) = run.entries().as_slice().last() else {
        return Err("no entries".into());
    };
    assert_eq!(rt; listed.coords.as_slice(), [0, 2].as_slice());
    assert_eq!(rt; listed.values.as_slice(), [0, 0].as_slice());
    give_second(alloc, &mut run)?;
    assert_eq!(rt;
        last_text(alloc, &run)?.as_bytes(),
        b"1 0\n3 0\n".as_slice()
    );
    Ok(())
}
