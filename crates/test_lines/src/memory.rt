//! What lines that are in memory print.
ghost use Rattle.std.specs.Prelude.{◌≡◌, IfOk, IfErr};
ghost use Rattle.canon_lines.specs.Checks.{PrintsChecks};
ghost use Rattle.canon_lines.specs.Lines.{lines_in};
ghost use Rattle.canon_lines.specs.Prints.{PrintsMessages, PrintsAll};

use canon_lines::RunFault;
use canon_lines::check::check;
use canon_lines::run::run;
use std::alloc::Global;

/// What `run` prints for these lines, and whether nothing in them was refused.
pub fn run_lines(alloc: Global, lines: &[u8]) -> Result<(Vec<u8>, bool), RunFault>
    ensures printed { IfOk result (λ r. PrintsAll PrintsMessages (lines_in lines.now) r.0.items r.1) }
    ensures memory { IfErr result (λ fault. fault ≡ RunFault.Memory) }
{
    let mut source = lines;
    let mut out = Vec::new(alloc);
    let accepted = run(alloc, &mut source, &mut out)?;
    Ok((out, accepted))
}

/// What `check` prints for these lines, and whether nothing in them was at fault or refused.
pub fn check_lines(alloc: Global, lines: &[u8]) -> Result<(Vec<u8>, bool), RunFault>
    ensures printed { IfOk result (λ r. PrintsAll PrintsChecks (lines_in lines.now) r.0.items r.1) }
    ensures memory { IfErr result (λ fault. fault ≡ RunFault.Memory) }
{
    let mut source = lines;
    let mut out = Vec::new(alloc);
    let accepted = check(alloc, &mut source, &mut out)?;
    Ok((out, accepted))
}
