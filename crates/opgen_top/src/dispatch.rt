//! Which function answers which command.
ghost use Rattle.std.specs.Prelude.{◌≡◌, Some};
ghost use Rattle.opgen_command.specs.Command.{HasRanges};
ghost use Rattle.opgen_top.specs.Prepared.{reads_of, IsPrepared, OnAnswer};
ghost use Rattle.opgen_top.specs.Targets.{devices_of};

use crate::answer::{Answer, Refusal};
use crate::check::check;
use crate::context::Context;
use crate::generate::generate;
use crate::simulate::simulate;
use crate::vectors::make_vectors;
use crate::workload::run_workload;
use opgen_command::Command;
use opgen_io::Folder;
use opgen_search::Gate;
use std::thread::Threads;

/// The answer to a command, before anything is stored. The folder's files stay as they are.
pub(crate) fn answer_command<R: Threads + Sync, F: Folder, G: Gate + Sync>(
    asked: &Command,
    folder: &mut F,
    context: Context<'_, R, G>,
) -> Result<Answer, Refusal>
    requires { HasRanges asked.now }
    ensures told_same { F.told folder.new ≡ F.told folder.old }
    ensures write_faults_same { F.write_faults folder.new ≡ F.write_faults folder.old }
    ensures prepared { OnAnswer result (IsPrepared (Some asked.now)
        (devices_of target_name delays adjustable context.entry.targets.items) (F.told folder.old)
        (reads_of F.read_faults F.lacks F.longs folder.old) (reads_of F.read_faults F.lacks F.longs folder.new)) }
{
    let alloc = context.alloc;
    match asked {
        Command::Generate {
            spec,
            workers,
            enable,
        } => {
            let spec = spec.as_str();
            generate(spec, *workers, *enable, folder, context)
        }
        Command::Vectors { spec, seed, cycles } => {
            let spec = spec.as_str();
            make_vectors(spec, *seed, *cycles, folder, context)
        }
        Command::Simulate { vhdl, vectors, out } => {
            simulate(alloc, vhdl.as_str(), vectors.as_str(), out.as_str(), folder)
        }
        Command::Workload { n } => run_workload(*n, context),
        Command::Check {
            spec,
            vhdl,
            vectors,
            latency,
        } => check(
            alloc,
            spec.as_str(),
            vhdl.as_str(),
            vectors.as_str(),
            *latency,
            folder,
        ),
    }
}
