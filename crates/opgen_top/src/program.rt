//! All that the program does.
ghost use Rattle.std.specs.Prelude.{◌≡◌, ◌⊎◌, ◌++◌, ℕ, Bool, List, map, None, Some, is_some, string_bytes, IfOk, Ok};
ghost use Rattle.opgen_command.specs.declared.command.Command.TheVariants.{Generate};
ghost use Rattle.opgen_io.specs.Bytes.{TakesPrefix};
ghost use Rattle.opgen_io.specs.Counts.{next_count, Rose, Stood};
ghost use Rattle.opgen_io.specs.Files.{Files};
ghost use Rattle.opgen_command.specs.Command.{command_of};
ghost use Rattle.opgen_top.specs.Answer.{refusal};
ghost use Rattle.opgen_top.specs.Due.{IsAnswered};
ghost use Rattle.opgen_top.specs.Headline.{Headline};
ghost use Rattle.opgen_top.specs.Left.{LeftByFault, LeftByMemory};
ghost use Rattle.opgen_top.specs.Lines.{line_status};
ghost use Rattle.opgen_top.specs.Prepared.{answer_of, reads_of, IsAnswerOrLine, IsPrepared};
ghost use Rattle.opgen_top.specs.Printed.{IsOnePut, IsPrinted};
ghost use Rattle.opgen_top.specs.Statuses.{IsDueStatus, IsSilent, IsStatus, Refuses, TellsOr};
ghost use Rattle.opgen_top.specs.Targets.{devices_of};

use crate::answer::{Answer, Refusal, without_file};
use crate::context::Context;
use crate::dispatch::answer_command;
use crate::laws::{circuits_recover, circuits_serve};
use crate::line::Line;
use crate::status::Status;
use crate::store_all::store_all;
use opgen_command::{CommandFault, read_command};
use opgen_io::{Folder, PutFault, Sink, StoreFault};
use opgen_num::Memory;
use opgen_search::Gate;
use opgen_target::Target;
use std::alloc::Global;
use std::thread::Threads;

/// Runs the program: `words` are the words after its name.
///
/// - `generate SPEC` reads the specification SPEC from the folder, stores the VHDL of its circuit
///   under `<name>.vhd` and the report on it under `<name>.rpt`, and prints a line with its latency.
///   With `--enable` the circuit has a port `ce` before the others, its registers hold where that is
///   0, and its latency counts the cycles in which it is 1.
/// - `vectors SPEC` stores the rows of the circuit without that port over its stimulus under
///   `<name>.vec`.
/// - `simulate VHDL VECTORS OUT` runs the design of VHDL over the rows of VECTORS and stores the rows
///   of its inputs and outputs under OUT.
/// - `workload N` plans and runs a filter that is made from the number, stores nothing, and prints a
///   line with the number of its signals, its latency, and how many cycles of the run are good.
/// - `check SPEC VHDL VECTORS LATENCY` runs the design of VHDL, by whomever it was written, over the
///   rows of VECTORS, judges each row of outputs from LATENCY on by the specification SPEC and the
///   inputs so many rows before, stores nothing, and prints how many rows are good, or the first that
///   is not. It builds no circuit and asks for no target.
///
/// A circuit is planned for the first of `targets` that has the name in its specification, whose
/// table of delays is changed by the delay lines there, in order. All targets are dropped.
///
/// A least set of adders is sought on as many threads as `--workers` says, by default one; the
/// answer does not depend on their number. The gate, an observer, is told of each piece of that search.
pub fn run<R: Threads + Sync, F: Folder, K: Sink, G: Gate + Sync>(
    rt: &R,
    alloc: Global,
    words: &[String],
    folder: &mut F,
    out: &mut K,
    targets: Vec<Box<dyn Target>>,
    gate: &G,
) -> Status
    ensures statuses { IsStatus result.0 }

    // The words decide on usage, and the counts license a fault of reading, a file too long and a fault of writing.
    ensures usage { result.0 ≡ 2 → command_of (map string_bytes words.now) ≡ None }
    ensures usage_due { command_of (map string_bytes words.now) ≡ None →
        TellsOr 2 (K.faults out.old) (K.faults out.new) result.0 }
    ensures read_fault { result.0 ≡ 3 →
        Rose (F.read_faults folder.old) (F.read_faults folder.new) ⊎ Rose (F.lacks folder.old) (F.lacks folder.new) }
    ensures too_long { result.0 ≡ 9 → Rose (F.longs folder.old) (F.longs folder.new) }
    ensures write_fault { result.0 ≡ 4 →
        Rose (F.write_faults folder.old) (F.write_faults folder.new) ⊎ Rose (K.faults out.old) (K.faults out.new) }

    // Where the folder tells its files, the answer that is due was given, but for the statuses 4 and 5, and for 3 after a
    // fault of reading.
    ensures answered { (files : Files) → F.told folder.old ≡ Some files → IsDueStatus result.0 →
        IsAnswered (command_of (map string_bytes words.now)) (devices_of target_name delays adjustable targets.items) files
        result.0 (F.told folder.new) (K.taken out.old) (K.taken out.new) }
    ensures missing { (files : Files) → F.told folder.old ≡ Some files →
        Stood (F.read_faults folder.old) (F.read_faults folder.new) → result.0 ≡ 3 →
        IsAnswered (command_of (map string_bytes words.now)) (devices_of target_name delays adjustable targets.items) files
        result.0 (F.told folder.new) (K.taken out.old) (K.taken out.new) }
    ensures complete { (files : Files) → F.told folder.old ≡ Some files →
        Stood (F.read_faults folder.old) (F.read_faults folder.new) →
        Stood (F.write_faults folder.old) (F.write_faults folder.new) →
        Stood (K.faults out.old) (K.faults out.new) →
        (result.0 ≡ 5) ⊎ IsAnswered (command_of (map string_bytes words.now)) (devices_of target_name delays adjustable targets.items) files
        result.0 (F.told folder.new) (K.taken out.old) (K.taken out.new) }

    // What is left in the folder.
    ensures unchanged { Refuses result.0 → F.told folder.new ≡ F.told folder.old }
    ensures left_by_fault { (files : Files) → F.told folder.old ≡ Some files → result.0 ≡ 4 →
        LeftByFault (command_of (map string_bytes words.now)) (devices_of target_name delays adjustable targets.items) files
        (Rose (F.read_faults folder.old) (F.read_faults folder.new))
        (Rose (F.write_faults folder.old) (F.write_faults folder.new))
        (Rose (K.faults out.old) (K.faults out.new))
        (F.told folder.new) (K.taken out.old) (K.taken out.new) }
    ensures left_by_memory { (files : Files) → F.told folder.old ≡ Some files → result.0 ≡ 5 →
        LeftByMemory (command_of (map string_bytes words.now)) (devices_of target_name delays adjustable targets.items) files
        (F.told folder.new) }

    // What is printed, whether or not the folder tells its files.
    ensures printed { (held : List ℕ) → K.taken out.old ≡ Some held →
        IsPrinted result.0 (K.faults out.old) (K.faults out.new) held (K.taken out.new) }
    ensures sink_tells { is_some (K.taken out.new) ≡ is_some (K.taken out.old) }
    ensures one_put { IsOnePut result.0
        (Stood (F.write_faults folder.old) (F.write_faults folder.new))
        (Stood (K.faults out.old) (K.faults out.new)) (K.puts out.old) (K.puts out.new) }

    ensures headline { (file : List ℕ) (workers : ℕ) (enable : Bool) →
        command_of (map string_bytes words.now) ≡ Some (Generate file workers enable) →
        (files : Files) → F.told folder.old ≡ Some files → result.0 ≡ 0 →
        Headline file enable (devices_of target_name delays adjustable targets.items) files
        (F.told folder.new) (K.taken out.old) (K.taken out.new) }
{
    // The headline says what the laws say of the circuit.
    circuits_serve();
    circuits_recover();
    let context = Context {
        rt,
        alloc,
        targets,
        gate,
    };
    let answer = match answer_words(words, folder, context) {
        Ok(answer) => answer,
        Err(_) => return Status::OUT_OF_MEMORY,
    };
    // The text is made before anything is stored: where memory runs out here, nothing has changed.
    let text = match answer.line.text(alloc) {
        Ok(text) => text,
        Err(_) => return Status::OUT_OF_MEMORY,
    };
    match store_all(&answer.stores, folder) {
        Ok(()) => print_line(&answer.line, text.as_str(), out),
        Err(StoreFault::Failed) => Status::WRITE_FAULT,
        Err(StoreFault::Memory) => Status::OUT_OF_MEMORY,
    }
}

// The answer to the words, before anything is stored. The folder's files stay as they are.
fn answer_words<R: Threads + Sync, F: Folder, G: Gate + Sync>(
    words: &[String],
    folder: &mut F,
    context: Context<'_, R, G>,
) -> Result<Answer, Memory>
    ensures told_same { F.told folder.new ≡ F.told folder.old }
    ensures write_faults_same { F.write_faults folder.new ≡ F.write_faults folder.old }
    ensures usage_due { command_of (map string_bytes words.now) ≡ None →
        IfOk result (λ a. answer_of a ≡ refusal Line.Usage) }
    ensures prepared { IfOk result (λ a. IsPrepared (command_of (map string_bytes words.now))
        (devices_of target_name delays adjustable context.entry.targets.items) (F.told folder.old)
        (reads_of F.read_faults F.lacks F.longs folder.old) (reads_of F.read_faults F.lacks F.longs folder.new)
        (answer_of a)) }
{
    let alloc = context.alloc;
    match read_command(alloc, words) {
        Ok(asked) => with_refusal(alloc, answer_command(&asked, folder, context)),
        Err(CommandFault::Usage) => Ok(without_file(alloc, Line::Usage)),
        Err(CommandFault::Memory) => Err(Memory),
    }
}

// The answer of a command; of a refusal, the line that says so.
fn with_refusal(alloc: Global, answered: Result<Answer, Refusal>) -> Result<Answer, Memory>
    ensures { IfOk result (λ a. IsAnswerOrLine answered (answer_of a)) }
{
    match answered {
        Ok(answer) => Ok(answer),
        Err(Refusal::Line(line)) => Ok(without_file(alloc, line)),
        Err(Refusal::Memory) => Err(Memory),
    }
}

// Prints the text of a line, and returns the status that comes with it; where the text is refused, 4 or 5.
fn print_line<K: Sink>(line: &Line, text: &str, out: &mut K) -> Status
    ensures status { TellsOr (line_status line.now) (K.faults out.old) (K.faults out.new) result.0 }
    ensures listed { IsStatus result.0 }
    ensures taken { (held : List ℕ) → K.taken out.old ≡ Some held →
        IsSilent result.0 ⊎ (K.taken out.new ≡ Some (held ++ text.now)) }
    ensures part { result.0 ≡ 4 → TakesPrefix (K.taken out.old) text.now (K.taken out.new) }
    ensures silent { Stood (K.faults out.old) (K.faults out.new) → (result.0 ≡ 4 → ⊥) }
    ensures none { result.0 ≡ 5 → K.taken out.new ≡ K.taken out.old }
    ensures tells { is_some (K.taken out.new) ≡ is_some (K.taken out.old) }
    ensures one_put { K.puts out.new ≡ next_count (K.puts out.old) }
{
    match out.put(text.as_bytes()) {
        Ok(()) => line.status(),
        Err(PutFault::Failed) => Status::WRITE_FAULT,
        Err(PutFault::Memory) => Status::OUT_OF_MEMORY,
    }
}
