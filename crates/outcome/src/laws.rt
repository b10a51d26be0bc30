//! What holds of each input, of what a run writes, and of what it answers.

ghost use Rattle.std.specs.Prelude.{◌≡◌, ◌↔◌, true};
ghost use Rattle.outlet.specs.declared.run_fault.RunFault.{RunFault as FaultOfRun};
ghost use Rattle.outcome.specs.declared.summary.InputSummary.{InputSummary as SummaryOfInput};
ghost use Rattle.outcome.specs.Order.{PacketsComeInOrder, PacketsAreFew};
ghost use Rattle.outcome.specs.OutputFaults.{AnalyserTellsOnlyWhatWasTaken};
ghost use Rattle.outcome.specs.EqualOutput.{EqualInputsGiveEqualBytes, BytesAreOfEveryHistory, UnfailedInputsGiveAll};
ghost use Rattle.outcome.specs.EqualOutput.{BegunBytesBeginTheOutput, BegunBytesBeginEveryHistory};

use crate::summary::InputSummary;
use outlet::RunFault;

/// The packets that a run may take of an input come in the order of their times.
pub fn packets_come_in_order()
    ensures { PacketsComeInOrder }
{}

/// There are as few as have room in its bytes, where bytes may lack after the last: at most 16,777,216 of an input of no more bytes
/// than its size allows.
pub fn packets_are_few()
    ensures { PacketsAreFew }
{}

/// Of what a multiplex sends the analyser tells no fault of sync, none of the PAT or a PMT, and a wrong counter only where a
/// wrong one was taken.
pub fn analyser_tells_only_what_was_taken()
    ensures { AnalyserTellsOnlyWhatWasTaken }
{}

/// Two runs of one schedule, for as many slots, over equal known bytes write equal bytes, where nothing but their end stopped an
/// input: each in one thread or in several, however these ran.
pub fn equal_inputs_give_equal_bytes()
    ensures { EqualInputsGiveEqualBytes }
{}

/// Such a run writes the packets of every lawful history that is faithful to the inputs' packets and finished at the run's
/// slots.
pub fn bytes_are_of_every_history()
    ensures { BytesAreOfEveryHistory }
{}

/// Where nothing but the end of a run stopped an input, the run takes all that can be taken of the inputs' bytes, in order.
pub fn unfailed_inputs_give_all()
    ensures { UnfailedInputsGiveAll }
{}

/// What a run wrote that failed begins what each run of the same schedule, for as many slots, over equal known bytes writes that ends
/// by itself, where nothing but its end stopped an input: each in one thread or in several. It begins the packets of every such
/// lawful history, too. Of an input of the failed one all was taken that it took, in order: nothing but the end of the run stopped
/// it, or it wanted memory in a run in one thread.
pub fn begun_bytes_begin_the_output()
    ensures output { BegunBytesBeginTheOutput }
    ensures every_history { BegunBytesBeginEveryHistory }
{}

/// A clone of a run's fault, or of what became of an input, is that very value.
pub fn clones_are_equal()
    ensures fault { (x y : FaultOfRun) → ⟦<RunFault as Clone>⟧.is_clone x y → y ≡ x }
    ensures input { (x y : SummaryOfInput) → ⟦<InputSummary as Clone>⟧.is_clone x y → y ≡ x }
{}

/// They compare as equal exactly where they are the same.
pub fn equal_values_are_the_same()
    ensures fault { (x y : FaultOfRun) → (⟦<RunFault as PartialEq>⟧.eq x y ≡ true) ↔ (x ≡ y) }
    ensures input { (x y : SummaryOfInput) → (⟦<InputSummary as PartialEq>⟧.eq x y ≡ true) ↔ (x ≡ y) }
{}
