//! Laws of outcomes: words have an outcome, and any two outcomes of them say the same.
ghost use Rattle.std.specs.Prelude.{◌≡◌, ◌↔◌, ◌<◌, ℕ, List, [], Some, All, slice_index_or};
ghost use Rattle.cl_model.specs.{declared.model.SystemModel.SystemModel, Validity.IsValid};
ghost use Rattle.cl_edit.specs.{declared.edit.Edit.Edit, Ranges.IsEditInRange};
ghost use Rattle.cl_runs.specs.Run.{Run};
ghost use Rattle.cl_top.specs.{declared.command.Command.{TheVariants.{Analyse, Replay}, Command}, Command.command_of, Commands.{commands, SaysTheSame, of_run, Edit.{AreAccepted, IsSafePiece}, Replay.IsReplayed}, Migrated.IsMigratedFile, OfTrace.IsOfRun, Reported.IsPieceOfCommand};
ghost use Rattle.cl_top.specs.Simulated.{IsSimulatedFile};
ghost use Rattle.cl_engine.specs.{declared.{outcome.Outcome.Outcome, status.TheConstants.DONE}, Files.File, Language.files_of, Fetched.{Fetched, EachFile, WasFetched, told_fetch}, Outcome.HasOutcome};

/// Words whose files were all fetched have an outcome.
pub fn words_have_an_outcome()
    ensures { (words : List (List ℕ)) (gave : File → Fetched)
        → EachFile (files_of commands words) (λ file. WasFetched (gave file))
        → (found : Outcome) × HasOutcome commands (command_of words) gave found }
{}

/// Two outcomes of the same words say the same, where the same was fetched of their files: they are
/// equal, or differ only as the command allows.
#[tactic(auto, using(crate::proofs::Answers::same_outcome))]
pub fn outcomes_say_the_same()
    ensures { (words : List (List ℕ)) (gave : File → Fetched) (one other : Outcome)
        → HasOutcome commands (command_of words) gave one
        → HasOutcome commands (command_of words) gave other
        → SaysTheSame (command_of words) one other }
{}

/// Two outcomes of a run by `replay` are equal, whatever the model, and for a valid model so are
/// two outcomes of a run by any one command. An outcome of a run is what comes of it where it is
/// legal, or else the first rule that it breaks.
pub fn runs_are_answered_in_one_way()
    ensures replayed { (model : SystemModel) (run : Run) (one other : Outcome)
        → IsOfRun model (IsReplayed model) run one
        → IsOfRun model (IsReplayed model) run other → one ≡ other }
    ensures each { (asked : Command) (model : SystemModel) → IsValid model
        → (run : Run) (one other : Outcome)
        → IsOfRun model (of_run asked model) run one → IsOfRun model (of_run asked model) run other
        → one ≡ other }
{}

/// A file that holds what `migrate` wrote for a model file at status 0, within the limit of a file,
/// has the same outcomes of `analyse` as that model file.
#[tactic(auto, using(crate::proofs::AnalysedAlike::analysed_alike))]
pub fn migrated_files_are_analysed_alike()
    ensures { (contents migrated : ℕ → List ℕ) (found : Outcome) → IsMigratedFile contents migrated
        → HasOutcome commands (Some Analyse) (told_fetch contents) found ↔ HasOutcome commands (Some Analyse) (told_fetch migrated) found }
{}

/// For a valid model and a list of edits in range, the piece of text that each accepted edit has
/// written is what a command writes for every file, within the limit of a file, of the model after
/// the edits above: `analyse` for a line `report`, `tighten` for a line `tighten`, and for a line
/// `verify` one of the texts that `verify` may write. Each other edit has written nothing. The whole
/// text of `edit` is the pieces of the accepted edits, joined, with nothing or one refusal behind
/// them (`AreEditedTo`).
pub fn edits_write_what_commands_write()
    ensures { (model made : SystemModel) (edits : List Edit) (count : ℕ) (pieces : List (List ℕ))
        → IsValid model
        → All IsEditInRange edits → AreAccepted model edits count pieces made → (place : ℕ)
        → place < count
        → IsPieceOfCommand model edits place (slice_index_or pieces place []) }
{}

/// For a valid model and a list of edits in range, the piece of text that each accepted edit has
/// written is safe for the model after the edits above: a safe report for a line `report`, safe
/// tight bounds for a line `tighten`, and decisions for a line `verify`. So it is whether or not an
/// edit is refused behind it.
pub fn edits_write_what_is_safe()
    ensures { (model made : SystemModel) (edits : List Edit) (count : ℕ) (pieces : List (List ℕ))
        → IsValid model
        → All IsEditInRange edits → AreAccepted model edits count pieces made → (place : ℕ)
        → place < count
        → IsSafePiece model edits place (slice_index_or pieces place []) }
{}

/// A trace file that holds what `simulate` wrote for a model file at status 0 can be replayed with
/// that model file: the trace is within the limit of a trace file, it is the trace of a run, and
/// the run is legal, so an outcome of `replay` has status 0.
pub fn simulations_can_be_replayed()
    ensures { (contents : ℕ → List ℕ) (ticks seed : ℕ) (found : Outcome)
        → IsSimulatedFile contents ticks seed
        → HasOutcome commands (Some Replay) (told_fetch contents) found → found.status ≡ DONE }
{}
