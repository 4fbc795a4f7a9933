//! What holds of each advice.
ghost use Rattle.std.specs.Prelude.{◌≡◌, ℕ, ◌+◌, ◌<◌, ◌≤◌, ◌==◌, true, false, List, [], ◌∷◌, ◌++◌, All, Contains, length, take, slice_index_or, flat_map, Option, IfSome, IsSome, IsSomeAnd};
ghost use Rattle.std.specs.List.{AllPass, list_any};
ghost use Rattle.toml.specs.Data.{Members, get_member};
ghost use Rattle.cl_model.specs.{declared.{model.SystemModel.SystemModel, place.Key.Key, refusal.Refusal.Refusal, task.TaskDef.TaskDef}, AreNamed.AreNamed, Named.{has_name, tasks_on, all_runnables, labels_written}, Reading.{sections, Checks.has_only, Tables.core_fields}};
ghost use Rattle.cl_model.specs.Reading.Tables.{stimulus_fields, periodic_form, sporadic_form, burst_form, label_fields, task_fields, runnable_fields, chain_fields, requirement_fields};
ghost use Rattle.cl_model.specs.declared.place.Part.TheVariants as part;
ghost use Rattle.cl_advice.specs.{declared.shown.TheConstants.{MOST_SHOWN, MOST_QUOTED}, Shown.{is_printable, is_printed, shown_byte, shown, quoted}, Keys.{is_listed, unknown_among}, Wanted.section_want, WantsOfFields.AsksByCheck, With.{rival_of, writer_of}, OfEdits.edit_advice_text};
ghost use Rattle.cl_advice.specs.{Unread.unread_text, Advice.{advice_text, at_line}};
ghost use Rattle.cl_advice.specs.declared.want.Want.TheVariants as want;

/// Bytes of a file are shown in printable ASCII alone and in at most `MOST_SHOWN + 2` bytes, in
/// quotes or without. Without quotes they are shown whole where that takes at most `MOST_SHOWN`
/// bytes.
pub fn bytes_are_shown_clean()
    ensures printable { (bytes : List ℕ) → AllPass is_printable (shown bytes) }
    ensures short { (bytes : List ℕ) → length (shown bytes) ≤ MOST_SHOWN + 2 }
    ensures whole { (bytes : List ℕ) → length (flat_map shown_byte bytes) ≤ MOST_SHOWN
        → shown bytes ≡ flat_map shown_byte bytes }
    ensures quoted_printable { (bytes : List ℕ) → AllPass is_printable (quoted bytes) }
    ensures quoted_short { (bytes : List ℕ) → length (quoted bytes) ≤ MOST_SHOWN + 2 }
    ensures quoted_whole { (bytes : List ℕ) → length (flat_map shown_byte bytes) ≤ MOST_QUOTED
        → quoted bytes ≡ 0x22 ∷ flat_map shown_byte bytes ++ 0x22 ∷ [] }
{}

/// The most bytes that are shown: 64 of a text, and 62 of a string, which stands between quotes.
pub fn limits_of_shown_bytes()
    ensures text { MOST_SHOWN ≡ 64 }
    ensures string { MOST_QUOTED ≡ 62 }
{}

/// Each byte of an advice, on a file or on an edit, is printable ASCII or the end of a line,
/// whatever the file holds.
pub fn advice_is_clean()
    ensures document { (ms : Members) (model : Option SystemModel) (refusal : Refusal) →
        IfSome model AreNamed → AllPass is_printed (advice_text ms model refusal) }
    ensures place { (row column : ℕ) → AllPass is_printed (at_line row column) }
    ensures no_document { (bytes message : List ℕ)
        → AllPass is_printed (unread_text bytes message) }
    ensures edit { (model : Option SystemModel) (refusal : Refusal) → IfSome model AreNamed
        → AllPass is_printed (edit_advice_text model refusal) }
{}

/// In a table that has a key which it may not have, such a key is found, and so is its value.
pub fn unknown_keys_are_found()
    ensures { (keys : List Key) (ms : Members) → has_only keys ms ≡ false →
        IsSomeAnd (unknown_among keys ms)
        (λ word. (is_listed keys word ≡ false) × IsSome (get_member word ms)) }
{}

/// Where M31 or M40 refuses, the task or the runnable that an advice names as the other one comes
/// before the refused one in the model.
pub fn clashes_are_with_earlier_ones()
    ensures tasks { (model : SystemModel) (i : ℕ) (task : TaskDef) →
        list_any (λ other. other.priority == task.priority) (tasks_on task.core (take i model.tasks)) ≡ true →
        IsSomeAnd (rival_of model task) (Contains (take i model.tasks)) }
    ensures runnables { (model : SystemModel) (i p : ℕ) (task : TaskDef) (label : List ℕ) →
        i < length model.tasks → task ≡ slice_index_or model.tasks i task →
        has_name label (labels_written (all_runnables (take i model.tasks))
        ++ labels_written (take p task.runnables)) ≡ true →
        IsSomeAnd (writer_of model label) (Contains (all_runnables (take i model.tasks) ++ take p task.runnables)) }
{}

/// What an advice says is wanted for a section, for a key of an entry or for a key of a runnable is
/// what the reader checks there: the kind of value, the range, the words and the limit.
pub fn wants_are_those_of_the_reader()
    ensures cores { (version : ℕ) → All (AsksByCheck version part.Core) core_fields }
    ensures stimuli { (version : ℕ) → All (AsksByCheck version part.Stimulus) (stimulus_fields version) }
    ensures periodic { (version : ℕ) → All (AsksByCheck version part.Stimulus) periodic_form.fields }
    ensures sporadic { (version : ℕ) → All (AsksByCheck version part.Stimulus) sporadic_form.fields }
    ensures bursts { (version : ℕ) → All (AsksByCheck version part.Stimulus) burst_form.fields }
    ensures labels { (version : ℕ) → All (AsksByCheck version part.Label) label_fields }
    ensures tasks { (version : ℕ) → All (AsksByCheck version part.Task) task_fields }
    ensures runnables { (version : ℕ) → All (AsksByCheck version part.Task) runnable_fields }
    ensures chains { (version : ℕ) → All (AsksByCheck version part.Chain) chain_fields }
    ensures requirements { (version : ℕ)
        → All (AsksByCheck version part.Requirement) (requirement_fields version) }
    ensures sections { All
        (λ section. section_want section.part ≡ want.Array section.limit) sections }
{}
