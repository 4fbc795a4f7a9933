//! Stimuli are well-formed patterns with few releases in each window, and the tasks of valid models
//! have such stimuli.
ghost use Rattle.std.specs.Prelude.{ℕ, ◌<◌, ◌≤◌, List, length};
ghost use Rattle.cl_model.specs.{declared.{model.SystemModel.SystemModel, stimulus.StimulusKind.StimulusKind}, ByNumber.stimulus_of, Validity.IsValid};
ghost use Rattle.cl_runs.specs.{declared.job.Job.Job, Pattern.IsPattern, Arrivals.FollowPattern};
ghost use Rattle.cl_stim.specs.{Releases.{releases_in, most_releases}, Stimulus.IsStimulus};

pub mod phases;

/// A stimulus whose numbers are in range and in order, as in a valid model, is a well-formed
/// pattern.
pub fn stimuli_are_well_formed()
    ensures { (kind : StimulusKind) → IsStimulus kind → IsPattern kind }
{}

/// Of jobs that follow a well-formed pattern, at most `most_releases` are released in any window of
/// that width.
pub fn releases_are_few()
    ensures { (kind : StimulusKind) → IsPattern kind → (ticks : ℕ) (jobs : List Job)
        → FollowPattern kind ticks jobs
        → (start width : ℕ) → releases_in jobs start width ≤ most_releases kind width }
{}

/// The most releases in a window never fall as the window grows.
pub fn most_releases_never_falls()
    ensures { (kind : StimulusKind) (narrow wide : ℕ) → narrow ≤ wide
        → most_releases kind narrow ≤ most_releases kind wide }
{}

/// Each task of a valid model has a stimulus whose numbers are in range and in order.
pub fn valid_models_have_stimuli()
    ensures { (model : SystemModel) → IsValid model → (i : ℕ) → i < length model.tasks
        → IsStimulus (stimulus_of model i) }
{}
