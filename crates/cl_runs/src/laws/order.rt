//! The moments of legal runs and the ideal moments are in order, and over them earliest readers and
//! latest writers rise.
ghost use Rattle.std.specs.Prelude.{ℕ, ◌<◌, ◌≤◌, List, length};
ghost use Rattle.cl_model.specs.{declared.group.{Group.Group, Step.Step}, Groups.{groups, group_at}};
ghost use Rattle.cl_runs.specs.{TaskTiming.{System, IsSound}, Run.Run, Legal.IsLegal, Chains.{IsEarliestReader, IsLatestWriter}, MomentOrder.{AreInOrder, HaveReadBeforeWriting, AreGroupsOf}, RunChains.{run_moments, ideal_moments}};

/// In a legal run the jobs of any groups read and write at most once and in order, and those of a
/// chain's groups read before they write.
pub fn run_moments_are_in_order()
    ensures order { (system : System) → IsSound system → (run : Run) → IsLegal system run
        → (groups : List Group)
        → AreInOrder (run_moments system run) groups }
    ensures read { (system : System) → IsSound system → (run : Run) → IsLegal system run
        → (steps : List Step)
        → HaveReadBeforeWriting (run_moments system run) (groups steps) }
{}

/// Over the ideal moments of a sound system the jobs of groups read and write at most once and in
/// order, and read before they write.
pub fn ideal_moments_are_in_order()
    ensures order { (system : System) → IsSound system → (groups : List Group)
        → AreGroupsOf system groups
        → AreInOrder (ideal_moments system) groups }
    ensures read { (system : System) → IsSound system → (groups : List Group)
        → AreGroupsOf system groups
        → HaveReadBeforeWriting (ideal_moments system) groups }
{}

/// In a legal run the earliest reader never falls from an earlier writing job to a later one, nor
/// does the latest writer from an earlier reading job to a later one.
pub fn readers_and_writers_rise()
    ensures reader { (system : System) → IsSound system → (run : Run) → IsLegal system run
        → (writer reader : Group) (m n k l : ℕ)
        → m ≤ n → IsEarliestReader (run_moments system run) writer reader m k
        → IsEarliestReader (run_moments system run) writer reader n l → k ≤ l }
    ensures writer { (system : System) → IsSound system → (run : Run) → IsLegal system run
        → (writer reader : Group) (m n k l : ℕ)
        → k ≤ l → IsLatestWriter (run_moments system run) writer reader m k
        → IsLatestWriter (run_moments system run) writer reader n l → m ≤ n }
{}

/// Over the ideal moments of a sound system the earliest reader never falls from an earlier writing
/// job to a later one, nor does the latest writer from an earlier reading job to a later one.
pub fn ideal_readers_and_writers_rise()
    ensures reader { (system : System) → IsSound system → (groups : List Group)
        → AreGroupsOf system groups → (i j : ℕ)
        → i < length groups → j < length groups → (m n k l : ℕ) → m ≤ n
        → IsEarliestReader (ideal_moments system) (group_at groups i) (group_at groups j) m k
        → IsEarliestReader (ideal_moments system) (group_at groups i) (group_at groups j) n l
        → k ≤ l }
    ensures writer { (system : System) → IsSound system → (groups : List Group)
        → AreGroupsOf system groups → (i j : ℕ)
        → i < length groups → j < length groups → (m n k l : ℕ) → k ≤ l
        → IsLatestWriter (ideal_moments system) (group_at groups i) (group_at groups j) m k
        → IsLatestWriter (ideal_moments system) (group_at groups i) (group_at groups j) n l
        → m ≤ n }
{}
