//! Cores that are marked by their numbers.
ghost use Rattle.std.specs.Prelude.{◌≡◌};
ghost use Rattle.cl_run_data.specs.Parts.{is_among};

/// Whether a core is among those that are marked.
pub(crate) fn is_among(cores: &[bool], core: u32) -> bool
    ensures { result ≡ is_among cores.now core }
{
    let core = core as usize;
    core < cores.len() && cores[core]
}
