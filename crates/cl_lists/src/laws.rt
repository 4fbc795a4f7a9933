//! What holds of what is said of lists.
ghost use Rattle.std.specs.Prelude.{◌≡◌, false, Some, Err};
ghost use Rattle.cl_model.specs.declared.{model.SystemModel.SystemModel, refusal.Refusal.Refusal};
ghost use Rattle.cl_edit.specs.{declared.edit.Edit.Edit, Edited.{with_edit, edited}};
ghost use Rattle.cl_lists.specs.{RefusedEdits.model_made, Refusers.is_of_edit};

/// Where an edit is refused with another code than E2, E3 and M10, what is said is said of the
/// model that the edit makes.
pub fn refusals_are_of_the_model()
    ensures { (model : SystemModel) (edit : Edit) (refusal : Refusal)
        → edited model edit ≡ Err refusal → is_of_edit refusal.code ≡ false
        → model_made model edit ≡ Some (with_edit model edit) }
{}
