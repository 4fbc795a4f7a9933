//! The texts of the best cuts, the best orders, the headroom and the margins of a model are unique,
//! and what the latter three promise of every legal run.
ghost use Rattle.std.specs.Prelude.{◌≡◌, ℕ, List};
ghost use Rattle.cl_model.specs.{declared.model.SystemModel.SystemModel, Validity.IsValid};
ghost use Rattle.cl_designs.specs.{Cuts.IsCutTextOf, Headroom.{IsHeadroomTextOf, IsSafeHeadroomText}, Margins.{IsMarginTextOf, IsSafeMarginText}, Orders.{IsOrderTextOf, IsSafeOrderText}};

/// A valid model has a text of its best cuts, and each model has at most one.
pub fn cut_texts_are_unique()
    ensures some { (model : SystemModel) → IsValid model
        → (text : List ℕ) × IsCutTextOf model text }
    ensures one { (model : SystemModel) → (one other : List ℕ) → IsCutTextOf model one
        → IsCutTextOf model other
        → one ≡ other }
{}

/// A valid model has exactly one text of its best orders.
pub fn order_texts_are_unique()
    ensures some { (model : SystemModel) → IsValid model
        → (text : List ℕ) × IsOrderTextOf model text }
    ensures one { (model : SystemModel) → IsValid model → (one other : List ℕ)
        → IsOrderTextOf model one → IsOrderTextOf model other → one ≡ other }
{}

/// A valid model has exactly one text of its headroom.
pub fn headroom_texts_are_unique()
    ensures some { (model : SystemModel) → IsValid model
        → (text : List ℕ) × IsHeadroomTextOf model text }
    ensures one { (model : SystemModel) → IsValid model → (one other : List ℕ)
        → IsHeadroomTextOf model one → IsHeadroomTextOf model other → one ≡ other }
{}

/// A valid model has a text of its margins, and each model has at most one.
pub fn margin_texts_are_unique()
    ensures some { (model : SystemModel) → IsValid model
        → (text : List ℕ) × IsMarginTextOf model text }
    ensures one { (model : SystemModel) → (one other : List ℕ) → IsMarginTextOf model one
        → IsMarginTextOf model other
        → one ≡ other }
{}

/// With the priorities that the text of a valid model's orders has, all deadlines are met in every
/// legal run.
pub fn order_texts_are_safe()
    ensures { (model : SystemModel) → IsValid model → (text : List ℕ) → IsOrderTextOf model text
        → IsSafeOrderText model text }
{}

/// At the percentage that the text of a valid model's headroom has, the model is in time.
pub fn headroom_texts_are_safe()
    ensures { (model : SystemModel) → IsValid model → (text : List ℕ)
        → IsHeadroomTextOf model text
        → IsSafeHeadroomText model text }
{}

/// Where a valid model is verified, it is in time at each percentage of the text of its margins.
pub fn margin_texts_are_safe()
    ensures { (model : SystemModel) → IsValid model → (text : List ℕ) → IsMarginTextOf model text
        → IsSafeMarginText model text }
{}
