//! Worked talks over a history of three changes, in which a comes, b comes, and a is changed: which of them are honest.
//! The functions do nothing.

ghost use Rattle.std.specs.Prelude.{◌∷◌, [], Some, None, codes, true, false};
ghost use Rattle.kube_model.specs.Raw.{GivesAdded, GivesModified, GivesDeleted};
ghost use Rattle.kube_server.specs.History.{IsHistory};
ghost use Rattle.kube_server.specs.TalkRows.{meta_of_thing, a1, b2, a3, three_changes, IsHonestRow, page, whole_page, opens, tells, bookmark, ending};

/// The three changes are a history.
pub fn three_changes_are_a_history()
    ensures { IsHistory meta_of_thing three_changes }
{}

/// Two pages with a and then b, of version 2; a watch from version 0 that tells the three changes and a bookmark of
/// version 3; and an initial watch that tells b and a, the ending bookmark of version 2, and then the third change.
pub fn talks_without_gaps_are_honest()
    ensures pages { IsHonestRow (page None (a1 ∷ []) (Some (codes "t")) None ∷ page (Some (codes "t")) (b2 ∷ []) None (Some (codes "2")) ∷ []) }
    ensures watch { IsHonestRow (opens false (codes "0") ∷ tells (GivesAdded a1) ∷ tells (GivesAdded b2) ∷ tells (GivesModified a3) ∷ tells (bookmark (codes "3")) ∷ []) }
    ensures initial { IsHonestRow (opens true (codes "0") ∷ tells (GivesAdded b2) ∷ tells (GivesAdded a1) ∷ tells (ending (codes "2")) ∷ tells (GivesModified a3) ∷ []) }
{}

/// A list with an object twice, one that lacks an object, and one with objects of two revisions are refused.
pub fn lists_of_no_revision_are_refused()
    ensures twice { IsHonestRow (whole_page (a1 ∷ a1 ∷ []) (codes "1")) → ⊥ }
    ensures missing { IsHonestRow (whole_page (a1 ∷ []) (codes "2")) → ⊥ }
    ensures mixed { IsHonestRow (whole_page (a3 ∷ b2 ∷ []) (codes "2")) → ⊥ }
{}

/// A watch that drops its first change, or one between two others, that tells a change twice, that tells a put as a
/// removal, and one whose bookmark passes changes over are refused.
pub fn watches_with_gaps_are_refused()
    ensures first { IsHonestRow (opens false (codes "0") ∷ tells (GivesAdded b2) ∷ []) → ⊥ }
    ensures between { IsHonestRow (opens false (codes "0") ∷ tells (GivesAdded a1) ∷ tells (GivesModified a3) ∷ []) → ⊥ }
    ensures doubled { IsHonestRow (opens false (codes "0") ∷ tells (GivesAdded a1) ∷ tells (GivesAdded a1) ∷ []) → ⊥ }
    ensures turned { IsHonestRow (opens false (codes "0") ∷ tells (GivesDeleted a1) ∷ []) → ⊥ }
    ensures passed { IsHonestRow (opens false (codes "1") ∷ tells (bookmark (codes "3")) ∷ []) → ⊥ }
{}

/// An initial watch whose ending bookmark comes before all objects of its revision were told, and one that tells a change
/// before that bookmark, are refused.
pub fn initial_watches_of_no_revision_are_refused()
    ensures short { IsHonestRow (opens true (codes "0") ∷ tells (GivesAdded a1) ∷ tells (ending (codes "2")) ∷ []) → ⊥ }
    ensures early { IsHonestRow (opens true (codes "0") ∷ tells (GivesAdded a1) ∷ tells (GivesModified a3) ∷ []) → ⊥ }
{}
