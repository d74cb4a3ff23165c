ghost use Rattle.std.specs.Prelude.{◌≡◌, [], ◌∷◌, None, Some, codes, map};
ghost use Rattle.ld_names.specs.Standing.{Known, file_in};
ghost use Rattle.ld_names.specs.declared.file.Folder.TheVariants.{Model, Parts, P};
ghost use Rattle.ld_texts.specs.declared.edit.Edit.TheVariants.{Delete, Move};
ghost use Rattle.ld_graph.specs.Agreeing.{editing_of, items_of_known};
ghost use Rattle.ld_graph.specs.Items.{web_of};
ghost use Rattle.ld_graph.specs.Resolving.{resolved_from};
ghost use Rattle.ld_graph.specs.Web.{height};
ghost use Rattle.ld_graph.specs.declared.resolving.Resolved.TheVariants.{Absent, Text, Unknown};

mod plain;
mod worlds;

use crate::{Dirty, Graph, GraphReady, Reader};

fn crosses_threads<T: Send + Sync>() {}

// What workers are lent crosses threads.
fn types_cross_threads() {
    crosses_threads::<Dirty>();
    crosses_threads::<Graph>();
    crosses_threads::<GraphReady>();
    crosses_threads::<Reader>();
}

// What a graph knows of texts, by computing: a model that refers to `a`, which is absent in Parts, and to
// `b`, which refers to `a` too; and by a name without a normal form.
fn graphs_by_definition()
    ensures items { let known : Known = (file_in (Model 1) (codes "m"), Some (codes "1 16 0 0 0 1 0 0 0 1 0 0 0 1 a" ∷ codes "0" ∷ codes "1 16 0 0 0 1 0 0 0 1 0 0 0 1 c:/x" ∷ codes "1 16 0 0 0 1 0 0 0 1 0 0 0 1 b" ∷ [])) ∷ (file_in Parts (codes "a"), None) ∷ (file_in P (codes "a"), Some []) ∷ (file_in Parts (codes "b"), Some (codes "1 16 0 0 0 1 0 0 0 1 0 0 0 1 a" ∷ [])) ∷ [] in
        items_of_known known
        ≡ (file_in (Model 1) (codes "m"), Some (codes "a" ∷ codes "b" ∷ [])) ∷ (file_in Parts (codes "a"), None) ∷ (file_in P (codes "a"), Some []) ∷ (file_in Parts (codes "b"), Some (codes "a" ∷ [])) ∷ [] }
    ensures web { let items = (file_in (Model 1) (codes "m"), Some (codes "a" ∷ codes "b" ∷ [])) ∷ (file_in (Model 1) (codes "a"), None) ∷ (file_in Parts (codes "a"), None) ∷ (file_in P (codes "a"), Some []) ∷ (file_in (Model 1) (codes "b"), None) ∷ (file_in Parts (codes "b"), Some (codes "a" ∷ codes "c" ∷ [])) ∷ [] in
        web_of items ≡ Some (3 ∷ 5 ∷ []) ∷ None ∷ None ∷ Some [] ∷ None ∷ Some (3 ∷ []) ∷ [] }
    ensures heights { let web = Some (3 ∷ 5 ∷ []) ∷ None ∷ None ∷ Some [] ∷ None ∷ Some (3 ∷ []) ∷ Some (6 ∷ []) ∷ [] in
        map (height web 4) (0 ∷ 1 ∷ 3 ∷ 5 ∷ 6 ∷ 7 ∷ []) ≡ 3 ∷ 0 ∷ 1 ∷ 2 ∷ 4 ∷ 0 ∷ [] }
    ensures resolved { let known : Known = (file_in (Model 1) (codes "a"), None) ∷ (file_in Parts (codes "a"), Some []) ∷ (file_in Parts (codes "b"), None) ∷ (file_in P (codes "b"), None) ∷ [] in
        map (λ name. resolved_from known name (Some (file_in P (codes "x")))) (codes "a" ∷ codes "b" ∷ codes "c" ∷ []) ≡ Text (record { 0 = 1 }) ∷ Absent ∷ Unknown Parts ∷ [] }
    ensures edits { let known : Known = (file_in (Model 1) (codes "m"), Some (codes "1 16 0 0 0 1 0 0 0 1 0 0 0 1 a" ∷ [])) ∷ (file_in Parts (codes "a"), None) ∷ [] in
        map (editing_of known) (Delete (file_in (Model 1) (codes "m")) 1 ∷ Move (file_in (Model 1) (codes "m")) (file_in Parts (codes "a")) ∷ [])
        ≡ record { text = 0; names = Some []; gone = None; texts = 2 } ∷ record { text = 1; names = Some (codes "a" ∷ []); gone = Some 0; texts = 2 } ∷ [] }
{}
